//! The command line.

use clap::{Arg, Error, value_parser};
use std::alloc::Global;

/// The file of the log, and how many paths to print.
#[derive(Clone, Copy)]
pub struct Command<'a> {
    pub file: &'a str,
    pub top: usize,
}

impl<'a> Command<'a> {
    /// Reads the command line, whose first word is the program's name. An error has the text that
    /// the user is to see.
    pub fn read(alloc: Global, words: &'a [String]) -> Result<Command<'a>, Error> {
        let file = Arg::new(alloc, "file").required(true);
        let top = Arg::new(alloc, "top")
            .long("top")
            .value_parser(value_parser!(usize))
            .default_value("10");
        let matches = clap::Command::new(alloc, "example_logs")
            .about("Prints the most frequent paths of a web server's log")
            .arg(file)?
            .arg(top)?
            .try_get_matches_from(words)?;
        Ok(Command {
            file: matches.get_str("file").unwrap_or(""),
            top: matches.get_one("top").unwrap_or(10),
        })
    }
}
