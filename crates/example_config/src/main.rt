//! Reads a configuration from its input. Prints each line that it cannot read, and the entries of
//! the others. Then four threads look up values in it.
#![tactic(auto)]

mod config;
mod fault;
mod line;

use crate::config::Config;
use anyhow::{Context, Result};
use arcstr::ArcStr;
use std::io::{IsTerminal, Print, Stdin};
use std::{io, thread};

/// The section and the key that each thread looks up.
const ASKED: [(&str, &str); 4] = [
    ("", "name"),
    ("server", "motd"),
    ("server", "grüße"),
    ("client", "port"),
];

fn main(rt: HostRuntime) -> Result<()> {
    let alloc = rt.alloc();
    let text = read_input(&rt, rt.stdin())?;
    let config = Config::read(&rt, alloc, &text)?;
    print_config(&rt, &config)?;
    let asked = Vec::from_array(alloc, ASKED)?;
    let answers = thread::map_vec(
        &rt,
        asked,
        &|(section, key)| { Some(config.get(section, key)?.clone(&rt)) },
    );
    let answers = answers.context("the values cannot be looked up")?;
    for ((section, key), answer) in ASKED.into_iter().zip(&answers) {
        println!(rt; "{key} of [{section}]: {answer:?}")?;
    }
    Ok(())
}

/// Reads standard input, and says so where it is a terminal. A byte order mark at its start is no
/// part of the text.
fn read_input<R: AllocGlobal + Eprint>(rt: &R, input: Stdin) -> Result<ArcStr> {
    if input.is_terminal() {
        eprintln!(rt; "reading standard input: a configuration")?;
    }
    let text = ArcStr::read_from(rt.alloc(), input).context("standard input cannot be read")?;
    match text.strip_prefix('\u{feff}') {
        Some(after_mark) => Ok(ArcStr::from_str(rt.alloc(), after_mark)?),
        None => Ok(text),
    }
}

/// Prints the faults, and then the entries.
fn print_config(rt: &impl Print, config: &Config) -> io::Result<()> {
    for fault in &config.faults {
        println!(rt; "{fault}")?;
    }
    for (section, entries) in &config.sections {
        for (key, value) in entries {
            println!(rt; "[{section:?}] {key:?} = {value:?}")?;
        }
    }
    Ok(())
}
