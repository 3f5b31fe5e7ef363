//! Counts how often each path of a web server's log was asked for. Prints the lines that are no
//! requests, and the most frequent paths with their bars.
#![tactic(auto)]

ghost use Rattle.std.specs.Prelude.{◌≤◌};

mod command;
mod counts;

use crate::command::Command;
use crate::counts::{Counts, Fault};
use anyhow::{Context, Result};
use arcstr::{ArcStr, format_arcstr};
use std::alloc::Global;
use std::process::ExitCode;
use std::random::RandomSource;
use std::rt::Files;
use std::sync::Wait;
use std::{env, io};

/// The number of characters of the longest bar.
const WIDTH: u64 = 40;

fn main(rt: HostRuntime) -> Result<ExitCode> {
    let words = env::args(&rt).context("the arguments cannot be read")?;
    let words: Vec<String> = words.collect(rt.alloc())?;
    match Command::read(rt.alloc(), &words) {
        Ok(command) => {
            print_chart(&rt, rt.alloc(), &most_frequent(&rt, command)?)?;
            Ok(ExitCode::SUCCESS)
        }
        Err(error) => {
            error.print(&rt)?;
            Ok(ExitCode::from(error.exit_code() as u8))
        }
    }
}

/// Reads the log and prints its faults. Returns the most frequent paths with their counts. They are
/// copies: the log and all slices of it are freed here.
fn most_frequent<R: AllocGlobal + Files + Print + Eprint + RandomSource + Wait>(
    rt: &R,
    command: Command<'_>,
) -> Result<Vec<(ArcStr, u64)>> {
    let log = read_log(rt, command.file)?;
    let counts = Counts::read(rt, rt.alloc(), &log)?;
    print_faults(rt, &counts.faults)?;
    let handles = ArcStr::strong_count(&log).unwrap_or(0);
    println!(rt; "{handles} handles keep {} bytes of log alive", log.len())?;
    counts.most_frequent(rt.alloc(), command.top)
}

fn read_log<R: AllocGlobal + Files>(rt: &R, file: &str) -> Result<ArcStr> {
    ArcStr::read_file(rt, file).context(file)
}

fn print_faults(rt: &impl Print, faults: &[Fault]) -> io::Result<()> {
    for fault in faults {
        println!(rt; "{fault}")?;
    }
    Ok(())
}

/// Prints a line for each path. The first path has the longest bar.
fn print_chart(rt: &(impl Print + Wait), alloc: Global, all: &[(ArcStr, u64)]) -> Result<()> {
    let most = all.first().map_or(1, |(_, count)| *count);
    for (path, count) in all {
        let (path, length) = (printable(rt, alloc, path)?, bar_length(*count, most));
        println!(rt; "{path:<24} {:#<length$} {count}", "")?;
    }
    Ok(())
}

/// Returns the path, escaped if it has a control character: a stranger picks it, and a terminal
/// would obey it.
fn printable(rt: &impl Wait, alloc: Global, path: &ArcStr) -> Result<ArcStr> {
    if path.contains(|c: char| c.is_control()) {
        return Ok(format_arcstr!(alloc; "{}", path.escape_debug())?);
    }
    Ok(path.clone(rt))
}

/// Returns the number of characters of a bar, where `most` has the longest one.
fn bar_length(count: u64, most: u64) -> usize
    ensures fits { result ≤ WIDTH }
{
    let length = u128::from(count.min(most)) * u128::from(WIDTH) / u128::from(most.max(1));
    length as usize
}
