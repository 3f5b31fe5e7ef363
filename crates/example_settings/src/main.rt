//! Reads settings from the files that its command line names. While workers greet with the settings
//! of one file, those of the next one are swapped in. Then it prints how often each name was
//! greeted. A file that cannot be read is left out, its error goes to standard error, and the
//! status is 1.
#![tactic(auto)]

mod counts;
mod live;
mod settings;

use crate::live::{Greetings, Live};
use crate::settings::Settings;
use anyhow::{Context, Result};
use std::env;
use std::process::ExitCode;
use std::sync::Wait;
use std::thread::Threads;

fn main(rt: HostRuntime) -> Result<ExitCode> {
    let live = Live::new(rt.alloc(), Settings::new());
    let mut status = ExitCode::SUCCESS;
    let words = env::args(&rt).context("the arguments cannot be read")?;
    for file in words.skip(1) {
        match Settings::read(&rt, &file) {
            Ok(settings) => print_change(&rt, &live, settings)?,
            Err(error) => {
                eprintln!(rt; "{file}: {error}")?;
                status = ExitCode::FAILURE;
            }
        }
    }
    print_greeted(&rt, &live)?;
    Ok(status)
}

/// Changes the settings, and prints what each worker greeted with.
fn print_change<R: AllocGlobal + Print + Threads + Wait + Sync>(
    rt: &R,
    live: &Live,
    settings: Settings,
) -> Result<()> {
    let all = live.change(rt, rt.alloc(), settings)?;
    for (number, greetings) in all.into_iter().enumerate() {
        let Greetings { before, after } = greetings?;
        print!(rt;
            "worker {number}: {:?} {:?}, ",
            before.greeting, before.name
        )?;
        println!(rt; "then {:?} {:?}", after.greeting, after.name)?;
    }
    Ok(())
}

/// Prints how often each name was greeted, in the order of the names.
fn print_greeted(rt: &(impl AllocGlobal + Print + Wait), live: &Live) -> Result<()> {
    for (name, count) in &live.greeted.all(rt, rt.alloc())? {
        println!(rt; "{name:?} was greeted {count} times")?;
    }
    Ok(())
}
