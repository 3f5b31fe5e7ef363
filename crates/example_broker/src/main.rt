//! A broker. Its input says who reads which topics, and has messages under topics. Four threads
//! send each message to the readers of its topic, and each reader has a thread of its own. Then it
//! prints what each reader got, the lines it cannot read, and how many copies were sent and read.
#![tactic(auto)]

mod broker;
mod reader;
mod script;

use crate::broker::{Broker, start_senders};
use crate::reader::{Mailbox, start_readers};
use crate::script::Script;
use anyhow::{Context, Result};
use arcstr::{ArcStr, Substr};
use std::alloc::AllocError;
use std::hash::RandomState;
use std::io;
use std::io::{IsTerminal, Stdin};
use std::sync::{Arc, Wait};
use std::thread::{JoinHandle, Threads};

fn main(rt: HostRuntime) -> Result<()> {
    let alloc = rt.alloc();
    let script = Script::read(&rt, alloc, &read_input(&rt, rt.stdin())?)?;
    let broker = Broker::new(alloc, RandomState::new(&rt)?);
    let broker = Arc::new(alloc, broker)?;
    let readers = start_readers(rt, alloc, &broker, script.readers);
    let readers = readers.context("the readers cannot be started")?;
    let senders = start_senders(rt, alloc, broker, script.messages);
    let senders = senders.context("the senders cannot be started and given the messages")?;
    let threads = senders.len();
    let sent = sum_of(&rt, senders).context("a message cannot be sent")?;
    let read = print_mailboxes(&rt, readers)?;
    for fault in &script.faults {
        println!(rt; "{fault}")?;
    }
    println!(rt; "copies: {sent} sent by {threads} threads, {read} read")?;
    Ok(())
}

/// Reads standard input, and says so where it is a terminal. A byte order mark at its start is no
/// part of the slice.
fn read_input<R: AllocGlobal + Eprint + Wait>(rt: &R, input: Stdin) -> Result<Substr> {
    if input.is_terminal() {
        eprintln!(rt; "reading standard input: readers, topics and messages")?;
    }
    let text = ArcStr::read_from(rt.alloc(), input).context("standard input cannot be read")?;
    let after_mark = text.substr_strip_prefix(rt, '\u{feff}');
    Ok(after_mark.unwrap_or(Substr::full(text)))
}

/// Waits for the senders, and returns the sum of what they return.
fn sum_of(
    rt: &impl Threads,
    senders: Vec<JoinHandle<Result<usize, AllocError>>>,
) -> Result<usize, AllocError> {
    let mut sum: usize = 0;
    for sender in senders {
        sum = sum.saturating_add(sender.join(rt)?);
    }
    Ok(sum)
}

/// Waits for the readers and prints what they got. Returns the number of all texts.
fn print_mailboxes<R: Threads + Print>(
    rt: &R,
    readers: Vec<JoinHandle<io::Result<Mailbox>>>,
) -> io::Result<usize> {
    let mut read: usize = 0;
    for reader in readers {
        let mailbox = reader.join(rt)?;
        println!(rt; "{mailbox}")?;
        read = read.saturating_add(mailbox.texts.len());
    }
    Ok(read)
}
