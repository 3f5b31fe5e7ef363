//! The threads that read.
use crate::broker::Broker;
use crate::script::ReaderLine;
use arcstr::Substr;
use crossbeam_channel::{Receiver, Sender};
use std::alloc::{AllocError, Global};
use std::sync::Wait;
use std::thread::{JoinHandle, Threads};
use std::{fmt, io, thread};

/// What a reader got, in the order of the input.
#[derive(Drop)]
pub struct Mailbox {
    pub reader: Substr,
    pub texts: Vec<Substr>,
}

impl Mailbox {
    /// Reads the channel until it is empty and closed.
    fn read(
        rt: &impl Wait,
        alloc: Global,
        reader: Substr,
        channel: &Receiver<Substr>,
    ) -> io::Result<Mailbox> {
        let mut texts = Vec::new(alloc);
        for text in channel.iter(rt) {
            texts.push(text)?;
        }
        texts.sort_unstable_by_key(|text: &Substr| text.range().start);
        Ok(Mailbox { reader, texts })
    }
}

impl fmt::Display for Mailbox {
    fn fmt<W: fmt::Write>(&self, f: &mut fmt::Formatter<W>) -> fmt::Result {
        write!(f, "{:?}:", self.reader)?;
        for text in &self.texts {
            write!(f, "\n    {text:?}")?;
        }
        Ok(())
    }
}

/// Subscribes the channel to each topic.
fn subscribe_all(
    rt: &impl Wait,
    broker: &Broker,
    topics: &Substr,
    channel: &Sender<Substr>,
) -> Result<(), AllocError> {
    for topic in topics.view().split_whitespace() {
        broker.subscribe(rt, topics.substr_from(rt, topic), channel.clone()?)?;
    }
    Ok(())
}

/// Starts a thread for each reader, and subscribes its channel to its topics.
pub fn start_readers<R: Threads + Wait + Copy + Send + 'static>(
    rt: R,
    alloc: Global,
    broker: &Broker,
    lines: Vec<ReaderLine>,
) -> io::Result<Vec<JoinHandle<io::Result<Mailbox>>>> {
    let mut threads = Vec::new(alloc);
    for ReaderLine { name, topics } in lines {
        let (to_reader, channel) = crossbeam_channel::unbounded(alloc)?;
        subscribe_all(&rt, broker, &topics, &to_reader)?;
        threads.push(thread::spawn(&rt, move || Mailbox::read(&rt, alloc, name, &channel))?)?;
    }
    Ok(threads)
}
