//! The input: who reads which topics, and the messages.
use arcstr::Substr;
use std::alloc::{AllocError, Global};
use std::sync::Wait;
use thiserror::Error;

/// The line `topic: text`.
#[derive(Drop)]
pub struct Message {
    pub topic: Substr,
    pub text: Substr,
}

/// The line `name < topic topic ..`.
#[derive(Drop)]
pub struct ReaderLine {
    pub name: Substr,
    pub topics: Substr,
}

/// A line that is neither of these. Lines are counted from 1.
#[derive(Debug, Drop, Error)]
#[error("line {number}, byte {place}: no ` < ` and no `: `")]
pub struct Fault {
    pub number: usize,
    pub place: usize,
}

/// The lines of the input. All texts are slices of it.
#[derive(Drop)]
pub struct Script {
    pub readers: Vec<ReaderLine>,
    pub messages: Vec<Message>,
    pub faults: Vec<Fault>,
}

impl Script {
    /// Reads the input. Copies no part of it.
    pub fn read(rt: &impl Wait, alloc: Global, text: &Substr) -> Result<Script, AllocError> {
        let mut script = Script {
            readers: Vec::new(alloc),
            messages: Vec::new(alloc),
            faults: Vec::new(alloc),
        };
        for (before, line) in text.view().lines().enumerate() {
            script.add(rt, before + 1, &text.substr_from(rt, line.trim()))?;
        }
        Ok(script)
    }

    /// Adds the line with this number.
    fn add(&mut self, rt: &impl Wait, number: usize, line: &Substr) -> Result<(), AllocError> {
        if let Some((name, topics)) = line.substr_split_once(rt, " < ") {
            self.readers.push(ReaderLine { name, topics })?;
        } else if let Some((topic, text)) = line.substr_split_once(rt, ": ") {
            self.messages.push(Message { topic, text })?;
        } else if !line.is_empty() {
            let place = line.range().start;
            self.faults.push(Fault { number, place })?;
        }
        Ok(())
    }
}
