//! The topics, and the threads that send.
use crate::script::Message;
use arcstr::Substr;
use crossbeam_channel::{Receiver, SendError, Sender};
use std::alloc::{AllocError, Global};
use std::collections::HashMap;
use std::hash::RandomState;
use std::sync::{Arc, RwLock, Wait};
use std::thread::{JoinHandle, Threads};
use std::{io, thread};

/// The number of threads that send.
const SENDERS: usize = 4;

/// The channels of each topic's readers, which threads share. Strangers pick the topics, so the map
/// hashes by a random seed: topics that collide cannot be found.
#[derive(Drop)]
pub struct Broker {
    topics: RwLock<HashMap<Substr, Vec<Sender<Substr>>, RandomState>>,
}

impl Broker {
    /// A broker without topics, which hashes them by `hash_builder`.
    pub fn new(alloc: Global, hash_builder: RandomState) -> Broker {
        let topics = RwLock::new(HashMap::with_hasher(alloc, hash_builder));
        Broker { topics }
    }

    /// From now on the texts under the topic go to this channel too.
    pub fn subscribe(
        &self,
        rt: &impl Wait,
        topic: Substr,
        reader: Sender<Substr>,
    ) -> Result<(), AllocError> {
        let mut topics = self.topics.write(rt);
        topics.entry(topic)?.or_default().push(reader)?;
        Ok(())
    }

    /// Sends a clone of the text to each reader of its topic, and returns the number of those that
    /// took one. A reader that is gone takes none.
    fn publish(&self, rt: &impl Wait, message: &Message) -> Result<usize, AllocError> {
        let topics = self.topics.read(rt);
        let mut sent: usize = 0;
        if let Some(readers) = topics.get(message.topic.as_str()) {
            for reader in readers {
                match reader.send(rt, message.text.clone(rt)) {
                    Ok(()) => sent = sent.saturating_add(1),
                    Err(SendError::Disconnected(_)) => {}
                    Err(SendError::OutOfMemory(_)) => return Err(AllocError),
                }
            }
        }
        Ok(sent)
    }

    /// Publishes the messages of the queue until it is empty and closed, and returns the number of
    /// copies that were sent.
    fn publish_all(&self, rt: &impl Wait, queue: &Receiver<Message>) -> Result<usize, AllocError> {
        let mut sent: usize = 0;
        for message in queue.iter(rt) {
            sent = sent.saturating_add(self.publish(rt, &message)?);
        }
        Ok(sent)
    }
}

/// Starts the threads that publish the messages. Each returns the number of copies that it sent, or
/// the first failure of a send.
pub fn start_senders<R: Threads + Wait + Copy + Send + 'static>(
    rt: R,
    alloc: Global,
    broker: Arc<Broker>,
    messages: Vec<Message>,
) -> io::Result<Vec<JoinHandle<Result<usize, AllocError>>>> {
    let (to_senders, queue) = crossbeam_channel::unbounded(alloc)?;
    let mut threads = Vec::new(alloc);
    for _ in 0..SENDERS {
        let (broker, queue) = (Arc::try_clone(&broker)?, queue.clone()?);
        threads.push(thread::spawn(&rt, move || broker.publish_all(&rt, &queue))?)?;
    }
    for message in messages {
        to_senders.send(&rt, message)?;
    }
    Ok(threads)
}
