//! Numbers by texts, which threads change at the same time.

use arcstr::ArcStr;
use std::alloc::{AllocError, Global};
use std::array;
use std::collections::{BTreeMap, HashMap};
use std::hash::{BuildHasher, BuildHasherDefault, FoldHasher};
use std::sync::{RwLock, Wait};

/// The number of maps. A thread locks only the map of its text.
const SHARDS: usize = 16;

/// Numbers by texts, in maps of which each has its own lock.
#[derive(Drop)]
pub struct Counts {
    shards: [RwLock<HashMap<ArcStr, u64>>; SHARDS],
}

impl Counts {
    /// Makes counts without texts.
    pub fn new(alloc: Global) -> Counts {
        Counts {
            shards: array::from_fn(|_| RwLock::new(HashMap::new(alloc))),
        }
    }

    /// Changes the number of a text. A new text begins with `first`, and only then takes a handle.
    pub fn change<F: FnOnce(&mut u64)>(
        &self,
        rt: &impl Wait,
        text: &ArcStr,
        first: u64,
        change: F,
    ) -> Result<(), AllocError>
        requires { F.IsAlwaysCallable change }
    {
        let shard = BuildHasherDefault::<FoldHasher>::new().hash_one(text) as usize % SHARDS;
        let mut numbers = self.shards[shard].write(rt);
        match numbers.get_mut(text.as_str()) {
            Some(number) => change(number),
            None => change(numbers.entry(text.clone(rt))?.or_insert(first)),
        }
        Ok(())
    }

    /// Returns the texts with their numbers, in the order of the texts. Numbers that change
    /// meanwhile are those before or after the change.
    pub fn all(&self, rt: &impl Wait, alloc: Global) -> Result<BTreeMap<ArcStr, u64>, AllocError> {
        let mut all = BTreeMap::new(alloc);
        for shard in &self.shards {
            for (text, number) in &*shard.read(rt) {
                all.insert(text.clone(rt), *number)?;
            }
        }
        Ok(all)
    }
}
