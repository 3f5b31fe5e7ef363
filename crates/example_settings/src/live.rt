//! Settings that change while threads use them.

use crate::counts::Counts;
use crate::settings::Settings;
use arcstr::ArcStr;
use std::alloc::{AllocError, Global};
use std::sync::atomic::{AtomicU64, Ordering};
use std::sync::{RwLock, Wait};
use std::thread::Threads;
use std::{mem, thread};

/// The settings that all threads share, and how often each name was greeted.
#[derive(Drop)]
pub struct Live {
    settings: RwLock<Settings>,
    changes: AtomicU64,
    pub greeted: Counts,
}

/// The settings that a worker greeted with before and after a change.
#[derive(Drop)]
pub struct Greetings {
    pub before: Settings,
    pub after: Settings,
}

impl Live {
    /// Makes live settings of these.
    pub fn new(alloc: Global, settings: Settings) -> Live {
        Live {
            settings: RwLock::new(settings),
            changes: AtomicU64::new(0),
            greeted: Counts::new(alloc),
        }
    }

    /// Returns the current settings, all of the same change. The handles keep their texts alive
    /// when the settings are replaced.
    pub fn current(&self, rt: &impl Wait) -> Settings {
        self.settings.read(rt).clone(rt)
    }

    /// Replaces the settings.
    pub fn replace(&self, rt: &impl Wait, settings: Settings) {
        let _old = mem::replace(&mut *self.settings.write(rt), settings);
        self.changes.fetch_add(1, Ordering::SeqCst);
    }

    /// Runs the workers of the current settings and replaces these meanwhile. Returns what each
    /// worker greeted with.
    pub fn change<R: Threads + Wait + Sync>(
        &self,
        rt: &R,
        alloc: Global,
        settings: Settings,
    ) -> Result<Vec<Result<Greetings, AllocError>>, AllocError> {
        let first = self.current(rt);
        let seen = self.changes.load(Ordering::SeqCst);
        let greet = |_| self.greet(rt, &first, seen);
        let greet_all = || thread::map_indices(rt, alloc, first.workers, &greet);
        thread::join(rt, greet_all, || self.replace(rt, settings)).0
    }

    /// A worker: greets with the first settings until there was another change, and then with the
    /// new ones.
    fn greet(&self, rt: &impl Wait, first: &Settings, seen: u64) -> Result<Greetings, AllocError> {
        let before = first.clone(rt);
        self.count(rt, &before.name)?;
        for _ in rt.forever() {
            if self.changes.load(Ordering::SeqCst) != seen {
                break;
            }
        }
        let after = self.current(rt);
        self.count(rt, &after.name)?;
        Ok(Greetings { before, after })
    }

    fn count(&self, rt: &impl Wait, name: &ArcStr) -> Result<(), AllocError> {
        self.greeted
            .change(rt, name, 0, |count| *count = count.saturating_add(1))
    }
}
