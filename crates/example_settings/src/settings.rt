//! The settings, and why they cannot be read or used.
ghost use Rattle.std.specs.Prelude.{◌≤◌, IfOk};

use arcstr::{ArcStr, ReadFault, literal};
use serde::Deserialize;
use std::alloc::AllocError;
use std::rt::Files;
use std::sync::Wait;
use thiserror::Error;

/// The most workers that can run.
pub const MOST_WORKERS: usize = 16;

/// The settings. A field that a file leaves out has its default, which is a literal and allocates
/// nothing.
#[derive(Drop, Deserialize)]
#[serde(default = "Settings::new", deny_unknown_fields)]
pub struct Settings {
    pub greeting: ArcStr,
    pub name: ArcStr,
    pub workers: usize,
}

/// Why settings cannot be read or used.
#[derive(Debug, Drop, Error)]
pub enum SettingsError {
    #[error("byte {start}: {error}")]
    Toml {
        start: usize,
        error: toml::de::Error,
    },
    #[error("{0} workers, where 1 to {most} can run", most = MOST_WORKERS)]
    Workers(usize),
    #[error(transparent)]
    Read(#[from] ReadFault),
    #[error(transparent)]
    Memory(#[from(alloc)] AllocError),
}

impl Settings {
    /// Returns the defaults.
    pub fn new() -> Settings {
        Settings {
            greeting: literal!("Hi"),
            name: literal!("world"),
            workers: 2,
        }
    }

    /// Reads a file of TOML, whose number of workers has to be from 1 to `MOST_WORKERS`.
    pub fn read<R: AllocGlobal + Files>(rt: &R, file: &str) -> Result<Settings, SettingsError>
        ensures some { IfOk result (λ settings. 1 ≤ settings.workers) }
        ensures few { IfOk result (λ settings. settings.workers ≤ MOST_WORKERS) }
    {
        let text = ArcStr::read_file(rt, file)?;
        let settings: Settings = toml::from_str(rt.alloc(), &text).map_err(SettingsError::toml)?;
        if settings.workers == 0 || settings.workers > MOST_WORKERS {
            return Err(SettingsError::Workers(settings.workers));
        }
        Ok(settings)
    }

    /// Returns the same settings, with handles on the same texts.
    pub fn clone(&self, rt: &impl Wait) -> Settings {
        Settings {
            greeting: self.greeting.clone(rt),
            name: self.name.clone(rt),
            workers: self.workers,
        }
    }
}

impl SettingsError {
    /// The error of a text that is no TOML, or has other fields, with the byte offset at which it
    /// starts. An error without one is an allocation failure.
    fn toml(error: toml::de::Error) -> SettingsError {
        match error.span() {
            Some(span) => SettingsError::Toml {
                start: span.start,
                error,
            },
            None => SettingsError::Memory(AllocError),
        }
    }
}
