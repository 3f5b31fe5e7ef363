//! A configuration, whose sections, keys and values are slices of one text.
ghost use Rattle.std.specs.Prelude.{◌≡◌};
ghost use Rattle.std.specs.Option.{option_copied};
ghost use Rattle.example_config.specs.Entries.{value_at};

use crate::fault::Fault;
use crate::line::{Entry, Line};
use arcstr::{ArcStr, Substr};
use std::alloc::{AllocError, Global};
use std::collections::BTreeMap;
use std::sync::Wait;

/// The values by their keys, in sections by their names, and the faults of the lines that cannot be
/// read. Entries before the first section are in the section with the empty name. If two entries
/// have the same key, the last is kept.
#[derive(Drop)]
pub struct Config {
    pub sections: BTreeMap<Substr, BTreeMap<Substr, Substr>>,
    pub faults: Vec<Fault>,
}

impl Config {
    /// Reads the configuration in the text. Copies no part of the text.
    pub fn read(rt: &impl Wait, alloc: Global, text: &ArcStr) -> Result<Config, AllocError> {
        let mut config = Config {
            sections: BTreeMap::new(alloc),
            faults: Vec::new(alloc),
        };
        let mut section = Substr::new();
        for line in text.view().lines() {
            match Line::read(rt, &text.substr_from(rt, line.trim())) {
                Ok(Line::Blank) => {}
                Ok(Line::Section(name)) => section = name,
                Ok(Line::Pair(entry)) => config.insert(alloc, section.clone(rt), entry)?,
                Err(fault) => config.faults.push(fault)?,
            }
        }
        Ok(config)
    }

    /// Adds the entry to the section.
    fn insert(&mut self, alloc: Global, section: Substr, entry: Entry) -> Result<(), AllocError> {
        let section = self.sections.entry(section)?;
        let entries = section.or_insert(BTreeMap::new(alloc));
        entries.insert(entry.key, entry.value)?;
        Ok(())
    }

    /// Returns the value of the key in the section. Allocates nothing and takes no atomic step.
    pub fn get(&self, section: &str, key: &str) -> Option<&Substr>
        ensures { option_copied result ≡ value_at self.now section.now key.now }
    {
        self.sections.get(section)?.get(key)
    }
}
