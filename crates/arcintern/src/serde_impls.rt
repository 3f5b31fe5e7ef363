//! The traits of `serde`: an interner is written and read as the list of its texts, in the order of
//! their numbers, and a symbol is written as its number.
//!
//! Writing allocates nothing itself and takes no atomic step. To read a symbol, read its number and
//! ask its interner: `symbol_at`.
ghost use Rattle.std.specs.Prelude.{◌≡◌, ◌+◌, ◌<◌, ◌++◌, ◌∷◌, [], length, IfOk, IsTrue, OnOk};
ghost use Rattle.serde.specs.Event.{Logs, unsigned};
ghost use Rattle.arcintern.specs.Serde.{GivesTexts, WritesTexts};
ghost use Rattle.arcintern.specs.Texts.{AddsCopy, HasEachOnce};
ghost use Rattle.arcintern.specs.Words.{AreDistinct};

use crate::fault::InternFault;
use crate::interner::{Interner, MOST_TEXTS};
use crate::symbol::Symbol;
use crate::word_list::WordList;
use serde::{
    Described, Deserialize, DeserializeOwned, Deserializer, Format, Serialize, Serializer,
};
use std::alloc::Global;
use std::hash::BuildHasher;

impl Described for Symbol {
    ghost writes = { λ symbol old new. Logs old new (unsigned symbol) };
}

impl Serialize for Symbol {
    /// Writes the number of the symbol. Fails if the format fails.
    fn serialize<W: Serializer>(&self, out: &mut W) -> Result<(), W::Error>
        ensures written { OnOk result
            (Logs (W.written out.old) (W.written out.new) (unsigned self.now)) }
    {
        out.u64(self.index() as u64)
    }
}

impl<S: BuildHasher> Described for Interner<S> {
    ghost writes = { WritesTexts (λ text. text.text) };
}

impl<S: BuildHasher> Serialize for Interner<S> {
    /// Writes the list of the texts, in the order of their symbols. Fails if the format fails.
    fn serialize<W: Serializer>(&self, out: &mut W) -> Result<(), W::Error>
        // Promise: Each text is written once, and as many strings are written as there are texts.
        ensures written { OnOk result
            (WritesTexts (λ text. text.text) self.now (W.written out.old) (W.written out.new)) }
    {
        Serialize::serialize(&self.iter().as_slice(), out)
    }
}

impl<S: BuildHasher> Described for WordList<S> {
    ghost writes = { WritesTexts (λ text. text) };
}

impl<S: BuildHasher> Serialize for WordList<S> {
    /// As `serialize` of an `Interner`.
    fn serialize<W: Serializer>(&self, out: &mut W) -> Result<(), W::Error>
        ensures written { OnOk result
            (WritesTexts (λ text. text) self.now (W.written out.old) (W.written out.new)) }
    {
        out.begin_seq(Some(self.len()))?;
        for text in self.iter() {
            out.str(text)?;
        }
        out.end_seq()
    }
}

impl DeserializeOwned for Interner {
    /// Reads a list of strings, and gives the first the number 0, and each other the next. Each
    /// text is copied into a block, as by `intern`, and hashed by the default hasher.
    ///
    /// Errors, at the first text to which one applies, and in this order: an error of the format; a
    /// text that came before (`text comes twice`); as `intern`.
    fn deserialize_owned<F: Format>(
        alloc: Global,
        from: &mut Deserializer<'_, '_, F>,
    ) -> Result<Interner, F::Error>
        // Promise: The texts are those of the list, in its order.
        ensures read { IfOk result (λ interner.
            GivesTexts F.gives F.stays (λ text. text.text) from.old interner from.new) }
        ensures once { IfOk result (λ interner. HasEachOnce interner) }
    {
        from.begin_seq()?;
        let mut interner = Interner::new(alloc);
        while from.next_item()? {
            let text = from.string(alloc)?;
            match interner.add_new(text.as_str()) {
                Ok(true) => {}
                Ok(false) => return Err(from.custom("text comes twice")),
                Err(fault) => return Err(error_of(from, fault)),
            }
        }
        Ok(interner)
    }
}

impl<'de> Deserialize<'de> for Interner {
    /// Reads the texts as `deserialize_owned` does.
    fn deserialize<F: Format>(
        alloc: Global,
        from: &mut Deserializer<'de, '_, F>,
    ) -> Result<Interner, F::Error>
        ensures read { IfOk result (λ interner.
            GivesTexts F.gives F.stays (λ text. text.text) from.old interner from.new) }
        ensures once { IfOk result (λ interner. HasEachOnce interner) }
    {
        DeserializeOwned::deserialize_owned(alloc, from)
    }
}

impl DeserializeOwned for WordList {
    /// As `deserialize_owned` of an `Interner`, but a text is copied as by `intern` of a
    /// `WordList`.
    fn deserialize_owned<F: Format>(
        alloc: Global,
        from: &mut Deserializer<'_, '_, F>,
    ) -> Result<WordList, F::Error>
        ensures read { IfOk result (λ list.
            GivesTexts F.gives F.stays (λ text. text) from.old list from.new) }
        ensures once { IfOk result (λ list. AreDistinct list) }
    {
        from.begin_seq()?;
        let mut list = WordList::new(alloc);
        while from.next_item()? {
            let text = from.string(alloc)?;
            match list.add_new(text.as_str()) {
                Ok(true) => {}
                Ok(false) => return Err(from.custom("text comes twice")),
                Err(fault) => return Err(error_of(from, fault)),
            }
        }
        Ok(list)
    }
}

impl<'de> Deserialize<'de> for WordList {
    /// Reads the texts as `deserialize_owned` does.
    fn deserialize<F: Format>(
        alloc: Global,
        from: &mut Deserializer<'de, '_, F>,
    ) -> Result<WordList, F::Error>
        ensures read { IfOk result (λ list.
            GivesTexts F.gives F.stays (λ text. text) from.old list from.new) }
        ensures once { IfOk result (λ list. AreDistinct list) }
    {
        DeserializeOwned::deserialize_owned(alloc, from)
    }
}

impl Interner {
    /// Adds a copy of the text, and returns whether it was new. Refused as `intern` is.
    fn add_new(&mut self, text: &str) -> Result<bool, InternFault>
        ensures added { IfOk result
            (λ is_new. IsTrue is_new → AddsCopy text.now self.old self.new) }
        ensures room { IfOk result (λ is_new. IsTrue is_new → length self.old < MOST_TEXTS) }
        ensures once { HasEachOnce self.new }
    {
        let number = self.len();
        let symbol = self.intern(text)?;
        Ok(symbol.index() == number)
    }
}

impl WordList {
    /// Adds a copy of the text, and returns whether it was new. Refused as `intern` is.
    fn add_new(&mut self, text: &str) -> Result<bool, InternFault>
        ensures added { IfOk result (λ is_new. IsTrue is_new
            → self.new ≡ self.old ++ text.now ∷ []) }
        ensures room { IfOk result (λ is_new. IsTrue is_new → length self.old < MOST_TEXTS) }
        ensures once { AreDistinct self.new }
    {
        let number = self.len();
        let symbol = self.intern(text)?;
        Ok(symbol.index() == number)
    }
}

/// Returns the error of the format for a text that is not interned. A clause cannot tell the errors
/// of a format apart.
fn error_of<F: Format>(from: &Deserializer<'_, '_, F>, fault: InternFault) -> F::Error {
    match fault {
        InternFault::Full => from.custom("interner is full"),
        InternFault::Length => from.custom("text is too long"),
        InternFault::Memory => from.no_memory(),
    }
}
