//! The calls that intern a text.
ghost use Rattle.std.specs.Prelude.{◌≡◌, ◌<◌, ◌↔◌, length, IfErr, IfOk, IsErrOf};
ghost use Rattle.arcstr.specs.Making.{IsTooLong};
ghost use Rattle.arcstr.specs.TextView.{IsMadeOf};
ghost use Rattle.arcintern.specs.Texts.{AddsCopy, AddsText, HasWord, Interns};

use crate::fault::InternFault;
use crate::interner::{Interner, MOST_TEXTS};
use crate::slots::half_of_word;
use crate::symbol::Symbol;
use arcstr::{ArcStr, TextFault};
use std::alloc::Global;
use std::hash::BuildHasher;
use std::sync::Wait;

impl<S: BuildHasher> Interner<S> {
    /// Returns the symbol of the text that spells this word. If there is none, a copy of the word
    /// becomes the last text: that allocates the copy, which an empty word does not need, and more
    /// room if the table is full. A word that is there is never refused, and another one with the
    /// first `InternFault` that applies. A refused call leaves the texts as they were.
    ///
    /// ```
    /// let mut interner = Interner::new(rt.alloc());
    /// let symbol = interner.intern("foo")?;
    /// assert!(rt; interner.intern("foo")? == symbol);
    /// assert!(rt; interner.intern("bar")? != symbol);
    /// ```
    pub fn intern(&mut self, word: &str) -> Result<Symbol, InternFault>
        // Promise: A known word is found, and nothing changes. A new one is added at the end.
        // A refused call changes nothing.
        ensures interns { Interns self.old self.new word.now (AddsCopy word.now) result }
        // Promise: `Length` comes exactly for a new word that is too long, in an interner that is
        // not full.
        ensures too_long { IsErrOf result InternFault.Length ↔ ((¬ HasWord self.old word.now)
            × (length self.old < MOST_TEXTS) × IsTooLong (length word.now)) }
    {
        let half = half_of_word(&self.hash_builder, word);
        let empty = match self.table.find(half, word) {
            Ok(symbol) => return Ok(symbol),
            Err(empty) => empty,
        };
        if self.table.is_full() {
            return Err(InternFault::Full);
        }
        let text = copy_of(self.table.alloc(), word)?;
        self.table.push(half, empty, text)
    }

    /// Returns the symbol of the text that spells the same as this one. If there is none, a clone
    /// of this text becomes the last: that takes the steps of `ArcStr::clone`, which can wait, and
    /// it allocates if the table is full. A text that is there is never refused, and another one
    /// with `Full` or `Memory`. A refused call leaves the texts as they were.
    ///
    /// ```
    /// let mut interner = Interner::new(rt.alloc());
    /// let text = ArcStr::from_str(rt.alloc(), "foo")?;
    /// let symbol = interner.intern_arc(&rt, &text)?;
    /// assert!(rt; interner.get("foo") == Some(symbol));
    /// assert_eq!(rt; ArcStr::strong_count(&text), Some(2));
    /// ```
    pub fn intern_arc(&mut self, rt: &impl Wait, text: &ArcStr) -> Result<Symbol, InternFault>
        // Promise: A known word is found, and nothing changes. For a new one a text in the same
        // block is added at the end. A refused call changes nothing.
        ensures interns { Interns self.old self.new text.now.text (AddsText text.now) result }
        // Promise: `Length` never comes.
        ensures never_too_long { ¬ (IsErrOf result InternFault.Length) }
    {
        let half = half_of_word(&self.hash_builder, text.as_str());
        let empty = match self.table.find(half, text.as_str()) {
            Ok(symbol) => return Ok(symbol),
            Err(empty) => empty,
        };
        if self.table.is_full() {
            return Err(InternFault::Full);
        }
        self.table.push(half, empty, text.clone(rt))
    }
}

/// Returns a copy of the word.
pub(crate) fn copy_of(alloc: Global, word: &str) -> Result<ArcStr, InternFault>
    ensures made { IfOk result (IsMadeOf word.now) }
    ensures too_long { IsErrOf result InternFault.Length ↔ IsTooLong (length word.now) }
    ensures never_full { IfErr result (λ fault. ¬ (fault ≡ InternFault.Full)) }
{
    match ArcStr::from_str(alloc, word) {
        Ok(text) => Ok(text),
        Err(TextFault::Length) => Err(InternFault::Length),
        Err(TextFault::Memory | TextFault::Utf8(_)) => Err(InternFault::Memory),
    }
}
