//! The texts of a word list, and the table of their numbers, without the hasher.
ghost use Rattle.std.specs.Prelude.{◌≡◌, ◌≢◌, ℕ, List, ◌<◌, ◌≤◌, ◌↔◌, ◌++◌, [], ◌∷◌, length};
ghost use Rattle.std.specs.Prelude.{Contains, slice_get, slice_index};
ghost use Rattle.std.specs.Prelude.{IfErr, IfNone, IfOk, IfSome, IsOk, IsSome, IsTrue};
ghost use Rattle.std.specs.Prelude.{OnErr, OnOk, Some};
ghost use Rattle.arcintern.specs.Slots.{ArePlaced, Reaches};
ghost use Rattle.arcintern.specs.Texts.{KeepsTexts};
ghost use Rattle.arcintern.specs.Words.{AreDistinct, IsFullFor};

use crate::fault::InternFault;
use crate::interner::MOST_TEXTS;
use crate::slots::Slots;
use crate::symbol::Symbol;
use crate::word_list::{MOST_BYTES, WordListIter};
use std::alloc::{AllocError, Global};
use std::marker::Model;

/// The texts stand in `bytes` one after another, and `ends` has the byte offset at which each ends.
#[derive(Drop)]
pub(crate) struct WordTable {
    bytes: String,
    ends: Vec<u32>,
    numbers: Slots,
}

impl Model for WordTable {
    ghost use Rattle.std.specs.Prelude.{◌≤◌, length};
    ghost use Rattle.std.specs.String.{string_bytes};
    ghost use Rattle.arcintern.specs.declared.interner.TheConstants.{MOST_TEXTS};
    ghost use Rattle.arcintern.specs.Words.{AreDistinct, AreEnds, WordTableView, pieces};

    ghost Value = { WordTableView };

    ghost view = { λ table. record {
      texts = pieces (string_bytes table.bytes) 0 table.ends.items;
      slots = table.numbers.slots.items;
      mask = table.numbers.mask;
    } };

    ghost invariant = { λ table. AreEnds (string_bytes table.bytes) 0 table.ends.items
        × (length table.ends.items ≤ MOST_TEXTS)
        × AreDistinct (pieces (string_bytes table.bytes) 0 table.ends.items) };
}

impl WordTable {
    /// Makes a table without texts.
    pub(crate) fn new(alloc: Global) -> WordTable
        ensures texts { result.texts ≡ [] }
        ensures slots { result.slots ≡ [] }
    {
        WordTable {
            bytes: String::new(alloc),
            ends: Vec::new(alloc),
            numbers: Slots::new(alloc),
        }
    }

    /// Makes a table without texts, with room for this many texts, which have this many bytes
    /// together.
    pub(crate) fn with_capacity(
        alloc: Global,
        texts: usize,
        bytes: usize,
    ) -> Result<WordTable, AllocError>
        ensures texts { IfOk result (λ table. table.texts ≡ []) }
        ensures none { texts ≡ 0 → bytes ≡ 0 → IsOk result }
    {
        let numbers = Slots::with_capacity(alloc, texts)?;
        let ends = Vec::with_capacity(alloc, texts)?;
        let bytes = String::with_capacity(alloc, bytes)?;
        Ok(WordTable {
            bytes,
            ends,
            numbers,
        })
    }

    /// Returns the number of texts.
    #[tactic(auto, using(crate::proofs::Words::as_many_pieces_as_ends))]
    pub(crate) fn len(&self) -> usize
        ensures len { result ≡ length self.now.texts }
        ensures most { result ≤ MOST_TEXTS }
        ensures once { AreDistinct self.now.texts }
    {
        self.ends.len()
    }

    /// Returns the text of this number.
    pub(crate) fn text(&self, number: usize) -> Option<&str>
        ensures found { IsSome result ↔ (number < length self.now.texts) }
        ensures text { IfSome result (λ text. slice_get self.now.texts number ≡ Some text.now) }
    {
        if number < self.ends.len() {
            let start = start_of(&self.ends, number);
            let end = self.ends[number] as usize;
            Some(&self.bytes[start..end])
        } else {
            None
        }
    }

    /// Returns the symbol of the text that spells this word, by half of the word's hash, and else
    /// the empty slot at which the search ended.
    pub(crate) fn find(&self, half: u32, word: &str) -> Result<Symbol, usize>
        ensures found { IfOk result (λ symbol. slice_get self.now.texts symbol ≡ Some word.now) }
        ensures there { IsOk result → Contains self.now.texts word.now }
        ensures absent { OnErr result ((half_of : List ℕ → ℕ) → half_of word.now ≡ half
            → ArePlaced self.now.slots self.now.mask half_of [] self.now.texts
            → ¬ Contains self.now.texts word.now) }
        ensures empty { IfErr result (Reaches self.now.slots self.now.mask half) }
        ensures once { AreDistinct self.now.texts }
    {
        match self
            .numbers
            .find(half, |number| self.symbol_if_word(number, word))
        {
            Ok(symbol) => Ok(symbol),
            Err(empty) => Err(empty),
        }
    }

    /// Returns the symbol of this number, if its text spells the word.
    fn symbol_if_word(&self, number: u32, word: &str) -> Option<Symbol>
        ensures is { IfSome result (λ symbol. (symbol ≡ number)
            × (slice_get self.now.texts number ≡ Some word.now)) }
        ensures not { IfNone result (slice_get self.now.texts number ≢ Some word.now) }
    {
        let Some(text) = self.text(number as usize) else {
            return None;
        };
        if text == word {
            Some(Symbol::at(number as usize))
        } else {
            None
        }
    }

    /// Returns the texts, in the order of their numbers.
    #[tactic(auto, using(crate::proofs::Words::as_many_pieces_as_ends))]
    pub(crate) fn iter(&self) -> WordListIter<'_>
        ensures texts { result ≡ self.now.texts }
        ensures most { length self.now.texts ≤ MOST_TEXTS }
        ensures once { AreDistinct self.now.texts }
    {
        WordListIter {
            bytes: self.bytes.as_str(),
            start: 0,
            ends: self.ends.as_slice(),
        }
    }

    /// Returns whether one more text has no number, or the bytes of this word do not fit.
    pub(crate) fn is_full_for(&self, word: &str) -> bool
        ensures { IsTrue result ↔ IsFullFor self.now.texts word.now }
    {
        self.ends.len() >= MOST_TEXTS || self.bytes.len().saturating_add(word.len()) > MOST_BYTES
    }

    /// Adds a text whose word is new, with the next number, under half of its hash, a search for
    /// which comes to the slot `empty`. All room is reserved before anything is written.
    pub(crate) fn push(
        &mut self,
        half: u32,
        empty: usize,
        word: &str,
    ) -> Result<Symbol, InternFault>
        requires empty { Reaches self.old.slots self.old.mask half empty }
        requires room { ¬ IsFullFor self.old.texts word.now }
        requires absent { ¬ Contains self.old.texts word.now }
        ensures word { IfOk result (λ symbol. slice_get self.new.texts symbol ≡ Some word.now) }
        ensures added { OnOk result (self.new.texts ≡ self.old.texts ++ word.now ∷ []) }
        ensures kept { KeepsTexts self.old.texts self.new.texts }
        ensures once { AreDistinct self.new.texts }
        ensures placed { (half_of : List ℕ → ℕ) → half_of word.now ≡ half
            → ArePlaced self.old.slots self.old.mask half_of [] self.old.texts
            → ArePlaced self.new.slots self.new.mask half_of [] self.new.texts }
        ensures refused { OnErr result (self.new.texts ≡ self.old.texts) }
        ensures fault { IfErr result (λ fault. fault ≡ InternFault.Memory) }
    {
        let number = self.ends.len();
        let end = self.bytes.len() + word.len();
        let empty = self.numbers.make_room(half, empty)?;
        self.ends.reserve(1)?;
        self.bytes.push_str(word)?;
        self.ends.push_reserved(end as u32);
        self.numbers.put(half, number as u32, empty);
        Ok(Symbol::at(number))
    }
}

/// Returns where the text of this number begins: at the end of the one before it.
fn start_of(ends: &[u32], number: usize) -> usize
    requires { number ≤ length ends.now }
    ensures { result ≡ slice_index (0 ∷ ends.now) number }
{
    match number.checked_sub(1) {
        Some(before) => ends[before] as usize,
        None => 0,
    }
}
