//! The texts of an interner, and the table of their numbers, without the hasher.
ghost use Rattle.std.specs.Prelude.{◌≡◌, ℕ, List, ◌<◌, ◌≤◌, ◌↔◌, ◌++◌, [], ◌∷◌, length};
ghost use Rattle.std.specs.Prelude.{vec_capacity, vec_len};
ghost use Rattle.std.specs.Prelude.{IfErr, IfNone, IfOk, IfSome, IsOk, IsTrue, OnErr, OnOk};
ghost use Rattle.arcintern.specs.Slots.{AreTextsPlaced, Reaches};
ghost use Rattle.arcintern.specs.Texts.{HasEachOnce, HasWord, IsWordAt, KeepsTexts};

use crate::fault::InternFault;
use crate::interner::MOST_TEXTS;
use crate::slots::Slots;
use crate::symbol::Symbol;
use arcstr::ArcStr;
use std::alloc::{AllocError, Global};
use std::marker::Model;

/// The texts in the order in which they came, and the table that finds their numbers.
#[derive(Drop)]
pub(crate) struct TextTable {
    texts: Vec<ArcStr>,
    numbers: Slots,
}

impl Model for TextTable {
    ghost use Rattle.std.specs.Prelude.{◌≤◌, length};
    ghost use Rattle.arcintern.specs.declared.interner.TheConstants.{MOST_TEXTS};
    ghost use Rattle.arcintern.specs.Texts.{HasEachOnce, TextTableView};

    ghost Value = { TextTableView };

    ghost view = { λ table. record {
      texts = table.texts.items;
      slots = table.numbers.slots.items;
      mask = table.numbers.mask;
    } };

    ghost invariant = { λ table. HasEachOnce table.texts.items
        × (length table.texts.items ≤ MOST_TEXTS) };
}

impl TextTable {
    /// Makes a table without texts.
    #[tactic(auto, unfolding(crate::specs::Slots::AreTextsPlaced))]
    pub(crate) fn new(alloc: Global) -> TextTable
        ensures texts { result.texts ≡ [] }
        ensures placed { (half_of : List ℕ → ℕ)
            → AreTextsPlaced result.slots result.mask half_of result.texts }
    {
        TextTable {
            texts: Vec::new(alloc),
            numbers: Slots::new(alloc),
        }
    }

    /// Makes a table without texts, with room for this many.
    #[tactic(auto, unfolding(crate::specs::Slots::AreTextsPlaced))]
    pub(crate) fn with_capacity(alloc: Global, texts: usize) -> Result<TextTable, AllocError>
        ensures texts { IfOk result (λ table. table.texts ≡ []) }
        ensures placed { IfOk result (λ table. (half_of : List ℕ → ℕ)
            → AreTextsPlaced table.slots table.mask half_of table.texts) }
        ensures none { texts ≡ 0 → IsOk result }
    {
        let numbers = Slots::with_capacity(alloc, texts)?;
        let texts = Vec::with_capacity(alloc, texts)?;
        Ok(TextTable { texts, numbers })
    }

    /// Returns the texts, in the order of their numbers.
    pub(crate) fn texts(&self) -> &[ArcStr]
        ensures texts { result.now ≡ self.now.texts }
        ensures most { length self.now.texts ≤ MOST_TEXTS }
        ensures once { HasEachOnce self.now.texts }
    {
        self.texts.as_slice()
    }

    /// Returns whether one more text has no number.
    pub(crate) fn is_full(&self) -> bool
        ensures { IsTrue result ↔ (MOST_TEXTS ≤ length self.now.texts) }
    {
        self.texts.len() >= MOST_TEXTS
    }

    /// Returns the allocator of the texts. A `Global` has no view, so a clause could not say more.
    pub(crate) fn alloc(&self) -> Global {
        *self.texts.allocator()
    }

    /// Returns the symbol of the text that spells this word, by half of the word's hash, and else
    /// the empty slot at which the search ended.
    #[tactic(auto, unfolding(crate::specs::Slots::AreTextsPlaced))]
    pub(crate) fn find(&self, half: u32, word: &str) -> Result<Symbol, usize>
        ensures found { IfOk result (λ symbol. IsWordAt self.now.texts symbol word.now) }
        ensures there { IsOk result → HasWord self.now.texts word.now }
        ensures absent { OnErr result ((half_of : List ℕ → ℕ) → half_of word.now ≡ half
            → AreTextsPlaced self.now.slots self.now.mask half_of self.now.texts
            → ¬ HasWord self.now.texts word.now) }
        ensures empty { IfErr result (Reaches self.now.slots self.now.mask half) }
        ensures once { HasEachOnce self.now.texts }
    {
        match self
            .numbers
            .find(half, |number| self.symbol_if_word(number, word))
        {
            Ok(symbol) => Ok(symbol),
            Err(empty) => Err(empty),
        }
    }

    /// Returns the symbol of this number, if its text spells the word.
    fn symbol_if_word(&self, number: u32, word: &str) -> Option<Symbol>
        ensures is { IfSome result (λ symbol. (symbol ≡ number)
            × IsWordAt self.now.texts number word.now) }
        ensures not { IfNone result (¬ IsWordAt self.now.texts number word.now) }
    {
        match self.texts.get(number as usize) {
            Some(text) if text.eq_str(word) => Some(Symbol::at(number as usize)),
            _ => None,
        }
    }

    /// Adds a text whose word is new, with the next number, under half of its hash, a search for
    /// which comes to the slot `empty`. All room is reserved before anything is written.
    pub(crate) fn push(
        &mut self,
        half: u32,
        empty: usize,
        text: ArcStr,
    ) -> Result<Symbol, InternFault>
        requires absent { ¬ HasWord self.old.texts text.text }
        requires empty { Reaches self.old.slots self.old.mask half empty }
        requires room { length self.old.texts < MOST_TEXTS }
        ensures word { IfOk result (λ symbol. IsWordAt self.new.texts symbol text.text) }
        ensures kept { KeepsTexts self.old.texts self.new.texts }
        ensures added { OnOk result (self.new.texts ≡ self.old.texts ++ text ∷ []) }
        ensures once { HasEachOnce self.new.texts }
        ensures placed { (half_of : List ℕ → ℕ) → half_of text.text ≡ half
            → AreTextsPlaced self.old.slots self.old.mask half_of self.old.texts
            → AreTextsPlaced self.new.slots self.new.mask half_of self.new.texts }
        ensures refused { OnErr result (self.new.texts ≡ self.old.texts) }
        ensures fault { IfErr result (λ fault. fault ≡ InternFault.Memory) }
    {
        let number = self.texts.len();
        let empty = self.numbers.make_room(half, empty)?;
        make_room_for_text(&mut self.texts)?;
        self.texts.push_reserved(text);
        self.numbers.put(half, number as u32, empty);
        Ok(Symbol::at(number))
    }
}

/// Makes room for one more text. The list grows by a quarter: handles take 24 bytes each, and a
/// list with room for twice its texts would take as much memory as their blocks.
fn make_room_for_text(texts: &mut Vec<ArcStr>) -> Result<(), AllocError>
    ensures same { texts.new.items ≡ texts.old.items }
    ensures room { OnOk result (vec_len texts.new < vec_capacity texts.new) }
{
    if texts.len() < texts.capacity() {
        return Ok(());
    }
    texts.reserve_exact(texts.len() / 4 + 4)
}
