//! `WordList`: each distinct text once, all in one allocation.
//!
//! No call here allocates unless it says so, and none takes an atomic step.
ghost use Rattle.std.specs.Prelude.{◌≡◌, ◌<◌, ◌≤◌, ◌↔◌, [], length, slice_get, Contains};
ghost use Rattle.std.specs.Prelude.{IfErr, IfOk, IfSome, IsErrOf, IsOk, IsSome, IsTrue, Some};
ghost use Rattle.std.specs.Iterator.{YieldsFirstBy, item_count};
ghost use Rattle.std.specs.List.{enumerate_from};
ghost use Rattle.arcintern.specs.Words.{AreDistinct, InternsInList};

use crate::fault::InternFault;
use crate::interner::MOST_TEXTS;
use crate::slots::half_of_word;
use crate::symbol::Symbol;
use std::alloc::Global;
use std::fmt;
use std::hash::{BuildHasher, BuildHasherDefault, FoldHasher};
use std::marker::Model;
use table::WordTable;

mod table;

/// The number of bytes that the texts of a word list can have together.
///
/// ```
/// assert_eq!(rt; MOST_BYTES, 4_294_967_295);
/// ```
pub const MOST_BYTES: usize = (1 << 32) - 1;

/// Keeps each distinct text once, in the order in which the texts came, as an `Interner` does. The
/// bytes of all texts stand one after another in one allocation, so a text takes less memory, and
/// is lent as a `&str`. A contract sees the list of the texts.
///
/// The default hasher has a fixed seed, and words that collide are easy to find, as `Interner`
/// says. Where an attacker picks the texts, make the list by `with_hasher`.
///
/// ```
/// let mut words = WordList::new(rt.alloc());
/// let symbol = words.intern("foo")?;
/// assert_eq!(rt; words.text(symbol), "foo");
/// assert!(rt; words.intern("foo")? == symbol);
/// assert!(rt; words.get("foo") == Some(symbol));
/// ```
#[derive(Drop)]
pub struct WordList<S: BuildHasher = BuildHasherDefault<FoldHasher>> {
    table: WordTable,
    hash_builder: S,
}

impl<S: BuildHasher> Model for WordList<S> {
    ghost use Rattle.std.specs.Prelude.{ℕ, List, []};
    ghost use Rattle.arcintern.specs.Slots.{ArePlaced, half_of_word};

    ghost Value = { List (List ℕ) };

    ghost view = { λ list. list.table.texts };

    ghost invariant = { λ list. ArePlaced list.table.slots list.table.mask
        (half_of_word S.BuildHasher S.Hasher.Hasher list.hash_builder) [] list.table.texts };
}

impl WordList<BuildHasherDefault<FoldHasher>> {
    /// Makes a list without texts.
    ///
    /// ```
    /// let words = WordList::new(rt.alloc());
    /// assert!(rt; words.is_empty());
    /// ```
    pub fn new(alloc: Global) -> WordList
        ensures { result ≡ [] }
    {
        WordList::with_hasher(alloc, BuildHasherDefault::new())
    }

    /// Makes a list without texts, with room for this many texts, which have this many bytes
    /// together. It is allocated here. For none, nothing is allocated. `Memory` is the only fault.
    ///
    /// ```
    /// let words = WordList::with_capacity(rt.alloc(), 100, 1_000)?;
    /// assert_eq!(rt; words.len(), 0);
    /// ```
    pub fn with_capacity(alloc: Global, texts: usize, bytes: usize) -> Result<WordList, InternFault>
        ensures empty { IfOk result (λ list. list ≡ []) }
        // Promise: It fails only with `Memory`, and with room for nothing it never fails.
        ensures none { texts ≡ 0 → bytes ≡ 0 → IsOk result }
        ensures refused { IfErr result (λ fault. fault ≡ InternFault.Memory) }
    {
        let table = WordTable::with_capacity(alloc, texts, bytes)?;
        Ok(WordList {
            table,
            hash_builder: BuildHasherDefault::new(),
        })
    }
}

impl<S: BuildHasher> WordList<S> {
    /// Makes a list without texts, which hashes by `hash_builder`.
    ///
    /// ```
    /// use std::hash::RandomState;
    /// let mut words = WordList::with_hasher(rt.alloc(), RandomState::new(&rt)?);
    /// let symbol = words.intern("foo")?;
    /// assert!(rt; words.get("foo") == Some(symbol));
    /// ```
    pub fn with_hasher(alloc: Global, hash_builder: S) -> WordList<S>
        ensures { result ≡ [] }
    {
        WordList {
            table: WordTable::new(alloc),
            hash_builder,
        }
    }

    /// Returns the symbol of the text that spells this word. If there is none, a copy of the word
    /// becomes the last text: that allocates where the bytes, the list of their ends or the table
    /// is full. A word that is there is never refused, and another one with `Full` or `Memory`. A
    /// refused call leaves the texts as they were.
    ///
    /// ```
    /// let mut words = WordList::new(rt.alloc());
    /// let symbol = words.intern("foo")?;
    /// assert!(rt; words.intern("foo")? == symbol);
    /// assert!(rt; words.intern("bar")? != symbol);
    /// ```
    pub fn intern(&mut self, word: &str) -> Result<Symbol, InternFault>
        // Promise: A known word is found, and nothing changes. A new one is added at the end.
        // A refused call changes nothing.
        ensures interns { InternsInList self.old self.new word.now result }
        // Promise: `Length` never comes.
        ensures never_too_long { ¬ (IsErrOf result InternFault.Length) }
    {
        let half = half_of_word(&self.hash_builder, word);
        let empty = match self.table.find(half, word) {
            Ok(symbol) => return Ok(symbol),
            Err(empty) => empty,
        };
        if self.table.is_full_for(word) {
            return Err(InternFault::Full);
        }
        self.table.push(half, empty, word)
    }

    /// Returns the symbol of the text that spells this word, or `None` if there is none.
    ///
    /// ```
    /// let mut words = WordList::new(rt.alloc());
    /// let symbol = words.intern("foo")?;
    /// assert!(rt; words.get("foo") == Some(symbol));
    /// assert!(rt; words.get("fo").is_none());
    /// ```
    pub fn get(&self, word: &str) -> Option<Symbol>
        // Promise: It finds exactly the words that are there, each of which stands once.
        ensures found { IsSome result ↔ Contains self.now word.now }
        ensures word { IfSome result (λ symbol. slice_get self.now symbol ≡ Some word.now) }
        ensures once { AreDistinct self.now }
    {
        let half = half_of_word(&self.hash_builder, word);
        self.table.find(half, word).ok()
    }

    /// Returns the symbol with this index, or `None` if the list has fewer texts.
    ///
    /// ```
    /// let mut words = WordList::new(rt.alloc());
    /// let symbol = words.intern("foo")?;
    /// assert!(rt; words.symbol_at(0) == Some(symbol));
    /// assert!(rt; words.symbol_at(1).is_none());
    /// ```
    pub fn symbol_at(&self, index: usize) -> Option<Symbol>
        // Promise: It finds exactly the indices that are there.
        ensures found { IsSome result ↔ (index < length self.now) }
        ensures symbol { IfSome result (λ symbol. symbol ≡ index) }
    {
        if index < self.table.len() {
            Some(Symbol::at(index))
        } else {
            None
        }
    }

    /// Returns the text of the symbol, or `None` if the list has fewer texts: the symbol is another
    /// list's.
    ///
    /// ```
    /// let mut words = WordList::new(rt.alloc());
    /// let symbol = words.intern("foo")?;
    /// assert!(rt; words.resolve(symbol) == Some("foo"));
    /// assert!(rt; WordList::new(rt.alloc()).resolve(symbol).is_none());
    /// ```
    pub fn resolve(&self, symbol: Symbol) -> Option<&str>
        // Promise: It finds exactly the symbols that are there.
        ensures found { IsSome result ↔ (symbol < length self.now) }
        ensures text { IfSome result (λ text. slice_get self.now symbol ≡ Some text.now) }
    {
        self.table.text(symbol.index())
    }

    /// Returns the text of the symbol. The caller must ensure that the symbol is one of this list.
    ///
    /// ```
    /// let mut words = WordList::new(rt.alloc());
    /// let symbol = words.intern("foo")?;
    /// assert_eq!(rt; words.text(symbol), "foo");
    /// ```
    pub fn text(&self, symbol: Symbol) -> &str
        requires { symbol < length self.now }
        ensures { slice_get self.now symbol ≡ Some result.now }
    {
        match self.table.text(symbol.index()) {
            Some(text) => text,
            None => "",
        }
    }

    /// Returns the number of texts.
    ///
    /// ```
    /// let mut words = WordList::new(rt.alloc());
    /// words.intern("foo")?;
    /// words.intern("foo")?;
    /// assert_eq!(rt; words.len(), 1);
    /// ```
    pub fn len(&self) -> usize
        ensures len { result ≡ length self.now }
        ensures most { result ≤ MOST_TEXTS }
        ensures once { AreDistinct self.now }
    {
        self.table.len()
    }

    /// Returns whether there are no texts.
    ///
    /// ```
    /// let mut words = WordList::new(rt.alloc());
    /// words.intern("")?;
    /// assert!(rt; !words.is_empty());
    /// ```
    pub fn is_empty(&self) -> bool
        ensures { IsTrue result ↔ (self.now ≡ []) }
    {
        self.table.len() == 0
    }

    /// Returns the texts, in the order of their symbols.
    ///
    /// ```
    /// let mut words = WordList::new(rt.alloc());
    /// words.intern("foo")?;
    /// words.intern("bar")?;
    /// let mut texts = words.iter();
    /// assert!(rt; texts.next() == Some("foo"));
    /// ```
    pub fn iter(&self) -> WordListIter<'_>
        ensures { result ≡ self.now }
    {
        self.table.iter()
    }

    /// Returns the symbols with their texts, in the order of the symbols.
    ///
    /// ```
    /// let mut words = WordList::new(rt.alloc());
    /// let foo = words.intern("foo")?;
    /// let bar = words.intern("bar")?;
    /// let mut pairs = words.pairs();
    /// assert!(rt; pairs.next() == Some((foo, "foo")));
    /// assert!(rt; pairs.next() == Some((bar, "bar")));
    /// ```
    pub fn pairs(&self) -> WordListPairs<'_>
        // Promise: The symbols are 0, 1, 2 and so on, and the texts are those of the list.
        ensures pairs { result ≡ enumerate_from 0 self.now }
        ensures once { AreDistinct self.now }
    {
        WordListPairs {
            texts: self.table.iter(),
            next: 0,
        }
    }
}

/// Prints the texts as a list, in the order of their symbols.
///
/// ```
/// let mut words = WordList::new(rt.alloc());
/// words.intern("foo")?;
/// let printed = format!(in rt.alloc(); "{words:?}")?;
/// assert_eq!(rt; printed.as_str(), "[\"foo\"]");
/// ```
impl<S: BuildHasher> fmt::Debug for WordList<S> {
    fn fmt<W: fmt::Write>(&self, f: &mut fmt::Formatter<W>) -> fmt::Result {
        f.debug_list().entries(self.iter()).finish()
    }
}

/// The texts of a `WordList`, seen as the list of those that are left.
///
/// ```
/// let mut words = WordList::new(rt.alloc());
/// words.intern("foo")?;
/// let mut texts: WordListIter = words.iter();
/// assert!(rt; texts.next() == Some("foo"));
/// assert!(rt; texts.next().is_none());
/// ```
#[derive(Drop)]
pub struct WordListIter<'a> {
    pub(crate) bytes: &'a str,
    pub(crate) start: usize,
    pub(crate) ends: &'a [u32],
}

impl<'a> Model for WordListIter<'a> {
    ghost use Rattle.std.specs.Prelude.{ℕ, List, ◌<◌};
    ghost use Rattle.std.specs.Str.{IsCharBoundary};
    ghost use Rattle.arcintern.specs.Words.{AreEnds, pieces};

    ghost Value = { List (List ℕ) };

    ghost view = { λ it. pieces it.bytes.now it.start it.ends.now };

    ghost invariant = { λ it. AreEnds it.bytes.now it.start it.ends.now
        × (0 < it.start → IsCharBoundary it.bytes.now it.start) };
}

impl<'a> Iterator for WordListIter<'a> {
    type Item = &'a str;

    ghost next_gives = { YieldsFirstBy (λ text. text.now) (λ rest. rest) };

    ghost remaining = { item_count (λ rest. rest) };

    fn next(&mut self) -> Option<&'a str> {
        match self.ends.split_first() {
            Some((end, rest)) => {
                let end = *end as usize;
                let text = &self.bytes[self.start..end];
                self.start = end;
                self.ends = rest;
                Some(text)
            }
            None => None,
        }
    }
}

/// The symbols of a `WordList` with their texts, seen as the list of the pairs that are left.
///
/// ```
/// let mut words = WordList::new(rt.alloc());
/// let symbol = words.intern("foo")?;
/// let mut pairs: WordListPairs = words.pairs();
/// assert!(rt; pairs.next() == Some((symbol, "foo")));
/// assert!(rt; pairs.next().is_none());
/// ```
#[derive(Drop)]
pub struct WordListPairs<'a> {
    pub(crate) texts: WordListIter<'a>,
    pub(crate) next: usize,
}

impl<'a> Model for WordListPairs<'a> {
    ghost use Rattle.std.specs.Prelude.{ℕ, List, ◌+◌, ◌^◌, ◌≤◌, length};
    ghost use Rattle.std.specs.List.{enumerate_from};

    ghost Value = { List (ℕ × List ℕ) };

    ghost view = { λ it. enumerate_from it.next it.texts };

    ghost invariant = { λ it. it.next + length it.texts ≤ 2 ^ 32 };
}

impl<'a> Iterator for WordListPairs<'a> {
    type Item = (Symbol, &'a str);

    ghost next_gives = { YieldsFirstBy (λ item. (item.0, item.1.now)) (λ rest. rest) };

    ghost remaining = { item_count (λ rest. rest) };

    fn next(&mut self) -> Option<(Symbol, &'a str)> {
        match self.texts.next() {
            Some(text) => {
                let symbol = Symbol::at(self.next);
                self.next += 1;
                Some((symbol, text))
            }
            None => None,
        }
    }
}
