//! `Interner`: each distinct text once.
//!
//! No call here allocates, clones a handle or takes an atomic step unless it says so.
ghost use Rattle.std.specs.Prelude.{◌≡◌, ◌^◌, ◌<◌, ◌≤◌, ◌↔◌, [], length, option_copied, slice_get};
ghost use Rattle.std.specs.Prelude.{IfErr, IfOk, IfSome, IsOk, IsSome, IsTrue, Some};
ghost use Rattle.std.specs.Iterator.Adapters.{IterYieldsInOrder, IterYieldsInReverse};
ghost use Rattle.std.specs.List.{enumerate_from};
ghost use Rattle.std.specs.Slice.Iter.{iter_rest};
ghost use Rattle.arcstr.specs.TextView.{TextView};
ghost use Rattle.arcintern.specs.Texts.{HasEachOnce, HasWord, IsWordAt};
ghost use Rattle.std.specs.Iterator.{YieldsFirstBy, item_count};

use crate::fault::InternFault;
use crate::slots::half_of_word;
use crate::symbol::Symbol;
use arcstr::ArcStr;
use std::alloc::Global;
use std::fmt;
use std::hash::{BuildHasher, BuildHasherDefault, FoldHasher};
use std::marker::Model;
use std::ops::Index;
use std::slice::Iter;
use table::TextTable;

mod interning;
mod table;

pub(crate) use interning::copy_of;

/// The number of texts that an interner can hold.
///
/// ```
/// assert_eq!(rt; MOST_TEXTS, 4_294_967_295);
/// ```
pub const MOST_TEXTS: usize = (1 << 32) - 1;

/// Keeps each distinct text once, as an `ArcStr`, in the order in which the texts came. It finds a
/// text by its hash, so the average time of a look-up does not grow with the number of texts. No
/// contract says so. A contract sees the list of the texts.
///
/// The default hasher has a fixed seed, and words that collide are easy to find. Each look-up then
/// passes all of them: 100,000 such words took 37 seconds of processor time, where 100,000 others
/// took 0.1. Where an attacker picks the texts, make the interner by `with_hasher`.
///
/// ```
/// let mut interner = Interner::new(rt.alloc());
/// let symbol = interner.intern("foo")?;
/// assert_eq!(rt; interner[symbol].as_str(), "foo");
/// assert!(rt; interner.intern("foo")? == symbol);
/// assert!(rt; interner.get("foo") == Some(symbol));
/// ```
#[derive(Drop)]
pub struct Interner<S: BuildHasher = BuildHasherDefault<FoldHasher>> {
    table: TextTable,
    hash_builder: S,
}

impl<S: BuildHasher> Model for Interner<S> {
    ghost use Rattle.std.specs.Prelude.{List};
    ghost use Rattle.arcstr.specs.TextView.{TextView};
    ghost use Rattle.arcintern.specs.Slots.{AreTextsPlaced, half_of_word};

    ghost Value = { List TextView };

    ghost view = { λ interner. interner.table.texts };

    ghost invariant = { λ interner. AreTextsPlaced interner.table.slots interner.table.mask
        (half_of_word S.BuildHasher S.Hasher.Hasher interner.hash_builder) interner.table.texts };
}

impl Interner<BuildHasherDefault<FoldHasher>> {
    /// Makes an interner without texts.
    ///
    /// ```
    /// let interner = Interner::new(rt.alloc());
    /// assert!(rt; interner.is_empty());
    /// ```
    pub fn new(alloc: Global) -> Interner
        ensures { result ≡ [] }
    {
        Interner::with_hasher(alloc, BuildHasherDefault::new())
    }

    /// Makes an interner without texts, with room for this many, which is allocated here. For no
    /// texts nothing is allocated. `Memory` is the only fault.
    ///
    /// ```
    /// let interner = Interner::with_capacity(rt.alloc(), 100)?;
    /// assert_eq!(rt; interner.len(), 0);
    /// ```
    pub fn with_capacity(alloc: Global, texts: usize) -> Result<Interner, InternFault>
        ensures empty { IfOk result (λ interner. interner ≡ []) }
        // Promise: It fails only with `Memory`, and with room for no texts it never fails.
        ensures none { texts ≡ 0 → IsOk result }
        ensures refused { IfErr result (λ fault. fault ≡ InternFault.Memory) }
    {
        let table = TextTable::with_capacity(alloc, texts)?;
        Ok(Interner {
            table,
            hash_builder: BuildHasherDefault::new(),
        })
    }
}

impl<S: BuildHasher> Interner<S> {
    /// Makes an interner without texts, which hashes by `hash_builder`.
    ///
    /// ```
    /// use std::hash::RandomState;
    /// let mut interner = Interner::with_hasher(rt.alloc(), RandomState::new(&rt)?);
    /// let symbol = interner.intern("foo")?;
    /// assert!(rt; interner.get("foo") == Some(symbol));
    /// ```
    pub fn with_hasher(alloc: Global, hash_builder: S) -> Interner<S>
        ensures { result ≡ [] }
    {
        Interner {
            table: TextTable::new(alloc),
            hash_builder,
        }
    }

    /// Returns the number of texts.
    ///
    /// ```
    /// let mut interner = Interner::new(rt.alloc());
    /// interner.intern("foo")?;
    /// interner.intern("foo")?;
    /// assert_eq!(rt; interner.len(), 1);
    /// ```
    pub fn len(&self) -> usize
        ensures len { result ≡ length self.now }
        ensures most { result ≤ MOST_TEXTS }
        ensures once { HasEachOnce self.now }
    {
        self.table.texts().len()
    }

    /// Returns whether there are no texts.
    ///
    /// ```
    /// let mut interner = Interner::new(rt.alloc());
    /// interner.intern("")?;
    /// assert!(rt; !interner.is_empty());
    /// ```
    pub fn is_empty(&self) -> bool
        ensures { IsTrue result ↔ (self.now ≡ []) }
    {
        self.table.texts().is_empty()
    }

    /// Returns the texts, in the order of their symbols.
    ///
    /// ```
    /// let mut interner = Interner::new(rt.alloc());
    /// interner.intern("foo")?;
    /// interner.intern("bar")?;
    /// let mut texts = interner.iter();
    /// assert!(rt; texts.next().is_some_and(|text| text.eq_str("foo")));
    /// ```
    pub fn iter(&self) -> Iter<'_, ArcStr>
        ensures rest { iter_rest result ≡ self.now }
        ensures len { length (iter_rest result) ≡ length self.now }
        ensures once { HasEachOnce self.now }
        ensures runs { IterYieldsInOrder TextView }
        ensures runs_back { IterYieldsInReverse TextView }
        ensures fits { length self.now < 2 ^ 63 }
    {
        self.table.texts().iter()
    }

    /// Returns the symbols with their texts, in the order of the symbols.
    ///
    /// ```
    /// let mut interner = Interner::new(rt.alloc());
    /// let foo = interner.intern("foo")?;
    /// interner.intern("bar")?;
    /// let mut pairs = interner.pairs();
    /// assert!(rt; pairs.next().is_some_and(|(symbol, text)| symbol == foo && text.eq_str("foo")));
    /// assert!(rt; pairs.next().is_some_and(|(symbol, _)| symbol.index() == 1));
    /// ```
    pub fn pairs(&self) -> InternerPairs<'_>
        // Promise: The symbols are 0, 1, 2 and so on, and the texts are those of the interner.
        ensures pairs { result ≡ enumerate_from 0 self.now }
        ensures once { HasEachOnce self.now }
    {
        InternerPairs {
            texts: self.table.texts(),
            next: 0,
        }
    }

    /// Returns the symbol of the text that spells this word, or `None` if there is none.
    ///
    /// ```
    /// let mut interner = Interner::new(rt.alloc());
    /// let symbol = interner.intern("foo")?;
    /// assert!(rt; interner.get("foo") == Some(symbol));
    /// assert!(rt; interner.get("fo").is_none());
    /// ```
    pub fn get(&self, word: &str) -> Option<Symbol>
        // Promise: It finds exactly the words that are there, each of which stands once.
        ensures found { IsSome result ↔ HasWord self.now word.now }
        ensures word { IfSome result (λ symbol. IsWordAt self.now symbol word.now) }
        ensures once { HasEachOnce self.now }
    {
        let half = half_of_word(&self.hash_builder, word);
        self.table.find(half, word).ok()
    }

    /// Returns the symbol with this index, or `None` if the interner has fewer texts.
    ///
    /// ```
    /// let mut interner = Interner::new(rt.alloc());
    /// let symbol = interner.intern("foo")?;
    /// assert!(rt; interner.symbol_at(0) == Some(symbol));
    /// assert!(rt; interner.symbol_at(1).is_none());
    /// ```
    pub fn symbol_at(&self, index: usize) -> Option<Symbol>
        // Promise: It finds exactly the indices that are there.
        ensures found { IsSome result ↔ (index < length self.now) }
        ensures symbol { IfSome result (λ symbol. symbol ≡ index) }
    {
        if index < self.table.texts().len() {
            Some(Symbol::at(index))
        } else {
            None
        }
    }

    /// Returns the text of the symbol, or `None` if the interner has fewer texts: the symbol is
    /// another interner's.
    ///
    /// ```
    /// let mut interner = Interner::new(rt.alloc());
    /// let symbol = interner.intern("foo")?;
    /// let text = interner.resolve(symbol);
    /// assert!(rt; text.is_some_and(|text| text.eq_str("foo")));
    /// assert!(rt; Interner::new(rt.alloc()).resolve(symbol).is_none());
    /// ```
    pub fn resolve(&self, symbol: Symbol) -> Option<&ArcStr>
        // Promise: It finds exactly the symbols that are there.
        ensures found { IsSome result ↔ (symbol < length self.now) }
        ensures text { option_copied result ≡ slice_get self.now symbol }
    {
        self.table.texts().get(symbol.index())
    }
}

impl<S: BuildHasher> Index<Symbol> for Interner<S> {
    type Output = ArcStr;

    ghost can_index = { λ interner symbol. symbol < length interner };

    ghost index_gives = { λ interner symbol text. slice_get interner symbol ≡ Some text };

    /// Returns the text of the symbol, which is one of this interner.
    ///
    /// ```
    /// let mut interner = Interner::new(rt.alloc());
    /// let symbol = interner.intern("foo")?;
    /// assert!(rt; interner[symbol].eq_str("foo"));
    /// ```
    fn index(&self, symbol: Symbol) -> &ArcStr {
        &self.table.texts()[symbol.index()]
    }
}

/// Prints the texts as a list, in the order of their symbols.
///
/// ```
/// let mut interner = Interner::new(rt.alloc());
/// interner.intern("foo")?;
/// let printed = format!(in rt.alloc(); "{interner:?}")?;
/// assert_eq!(rt; printed.as_str(), "[\"foo\"]");
/// ```
impl<S: BuildHasher> fmt::Debug for Interner<S> {
    fn fmt<W: fmt::Write>(&self, f: &mut fmt::Formatter<W>) -> fmt::Result {
        f.debug_list().entries(self.iter()).finish()
    }
}

/// The symbols of an `Interner` with their texts, seen as the list of the pairs that are left.
///
/// ```
/// let mut interner = Interner::new(rt.alloc());
/// let symbol = interner.intern("foo")?;
/// let mut pairs: InternerPairs = interner.pairs();
/// assert!(rt; pairs.next().is_some_and(|(found, text)| found == symbol && text.eq_str("foo")));
/// assert!(rt; pairs.next().is_none());
/// ```
#[derive(Drop)]
pub struct InternerPairs<'a> {
    pub(crate) texts: &'a [ArcStr],
    pub(crate) next: usize,
}

impl<'a> Model for InternerPairs<'a> {
    ghost use Rattle.std.specs.Prelude.{ℕ, List, ◌+◌, ◌^◌, ◌≤◌, length};
    ghost use Rattle.std.specs.List.{enumerate_from};
    ghost use Rattle.arcstr.specs.TextView.{TextView};

    ghost Value = { List (ℕ × TextView) };

    ghost view = { λ it. enumerate_from it.next it.texts.now };

    ghost invariant = { λ it. it.next + length it.texts.now ≤ 2 ^ 32 };
}

impl<'a> Iterator for InternerPairs<'a> {
    type Item = (Symbol, &'a ArcStr);

    ghost next_gives = { YieldsFirstBy (λ item. (item.0, item.1.now)) (λ rest. rest) };

    ghost remaining = { item_count (λ rest. rest) };

    fn next(&mut self) -> Option<(Symbol, &'a ArcStr)> {
        match self.texts.split_first() {
            Some((text, rest)) => {
                let symbol = Symbol::at(self.next);
                self.texts = rest;
                self.next += 1;
                Some((symbol, text))
            }
            None => None,
        }
    }
}
