//! `SharedInterner`: each distinct text once, for threads.
//!
//! Each call with a handle `rt` can wait for a thread that adds a text to the same shard or to the
//! list, or that changes the count of a text that the call clones. No call waits for a known word.
ghost use Rattle.std.specs.Prelude.{◌≡◌, ◌^◌, ◌<◌, ◌≤◌, ◌-◌, IfErr, IfOk, IfSome, length};
ghost use Rattle.arcintern.specs.Texts.{IsSymbolOf};
ghost use Rattle.std.specs.Iterator.{at_most};

use crate::fault::InternFault;
use crate::interner::MOST_TEXTS;
use crate::symbol::Symbol;
use arcstr::ArcStr;
use boxcar::slot::Written;
use shard::Shard;
use std::alloc::Global;
use std::fmt;
use std::hash::{BuildHasher, BuildHasherDefault, FoldHasher};
use std::marker::Model;
use std::sync::Wait;
use text_list::{Row, TextList};

mod interning;
mod shard;
mod text_list;

/// Keeps each distinct text once, as an `ArcStr`, for any number of threads.
///
/// The hash of a word picks one of 1 to 64 shards. A shard has a table of the numbers of its texts,
/// and a lock for a call that adds one. The texts themselves lie in one list that only grows. A
/// known word and a text are read without a lock. So a symbol stands for one text as long as the
/// interner lives, whatever other threads do. The numbers are 0, 1, 2 and so on, in the order in
/// which the texts were added, and none is left out.
///
/// A table that is too short is kept beside a longer one until the interner is dropped, since a
/// thread may be reading it. After `with_capacity`, a shard makes a longer table only if it gets
/// more than its part of the texts.
///
/// The contracts do not say that a call succeeds, that `get` finds a word, that a word has one
/// number, which number is next, or what `len` answers. The tests
/// `known_words_are_found_while_tables_grow`, `threads_at_one_word_agree` and
/// `words_are_numbered_as_they_come` check that.
///
/// The default hasher has a fixed seed. Where an attacker picks the texts, make the interner by
/// `with_hasher`.
///
/// ```
/// let interner = SharedInterner::new(rt.alloc(), 8)?;
/// let symbol = interner.intern(&rt, "foo")?;
/// assert_eq!(rt; interner.text(&symbol).as_str(), "foo");
/// assert!(rt; interner.intern(&rt, "foo")?.number() == symbol.number());
/// ```
#[derive(Drop)]
pub struct SharedInterner<S: BuildHasher = BuildHasherDefault<FoldHasher>> {
    shards: Vec<Shard>,
    alloc: Global,
    hash_builder: S,
    texts: TextList,
}

impl<S: BuildHasher> Model for SharedInterner<S> {
    ghost use Rattle.std.specs.Prelude.{◌≤◌, List, length};
    ghost use Rattle.boxcar.specs.Slot.{Named};

    ghost Value = { List Named };

    ghost view = { λ interner. interner.texts };

    ghost invariant = { λ interner. (1 ≤ length interner.shards.items)
        × (length interner.shards.items ≤ 64) };
}

impl SharedInterner<BuildHasherDefault<FoldHasher>> {
    /// Makes an interner without texts. The caller must ensure that there are 1 to 64 shards. A
    /// power of two is best, as many as threads or more. The list of the texts takes 9 KB, and a
    /// shard 1.2 KB. `Memory` is the only fault.
    ///
    /// ```
    /// let interner = SharedInterner::new(rt.alloc(), 1)?;
    /// assert!(rt; interner.is_empty());
    /// ```
    pub fn new(alloc: Global, shards: usize) -> Result<SharedInterner, InternFault>
        requires { (1 ≤ shards) × (shards ≤ 64) }
        ensures { IfErr result (λ fault. fault ≡ InternFault.Memory) }
    {
        SharedInterner::with_hasher(alloc, shards, BuildHasherDefault::new())
    }

    /// As `new`, with room for this many texts, which is allocated here: in the list, and in each
    /// shard for its part of them.
    ///
    /// ```
    /// let interner = SharedInterner::with_capacity(rt.alloc(), 8, 1_000)?;
    /// assert!(rt; interner.is_empty());
    /// ```
    pub fn with_capacity(
        alloc: Global,
        shards: usize,
        texts: usize,
    ) -> Result<SharedInterner, InternFault>
        requires { (1 ≤ shards) × (shards ≤ 64) }
        ensures { IfErr result (λ fault. fault ≡ InternFault.Memory) }
    {
        SharedInterner::with_room(alloc, shards, texts, BuildHasherDefault::new())
    }
}

impl<S: BuildHasher + Drop> SharedInterner<S> {
    /// Makes an interner without texts, which hashes by `hash_builder`, and is as `new` makes it.
    ///
    /// ```
    /// use std::hash::RandomState;
    /// let interner = SharedInterner::with_hasher(rt.alloc(), 8, RandomState::new(&rt)?)?;
    /// let symbol = interner.intern(&rt, "foo")?;
    /// assert!(rt; interner.text(&symbol).eq_str("foo"));
    /// ```
    pub fn with_hasher(
        alloc: Global,
        shards: usize,
        hash_builder: S,
    ) -> Result<SharedInterner<S>, InternFault>
        requires { (1 ≤ shards) × (shards ≤ 64) }
        ensures { IfErr result (λ fault. fault ≡ InternFault.Memory) }
    {
        SharedInterner::with_room(alloc, shards, 0, hash_builder)
    }

    /// Makes an interner without texts, with room for this many.
    fn with_room(
        alloc: Global,
        shards: usize,
        room: usize,
        hash_builder: S,
    ) -> Result<SharedInterner<S>, InternFault>
        requires { (1 ≤ shards) × (shards ≤ 64) }
        ensures { IfErr result (λ fault. fault ≡ InternFault.Memory) }
    {
        let texts = TextList::with_capacity(alloc, room)?;
        let shards = empty_shards(alloc, shards, room.div_ceil(shards))?;
        Ok(SharedInterner {
            shards,
            texts,
            alloc,
            hash_builder,
        })
    }
}

impl<S: BuildHasher> SharedInterner<S> {
    /// Returns the text of a symbol of this interner. Takes no lock, and never waits.
    ///
    /// ```
    /// let interner = SharedInterner::new(rt.alloc(), 8)?;
    /// let symbol = interner.intern(&rt, "foo")?;
    /// assert!(rt; interner.text(&symbol).eq_str("foo"));
    /// ```
    pub fn text<'a>(&'a self, symbol: &SharedSymbol) -> &'a ArcStr
        requires { IsSymbolOf self.now symbol.now }
        ensures { result.now ≡ symbol.now.text }
    {
        self.texts.text(symbol)
    }

    /// Proves that two symbols of this interner with one number have one text. It does nothing when
    /// it runs.
    ///
    /// ```
    /// let interner = SharedInterner::new(rt.alloc(), 8)?;
    /// let symbol = interner.intern(&rt, "foo")?;
    /// interner.one_number_has_one_text(&symbol, &symbol.again());
    /// ```
    pub fn one_number_has_one_text(&self, one: &SharedSymbol, other: &SharedSymbol)
        requires one { IsSymbolOf self.now one.now }
        requires other { IsSymbolOf self.now other.now }
        requires same { one.now.number ≡ other.now.number }
        ensures { one.now.text ≡ other.now.text }
    {
        one.agrees(other);
    }

    /// Returns the symbol with this number, or `None` if no text has it: the number is another
    /// interner's. Takes no lock, and never waits.
    ///
    /// ```
    /// let interner = SharedInterner::new(rt.alloc(), 8)?;
    /// let number = interner.intern(&rt, "foo")?.number();
    /// assert!(rt; interner.symbol_at(number).is_some());
    /// let other = SharedInterner::new(rt.alloc(), 8)?;
    /// assert!(rt; other.symbol_at(number).is_none());
    /// ```
    pub fn symbol_at(&self, number: Symbol) -> Option<SharedSymbol>
        ensures of { IfSome result (λ symbol. IsSymbolOf self.now symbol) }
        ensures number { IfSome result (λ symbol. symbol.number ≡ number) }
    {
        match self.texts.at(number.index()) {
            Some((symbol, _)) => Some(symbol),
            None => None,
        }
    }

    /// Returns the number of texts. It may count or miss a text that another thread is adding, so
    /// the contract does not say how many there are. Takes no lock.
    ///
    /// ```
    /// let interner = SharedInterner::new(rt.alloc(), 8)?;
    /// interner.intern(&rt, "foo")?;
    /// interner.intern(&rt, "foo")?;
    /// assert_eq!(rt; interner.len(), 1);
    /// ```
    pub fn len(&self) -> usize {
        self.texts.len()
    }

    /// Returns whether `len` returns 0. As there, the contract does not say what it returns.
    ///
    /// ```
    /// let interner = SharedInterner::new(rt.alloc(), 8)?;
    /// interner.intern(&rt, "")?;
    /// assert!(rt; !interner.is_empty());
    /// ```
    pub fn is_empty(&self) -> bool {
        self.len() == 0
    }

    /// Returns the symbols with their texts, in the order of their numbers. It may miss texts that
    /// other threads are adding. Takes no lock.
    ///
    /// ```
    /// let interner = SharedInterner::new(rt.alloc(), 8)?;
    /// interner.intern(&rt, "foo")?;
    /// for (symbol, text) in interner.iter() {
    ///     assert_eq!(rt; symbol.number().index(), 0);
    ///     assert_eq!(rt; text.as_str(), "foo");
    /// }
    /// ```
    pub fn iter(&self) -> SharedTexts<'_>
        ensures texts { result.texts.now ≡ self.now }
        ensures first { result.index ≡ 0 }
    {
        SharedTexts::of(&self.texts)
    }
}

/// Prints the texts as a list, in the order of their numbers. It may miss texts that other threads
/// are adding.
///
/// ```
/// let interner = SharedInterner::new(rt.alloc(), 8)?;
/// interner.intern(&rt, "foo")?;
/// let printed = format!(in rt.alloc(); "{interner:?}")?;
/// assert_eq!(rt; printed.as_str(), "[\"foo\"]");
/// ```
impl<S: BuildHasher> fmt::Debug for SharedInterner<S> {
    fn fmt<W: fmt::Write>(&self, f: &mut fmt::Formatter<W>) -> fmt::Result {
        let mut list = f.debug_list();
        for (_, text) in self.iter() {
            list.entry(text);
        }
        list.finish()
    }
}

/// Makes shards without texts, each with room for this many.
fn empty_shards(alloc: Global, shards: usize, room: usize) -> Result<Vec<Shard>, InternFault>
    ensures len { IfOk result (λ tables. length tables.items ≡ shards) }
    ensures fault { IfErr result (λ fault. fault ≡ InternFault.Memory) }
{
    let mut tables = Vec::with_capacity(alloc, shards)?;
    let mut count = 0;
    while count < shards {
        tables.push_reserved(Shard::with_capacity(alloc, room)?);
        count += 1;
    }
    Ok(tables)
}

/// How many values the index of a row can have in the bits of a symbol.
pub(crate) const ROW_VALUES: u64 = 1 << 8;

/// Stands for one text of one shared interner. It takes 8 bytes. A contract sees its number and its
/// text, which other threads cannot change. The number alone is a `Symbol` of 4 bytes, which can be
/// copied, compared, ordered and hashed.
///
/// ```
/// let interner = SharedInterner::new(rt.alloc(), 8)?;
/// let foo = interner.intern(&rt, "foo")?;
/// assert!(rt; foo.number() == interner.intern(&rt, "foo")?.number());
/// assert!(rt; foo.number() != interner.intern(&rt, "bar")?.number());
/// ```
#[derive(Drop)]
pub struct SharedSymbol {
    /// `ROW_VALUES` times the number, and the index of the row.
    pub(crate) bits: u64,
    pub(crate) row: Written<Row>,
    pub(crate) text: Written<ArcStr>,
}

impl Model for SharedSymbol {
    ghost use Rattle.std.specs.Prelude.{◌≡◌, ◌<◌, length};
    ghost use Rattle.boxcar.specs.Table.{id_at};
    ghost use Rattle.arcintern.specs.declared.interner.TheConstants.{MOST_TEXTS};
    ghost use Rattle.arcintern.specs.declared.shared_interner.text_list.TheConstants.{ROWS};
    ghost use Rattle.arcintern.specs.TextList.{column_of, number_in, row_in, row_of};
    ghost use Rattle.arcintern.specs.Texts.{SymbolView};

    ghost Value = { SymbolView };

    ghost view = { λ symbol. record {
      number = number_in symbol.bits;
      text = symbol.text.value;
      row = row_in symbol.bits;
      name = symbol.row.of;
    } };

    ghost invariant = { λ symbol. (number_in symbol.bits < MOST_TEXTS)
        × (row_in symbol.bits < ROWS) × (row_in symbol.bits ≡ row_of (number_in symbol.bits))
        × (column_of (number_in symbol.bits) < length symbol.row.value.items)
        × (symbol.text.of ≡ id_at symbol.row.value.items (column_of (number_in symbol.bits))) };
}

impl SharedSymbol {
    /// Returns the number alone. `SharedInterner::symbol_at` returns the symbol with a number.
    ///
    /// ```
    /// let interner = SharedInterner::new(rt.alloc(), 8)?;
    /// assert_eq!(rt; interner.intern(&rt, "foo")?.number().index(), 0);
    /// assert_eq!(rt; interner.intern(&rt, "bar")?.number().index(), 1);
    /// ```
    pub fn number(&self) -> Symbol
        ensures { result ≡ self.now.number }
    {
        Symbol::at(self.index())
    }

    /// Returns the number as an index.
    #[inline(always)]
    pub(crate) fn index(&self) -> usize
        ensures number { result ≡ self.now.number }
        ensures below { result < MOST_TEXTS }
    {
        (self.bits / ROW_VALUES) as usize
    }

    /// Returns the same symbol once more.
    ///
    /// ```
    /// let interner = SharedInterner::new(rt.alloc(), 8)?;
    /// let symbol = interner.intern(&rt, "foo")?.again();
    /// assert!(rt; interner.text(&symbol).eq_str("foo"));
    /// ```
    pub fn again(&self) -> SharedSymbol
        ensures { result ≡ self.now }
    {
        SharedSymbol {
            bits: self.bits,
            row: self.row.again(),
            text: self.text.again(),
        }
    }

    /// Proves that two symbols of one list with one number have one text.
    fn agrees(&self, other: &SharedSymbol)
        requires name { self.now.row ≡ other.now.row → self.now.name ≡ other.now.name }
        requires same { self.now.number ≡ other.now.number }
        ensures { self.now.text ≡ other.now.text }
    {
        self.row.agrees(&other.row);
        self.text.agrees(&other.text);
    }
}

/// Yields the symbols of a shared interner with their texts, in the order of their numbers.
///
/// ```
/// let interner = SharedInterner::new(rt.alloc(), 8)?;
/// interner.intern(&rt, "foo")?;
/// interner.intern(&rt, "bar")?;
/// let mut texts: SharedTexts<'_> = interner.iter();
/// assert!(rt; texts.next().is_some_and(|(_, text)| text.eq_str("foo")));
/// assert!(rt; texts.next().is_some_and(|(symbol, _)| symbol.number().index() == 1));
/// assert!(rt; texts.next().is_none());
/// ```
#[derive(Drop)]
pub struct SharedTexts<'a> {
    texts: &'a TextList,
    index: usize,
    /// All numbers are below it.
    end: usize,
    ghost small: { end < 2 ^ 32 },
}

impl<'a> SharedTexts<'a> {
    /// Makes an iterator over the texts whose numbers are below the count of them now.
    fn of(texts: &'a TextList) -> SharedTexts<'a>
        ensures texts { result.texts.now ≡ texts.now }
        ensures first { result.index ≡ 0 }
    {
        SharedTexts {
            texts,
            index: 0,
            end: texts.len().min(MOST_TEXTS),
        }
    }
}

impl<'a> Iterator for SharedTexts<'a> {
    type Item = (SharedSymbol, &'a ArcStr);

    // Promise: The symbol is of the interner and has this text, and the numbers rise.
    ghost next_gives = { λ old item new. (new.texts ≡ old.texts) × (new.end ≡ old.end)
        × (old.index ≤ new.index)
        × IfSome item (λ pair. IsSymbolOf old.texts.now pair.0 × (pair.1.now ≡ pair.0.text)
        × (old.index ≤ pair.0.number) × (pair.0.number < new.index)) };

    ghost remaining = { λ texts. at_most (texts.end - texts.index) };

    fn next(&mut self) -> Option<(SharedSymbol, &'a ArcStr)> {
        while self.index < self.end {
            let index = self.index;
            self.index += 1;
            if let Some(found) = self.texts.at(index) {
                return Some(found);
            }
        }
        None
    }
}
