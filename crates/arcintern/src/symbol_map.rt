//! `SymbolMap`: values by symbols.
ghost use Rattle.std.specs.Prelude.{◌≡◌, ◌^◌, ◌<◌, ◌≤◌, [], length, option_copied, unwrap_or};
ghost use Rattle.std.specs.Prelude.{IfErr, IfOk, OnErr, OnOk, Some};
ghost use Rattle.std.specs.Iterator.{YieldsFirstBy, item_count};
ghost use Rattle.std.specs.Option.{option_copied_mut};
ghost use Rattle.std.specs.Borrow.{sem};
ghost use Rattle.arcintern.specs.Values.{HaveSameOtherValues, HaveSameValues, pairs_from, value_at};

use crate::symbol::Symbol;
use std::alloc::{AllocError, AllocFailed, Global};
use std::fmt;
use std::marker::Model;

/// Values by the symbols of one interner: a `Vec` by index, which grows where a value is stored. A
/// look-up does not hash. A map takes room for each symbol up to the largest one that was stored. A
/// contract sees a value or nothing for each number.
///
/// ```
/// let mut words = WordList::new(rt.alloc());
/// let mut lens: SymbolMap<u64> = SymbolMap::new(rt.alloc());
/// let foo = words.intern("foo")?;
/// let bar = words.intern("bar")?;
/// lens.insert(bar, 3)?;
/// assert!(rt; lens.get(bar) == Some(&3));
/// assert!(rt; lens.get(foo).is_none());
/// ```
#[derive(Drop)]
pub struct SymbolMap<V> {
    values: Vec<Option<V>>,
}

impl<V> Model for SymbolMap<V> {
    ghost use Rattle.std.specs.Prelude.{List, Option, ◌^◌, ◌≤◌, length};

    ghost Value = { List (Option V) };

    ghost view = { λ map. map.values.items };

    ghost invariant = { λ map. length map.values.items ≤ 2 ^ 32 };
}

impl<V> SymbolMap<V> {
    ghost use Rattle.arcintern.specs.Lends.{lends_get, lends_put, lends_value};

    /// Makes a map without values. Does not allocate.
    ///
    /// ```
    /// let map: SymbolMap<u64> = SymbolMap::new(rt.alloc());
    /// assert!(rt; map.iter().next().is_none());
    /// ```
    pub fn new(alloc: Global) -> SymbolMap<V>
        ensures { result ≡ [] }
    {
        SymbolMap {
            values: Vec::new(alloc),
        }
    }

    /// Returns the value of the symbol, or `None` if it has none.
    ///
    /// ```
    /// let symbol = Interner::new(rt.alloc()).intern("foo")?;
    /// let mut map: SymbolMap<u64> = SymbolMap::new(rt.alloc());
    /// assert!(rt; map.get(symbol).is_none());
    /// map.insert(symbol, 7)?;
    /// assert!(rt; map.get(symbol) == Some(&7));
    /// ```
    pub fn get(&self, symbol: Symbol) -> Option<&V>
        ensures { option_copied result ≡ value_at self.now symbol }
    {
        match self.values.get(symbol.index()) {
            Some(Some(value)) => Some(value),
            _ => None,
        }
    }

    /// Returns the value of the symbol for writing, or `None` if it has none.
    ///
    /// ```
    /// let symbol = Interner::new(rt.alloc()).intern("foo")?;
    /// let mut map: SymbolMap<u64> = SymbolMap::new(rt.alloc());
    /// map.insert(symbol, 7)?;
    /// if let Some(value) = map.get_mut(symbol) {
    ///     *value = 8;
    /// }
    /// assert!(rt; map.get(symbol) == Some(&8));
    /// ```
    pub fn get_mut(&mut self, symbol: Symbol) -> Option<&mut V>
        ensures value { option_copied_mut result ≡ value_at self.old symbol }
        // Promise: What is written becomes the value of the symbol, and no other value changes.
        ensures* writes_back { sem 𝓛 (lends_get V.row self.entry symbol result) }
    {
        self.values.get_mut(symbol.index())?.as_mut()
    }

    /// Stores a value for the symbol, and returns the value that it had. Allocates where the symbol
    /// is the largest so far, but then not each time. Out of memory, it returns the new value in
    /// the fault, and the map has the values that it had.
    ///
    /// ```
    /// let symbol = Interner::new(rt.alloc()).intern("foo")?;
    /// let mut map: SymbolMap<u64> = SymbolMap::new(rt.alloc());
    /// assert!(rt; map.insert(symbol, 7)?.is_none());
    /// assert!(rt; map.insert(symbol, 8)? == Some(7));
    /// ```
    pub fn insert(&mut self, symbol: Symbol, value: V) -> Result<Option<V>, AllocFailed<V>>
        ensures before { IfOk result (λ before. before ≡ value_at self.old symbol) }
        ensures stored { OnOk result (value_at self.new symbol ≡ Some value) }
        // Promise: The values of other symbols stay as they are.
        ensures others { HaveSameOtherValues self.new self.old symbol }
        // Promise: A refused call changes nothing.
        ensures refused { OnErr result (HaveSameValues self.new self.old) }
        ensures value { IfErr result (λ failed. failed.value ≡ value) }
    {
        if make_room_for(&mut self.values, symbol.index()).is_err() {
            return Err(AllocFailed { value });
        }
        let entry = &mut self.values[symbol.index()];
        Ok(entry.replace(value))
    }

    /// Returns the value of the symbol for writing. If it has none, stores this one first.
    /// Allocates and fails as `insert` does.
    ///
    /// ```
    /// let mut words = WordList::new(rt.alloc());
    /// let mut counts: SymbolMap<u64> = SymbolMap::new(rt.alloc());
    /// for word in "the cat and the dog".split_whitespace() {
    ///     let count = counts.or_insert(words.intern(word)?, 0)?;
    ///     *count = count.saturating_add(1);
    /// }
    /// let the = words.get("the");
    /// assert!(rt; the.is_some_and(|symbol| counts.get(symbol) == Some(&2)));
    /// ```
    pub fn or_insert(&mut self, symbol: Symbol, value: V) -> Result<&mut V, AllocFailed<V>>
    where
        V: Drop,
        // Promise: A value that is there is returned, and else the new one.
        ensures value { IfOk result
            (λ found. found.now ≡ unwrap_or (value_at self.old symbol) value) }
        ensures failed { IfErr result (λ failed. failed.value ≡ value) }
        // Promise: What is written becomes the value of the symbol, and no other value changes.
        ensures* writes_back { sem 𝓛 (lends_put V.row self.entry symbol result) }
    {
        if make_room_for(&mut self.values, symbol.index()).is_err() {
            return Err(AllocFailed { value });
        }
        Ok(self.value_or(symbol.index(), value))
    }

    /// Returns the value at an index that the map has, for writing. If there is none, stores this
    /// one first.
    fn value_or(&mut self, index: usize, value: V) -> &mut V
    where
        V: Drop,
        requires { index < length self.old }
        ensures value { result.now ≡ unwrap_or (value_at self.old index) value }
        ensures* writes_back { sem 𝓛 (lends_value V.row self.entry index result) }
    {
        self.values[index].get_or_insert(value)
    }

    /// Returns the symbols that have a value, each with its value, in the order of the symbols.
    ///
    /// ```
    /// let mut words = WordList::new(rt.alloc());
    /// let mut map: SymbolMap<u64> = SymbolMap::new(rt.alloc());
    /// let foo = words.intern("foo")?;
    /// map.insert(words.intern("bar")?, 1)?;
    /// map.insert(foo, 2)?;
    /// let mut pairs = map.iter();
    /// assert!(rt; pairs.next() == Some((foo, &2)));
    /// ```
    pub fn iter(&self) -> SymbolMapIter<'_, V>
        ensures { result ≡ pairs_from 0 self.now }
    {
        SymbolMapIter {
            values: self.values.as_slice(),
            next: 0,
        }
    }
}

/// Prints the symbols and their values as a map, in the order of the symbols.
///
/// ```
/// let symbol = Interner::new(rt.alloc()).intern("foo")?;
/// let mut map: SymbolMap<u64> = SymbolMap::new(rt.alloc());
/// map.insert(symbol, 7)?;
/// let printed = format!(in rt.alloc(); "{map:?}")?;
/// assert_eq!(rt; printed.as_str(), "{Symbol(0): 7}");
/// ```
impl<V: fmt::Debug> fmt::Debug for SymbolMap<V> {
    fn fmt<W: fmt::Write>(&self, f: &mut fmt::Formatter<W>) -> fmt::Result {
        f.debug_map().entries(self.iter()).finish()
    }
}

/// Makes an entry for this index.
fn make_room_for<V>(values: &mut Vec<Option<V>>, index: usize) -> Result<(), AllocError>
    requires { index < 2 ^ 32 }
    ensures same { HaveSameValues values.new.items values.old.items }
    ensures reached { OnOk result (index < length values.new.items) }
    ensures few { length values.old.items ≤ 2 ^ 32 → length values.new.items ≤ 2 ^ 32 }
{
    if index < values.len() {
        return Ok(());
    }
    values.reserve(index - values.len() + 1)?;
    while values.len() <= index {
        values.push_reserved(None);
    }
    Ok(())
}

/// The symbols of a `SymbolMap` and their values, seen as the list of the pairs that are left.
///
/// ```
/// let symbol = Interner::new(rt.alloc()).intern("foo")?;
/// let mut map: SymbolMap<u64> = SymbolMap::new(rt.alloc());
/// map.insert(symbol, 7)?;
/// let mut pairs: SymbolMapIter<u64> = map.iter();
/// assert!(rt; pairs.next() == Some((symbol, &7)));
/// assert!(rt; pairs.next().is_none());
/// ```
#[derive(Drop)]
pub struct SymbolMapIter<'a, V> {
    values: &'a [Option<V>],
    next: usize,
}

impl<'a, V> Model for SymbolMapIter<'a, V> {
    ghost use Rattle.std.specs.Prelude.{ℕ, List, ◌+◌, ◌^◌, ◌≤◌, length};
    ghost use Rattle.arcintern.specs.Values.{pairs_from};

    ghost Value = { List (ℕ × V) };

    ghost view = { λ it. pairs_from it.next it.values.now };

    ghost invariant = { λ it. it.next + length it.values.now ≤ 2 ^ 32 };
}

impl<'a, V> Iterator for SymbolMapIter<'a, V> {
    type Item = (Symbol, &'a V);

    ghost next_gives = { YieldsFirstBy (λ item. (item.0, item.1.now)) (λ rest. rest) };

    ghost remaining = { item_count (λ rest. rest) };

    fn next(&mut self) -> Option<(Symbol, &'a V)> {
        while let Some((entry, rest)) = self.values.split_first() {
            let symbol = Symbol::at(self.next);
            self.values = rest;
            self.next += 1;
            if let Some(value) = entry {
                return Some((symbol, value));
            }
        }
        None
    }
}
