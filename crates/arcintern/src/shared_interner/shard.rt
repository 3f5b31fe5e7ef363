//! The part of a shared interner that has tables and a lock of its own.
//!
//! A clause cannot see what an atomic holds. So the contracts say of a table that a search answers
//! only a text that spells the word, and that a number is put only where no other is. The tests
//! `known_words_are_found_while_tables_grow` and `a_hundred_words_of_one_hash_are_told_apart` check
//! that a search finds each word.
ghost use Rattle.std.specs.Prelude.{◌≡◌, ◌+◌, ◌*◌, ◌/◌, ◌%◌, ◌<◌, ◌↔◌, ◌⊎◌, IfOk, IfSome, IsTrue, length};
ghost use Rattle.arcintern.specs.Slots.{room_of};
ghost use Rattle.arcintern.specs.Texts.{IsSymbolOfWord};

use crate::shared_interner::SharedSymbol;
use crate::shared_interner::text_list::{Place, TextList};
use crate::slots::{NUMBERS, slots_for};
use boxcar::slot::OnceSlot;
use boxcar::tag::Tag;
use std::alloc::{AllocError, Global};
use std::array;
use std::sync::Mutex;
use std::sync::atomic::{AtomicU64, AtomicUsize, Ordering};

/// How many tables a shard can have. The last has `2^33` slots, which is enough for all numbers.
const TABLES: usize = 30;

/// What `first_of` returns where a search passes the last slot. It has no number.
const PASSED: u64 = NUMBERS;

/// The words whose hashes pick this shard.
///
/// Threads read a table while another adds a word, so its memory stays where it is. A table that is
/// too short is kept beside one that is twice as long and has the same numbers.
#[derive(Drop)]
pub(crate) struct Shard {
    tables: [Place<Table>; TABLES],
    /// How many tables there are. The last is the longest, and has all numbers.
    made: AtomicUsize,
    /// How many slots of the longest table are taken. A call that adds a word holds the lock.
    pub(crate) used: Mutex<usize>,
}

impl Shard {
    /// Makes a shard without words, whose table does not grow for this many. No clause sees which
    /// tables are made.
    pub(crate) fn with_capacity(alloc: Global, words: usize) -> Result<Shard, AllocError> {
        let shard = Shard {
            tables: array::from_fn(|_| OnceSlot::new(&Tag::empty())),
            made: AtomicUsize::new(0),
            used: Mutex::new(0),
        };
        if words > 0 {
            shard.add(Table::new(alloc, slots_for(words)?)?)?;
        }
        Ok(shard)
    }

    /// Returns the longest table, if there is one. No clause sees which that is.
    #[inline(always)]
    fn table(&self) -> Option<&Table> {
        let made = self.made.load(Ordering::Acquire);
        self.tables.get(made.wrapping_sub(1))?.get()
    }

    /// Returns the symbol of this word, whose hash has this half, if a text of the list spells it.
    pub(crate) fn find(&self, half: u32, texts: &TextList, word: &str) -> Option<SharedSymbol>
        ensures { IfSome result (λ symbol. IsSymbolOfWord texts.now symbol word.now) }
    {
        self.table()?.find(half, texts, word)
    }

    /// Returns the longest table. If less than a quarter of its slots would be empty with one more
    /// number, that is a new one. The caller holds `used`.
    pub(crate) fn table_with_room(&self, alloc: Global, used: usize) -> Result<&Table, AllocError>
        ensures { IfOk result (λ table. used < room_of (length table.now.slots.items)) }
    {
        let longer = match self.table() {
            Some(table) if table.has_room(used) => return Ok(table),
            Some(table) => table.longer()?,
            None => Table::new(alloc, 16)?,
        };
        if longer.has_room(used) {
            self.add(longer)
        } else {
            Err(AllocError)
        }
    }

    /// Adds a table, which then is the longest. The caller holds `used`.
    fn add(&self, table: Table) -> Result<&Table, AllocError>
        ensures { IfOk result (λ added. added.now ≡ table) }
    {
        let made = self.made.load(Ordering::Acquire);
        let Some(place) = self.tables.get(made) else {
            return Err(AllocError);
        };
        let Ok(added) = place.set(table) else {
            return Err(AllocError);
        };
        self.made.store(made.wrapping_add(1), Ordering::Release);
        Ok(added)
    }
}

/// A table of slots of the form that `Slots` describes. A search that passes the last slot goes on
/// at the first.
#[derive(Drop)]
pub(crate) struct Table {
    slots: Vec<AtomicU64>,
    ghost some: { 0 < length slots.items },
}

impl Table {
    /// Makes a table of empty slots. A length that is a power of two is best.
    fn new(alloc: Global, len: usize) -> Result<Table, AllocError>
        requires { 0 < len }
        ensures { IfOk result (λ table. length table.slots.items ≡ len) }
    {
        let mut slots = Vec::with_capacity(alloc, len)?;
        while slots.len() < len {
            slots.push_reserved(AtomicU64::new(0));
        }
        Ok(Table { slots })
    }

    /// Returns the index where a search under this half of a hash begins.
    #[inline(always)]
    fn home(&self, half: u32) -> usize
        ensures { result < length self.now.slots.items }
    {
        half as usize & (self.slots.len() - 1)
    }

    /// Returns whether a quarter of the slots stays empty after this many numbers and one more.
    fn has_room(&self, used: usize) -> bool
        ensures { IsTrue result ↔ (used < room_of (length self.now.slots.items)) }
    {
        used < self.slots.len() - self.slots.len() / 4
    }

    /// Returns the symbol of this word, whose hash has this half, if a text of the list spells it.
    ///
    /// Most searches end before the last slot, and at the first number under the half.
    /// `find_slowly` does the others.
    #[inline(always)]
    pub(crate) fn find(&self, half: u32, texts: &TextList, word: &str) -> Option<SharedSymbol>
        ensures { IfSome result (λ symbol. IsSymbolOfWord texts.now symbol word.now) }
    {
        let slot = first_of(&self.slots, self.home(half), half);
        if slot == 0 {
            return None;
        }
        match texts.find(number_in(slot), word) {
            Some(symbol) => Some(symbol),
            None => self.find_slowly(half, texts, word),
        }
    }

    /// As `find`, at all numbers, also behind the last slot.
    #[cold]
    fn find_slowly(&self, half: u32, texts: &TextList, word: &str) -> Option<SharedSymbol>
        ensures { IfSome result (λ symbol. IsSymbolOfWord texts.now symbol word.now) }
    {
        let (before, behind) = self.slots.split_at(self.home(half));
        match search(behind, half, texts, word) {
            Ok(symbol) => Some(symbol),
            Err(true) => None,
            Err(false) => search(before, half, texts, word).ok(),
        }
    }

    /// Returns the index of the first empty slot that a search under this half of a hash reaches,
    /// and whether the search passes a number under the half.
    pub(crate) fn empty_slot(&self, half: u32) -> Option<(usize, bool)>
        ensures { IfSome result (λ found. found.0 < length self.now.slots.items) }
    {
        let mut index = self.home(half);
        let mut is_passed = false;
        for _ in 0..self.slots.len() {
            let slot = self.slots.get(index)?.load(Ordering::Acquire);
            if slot == 0 {
                return Some((index, is_passed));
            }
            is_passed |= slot >> 32 == half as u64;
            index = (index + 1) & (self.slots.len() - 1);
        }
        None
    }

    /// Writes a number, under half of a hash, to the slot with this index, and returns 0. A slot
    /// that is not empty stays as it is, and its value is returned as `Err`.
    pub(crate) fn put(&self, index: usize, half: u32, number: u32) -> Result<u64, u64>
        requires index { index < length self.now.slots.items }
        requires number { number + 1 < NUMBERS }
        ensures { IfOk result (λ held. held ≡ 0) }
    {
        let slot = half as u64 * NUMBERS + number as u64 + 1;
        let (put, held) = (Ordering::AcqRel, Ordering::Acquire);
        self.slots[index].compare_exchange(0, slot, put, held)
    }

    /// Makes a table that is twice as long, with the same numbers.
    fn longer(&self) -> Result<Table, AllocError>
        ensures { IfOk result (λ longer. length longer.slots.items
            ≡ 2 * length self.now.slots.items) }
    {
        let mut longer = Table::new(*self.slots.allocator(), self.slots.len() * 2)?;
        for slot in &self.slots {
            longer.take_over(slot.load(Ordering::Acquire));
        }
        Ok(longer)
    }

    /// Copies a slot of another table, unless it is empty.
    fn take_over(&mut self, slot: u64)
        ensures { length self.new.slots.items ≡ length self.old.slots.items }
    {
        if slot != 0 {
            if let Some((index, _)) = self.empty_slot((slot >> 32) as u32) {
                self.slots[index] = AtomicU64::new(slot);
            }
        }
    }
}

/// Returns the first of these slots, from this offset on, that is empty or has this half of a hash,
/// and `PASSED` if there is none.
#[inline(always)]
fn first_of(slots: &[AtomicU64], from: usize, half: u32) -> u64
    ensures { (result ≡ 0) ⊎ (result / NUMBERS ≡ half) ⊎ (result ≡ PASSED) }
{
    // Two slots at a time, without a branch between them: no processor predicts at which of them a
    // search ends.
    let half = half as u64;
    let mut offset = from;
    while let Some(slot) = slots.get(offset) {
        let first = slot.load(Ordering::Acquire);
        let second = match slots.get(offset + 1) {
            Some(slot) => slot.load(Ordering::Acquire),
            None => PASSED,
        };
        let is_first = (first == 0) | (first >> 32 == half);
        let slot = if is_first { first } else { second };
        if (slot == 0) | (slot >> 32 == half) {
            return slot;
        }
        offset = offset.saturating_add(2);
    }
    PASSED
}

/// Returns the number in a slot. An empty slot and `PASSED` give one that no text has.
fn number_in(slot: u64) -> usize
    ensures { 0 < slot % NUMBERS → result + 1 ≡ slot % NUMBERS }
{
    ((slot % NUMBERS) as u32).wrapping_sub(1) as usize
}

/// As `Table::find`, in these slots. Otherwise, returns whether the search comes to an empty slot.
fn search(
    slots: &[AtomicU64],
    half: u32,
    texts: &TextList,
    word: &str,
) -> Result<SharedSymbol, bool>
    ensures { IfOk result (λ symbol. IsSymbolOfWord texts.now symbol word.now) }
{
    for slot in slots {
        let slot = slot.load(Ordering::Acquire);
        if slot == 0 {
            return Err(true);
        }
        if slot >> 32 == half as u64 {
            if let Some(symbol) = texts.find(number_in(slot), word) {
                return Ok(symbol);
            }
        }
    }
    Err(false)
}
