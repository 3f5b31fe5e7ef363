//! The memory of a block, in one piece: the bytes of its text, then its count word and the length
//! of the text in bytes. In this module one owner has all of it: its maker, or whoever frees it.
ghost use Rattle.std.specs.Prelude.{◌≡◌, ◌≤◌, ◌+◌, ◌++◌, ℕ, Bool, false, List, length};
ghost use Rattle.std.specs.Prelude.{take, drop, replicate, IfOk, IsUtf8};
ghost use denote.Sharing.{said};
ghost use Rattle.std.specs.Borrow.{sem};
ghost use Rattle.core.specs.Mem.Slots.{slots_ptr, slots_len, slots_items, slots_filled};
ghost use Rattle.core.specs.Mem.Slots.Ownership.{Filled, SameOutside, owned, lent};
ghost use Rattle.std.specs.Borrow.{u8};
ghost use Rattle.arcstr_block.specs.Memory.{Fits, in_memory, word_offset, block_size, blank_owns, sole_owns};

use core::slots::Slots;
use std::alloc::{AllocError, Allocator};
use std::marker::{Model, PhantomData};
use std::mem::align_of;
use std::slice;

/// What follows the bytes of a text, at the first multiple of 8 past them.
pub(crate) struct Tail {
    pub(crate) word: u64,
    pub(crate) length: usize,
}

/// A new block, of whose bytes some may not be written yet. They are in a separate `Row`.
pub(crate) struct Blank<A: Allocator> {
    at: *mut u8,
    marker: PhantomData<A>,
    pub ghost home: { A },
    pub ghost word: { ℕ },
    pub ghost length: { ℕ },
}

impl<A: Allocator> Model for Blank<A> {
    ghost also_owns = { λ b. blank_owns (A.dealloc_token b.home) b.at b.word b.length };

    ghost also_shares = { λ b _ κ. said (in_memory b.at (Fits b.length)) κ };
}

/// The memory of a block whose text is written and which has one owner.
pub(crate) struct Sole<A: Allocator> {
    pub(crate) at: *mut u8,
    pub(crate) marker: PhantomData<A>,
    pub ghost home: { A },
    pub ghost word: { ℕ },
    pub ghost text: { List ℕ },
}

impl<A: Allocator> Model for Sole<A> {
    ghost also_owns = { λ s. sole_owns (A.dealloc_token s.home) s.at s.word s.text };
}

impl<A: Allocator> Blank<A> {
    /// Allocates a block, `size` bytes for a text of `len`, and writes the count word at the word
    /// offset `offset`, and the length.
    pub(crate) fn make(
        alloc: &A,
        word: u64,
        len: usize,
        offset: usize,
        size: usize,
    ) -> Result<(Blank<A>, Row), AllocError>
        requires offset { offset ≡ word_offset len }
        requires size { size ≡ block_size len }
        requires fits { Fits len }
        ensures home { IfOk result (λ made. made.0.home ≡ alloc.now) }
        ensures word { IfOk result (λ made. made.0.word ≡ word) }
        ensures length { IfOk result (λ made. (made.0.length ≡ len) × (length made.1.items ≡ len)) }
        ensures bytes { IfOk result (λ made. made.1.at ≡ made.0.at) }
        ensures empty { IfOk result (λ made. made.1.items ≡ replicate len 0) }
    {
        match alloc.allocate(size, align_of::<Tail>()) {
            Ok(at) => unsafe {
                let tail = at.add(offset) as *mut Tail;
                (&raw mut (*tail).word).write(word);
                (&raw mut (*tail).length).write(len);
                let bytes = Row { at };
                let blank = Blank {
                    at,
                    marker: PhantomData,
                };
                Ok((blank, bytes))
            },
            Err(refused) => Err(refused),
        }
    }

    /// Returns the block, once each of its bytes is written.
    pub(crate) fn close(self, bytes: Row) -> Sole<A>
        requires here { bytes.at ≡ self.at }
        requires long { length bytes.items ≡ self.length }
        requires written { Filled bytes.filled 0 self.length }
        ensures home { result.home ≡ self.home }
        ensures word { result.word ≡ self.word }
        ensures text { result.text ≡ bytes.items }
    {
        let Blank { at, marker } = self;
        let Row { at: _ } = bytes;
        Sole { at, marker }
    }

    /// Returns the first `len` bytes, which are written.
    fn written<'a>(&'a self, bytes: &'a Row, len: usize) -> &'a [u8]
        requires here { bytes.now.at ≡ self.now.at }
        requires inside { len ≤ length bytes.now.items }
        requires written { Filled bytes.now.filled 0 len }
        ensures { result.now ≡ take len bytes.now.items }
    {
        unsafe { slice::from_raw_parts(self.at, len) }
    }

    /// Returns the first `len` bytes, which are a text. It stands apart from `written`, which alone
    /// has a whole proof by hand.
    pub(crate) fn text<'a>(&'a self, bytes: &'a Row, len: usize) -> &'a str
        requires here { bytes.now.at ≡ self.now.at }
        requires inside { len ≤ length bytes.now.items }
        requires written { Filled bytes.now.filled 0 len }
        requires utf8 { IsUtf8 (take len bytes.now.items) }
        ensures { result.now ≡ take len bytes.now.items }
    {
        let written = self.written(bytes, len);
        unsafe { str::from_utf8_unchecked(written) }
    }

    /// Frees the memory, whichever bytes are written. Nothing of it is left that a clause could
    /// name.
    pub(crate) fn give_back(self, bytes: Row, alloc: &A, size: usize)
        requires here { bytes.at ≡ self.at }
        requires long { length bytes.items ≡ self.length }
        requires home { self.home ≡ alloc.now }
        requires size { size ≡ block_size self.length }
    {
        let Blank { at, marker: _ } = self;
        let Row { at: _ } = bytes;
        unsafe { alloc.deallocate(at, size, align_of::<Tail>()) }
    }
}

impl<A: Allocator> Sole<A> {
    ghost use Rattle.arcstr_block.specs.Lends.{sole_follows};

    /// Lends the bytes of the text for writing.
    pub(crate) fn lend(&mut self, len: usize) -> &mut [u8]
        requires { len ≡ length self.old.text }
        ensures* follows { sem 𝓛 (sole_follows A.row A.Allocator self.entry result) }
        ensures text { result.now ≡ self.old.text }
    {
        unsafe { slice::from_raw_parts_mut(self.at, len) }
    }

    /// Frees the memory, of which nothing is left that a clause could name.
    pub(crate) fn give_back(self, alloc: &A, size: usize)
        requires home { self.home ≡ alloc.now }
        requires size { size ≡ block_size (length self.text) }
    {
        let Sole { at, marker: _ } = self;
        unsafe { alloc.deallocate(at, size, align_of::<Tail>()) }
    }
}

/// Returns the word offset of a block, in bytes past its address: the first multiple of 8 past a
/// text of `len` bytes.
pub(crate) fn offset_of_word(len: usize) -> usize
    requires { Fits len }
    ensures { result ≡ word_offset len }
{
    (len + 7) / 8 * 8
}

/// Returns the size in bytes of a block for a text of `len` bytes: 16 plus `len`, rounded up to a
/// multiple of 8.
pub(crate) fn size_of_block(len: usize) -> usize
    requires { Fits len }
    ensures { result ≡ block_size len }
{
    (16 + len + 7) / 8 * 8
}

/// The bytes of a block between two calls: a `Slots` that may go to another thread.
pub(crate) struct Row {
    at: *mut u8,
    pub ghost items: { List ℕ },
    pub ghost filled: { List Bool },
    ghost counts: { length items ≡ length filled },
}

impl Model for Row {
    ghost also_owns = { λ r. owned u8 r.at (length r.items) r.items r.filled };

    ghost also_shares = { λ r _ κ. lent u8 r.at (length r.items) r.items r.filled κ };
}

impl Row {
    pub(crate) fn of(bytes: Slots<u8>) -> Row
        ensures at { result.at ≡ slots_ptr bytes }
        ensures items { result.items ≡ slots_items bytes }
        ensures filled { result.filled ≡ slots_filled bytes }
    {
        let parts = unsafe { bytes.into_raw_parts() };
        Row { at: parts.0 }
    }

    pub(crate) fn into_slots(self, len: usize) -> Slots<u8>
        requires { len ≡ length self.items }
        ensures at { slots_ptr result ≡ self.at }
        ensures len { slots_len result ≡ len }
        ensures items { slots_items result ≡ self.items }
        ensures filled { slots_filled result ≡ self.filled }
    {
        let Row { at } = self;
        unsafe { Slots::from_raw_parts(at, len) }
    }

    /// Writes a text behind the first `what.1` bytes of a row of `what.0`.
    pub(crate) fn with_text(self, what: (usize, usize, &str)) -> (Row, ())
        requires length { what.0 ≡ length self.items }
        requires room { what.1 + length what.2.now ≤ what.0 }
        ensures at { result.0.at ≡ self.at }
        ensures length { length result.0.items ≡ length self.items }
        ensures items { result.0.items ≡ take what.entry.1 self.items ++ what.entry.2.now
            ++ drop (what.entry.1 + length what.entry.2.now) self.items }
        ensures filled { Filled result.0.filled what.entry.1
            (what.entry.1 + length what.entry.2.now)
            × SameOutside false self.filled result.0.filled what.entry.1
            (what.entry.1 + length what.entry.2.now) }
    {
        let mut bytes = self.into_slots(what.0);
        bytes.copy_in(what.1, what.2.as_bytes());
        (Row::of(bytes), ())
    }
}

// The content is plain bytes, and is freed in whichever thread the owner is.
unsafe impl<A: Allocator + Send> Send for Blank<A> {}

unsafe impl Send for Row {}
