//! Builds a text in the memory of its block: the block is made first, and the text is appended to
//! it.
ghost use Rattle.std.specs.Prelude.{◌≡◌, ◌↔◌, ◌+◌, ◌≤◌, ◌<◌, [], ◌++◌, length, take};
ghost use Rattle.std.specs.Prelude.{IfOk, IfErr, IsErrOf, IsOk, IsTrue, IsUtf8};
ghost use Rattle.std.proofs.Props.{props};
ghost use Rattle.core.specs.Mem.Slots.Ownership.{Filled};
ghost use Rattle.arcstr_count.specs.Word.{bits_of, fresh_word};
ghost use Rattle.arcstr_block.specs.Memory.{Fits};
ghost use Rattle.arcstr_block.specs.Making.{IsTooLong, IsFaultOfMaking};
ghost use Rattle.arcstr_block.specs.Building.{Unfinished, HasRoom, IsDoubled};

use crate::block::{Blank, Row, size_of_block};
use crate::fault::{TOO_LONG, TextFault};
use crate::making::blank_block;
use crate::shared::Shared;
use arcstr_count::RC_MAX;
use core::mem::replace_with;
use std::alloc::Allocator;
use std::marker::Model;
use std::mem;

/// The capacity, in bytes, up to which a block grows by eight.
const LARGE: usize = 1 << 27;

/// A text that is being built in the block that is to hold it. Contracts see the text so far, and
/// the capacity: the number of bytes that the block has room for. Its drop frees the block.
///
/// ```
/// let mut draft = Draft::new(rt.alloc(), 3)?;
/// draft.append("a");
/// draft.append("é");
/// let text: Shared<5, _> = draft.fill("");
/// assert_eq!(rt; text.as_str(), "aé");
/// ```
pub struct Draft<A: Allocator + Copy> {
    blank: Blank<A>,
    bytes: Row,
    len: usize,
    capacity: usize,
    alloc: A,
    ghost inside: { len ≤ capacity },
    ghost text: { IsUtf8 (take len bytes.items) } by { Prim.hlevel props },
    ghost written: { Filled bytes.filled 0 len } by { Prim.hlevel props },
    ghost here: { bytes.at ≡ blank.at },
    ghost room: { capacity ≡ length bytes.items },
    ghost long: { capacity ≡ blank.length },
    ghost fits: { Fits capacity },
    ghost word: { blank.word ≡ bits_of fresh_word },
    ghost home: { blank.home ≡ alloc },
}

impl<A: Allocator + Copy> Model for Draft<A> {
    ghost Value = { Unfinished };

    ghost view = { λ d. record { text = take d.len d.bytes.items; capacity = d.capacity } };
}

impl<A: Allocator + Copy> Draft<A> {
    /// Makes the block for a text of at most `capacity` bytes, which is empty so far. The call
    /// makes one allocation. Errors, in this order: `Length`, for a capacity of `2^63 - 25` bytes
    /// or more; `Memory`, for an allocation failure.
    ///
    /// ```
    /// let draft = Draft::new(rt.alloc(), 3)?;
    /// assert_eq!(rt; (draft.as_str(), draft.capacity()), ("", 3));
    /// ```
    pub fn new(alloc: A, capacity: usize) -> Result<Draft<A>, TextFault>
        ensures empty { IfOk result (λ made. made.text ≡ []) }
        ensures capacity { IfOk result (λ made. made.capacity ≡ capacity) }
        // Promise: It fails with `Length` exactly if the capacity is too long.
        ensures too_long { IsErrOf result TextFault.Length ↔ IsTooLong capacity }
        ensures refused { IfErr result (IsFaultOfMaking capacity) }
    {
        if capacity >= TOO_LONG {
            return Err(TextFault::Length);
        }
        let (blank, bytes) = blank_block(alloc, capacity)?;
        Ok(Draft {
            blank,
            bytes,
            len: 0,
            capacity,
            alloc,
        })
    }

    /// Returns the text so far.
    ///
    /// ```
    /// let mut draft = Draft::new(rt.alloc(), 3)?;
    /// draft.append("a");
    /// assert_eq!(rt; draft.as_str(), "a");
    /// ```
    pub fn as_str(&self) -> &str
        ensures { result.now ≡ self.now.text }
    {
        self.blank.text(&self.bytes, self.len)
    }

    /// Returns the number of bytes of the text so far.
    pub fn len(&self) -> usize
        ensures { result ≡ length self.now.text }
    {
        self.len
    }

    /// Returns the number of bytes that the block has room for, which is less than `2^63 - 25`.
    pub fn capacity(&self) -> usize
        ensures capacity { result ≡ self.now.capacity }
        ensures fits { Fits result }
    {
        self.capacity
    }

    /// Returns whether there is room for `additional` bytes more.
    ///
    /// ```
    /// let draft = Draft::new(rt.alloc(), 3)?;
    /// assert_eq!(rt; (draft.has_room(3), draft.has_room(4)), (true, false));
    /// ```
    pub fn has_room(&self, additional: usize) -> bool
        ensures room { IsTrue result ↔ HasRoom self.now additional }
        // Promise: A text for which there is room is not too long.
        ensures fits { IsTrue result → Fits (length self.now.text + additional) }
    {
        additional <= self.capacity - self.len
    }

    /// Appends a text for which there is room. It cannot fail.
    ///
    /// ```
    /// let mut draft = Draft::new(rt.alloc(), 3)?;
    /// draft.append("a");
    /// draft.append("é");
    /// assert_eq!(rt; draft.as_str(), "aé");
    /// ```
    pub fn append(&mut self, text: &str)
        requires room { HasRoom self.old (length text.now) }
        ensures text { self.new.text ≡ self.old.text ++ text.now }
        ensures capacity { self.new.capacity ≡ self.old.capacity }
    {
        let what = (self.capacity, self.len, text);
        replace_with(&mut self.bytes, what, Row::with_text);
        self.len += text.len();
    }

    /// Makes room for `additional` bytes more. If there is none, the call moves the text to a new
    /// block of at least twice the capacity, by one allocation, so that the bytes copied by all
    /// such moves are fewer than twice those appended. Errors, in this order: `Length`, for a text
    /// of `2^63 - 25` bytes or more; `Memory`, for an allocation failure. The text then stays where
    /// it is.
    ///
    /// ```
    /// let mut draft = Draft::new(rt.alloc(), 3)?;
    /// draft.append("aé");
    /// draft.reserve(1)?;
    /// assert_eq!(rt; (draft.as_str(), draft.capacity()), ("aé", 24));
    /// ```
    pub fn reserve(&mut self, additional: usize) -> Result<(), TextFault>
        ensures text { self.new.text ≡ self.old.text }
        ensures room { IfOk result (λ _. length self.old.text + additional ≤ self.new.capacity) }
        // Promise: If there is room, it does nothing and cannot fail.
        ensures within { HasRoom self.old additional → IsOk result }
        ensures stays { HasRoom self.old additional → self.new.capacity ≡ self.old.capacity }
        ensures left { IfErr result (λ _. self.new.capacity ≡ self.old.capacity) }
        // Promise: A block that is too small is left for one of at least twice its capacity.
        ensures doubles { self.old.capacity < length self.old.text + additional
            → IfOk result (λ _. IsDoubled self.old.capacity self.new.capacity) }
        // Promise: It fails with `Length` exactly if the text would be too long.
        ensures too_long { IsErrOf result TextFault.Length
            ↔ IsTooLong (length self.old.text + additional) }
        ensures refused { IfErr result (IsFaultOfMaking (length self.old.text + additional)) }
    {
        if self.has_room(additional) {
            return Ok(());
        }
        match self.len.checked_add(additional) {
            Some(needed) if needed < TOO_LONG => self.grow(larger(self.capacity, needed)),
            _ => Err(TextFault::Length),
        }
    }

    /// Moves the text to a new block of this capacity, and frees the old one. The call makes one
    /// allocation. Errors as `new` does; the text then stays where it is.
    fn grow(&mut self, capacity: usize) -> Result<(), TextFault>
        requires room { length self.old.text ≤ capacity }
        ensures text { self.new.text ≡ self.old.text }
        ensures grown { IfOk result (λ _. self.new.capacity ≡ capacity) }
        ensures left { IfErr result (λ _. self.new.capacity ≡ self.old.capacity) }
        // Promise: It fails with `Length` exactly if the capacity is too long.
        ensures too_long { IsErrOf result TextFault.Length ↔ IsTooLong capacity }
        ensures refused { IfErr result (IsFaultOfMaking capacity) }
    {
        let mut larger = Draft::new(self.alloc, capacity)?;
        larger.append(self.as_str());
        let smaller = mem::replace(self, larger);
        drop(smaller);
        Ok(())
    }

    /// Appends the text that fills the block, and returns the first handle on it. It copies only
    /// that text, does not allocate and cannot fail.
    ///
    /// ```
    /// let draft = Draft::new(rt.alloc(), 3)?;
    /// let text: Shared<5, _> = draft.fill("aé");
    /// assert_eq!(rt; text.as_str(), "aé");
    /// ```
    pub fn fill<const LIMIT: u64>(mut self, rest: &str) -> Shared<LIMIT, A>
        requires limit { LIMIT ≤ RC_MAX }
        requires full { length self.text + length rest.now ≡ self.capacity }
        ensures text { result.text ≡ self.text ++ rest.now }
        ensures limit { result.limit ≡ LIMIT }
        // Promise: The handle is the first of its block.
        ensures first { result.seat ≡ 0 }
    {
        self.append(rest);
        self.close()
    }

    /// Returns the first handle on the text. If the text fills its block, the call neither copies
    /// nor allocates, and cannot fail. Otherwise it copies the text to a block of its length, by
    /// one allocation, and frees the old one. Fails only with `Memory`.
    ///
    /// ```
    /// let mut draft = Draft::new(rt.alloc(), 8)?;
    /// draft.append("aé");
    /// let text: Shared<5, _> = draft.finish()?;
    /// assert_eq!(rt; text.as_str(), "aé");
    /// ```
    pub fn finish<const LIMIT: u64>(self) -> Result<Shared<LIMIT, A>, TextFault>
        requires limit { LIMIT ≤ RC_MAX }
        ensures made { IfOk result (λ made. made.text ≡ self.text) }
        ensures limit { IfOk result (λ made. made.limit ≡ LIMIT) }
        // Promise: The handle is the first of its block.
        ensures first { IfOk result (λ made. made.seat ≡ 0) }
        // Promise: A text that fills its block is always made.
        ensures full { length self.text ≡ self.capacity → IsOk result }
        ensures refused { IfErr result (λ fault. fault ≡ TextFault.Memory) }
    {
        if self.len == self.capacity {
            return Ok(self.close());
        }
        Shared::from_text(self.alloc, self.as_str())
    }

    /// Returns the first handle on a text that fills its block.
    pub(crate) fn close<const LIMIT: u64>(self) -> Shared<LIMIT, A>
        requires limit { LIMIT ≤ RC_MAX }
        requires full { length self.text ≡ self.capacity }
        ensures text { result.text ≡ self.text }
        ensures limit { result.limit ≡ LIMIT }
        ensures first { result.seat ≡ 0 }
    {
        let Draft {
            blank,
            bytes,
            len,
            capacity,
            alloc,
        } = self;
        Shared::first_handle(blank.close(bytes), len, alloc)
    }
}

impl<A: Allocator + Copy> Drop for Draft<A> {
    /// Frees the block.
    fn drop(self) {
        let Draft {
            blank,
            bytes,
            len: _,
            capacity,
            alloc,
        } = self;
        blank.give_back(bytes, &alloc, size_of_block(capacity));
    }
}

/// The capacity after a move: twice the one before, or up to eight times if that is at most
/// `LARGE`, but at least what is needed, and below the least that is too long. Memory that is not
/// written costs nothing, and `finish` leaves none, but an allocator refuses more than the machine
/// may have.
fn larger(capacity: usize, needed: usize) -> usize
    requires capacity { Fits capacity }
    requires needed { Fits needed }
    ensures fits { Fits result }
    ensures enough { needed ≤ result }
    ensures doubles { IsDoubled capacity result }
{
    let by_eight = capacity.saturating_mul(8).min(LARGE);
    let grown = capacity.saturating_mul(2).max(by_eight);
    needed.max(grown.min(TOO_LONG - 1))
}
