//! Makes blocks that hold a copy of a text, what a closure leaves, or copies of a text, each with
//! one allocation.
ghost use Rattle.std.specs.Prelude.{◌≡◌, ◌↔◌, ◌*◌, ◌≤◌, length, replicate, IfOk, IfErr, IsErrOf, IsUtf8};
ghost use Rattle.std.specs.Fn.{FnOnceReturnsAtMut, FnOnceTakesAtMut};
ghost use Rattle.std.specs.List.{repeat};
ghost use Rattle.core.specs.Mem.Slots.{SamePlaces, slots_ptr, slots_len, slots_items, slots_filled};
ghost use Rattle.core.specs.Mem.Slots.Ownership.{Filled};
ghost use Rattle.arcstr_count.specs.Word.{bits_of, fresh_word};
ghost use Rattle.arcstr_block.specs.Memory.{Fits};
ghost use Rattle.arcstr_block.specs.Making.{IsTooLong, IsFaultOfMaking, IsFaultOfBytes, IsFaultOfFilling};

use crate::block::{Blank, Row, offset_of_word, size_of_block};
use crate::building::Draft;
use crate::fault::{TOO_LONG, TextFault};
use crate::shared::Shared;
use arcstr_count::{RC_MAX, Word};
use core::slots::Slots;
use std::alloc::Allocator;

impl<const LIMIT: u64, A: Allocator + Copy> Shared<LIMIT, A> {
    /// Returns the first handle on a new block with a copy of this text. The call makes one
    /// allocation, of 16 bytes plus the text, rounded up to a multiple of 8. An empty text has a
    /// block too. Errors, in this order: `Length`, for a text of `2^63 - 25` bytes or more;
    /// `Memory`, for an allocation failure. The caller has to ensure that `LIMIT` is at most
    /// `RC_MAX`.
    ///
    /// ```
    /// let text = Shared::<5, _>::from_text(rt.alloc(), "aé")?;
    /// assert_eq!(rt; (text.as_str(), text.look().0), ("aé", Some(1)));
    /// ```
    pub fn from_text(alloc: A, text: &str) -> Result<Shared<LIMIT, A>, TextFault>
        requires limit { LIMIT ≤ RC_MAX }
        ensures made { IfOk result (λ made. made.text ≡ text.now) }
        ensures limit { IfOk result (λ made. made.limit ≡ LIMIT) }
        // Promise: The handle is the first of its block.
        ensures first { IfOk result (λ made. made.seat ≡ 0) }
        // Promise: It fails with `Length` exactly if the text is too long, and otherwise only with
        // `Memory`.
        ensures too_long { IsErrOf result TextFault.Length ↔ IsTooLong (length text.now) }
        ensures refused { IfErr result (IsFaultOfMaking (length text.now)) }
    {
        Ok(Draft::new(alloc, text.len())?.fill(text))
    }

    /// Returns the first handle on a new block with the text that `fill` leaves in `n` zero bytes.
    /// The call makes one allocation, before the closure runs. The caller has to ensure that
    /// `LIMIT` is at most `RC_MAX`, and that the closure accepts `n` zero bytes, unless `n` is too
    /// long.
    ///
    /// Errors, in this order: `Length`, for a length of `2^63 - 25` bytes or more, and `Memory`,
    /// for an allocation failure; after either the closure does not run. `Utf8`, for bytes that are
    /// not UTF-8 after the closure ran, with the length in bytes of their longest prefix that is
    /// UTF-8; the memory is then freed.
    ///
    /// ```
    /// let text = Shared::<5, _>::init(rt.alloc(), 2, |bytes| bytes.fill(b'a'))?;
    /// assert_eq!(rt; text.as_str(), "aa");
    /// let made = Shared::<5, _>::init(rt.alloc(), 2, |bytes| bytes[1] = 255);
    /// assert!(rt; matches!(made, Err(TextFault::Utf8(1))));
    /// ```
    pub fn init<F: FnOnce(&mut [u8])>(
        alloc: A,
        n: usize,
        fill: F,
    ) -> Result<Shared<LIMIT, A>, TextFault>
        requires limit { LIMIT ≤ RC_MAX }
        requires callable { (¬ IsTooLong n) → FnOnceTakesAtMut F.FnOnce fill (replicate n 0) }
        ensures made { IfOk result
            (λ made. FnOnceReturnsAtMut F.FnOnce fill (replicate n 0) tt made.text) }
        ensures limit { IfOk result (λ made. made.limit ≡ LIMIT) }
        // Promise: The handle is the first of its block.
        ensures first { IfOk result (λ made. made.seat ≡ 0) }
        // Promise: The text is UTF-8 and has the length that was asked for.
        ensures as_long { IfOk result (λ made. length made.text ≡ n) }
        ensures text { IfOk result (λ made. IsUtf8 made.text) }
        // Promise: It fails with `Length` exactly if the text is too long, and with `Utf8` only if
        // the closure leaves no UTF-8.
        ensures too_long { IsErrOf result TextFault.Length ↔ IsTooLong n }
        ensures refused { IfErr result
            (IsFaultOfFilling (λ bytes. FnOnceReturnsAtMut F.FnOnce fill
            (replicate n 0) tt bytes) n) }
    {
        if n >= TOO_LONG {
            return Err(TextFault::Length);
        }
        let (blank, bytes) = blank_block(alloc, n)?;
        let mut slots = bytes.into_slots(n);
        write_zeros(&mut slots);
        let mut block = blank.close(Row::of(slots));
        match fill_and_check(block.lend(n), fill) {
            Ok(()) => Ok(Shared::first_handle(block, n, alloc)),
            Err(fault) => {
                block.give_back(&alloc, size_of_block(n));
                Err(fault)
            }
        }
    }

    /// Returns the first handle on a new block with `n` copies of a text, joined. The call makes
    /// one allocation. Zero copies, and copies of an empty text, have a block too. Errors, in this
    /// order: `Length`, for `2^63 - 25` bytes or more in all copies; `Memory`, for an allocation
    /// failure. The caller has to ensure that `LIMIT` is at most `RC_MAX`.
    ///
    /// ```
    /// let text = Shared::<5, _>::repeat(rt.alloc(), "ab", 3)?;
    /// assert_eq!(rt; text.as_str(), "ababab");
    /// ```
    #[tactic(auto, using(crate::proofs::Texts::copies))]
    pub fn repeat(alloc: A, text: &str, n: usize) -> Result<Shared<LIMIT, A>, TextFault>
        requires { LIMIT ≤ RC_MAX }
        ensures made { IfOk result (λ made. made.text ≡ repeat n text.now) }
        ensures limit { IfOk result (λ made. made.limit ≡ LIMIT) }
        // Promise: The handle is the first of its block.
        ensures first { IfOk result (λ made. made.seat ≡ 0) }
        // Promise: It fails with `Length` exactly if the text is too long, and otherwise only with
        // `Memory`.
        ensures too_long { IsErrOf result TextFault.Length ↔ IsTooLong (n * length text.now) }
        ensures refused { IfErr result (IsFaultOfMaking (n * length text.now)) }
    {
        let Some(len) = n.checked_mul(text.len()) else {
            return Err(TextFault::Length);
        };
        let mut draft = Draft::new(alloc, len)?;
        // Copies of an empty text are not made one by one: there may be `usize::MAX` of them.
        if text.is_empty() {
            return Ok(draft.close());
        }
        for _ in 0..n {
            draft.append(text);
        }
        Ok(draft.close())
    }
}

/// Makes the memory of a new block, whose count word counts one handle, and the row of its bytes.
pub(crate) fn blank_block<A: Allocator + Copy>(
    alloc: A,
    len: usize,
) -> Result<(Blank<A>, Row), TextFault>
    requires { Fits len }
    ensures home { IfOk result (λ made. made.0.home ≡ alloc) }
    ensures word { IfOk result (λ made. made.0.word ≡ bits_of fresh_word) }
    ensures length { IfOk result (λ made. (made.0.length ≡ len) × (length made.1.items ≡ len)) }
    ensures bytes { IfOk result (λ made. made.1.at ≡ made.0.at) }
    ensures empty { IfOk result (λ made. made.1.items ≡ replicate len 0) }
    ensures refused { IfErr result (λ fault. fault ≡ TextFault.Memory) }
{
    let offset = offset_of_word(len);
    let made = Blank::make(&alloc, Word::one().bits(), len, offset, size_of_block(len))?;
    Ok(made)
}

/// Writes 0 in each slot.
pub(crate) fn write_zeros(bytes: &mut Slots<u8>)
    requires { slots_items bytes.old ≡ replicate (slots_len bytes.old) 0 }
    ensures items { slots_items bytes.new ≡ replicate (slots_len bytes.old) 0 }
    ensures written { Filled (slots_filled bytes.new) 0 (slots_len bytes.old) }
    ensures places { SamePlaces bytes.old bytes.new }
{
    for place in 0..bytes.len() {
        bytes.put(place, 0);
    }
}

/// Lets a closure fill the bytes, and checks that it left a text.
fn fill_and_check<F: FnOnce(&mut [u8])>(bytes: &mut [u8], fill: F) -> Result<(), TextFault>
    requires { FnOnceTakesAtMut F.FnOnce fill bytes.old }
    ensures left { FnOnceReturnsAtMut F.FnOnce fill bytes.old tt bytes.new }
    ensures text { IfOk result (λ _. IsUtf8 bytes.new) }
    ensures refused { IfErr result (IsFaultOfBytes bytes.new) }
{
    fill(bytes);
    match str::from_utf8(bytes) {
        Ok(_) => Ok(()),
        Err(error) => Err(TextFault::Utf8(error.valid_up_to())),
    }
}
