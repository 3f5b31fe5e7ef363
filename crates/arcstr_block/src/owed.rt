//! What remains after the end of a handle.
ghost use Rattle.std.specs.Prelude.{◌≡◌, length};
ghost use Rattle.arcstr_block.specs.Rights.{owed};
ghost use Rattle.arcstr_block.specs.Book.{IsLater};
ghost use Rattle.arcstr_block.specs.Handle.{Debt, SawBack};
ghost use Rattle.arcstr_block.specs.Memory.{word_offset};

use crate::block::size_of_block;
use crate::pointer::Pointer;
use crate::seen::Seen;
use std::alloc::Allocator;
use std::marker::Model;

/// How a handle ended. It has 24 bytes where its allocator has none, and can be sent and shared
/// where its allocator can. It has no drop: the caller must free an `Owed`.
///
/// ```
/// let text = Shared::<5, _>::from_text(rt.alloc(), "aé")?;
/// match text.up(&rt).down().0 {
///     Down::Owes(owed) => owed.give_back(),
///     Down::Left | Down::Ended => assert_eq!(rt; text.look().0, Some(1)),
/// }
/// ```
pub enum Down<A: Allocator> {
    /// Its look found the block marked: the count word is left as it is.
    Ended,
    /// It was subtracted, but not as the last one.
    Left,
    /// It was subtracted last: the memory is owed.
    Owes(Owed<A>),
}

/// The memory of a block that nobody else has, which has to be freed. It has no drop, and cannot be
/// disposed of otherwise. Contracts see its block's name, and the number of the handle that was
/// subtracted last.
///
/// It has 16 bytes where its allocator has none, and can be sent and shared where its allocator
/// can. None of its functions waits or allocates.
///
/// ```
/// let text = Shared::<5, _>::from_text(rt.alloc(), "aé")?;
/// match text.down().0 {
///     Down::Owes(owed) => owed.give_back(),
///     Down::Left | Down::Ended => {}
/// }
/// ```
pub struct Owed<A: Allocator> {
    pub(crate) pointer: Pointer<A>,
    /// The word offset: how many bytes past the address of the block its count word and the length
    /// of its text lie.
    pub(crate) offset: usize,
    pub(crate) alloc: A,
    ghost right: { pointer.right ≡ owed },
    ghost at_word: { offset ≡ word_offset (length pointer.text) },
    ghost home: { alloc ≡ pointer.home },
}

impl<A: Allocator> Model for Owed<A> {
    ghost Value = { Debt };

    ghost view = { λ o. record { block = o.pointer.block; seat = o.pointer.seat; limit = o.pointer.limit; history = o.pointer.history } };
}

impl<A: Allocator> Owed<A> {
    /// Frees the memory of the block and of its text, in one call of the allocator. It takes no
    /// atomic step. A clause could name only a result: `free` has one. The test
    /// `all_memory_is_given_back` checks that a heap has the memory again.
    ///
    /// ```
    /// use linked_list_allocator::LocalHeap;
    /// let heap = LocalHeap::new(rt.alloc(), 4096)?;
    /// match Shared::<5, _>::from_text(&heap, "aé")?.down().0 {
    ///     Down::Owes(owed) => assert_eq!(rt; (owed.give_back(), heap.used()), ((), 0)),
    ///     Down::Left | Down::Ended => {}
    /// }
    /// ```
    pub fn give_back(self) {
        self.free();
    }

    /// Frees the block as `give_back` does, and returns its history, which ends in `Back`.
    ///
    /// ```
    /// let text = Shared::<5, _>::from_text(rt.alloc(), "aé")?;
    /// match text.down().0 {
    ///     Down::Owes(owed) => drop(owed.free()),
    ///     Down::Left | Down::Ended => return Err(Fail::from("another handle is left")),
    /// }
    /// ```
    pub fn free(self) -> Seen
        // Promise: The history of the block says that this handle freed it.
        ensures step { SawBack self.limit result.history self.seat }
        // Promise: It begins with the history of the drop that owed the block, and is longer.
        ensures after { IsLater self.history result.history }
        ensures block { result.block ≡ self.block }
    {
        let Owed {
            pointer,
            offset,
            alloc,
        } = self;
        let (block, len, seen) = pointer.back(offset);
        block.give_back(&alloc, size_of_block(len));
        seen
    }
}
