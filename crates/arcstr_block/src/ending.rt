//! A drop that answers how it ended. No call here allocates or waits.
ghost use Rattle.std.specs.Prelude.{◌≡◌};
ghost use Rattle.arcstr_block.specs.Book.{IsLater};
ghost use Rattle.arcstr_block.specs.Ending.{EndedAs};
ghost use Rattle.arcstr_block.specs.Handle.{IsMarkedIn, SawBack};
ghost use Rattle.arcstr_block.specs.declared.ending.End.TheVariants.{Ended, Freed};

use crate::owed::Down;
use crate::seen::Seen;
use crate::shared::Shared;
use std::alloc::Allocator;

/// How a handle ended, as `Shared::end` returns it.
///
/// ```
/// let text = Shared::<5, _>::from_text(rt.alloc(), "aé")?;
/// let clone = text.up(&rt);
/// assert_eq!(rt; (text.end().0, clone.end().0), (End::Left, End::Freed));
/// ```
#[derive(Clone, Copy, Debug, PartialEq, Eq)]
pub enum End {
    /// Its block is marked static, and stays: the count word is left as it is.
    Ended,
    /// The count was decremented, and the block stays: another handle lives, or the block is marked
    /// static.
    Left,
    /// It was the last handle, and its block is freed.
    Freed,
}

impl<const LIMIT: u64, A: Allocator + Copy> Shared<LIMIT, A> {
    /// Drops the handle: a load and, if the block is unmarked, a fetch-sub that lowers the count by
    /// one. The last handle frees the block. Returns how the handle ended, and the history seen,
    /// which ends in the last step of the drop. The implicit drop of a handle is this call.
    ///
    /// ```
    /// let text = Shared::<5, _>::from_text(rt.alloc(), "aé")?;
    /// drop(text.mark());
    /// assert_eq!(rt; text.end().0, End::Ended);
    /// ```
    pub fn end(self) -> (End, Seen)
        // Promise: The handle ended as the history seen says. Exactly the last handle frees the
        // block.
        ensures ends { EndedAs LIMIT result.1.history self.seat result.0 }
        ensures freed { result.0 ≡ Freed → SawBack LIMIT result.1.history self.seat }
        ensures block { result.1.block ≡ self.block }
    {
        let before = self.handle.pointer.seen();
        self.end_after(&before)
    }

    /// As `end`, after what the caller has seen of the block: the history seen begins with it.
    ///
    /// ```
    /// let text = Shared::<5, _>::from_text(rt.alloc(), "aé")?;
    /// let clone = text.up(&rt);
    /// let (_, seen) = text.end();
    /// assert_eq!(rt; clone.end_after(&seen).0, End::Freed);
    /// ```
    #[tactic(auto, using(crate::proofs::Histories::how_drops_leave))]
    pub fn end_after(self, before: &Seen) -> (End, Seen)
        requires before { before.now.block ≡ self.block }
        ensures ends { EndedAs LIMIT result.1.history self.seat result.0 }
        ensures freed { result.0 ≡ Freed → SawBack LIMIT result.1.history self.seat }
        ensures block { result.1.block ≡ self.block }
        // Promise: The history seen begins with what the caller had seen, and is longer.
        ensures after { IsLater before.now.history result.1.history }
        // Promise: The drop finds a block that was marked before, and stays out of its count.
        ensures marked { IsMarkedIn LIMIT before.now.history → result.0 ≡ Ended }
    {
        let (down, seen) = self.down_after(before);
        match down {
            Down::Ended => (End::Ended, seen),
            Down::Left => (End::Left, seen),
            Down::Owes(owed) => (End::Freed, owed.free()),
        }
    }
}
