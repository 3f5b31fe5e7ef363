//! The laws of blocks. A law does nothing when it runs: it takes no atomic step, and does not
//! allocate.
ghost use Rattle.std.specs.Prelude.{◌≡◌, ◌≢◌, ◌≤◌, ℕ, List, Contains};
ghost use Rattle.arcstr_count.specs.Laws.{HoldsInEveryInterleaving};
ghost use Rattle.arcstr_count.specs.Model.{living_after};
ghost use Rattle.arcstr_count.specs.declared.steps.Step.{Step};
ghost use Rattle.arcstr_block.specs.Book.{IsLater};
ghost use Rattle.arcstr_block.specs.Ending.{IsFreedExactly, IsFreeLast};
ghost use Rattle.arcstr_block.specs.Handle.{IsBornIn, SawBack, SawCount};
ghost use Rattle.arcstr_block.specs.Rights.{owed, HasSeat, IsFree, MaySee};

use crate::fixed::Fixed;
use crate::owed::Owed;
use crate::pointer::Pointer;
use crate::seen::Seen;
use crate::shared::{Counted, Shared};
use std::alloc::Allocator;

impl<A: Allocator> Pointer<A> {
    /// Proves that two pointers with seats on one block have two seats, and that a block that is
    /// owed has no other pointer with a seat.
    pub(crate) fn two_pointers_have_two_seats(self, other: Pointer<A>) -> (Pointer<A>, Pointer<A>)
        requires first { HasSeat self.right }
        requires second { HasSeat other.right }
        ensures first { result.0 ≡ self }
        ensures second { result.1 ≡ other }
        ensures apart { self.block ≡ other.block → self.seat ≢ other.seat }
        ensures alone { self.right ≡ owed → self.block ≢ other.block }
    {
        (self, other)
    }

    /// Proves that a block that is owed has no pointer by which it can be read.
    pub(crate) fn an_owed_block_has_no_reader(self, other: &Pointer<A>) -> Pointer<A>
        requires owed { self.right ≡ owed }
        requires reads { MaySee other.now.right }
        ensures same { result ≡ self }
        ensures alone { self.block ≢ other.now.block }
    {
        self
    }

    /// Proves that the block of a free handle is not freed in what was seen of it, and that the
    /// handle lives in it if it was born in it.
    pub(crate) fn a_free_handle_lives(&self, seen: &Seen)
        requires right { IsFree self.now.right }
        requires block { seen.now.block ≡ self.now.block }
        ensures unfreed { (h : ℕ) → ¬ (SawBack self.now.limit seen.now.history h) }
        ensures living { IsBornIn self.now.limit seen.now.history self.now.seat
            → Contains (living_after self.now.limit seen.now.history 0) self.now.seat }
    {}
}

impl<const LIMIT: u64, A: Allocator + Copy> Shared<LIMIT, A> {
    /// Proves that two handles on one block have two seats in its history. It returns both, in
    /// their order.
    ///
    /// ```
    /// let text = Shared::<5, _>::from_text(rt.alloc(), "aé")?;
    /// let clone = text.up(&rt);
    /// let (text, clone) = text.two_handles_have_two_seats(clone);
    /// assert_eq!(rt; (text.as_str(), clone.as_str()), ("aé", "aé"));
    /// ```
    pub fn two_handles_have_two_seats(
        self,
        other: Shared<LIMIT, A>,
    ) -> (Shared<LIMIT, A>, Shared<LIMIT, A>)
        ensures first { result.0 ≡ self }
        ensures second { result.1 ≡ other }
        ensures apart { self.block ≡ other.block → self.seat ≢ other.seat }
    {
        let Counted {
            pointer,
            len,
            alloc,
        } = self.into_counted();
        let Counted {
            pointer: beside,
            len: length,
            alloc: home,
        } = other.into_counted();
        let (pointer, beside) = pointer.two_pointers_have_two_seats(beside);
        let first = Counted {
            pointer,
            len,
            alloc,
        };
        let second = Counted {
            pointer: beside,
            len: length,
            alloc: home,
        };
        (Shared { handle: first }, Shared { handle: second })
    }
}

impl<const LIMIT: u64, A: Allocator + Copy> Shared<LIMIT, A> {
    /// Proves that a handle that is not dropped lives: no history that was seen of its block ends
    /// in the free, and in each in which the handle was born, its seat is among those that live.
    ///
    /// ```
    /// let text = Shared::<5, _>::from_text(rt.alloc(), "aé")?;
    /// let (end, seen) = text.up(&rt).end();
    /// text.lives(&seen);
    /// assert_eq!(rt; end, End::Left);
    /// ```
    pub fn lives(&self, seen: &Seen)
        requires block { seen.now.block ≡ self.now.block }
        // Promise: Nobody has freed the block in what was seen of it.
        ensures unfreed { (h : ℕ) → ¬ (SawBack LIMIT seen.now.history h) }
        // Promise: The handle is among the living ones of each history in which it was born.
        ensures living { IsBornIn LIMIT seen.now.history self.now.seat
            → Contains (living_after LIMIT seen.now.history 0) self.now.seat }
    {
        self.handle.pointer.a_free_handle_lives(seen);
    }

    /// Proves that two handles that are not dropped are both counted: a look by one of them, after
    /// what the other has seen, counts at least two. It returns both, in their order.
    ///
    /// ```
    /// let text = Shared::<5, _>::from_text(rt.alloc(), "aé")?;
    /// let clone = text.up(&rt);
    /// let (count, seen) = text.look_after(&clone.seen());
    /// let (text, clone) = text.two_handles_are_counted(clone, &seen);
    /// assert_eq!(rt; (count, text.len(), clone.len()), (Some(2), 3, 3));
    /// ```
    pub fn two_handles_are_counted(
        self,
        other: Shared<LIMIT, A>,
        seen: &Seen,
    ) -> (Shared<LIMIT, A>, Shared<LIMIT, A>)
        requires block { seen.now.block ≡ self.block }
        requires same { other.block ≡ self.block }
        ensures first { result.0 ≡ self }
        ensures second { result.1 ≡ other }
        // Promise: A look after the other handle was born counts at least two.
        ensures two { (before : List Step) (n : ℕ) → IsBornIn LIMIT before other.seat
            → IsLater before seen.now.history → SawCount LIMIT seen.now.history self.seat n
            → 2 ≤ n }
    {
        self.lives(seen);
        other.lives(seen);
        self.two_handles_have_two_seats(other)
    }
}

impl<A: Allocator + Copy> Owed<A> {
    /// Proves that no handle is left on a block that is owed. It returns both.
    ///
    /// ```
    /// let other = Shared::<5, _>::from_text(rt.alloc(), "b")?;
    /// match Shared::<5, _>::from_text(rt.alloc(), "a")?.down().0 {
    ///     Down::Owes(owed) => owed.an_owed_block_has_no_handle(other).0.give_back(),
    ///     Down::Left | Down::Ended => {}
    /// }
    /// ```
    pub fn an_owed_block_has_no_handle<const LIMIT: u64>(
        self,
        other: Shared<LIMIT, A>,
    ) -> (Owed<A>, Shared<LIMIT, A>)
        ensures first { result.0 ≡ self }
        ensures second { result.1 ≡ other }
        ensures alone { self.block ≢ other.block }
    {
        let owed = self.an_owed_block_has_no_borrowed_handle(&other);
        (owed, other)
    }

    /// Proves that a borrowed handle is on a different block from the one that is owed. It returns
    /// what is owed.
    ///
    /// ```
    /// let other = Shared::<5, _>::from_text(rt.alloc(), "b")?;
    /// match Shared::<5, _>::from_text(rt.alloc(), "a")?.down().0 {
    ///     Down::Owes(owed) => owed.an_owed_block_has_no_borrowed_handle(&other).give_back(),
    ///     Down::Left | Down::Ended => {}
    /// }
    /// ```
    pub fn an_owed_block_has_no_borrowed_handle<const LIMIT: u64>(
        self,
        handle: &Shared<LIMIT, A>,
    ) -> Owed<A>
        ensures same { result ≡ self }
        ensures alone { self.block ≢ handle.now.block }
    {
        self.has_no_reader(&handle.handle.pointer)
    }

    /// Proves that a block that is owed is not marked. It returns what is owed.
    ///
    /// ```
    /// let fixed = Shared::<5, _>::from_text(rt.alloc(), "b")?.mark();
    /// match Shared::<5, _>::from_text(rt.alloc(), "a")?.down().0 {
    ///     Down::Owes(owed) => owed.an_owed_block_is_not_permanent(&fixed).give_back(),
    ///     Down::Left | Down::Ended => {}
    /// }
    /// ```
    pub fn an_owed_block_is_not_permanent(self, fixed: &Fixed<A>) -> Owed<A>
        ensures same { result ≡ self }
        ensures unmarked { self.block ≢ fixed.now.block }
    {
        self.has_no_reader(&fixed.pointer)
    }
}

impl Seen {
    /// Proves the laws of every interleaving of what was seen of a running block: each holds for
    /// any limit, and any prefix of the history. So if no handle lives, none is dropping and none
    /// owes the block, it was freed once exactly if nothing marked it static.
    ///
    /// ```
    /// let (_, seen) = Shared::<5, _>::from_text(rt.alloc(), "a")?.end();
    /// seen.the_six_laws_hold();
    /// ```
    pub fn the_six_laws_hold(&self)
        // Promise: Once its handles have ended, a block was freed exactly if nothing marked it.
        ensures freed_exactly { (limit : ℕ) → IsFreedExactly limit self.now.history }
        ensures laws { (limit : ℕ) → HoldsInEveryInterleaving limit self.now.history }
    {}

    /// Proves that one handle frees a block: if two histories of it end in the free, it is the free
    /// by one handle. So of two handles on a block, which end in any order and in any threads, at
    /// most one answers `End::Freed`.
    ///
    /// ```
    /// let text = Shared::<5, _>::from_text(rt.alloc(), "a")?;
    /// let (one, other) = text.up(&rt).two_handles_have_two_seats(text);
    /// let ((first, seen), (second, last)) = (one.end(), other.end());
    /// seen.one_handle_frees(&last);
    /// assert_eq!(rt; (first, second), (End::Left, End::Freed));
    /// ```
    pub fn one_handle_frees(&self, other: &Seen)
        ensures once { self.now.block ≡ other.now.block → (limit h k : ℕ)
            → SawBack limit self.now.history h → SawBack limit other.now.history k → h ≡ k }
    {
        self.a_block_has_one_history(other)
    }

    /// Proves that nothing follows the free: where a history ends in the free, no handle on the
    /// block lives, and no history of the block is later. So a block is freed at most once, and no
    /// call through a handle on it comes after that. A block that is marked static is never freed.
    ///
    /// ```
    /// let (_, first) = Shared::<5, _>::from_text(rt.alloc(), "a")?.end();
    /// let (_, other) = Shared::<5, _>::from_text(rt.alloc(), "a")?.end();
    /// first.nothing_follows_the_free(&other);
    /// ```
    pub fn nothing_follows_the_free(&self, other: &Seen)
        ensures law { IsFreeLast self.now.history other.now.history }
    {}
}

impl<A: Allocator> Owed<A> {
    /// Proves that a pointer by which a block can be read is on a different block from the one that
    /// is owed.
    fn has_no_reader(self, other: &Pointer<A>) -> Owed<A>
        requires { MaySee other.now.right }
        ensures same { result ≡ self }
        ensures alone { self.block ≢ other.now.block }
    {
        let Owed {
            pointer,
            offset,
            alloc,
        } = self;
        let pointer = pointer.an_owed_block_has_no_reader(other);
        Owed {
            pointer,
            offset,
            alloc,
        }
    }

    /// Proves that a block is owed once. It returns both, in their order.
    ///
    /// ```
    /// use std::alloc::Global;
    /// let give_both_back = |owed: Owed<Global>, other: Owed<Global>| {
    ///     let (owed, other) = owed.a_block_is_owed_once(other);
    ///     owed.give_back();
    ///     other.give_back();
    /// };
    /// ```
    pub fn a_block_is_owed_once(self, other: Owed<A>) -> (Owed<A>, Owed<A>)
        ensures first { result.0 ≡ self }
        ensures second { result.1 ≡ other }
        ensures apart { self.block ≢ other.block }
    {
        let Owed {
            pointer,
            offset,
            alloc,
        } = self;
        let Owed {
            pointer: beside,
            offset: there,
            alloc: home,
        } = other;
        let (pointer, beside) = pointer.two_pointers_have_two_seats(beside);
        let first = Owed {
            pointer,
            offset,
            alloc,
        };
        let second = Owed {
            pointer: beside,
            offset: there,
            alloc: home,
        };
        (first, second)
    }
}
