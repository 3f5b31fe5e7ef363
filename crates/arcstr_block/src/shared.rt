//! One handle on a block. No call here allocates, and only `up`, `up_after` and `up_from` can wait.
ghost use Rattle.std.specs.Prelude.{◌≡◌, ℕ, length, IsUtf8, ◌<◌, ◌≤◌, ◌+◌, MatchOption, IfOk, IfErr, IfSome, IsNone, IsSome};
ghost use Rattle.arcstr_count.specs.Word.{bits_of, fresh_word};
ghost use Rattle.arcstr_block.specs.Book.{IsLater};
ghost use Rattle.arcstr_block.specs.Memory.{Fits};
ghost use Rattle.arcstr_block.specs.Word.{IsLimit, IsUnmarked, IsCountWord, IsOtherWord};
ghost use Rattle.arcstr_block.specs.Rights.{IsFree, is_free_once};
ghost use Rattle.arcstr_block.specs.Handle.{Handle, IsBornIn, SawCount, SawMark, SawClone, SawLeak, IsMarkedIn, kept_of};
ghost use Rattle.arcstr_block.specs.Steps.{handle_of};

use crate::block::{Sole, offset_of_word};
use crate::fixed::Fixed;
use crate::owed::{Down, Owed};
use crate::pointer::Pointer;
use crate::seen::Seen;
use crate::word::{is_count_of_one, is_marked, looked, word_after_clone};
use arcstr_count::RC_MAX;
use std::alloc::Allocator;
use std::marker::Model;
use std::sync::Wait;

/// A handle without its drop: a pointer that may read the block, the length of its text in bytes,
/// and its allocator. With the length here, reading the text loads nothing else.
pub(crate) struct Counted<const LIMIT: u64, A: Allocator + Copy> {
    pub(crate) pointer: Pointer<A>,
    pub(crate) len: usize,
    pub(crate) alloc: A,
    ghost free: { IsFree pointer.right } by { is_free_once pointer.right },
    ghost measured: { len ≡ length pointer.text },
    ghost fits: { Fits len },
    ghost home: { alloc ≡ pointer.home },
    ghost limit: { pointer.limit ≡ LIMIT },
    ghost low: { IsLimit LIMIT },
    ghost born: { IsBornIn LIMIT pointer.history pointer.seat },
}

/// One handle on a block, through which its text is read; the block stays while it has a handle.
/// Contracts see the bytes of its text, its block's name, its own number in the block's history,
/// and the limit on the block's count.
///
/// A clone at a count above `LIMIT` marks the block, which is then permanent. A handle has 16 bytes
/// where its allocator has none, and can be sent and shared where its allocator can. Its drop runs
/// `down`, and frees the block if it was the last handle.
///
/// ```
/// let text = Shared::<5, _>::from_text(rt.alloc(), "aé")?;
/// let clone = text.up(&rt);
/// assert_eq!(rt; (clone.as_str(), text.look().0), ("aé", Some(2)));
/// drop(text);
/// assert_eq!(rt; (clone.as_str(), clone.look().0), ("aé", Some(1)));
/// ```
pub struct Shared<const LIMIT: u64, A: Allocator + Copy> {
    pub(crate) handle: Counted<LIMIT, A>,
}

impl<const LIMIT: u64, A: Allocator + Copy> Model for Shared<LIMIT, A> {
    ghost Value = { Handle };

    ghost view = { λ s. handle_of s.handle.pointer };
}

impl<const LIMIT: u64, A: Allocator + Copy> Shared<LIMIT, A> {
    ghost use Rattle.arcstr_block.specs.Steps.{EndsAs, OwesAs};
    ghost use Rattle.arcstr_block.specs.declared.owed.Down.TheVariants.{Ended};

    /// The first handle on a new block, which only its maker has, with a text of `len` bytes.
    pub(crate) fn first_handle(block: Sole<A>, len: usize, alloc: A) -> Shared<LIMIT, A>
        requires limit { LIMIT ≤ RC_MAX }
        requires word { block.word ≡ bits_of fresh_word }
        requires home { block.home ≡ alloc }
        requires utf8 { IsUtf8 block.text }
        requires length { len ≡ length block.text }
        requires fits { Fits len }
        ensures text { result.text ≡ block.text }
        ensures limit { result.limit ≡ LIMIT }
        ensures first { result.seat ≡ 0 }
    {
        let pointer = Pointer::make(block);
        Shared {
            handle: Counted {
                pointer,
                len,
                alloc,
            },
        }
    }

    /// Returns the text. Takes no atomic step, and loads nothing from the block.
    ///
    /// ```
    /// let text = Shared::<5, _>::from_text(rt.alloc(), "aé")?;
    /// assert_eq!(rt; text.as_str(), "aé");
    /// ```
    pub fn as_str(&self) -> &str
        ensures { result.now ≡ self.now.text }
    {
        self.handle.pointer.text(self.handle.len)
    }

    /// Returns the length of the text, in bytes. Takes no atomic step.
    ///
    /// ```
    /// let text = Shared::<5, _>::from_text(rt.alloc(), "aé")?;
    /// assert_eq!(rt; text.len(), 3);
    /// ```
    pub fn len(&self) -> usize
        ensures { result ≡ length self.now.text }
    {
        self.handle.len
    }

    /// Returns what the handle has seen of the history of its block. Takes no atomic step.
    ///
    /// ```
    /// let text = Shared::<5, _>::from_text(rt.alloc(), "aé")?;
    /// let (clone, seen) = text.up_after(&rt, &text.seen());
    /// assert_eq!(rt; clone.look_after(&seen).0, Some(2));
    /// ```
    pub fn seen(&self) -> Seen
        ensures block { result.block ≡ self.now.block }
        // Promise: The handle was born in the history seen.
        ensures born { IsBornIn LIMIT result.history self.now.seat }
    {
        self.handle.pointer.seen()
    }

    /// Loads the count word. Returns the number of living handles, from 1 to `LIMIT + 1`, or `None`
    /// at a marked block, and the history seen, which ends in this look.
    ///
    /// ```
    /// let text = Shared::<5, _>::from_text(rt.alloc(), "aé")?;
    /// assert_eq!(rt; text.look().0, Some(1));
    /// drop(text.mark());
    /// assert_eq!(rt; text.look().0, None);
    /// ```
    pub fn look(&self) -> (Option<u64>, Seen)
        // Promise: A count is from 1 to one above the limit.
        ensures count { IfSome result.0 (λ count. (0 < count) × (count ≤ LIMIT + 1)) }
        // Promise: The count, or the mark, is what the history seen says.
        ensures seen { MatchOption result.0 (SawMark LIMIT result.1.history self.now.seat)
            (λ count. SawCount LIMIT result.1.history self.now.seat count) }
        ensures block { result.1.block ≡ self.now.block }
    {
        self.look_after(&self.handle.pointer.seen())
    }

    /// As `look`, after what the caller has seen of the block: the history seen begins with it, so
    /// two looks of one thread are in order.
    ///
    /// ```
    /// let text = Shared::<5, _>::from_text(rt.alloc(), "aé")?;
    /// let (_, seen) = text.look();
    /// assert_eq!(rt; text.look_after(&seen).0, Some(1));
    /// ```
    pub fn look_after(&self, before: &Seen) -> (Option<u64>, Seen)
        requires before { before.now.block ≡ self.now.block }
        ensures count { IfSome result.0 (λ count. (0 < count) × (count ≤ LIMIT + 1)) }
        ensures seen { MatchOption result.0 (SawMark LIMIT result.1.history self.now.seat)
            (λ count. SawCount LIMIT result.1.history self.now.seat count) }
        ensures block { result.1.block ≡ self.now.block }
        // Promise: The history seen begins with what the caller had seen, and is longer.
        ensures after { IsLater before.now.history result.1.history }
        // Promise: A block that was marked before stays marked.
        ensures marked { IsMarkedIn LIMIT before.now.history → IsNone result.0 }
    {
        let (found, gained) = self
            .handle
            .pointer
            .load(offset_of_word(self.handle.len), before);
        let seen = gained.seen();
        gained.forget();
        (looked(found), seen)
    }

    /// Loads the count word. Returns the permanent block if the block is marked, else `None`, and
    /// the history seen, which ends in this look.
    ///
    /// ```
    /// let text = Shared::<5, _>::from_text(rt.alloc(), "aé")?;
    /// assert!(rt; text.fixed().0.is_none());
    /// drop(text.mark());
    /// assert!(rt; text.fixed().0.is_some());
    /// ```
    pub fn fixed(&self) -> (Option<Fixed<A>>, Seen)
        // Promise: It returns one exactly if the block is marked in the history seen.
        ensures kept { IfSome result.0 (λ fixed. fixed ≡ kept_of LIMIT self.now result.1.history) }
        ensures seen { MatchOption result.0
            ((n : ℕ) × SawCount LIMIT result.1.history self.now.seat n)
            (λ _. SawMark LIMIT result.1.history self.now.seat) }
        ensures block { result.1.block ≡ self.now.block }
    {
        self.fixed_after(&self.handle.pointer.seen())
    }

    /// As `fixed`, after what the caller has seen of the block: the history seen begins with it.
    ///
    /// ```
    /// let text = Shared::<5, _>::from_text(rt.alloc(), "aé")?;
    /// let seen = text.mark().seen();
    /// assert!(rt; text.fixed_after(&seen).0.is_some());
    /// ```
    pub fn fixed_after(&self, before: &Seen) -> (Option<Fixed<A>>, Seen)
        requires before { before.now.block ≡ self.now.block }
        ensures kept { IfSome result.0 (λ fixed. fixed ≡ kept_of LIMIT self.now result.1.history) }
        ensures seen { MatchOption result.0
            ((n : ℕ) × SawCount LIMIT result.1.history self.now.seat n)
            (λ _. SawMark LIMIT result.1.history self.now.seat) }
        ensures block { result.1.block ≡ self.now.block }
        // Promise: The history seen begins with what the caller had seen, and is longer.
        ensures after { IsLater before.now.history result.1.history }
        // Promise: A block that was marked before stays marked.
        ensures marked { IsMarkedIn LIMIT before.now.history → IsSome result.0 }
    {
        let (found, gained) = self
            .handle
            .pointer
            .load(offset_of_word(self.handle.len), before);
        let seen = gained.seen();
        match looked(found) {
            None => {
                let fixed = Fixed {
                    pointer: gained,
                    len: self.handle.len,
                    alloc: self.handle.alloc,
                };
                (Some(fixed), seen)
            }
            Some(_) => {
                gained.forget();
                (None, seen)
            }
        }
    }

    /// Marks the block static, permanently, by one fetch-or. The handle stays as it is. The history
    /// seen ends in this mark.
    ///
    /// ```
    /// let text = Shared::<5, _>::from_text(rt.alloc(), "aé")?;
    /// let fixed = text.mark();
    /// drop(text);
    /// assert_eq!(rt; fixed.as_str(), "aé");
    /// ```
    pub fn mark(&self) -> Fixed<A>
        // Promise: The permanent block has the handle's text.
        ensures kept { result ≡ kept_of LIMIT self.now result.history }
        // Promise: The mark is a step of the history seen.
        ensures step { SawLeak LIMIT result.history self.now.seat }
    {
        self.mark_after(&self.handle.pointer.seen())
    }

    /// As `mark`, after what the caller has seen of the block: the history seen begins with it.
    ///
    /// ```
    /// let text = Shared::<5, _>::from_text(rt.alloc(), "aé")?;
    /// let (_, seen) = text.look();
    /// assert_eq!(rt; text.mark_after(&seen).as_str(), "aé");
    /// ```
    pub fn mark_after(&self, before: &Seen) -> Fixed<A>
        requires before { before.now.block ≡ self.now.block }
        ensures kept { result ≡ kept_of LIMIT self.now result.history }
        ensures step { SawLeak LIMIT result.history self.now.seat }
        // Promise: The history seen begins with what the caller had seen, and is longer.
        ensures after { IsLater before.now.history result.history }
    {
        let offset = offset_of_word(self.handle.len);
        Fixed {
            pointer: self.handle.pointer.leak(offset, before),
            len: self.handle.len,
            alloc: self.handle.alloc,
        }
    }

    /// Returns another handle. Takes a load and, if the block is unmarked, a compare-exchange,
    /// which it repeats when the count word changed in between, so it may wait. At an unmarked
    /// count above the limit it sets the static flag, to any other unmarked count it adds one, and
    /// a marked count word stays as it is.
    ///
    /// ```
    /// let text = Shared::<5, _>::from_text(rt.alloc(), "aé")?;
    /// let clone = text.up(&rt);
    /// assert_eq!(rt; (clone.as_str(), clone.look().0), ("aé", Some(2)));
    /// ```
    pub fn up<R: Wait>(&self, rt: &R) -> Shared<LIMIT, A>
        // Promise: The clone has the same text, block and limit.
        ensures text { result.text ≡ self.now.text }
        ensures block { result.block ≡ self.now.block }
        ensures limit { result.limit ≡ LIMIT }
    {
        self.up_after(rt, &self.handle.pointer.seen()).0
    }

    /// As `up`, after what the caller has seen of the block: the history seen begins with it, and
    /// ends in this clone.
    ///
    /// ```
    /// let text = Shared::<5, _>::from_text(rt.alloc(), "aé")?;
    /// let (_, seen) = text.look();
    /// let (clone, seen) = text.up_after(&rt, &seen);
    /// assert_eq!(rt; (clone.as_str(), clone.look_after(&seen).0), ("aé", Some(2)));
    /// ```
    pub fn up_after<R: Wait>(&self, rt: &R, before: &Seen) -> (Shared<LIMIT, A>, Seen)
        requires before { before.now.block ≡ self.now.block }
        // Promise: The clone has the same text, block and limit.
        ensures text { result.0.text ≡ self.now.text }
        ensures block { result.0.block ≡ self.now.block }
        ensures limit { result.0.limit ≡ LIMIT }
        // Promise: The clone is a step of the history seen, by which the new handle was born.
        ensures step { SawClone LIMIT result.1.history self.now.seat result.0.seat }
        ensures seen { result.1.block ≡ self.now.block }
        // Promise: The history seen begins with what the caller had seen, and is longer.
        ensures after { IsLater before.now.history result.1.history }
    {
        let handle = match self.handle.clone_once(before) {
            Ok(clone) => clone,
            Err(found) => self.handle.exchange_until(rt, found, before),
        };
        let seen = handle.pointer.seen();
        (Shared { handle }, seen)
    }

    /// Returns another handle, as `up` makes it, with at most one compare-exchange. Where that
    /// finds that the count word changed after the load, returns the unmarked count word that it
    /// found, and nothing has changed. The call never waits: `up_from` takes the rest of `up`.
    ///
    /// ```
    /// let text = Shared::<5, _>::from_text(rt.alloc(), "aé")?;
    /// let clone = text.up_once();
    /// assert_eq!(rt; text.look().0, Some(2));
    /// assert!(rt; clone.is_ok_and(|clone| clone.as_str() == "aé"));
    /// ```
    pub fn up_once(&self) -> Result<Shared<LIMIT, A>, u64>
        // Promise: The clone has the same text, block and limit.
        ensures text { IfOk result (λ clone. clone.text ≡ self.now.text) }
        ensures block { IfOk result (λ clone. clone.block ≡ self.now.block) }
        ensures limit { IfOk result (λ clone. clone.limit ≡ LIMIT) }
        // Promise: What it found is an unmarked count word.
        ensures unmarked { IfErr result IsUnmarked }
        ensures word { IfErr result (IsCountWord LIMIT) }
    {
        match self.handle.clone_once(&self.handle.pointer.seen()) {
            Ok(handle) => Ok(Shared { handle }),
            Err(found) => Err(found),
        }
    }

    /// Returns another handle, as `up` makes it after its load found this unmarked count word.
    ///
    /// ```
    /// let text = Shared::<5, _>::from_text(rt.alloc(), "aé")?;
    /// let clone = match text.up_once() {
    ///     Ok(clone) => clone,
    ///     Err(found) => text.up_from(&rt, found),
    /// };
    /// assert_eq!(rt; clone.look().0, Some(2));
    /// ```
    pub fn up_from<R: Wait>(&self, rt: &R, found: u64) -> Shared<LIMIT, A>
        requires unmarked { IsUnmarked found }
        requires word { IsCountWord LIMIT found }
        // Promise: The clone has the same text, block and limit.
        ensures text { result.text ≡ self.now.text }
        ensures block { result.block ≡ self.now.block }
        ensures limit { result.limit ≡ LIMIT }
    {
        let before = self.handle.pointer.seen();
        Shared {
            handle: self.handle.exchange_until(rt, found, &before),
        }
    }

    /// Returns another handle, as `up` makes it, with at most `tries` compare-exchanges, so the
    /// call never waits. Returns `None`, and changes nothing, if each of them found that the count
    /// word had changed since the load or the exchange before it.
    ///
    /// ```
    /// let text = Shared::<5, _>::from_text(rt.alloc(), "aé")?;
    /// let clone = text.try_up(1);
    /// assert_eq!(rt; text.look().0, Some(2));
    /// assert!(rt; clone.is_some_and(|clone| clone.as_str() == "aé"));
    /// ```
    pub fn try_up(&self, tries: u32) -> Option<Shared<LIMIT, A>>
        // Promise: The clone has the same text, block and limit.
        ensures text { IfSome result (λ clone. clone.text ≡ self.now.text) }
        ensures block { IfSome result (λ clone. clone.block ≡ self.now.block) }
        ensures limit { IfSome result (λ clone. clone.limit ≡ LIMIT) }
    {
        let before = self.handle.pointer.seen();
        let mut old = match self.handle.clone_if_marked(&before) {
            Ok(handle) => return Some(Shared { handle }),
            Err(found) => found,
        };
        for _ in 0..tries {
            match self.handle.exchange(old, &before) {
                Ok(handle) => return Some(Shared { handle }),
                Err(found) => old = found,
            }
        }
        None
    }

    /// The handle without its drop.
    pub(crate) fn into_counted(self) -> Counted<LIMIT, A>
        ensures { self ≡ handle_of result.pointer }
    {
        let Shared { handle } = self;
        handle
    }

    /// Ends the handle: a load and, if the block is unmarked, a fetch-sub that lowers the count by
    /// one. Returns how it ended, with the `Owed` block if it was the last handle, which the caller
    /// must free, and the history seen, which ends in that step.
    ///
    /// ```
    /// let text = Shared::<5, _>::from_text(rt.alloc(), "aé")?;
    /// match text.down().0 {
    ///     Down::Owes(owed) => owed.give_back(),
    ///     Down::Left | Down::Ended => return Err(Fail::from("another handle is left")),
    /// }
    /// ```
    pub fn down(self) -> (Down<A>, Seen)
        // Promise: The drop ends as the history seen says. Exactly the last handle owes the block.
        ensures seen { EndsAs LIMIT result.1.history self.seat result.0 }
        ensures owes { OwesAs self result.1.history result.0 }
        ensures block { result.1.block ≡ self.block }
    {
        let before = self.handle.pointer.seen();
        self.down_after(&before)
    }

    /// As `down`, after what the caller has seen of the block: the history seen begins with it.
    ///
    /// ```
    /// let text = Shared::<5, _>::from_text(rt.alloc(), "aé")?;
    /// let (_, seen) = text.look();
    /// match text.down_after(&seen).0 {
    ///     Down::Owes(owed) => owed.give_back(),
    ///     Down::Left | Down::Ended => return Err(Fail::from("another handle is left")),
    /// }
    /// ```
    pub fn down_after(self, before: &Seen) -> (Down<A>, Seen)
        requires before { before.now.block ≡ self.block }
        ensures seen { EndsAs LIMIT result.1.history self.seat result.0 }
        ensures owes { OwesAs self result.1.history result.0 }
        ensures block { result.1.block ≡ self.block }
        // Promise: The history seen begins with what the caller had seen, and is longer.
        ensures after { IsLater before.now.history result.1.history }
        // Promise: The drop of a handle on a block that was marked before ends at its look.
        ensures marked { IsMarkedIn LIMIT before.now.history → result.0 ≡ Ended }
    {
        let Shared { handle } = self;
        let Counted {
            pointer,
            len,
            alloc,
        } = handle;
        let offset = offset_of_word(len);
        let (found, pointer) = pointer.begin(offset, before);
        if is_marked(found) {
            let seen = pointer.seen();
            pointer.forget();
            return (Down::Ended, seen);
        }
        let (found, pointer) = pointer.sub(offset);
        let seen = pointer.seen();
        if is_count_of_one(found) {
            let owed = Owed {
                pointer,
                offset,
                alloc,
            };
            return (Down::Owes(owed), seen);
        }
        pointer.forget();
        (Down::Left, seen)
    }
}

impl<const LIMIT: u64, A: Allocator + Copy> Counted<LIMIT, A> {
    ghost use Rattle.arcstr_block.specs.Steps.{IsSameBlock, IsCloneOf, IsBornOf};

    /// A clone with at most one compare-exchange: another handle, or the unmarked count word that
    /// was found.
    fn clone_once(&self, before: &Seen) -> Result<Counted<LIMIT, A>, u64>
        requires before { before.now.block ≡ self.now.pointer.block }
        ensures clone { IfOk result (λ clone. IsCloneOf clone.pointer self.now.pointer) }
        ensures born { IfOk result
            (λ clone. IsBornOf self.now.pointer before.now.history clone.pointer) }
        ensures unmarked { IfErr result IsUnmarked }
        ensures word { IfErr result (IsCountWord LIMIT) }
    {
        match self.clone_if_marked(before) {
            Ok(clone) => Ok(clone),
            Err(found) => self.exchange(found, before),
        }
    }

    /// The load of a clone: another handle if the block is marked, else the unmarked count word
    /// that was found.
    #[tactic(auto, using(arcstr_count::proofs::OneBlock::clone_is_born))]
    fn clone_if_marked(&self, before: &Seen) -> Result<Counted<LIMIT, A>, u64>
        requires before { before.now.block ≡ self.now.pointer.block }
        ensures clone { IfOk result (λ clone. IsCloneOf clone.pointer self.now.pointer) }
        ensures born { IfOk result
            (λ clone. IsBornOf self.now.pointer before.now.history clone.pointer) }
        ensures unmarked { IfErr result IsUnmarked }
        ensures word { IfErr result (IsCountWord LIMIT) }
    {
        let len = self.len;
        let (found, gained) = self.pointer.load(offset_of_word(len), before);
        if is_marked(found) {
            Ok(self.with_pointer(gained, len))
        } else {
            gained.forget();
            Err(found)
        }
    }

    /// One try of a clone from the unmarked count word `old`: another handle, or the unmarked count
    /// word that was found.
    #[tactic(auto, using(arcstr_count::proofs::OneBlock::clone_is_born))]
    fn exchange(&self, old: u64, before: &Seen) -> Result<Counted<LIMIT, A>, u64>
        requires unmarked { IsUnmarked old }
        requires word { IsCountWord LIMIT old }
        requires before { before.now.block ≡ self.now.pointer.block }
        ensures clone { IfOk result (λ clone. IsCloneOf clone.pointer self.now.pointer) }
        ensures born { IfOk result
            (λ clone. IsBornOf self.now.pointer before.now.history clone.pointer) }
        ensures found { IfErr result (IsOtherWord LIMIT old) }
    {
        let len = self.len;
        let next = word_after_clone(LIMIT, old);
        let (found, gained) = self
            .pointer
            .clone_exchange(offset_of_word(len), old, next, before);
        if found == old || is_marked(found) {
            Ok(self.with_pointer(gained, len))
        } else {
            gained.forget();
            Err(found)
        }
    }

    /// The exchanges of a clone after one that failed, until no other thread changes the count word
    /// before one. They are out of line, so that the code of a clone is short.
    #[cold]
    #[inline(never)]
    fn exchange_until<R: Wait>(&self, rt: &R, old: u64, before: &Seen) -> Counted<LIMIT, A>
        requires unmarked { IsUnmarked old }
        requires word { IsCountWord LIMIT old }
        requires before { before.now.block ≡ self.now.pointer.block }
        ensures clone { IsCloneOf result.pointer self.now.pointer }
        ensures born { IsBornOf self.now.pointer before.now.history result.pointer }
    {
        let mut old = old;
        for _ in rt.forever() {
            match self.exchange(old, before) {
                Ok(clone) => return clone,
                Err(found) => old = found,
            }
        }
        unreachable!()
    }

    /// Another handle on this block, with this pointer to it. The length is passed, since the
    /// machine would read it again after an atomic step.
    fn with_pointer(&self, pointer: Pointer<A>, len: usize) -> Counted<LIMIT, A>
        requires same { IsSameBlock pointer self.now.pointer }
        requires free { IsFree pointer.right }
        requires len { len ≡ length self.now.pointer.text }
        requires born { IsBornIn LIMIT pointer.history pointer.seat }
        ensures { result.pointer ≡ pointer }
    {
        Counted {
            pointer,
            len,
            alloc: self.alloc,
        }
    }
}

impl<const LIMIT: u64, A: Allocator + Copy> Drop for Shared<LIMIT, A> {
    /// Ends the handle, and frees what it owes.
    fn drop(self) {
        self.end();
    }
}
