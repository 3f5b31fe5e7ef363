//! Answers that are in order: each call has seen all that its caller had seen of the block's
//! history, and more.
//!
//! A `Seen` has no bytes. `None` stands for nothing seen, as of a literal or a permanent block, on
//! which no call here takes an atomic step. No call allocates, and only `clone_after` waits.
ghost use Rattle.std.specs.Prelude.{◌≡◌, ◌↔◌, IfSome, IsNone, IsTrue, None, length};
ghost use Rattle.arcstr_count.specs.Model.{living_after};
ghost use Rattle.arcstr_block.specs.declared.ending.End.TheVariants.{Ended, Freed};
ghost use Rattle.arcstr.specs.TextView.{IsStatic, leaked};
ghost use Rattle.arcstr.specs.History.{IsSeenBirth, IsSeenEnd, IsSeenFree, IsSeenOf, IsSeenStatic, SeesAfter};

use crate::arc_str::ArcStr;
use crate::static_str::StaticStr;
use crate::substr::Substr;
use arcstr_block::{End, Seen};
use arcstr_count::RC_MAX;
use std::sync::Wait;

impl ArcStr {
    /// As `ArcStr::is_static`, after what the caller has seen of the block. Returns the answer and
    /// what this call has seen.
    ///
    /// ```
    /// let text = ArcStr::from_str(rt.alloc(), "foo")?;
    /// let (_, seen) = ArcStr::is_static_after(&text, &None);
    /// text.leak();
    /// assert!(rt; ArcStr::is_static_after(&text, &seen).0);
    /// ```
    pub fn is_static_after(this: &ArcStr, before: &Option<Seen>) -> (bool, Option<Seen>)
        requires before { IsSeenOf this.now.kind before.now }
        ensures seen { SeesAfter this.now.kind before.now result.1 }
        // Promise: The answer is that of the history seen.
        ensures exact { IsTrue result.0 ↔ IsSeenStatic this.now.kind result.1 }
        // Promise: What was seen static stays static.
        ensures stays { IsSeenStatic this.now.kind before.now → IsTrue result.0 }
    {
        let (count, seen) = ArcStr::strong_count_after(this, before);
        (count.is_none(), seen)
    }

    /// As `ArcStr::strong_count`, after what the caller has seen of the block. Returns the answer
    /// and what this call has seen.
    ///
    /// ```
    /// let text = ArcStr::from_str(rt.alloc(), "foo")?;
    /// let (count, seen) = ArcStr::strong_count_after(&text, &None);
    /// assert_eq!(rt; (count, seen.is_some()), (Some(1), true));
    /// assert_eq!(rt; ArcStr::strong_count_after(&text, &seen).0, Some(1));
    /// ```
    #[tactic(auto, using(arcstr_block::proofs::Histories::what_looks_say))]
    pub fn strong_count_after(this: &ArcStr, before: &Option<Seen>) -> (Option<usize>, Option<Seen>)
        requires before { IsSeenOf this.now.kind before.now }
        ensures seen { SeesAfter this.now.kind before.now result.1 }
        // Promise: There is no count exactly if the text is static in the history seen.
        ensures exact { IsNone result.0 ↔ IsSeenStatic this.now.kind result.1 }
        // Promise: A count is the number of handles that live in the history seen.
        ensures living { IfSome result.0
            (λ count. IfSome result.1
            (λ seen. count ≡ length (living_after RC_MAX seen.history 0))) }
        // Promise: What was seen static stays static.
        ensures stays { IsSeenStatic this.now.kind before.now → IsNone result.0 }
    {
        let Some(shared) = this.counted() else {
            return (None, None);
        };
        let own = shared.seen();
        let (count, seen) = shared.look_after(seen_or(before, &own));
        (count.map(|count| count as usize), Some(seen))
    }

    /// As `ArcStr::leak`, after what the caller has seen of the block. Returns the permanent text
    /// and what this call has seen, in which the block is marked static.
    ///
    /// ```
    /// let text = ArcStr::from_str(rt.alloc(), "foo")?;
    /// let (kept, seen) = text.leak_after(&None);
    /// assert_eq!(rt; kept.as_str(), "foo");
    /// assert_eq!(rt; ArcStr::strong_count_after(&text, &seen).0, None);
    /// ```
    pub fn leak_after(&self, before: &Option<Seen>) -> (StaticStr, Option<Seen>)
        requires before { IsSeenOf self.now.kind before.now }
        ensures same { result.0 ≡ leaked self.now }
        ensures seen { SeesAfter self.now.kind before.now result.1 }
        // Promise: The text is static in the history seen.
        ensures marked { IsSeenStatic self.now.kind result.1 }
    {
        let Some(shared) = self.counted() else {
            return (self.leak(), None);
        };
        let own = shared.seen();
        let fixed = shared.mark_after(seen_or(before, &own));
        let seen = fixed.seen();
        (StaticStr::new(ArcStr::from_fixed(fixed)), Some(seen))
    }

    /// As `ArcStr::clone`, after what the caller has seen of the block. Returns the clone and what
    /// this call has seen, which ends in the step of the clone. It can wait, as `clone`.
    ///
    /// ```
    /// let text = ArcStr::from_str(rt.alloc(), "foo")?;
    /// let (other, seen) = text.clone_after(&rt, &None);
    /// assert_eq!(rt; ArcStr::strong_count_after(&other, &seen).0, Some(2));
    /// ```
    pub fn clone_after(&self, rt: &impl Wait, before: &Option<Seen>) -> (ArcStr, Option<Seen>)
        requires before { IsSeenOf self.now.kind before.now }
        // Promise: The clone has the same text in the same block.
        ensures same { result.0 ≡ self.now }
        ensures seen { SeesAfter self.now.kind before.now result.1 }
        // Promise: The history seen ends in a clone, by which a handle was born.
        ensures born { IsSeenBirth result.1 }
    {
        let Some(shared) = self.counted() else {
            return (self.clone(rt), None);
        };
        let own = shared.seen();
        let (clone, seen) = shared.up_after(rt, seen_or(before, &own));
        (ArcStr::from_shared(clone), Some(seen))
    }

    /// Proves that nobody has freed the block of a handle that is not dropped: what was seen of the
    /// block, by this handle or another one, does not end in the free. It does nothing when it
    /// runs.
    ///
    /// ```
    /// let text = ArcStr::from_str(rt.alloc(), "foo")?;
    /// let (end, seen) = text.clone(&rt).end();
    /// text.lives(&seen);
    /// assert_eq!(rt; end, End::Left);
    /// ```
    pub fn lives(&self, seen: &Option<Seen>)
        requires block { IsSeenOf self.now.kind seen.now }
        ensures unfreed { IsSeenFree seen.now → IsStatic self.now.kind }
    {
        if let (Some(shared), Some(seen)) = (self.counted(), seen) {
            shared.lives(seen);
        }
    }

    /// Drops the handle. Returns how it ended, and what the drop has seen: `End::Freed` means that
    /// it was the last handle and the memory of the block is freed, `End::Left` that the count was
    /// decremented and the block stays, and `End::Ended` that the block is marked static, or that
    /// the text was a literal or permanent. The implicit drop runs the same code.
    ///
    /// ```
    /// let text = ArcStr::from_str(rt.alloc(), "foo")?;
    /// let other = text.clone(&rt);
    /// assert_eq!(rt; (text.end().0, other.end().0), (End::Left, End::Freed));
    /// assert_eq!(rt; ArcStr::new().end().0, End::Ended);
    /// ```
    pub fn end(self) -> (End, Option<Seen>)
        ensures seen { SeesAfter self.kind None result.1 }
        // Promise: The handle ended as the history seen says.
        ensures ends { IsSeenEnd result.0 result.1 }
        // Promise: A literal or a permanent block is never freed.
        ensures never_freed { IsStatic self.kind → result.0 ≡ Ended }
        // Promise: Where it freed the block, what it has seen ends in the free.
        ensures freed { result.0 ≡ Freed → IsSeenFree result.1 }
    {
        self.end_after(&None)
    }

    /// As `end`, after what the caller has seen of the block.
    ///
    /// ```
    /// let text = ArcStr::from_str(rt.alloc(), "foo")?;
    /// let other = text.clone(&rt);
    /// let (_, seen) = text.end();
    /// assert_eq!(rt; other.end_after(&seen).0, End::Freed);
    /// ```
    pub fn end_after(self, before: &Option<Seen>) -> (End, Option<Seen>)
        requires before { IsSeenOf self.kind before.now }
        ensures seen { SeesAfter self.kind before.now result.1 }
        // Promise: The handle ended as the history seen says.
        ensures ends { IsSeenEnd result.0 result.1 }
        // Promise: A literal or a permanent block is never freed.
        ensures never_freed { IsStatic self.kind → result.0 ≡ Ended }
        // Promise: Where it freed the block, what it has seen ends in the free.
        ensures freed { result.0 ≡ Freed → IsSeenFree result.1 }
        // Promise: A text that was seen static is found static.
        ensures marked { IsSeenStatic self.kind before.now → result.0 ≡ Ended }
    {
        let Some(shared) = self.into_shared() else {
            return (End::Ended, None);
        };
        let own = shared.seen();
        let (end, seen) = shared.end_after(seen_or(before, &own));
        (end, Some(seen))
    }
}

impl Substr {
    /// As `ArcStr::end`: a slice is a handle on the block of its parent.
    pub fn end(self) -> (End, Option<Seen>)
        ensures seen { SeesAfter self.parent.kind None result.1 }
        ensures ends { IsSeenEnd result.0 result.1 }
        ensures never_freed { IsStatic self.parent.kind → result.0 ≡ Ended }
        ensures freed { result.0 ≡ Freed → IsSeenFree result.1 }
    {
        self.into_parent().end()
    }

    /// As `ArcStr::end_after`: a slice is a handle on the block of its parent.
    pub fn end_after(self, before: &Option<Seen>) -> (End, Option<Seen>)
        requires before { IsSeenOf self.parent.kind before.now }
        ensures seen { SeesAfter self.parent.kind before.now result.1 }
        ensures ends { IsSeenEnd result.0 result.1 }
        ensures never_freed { IsStatic self.parent.kind → result.0 ≡ Ended }
        ensures freed { result.0 ≡ Freed → IsSeenFree result.1 }
        ensures marked { IsSeenStatic self.parent.kind before.now → result.0 ≡ Ended }
    {
        self.into_parent().end_after(before)
    }
}

/// What a call on a block has to have seen: what its caller has, or what the handle has.
fn seen_or<'a>(before: &'a Option<Seen>, own: &'a Seen) -> &'a Seen
    requires before { IfSome before.now (λ old. old.block ≡ own.now.block) }
    ensures block { result.now.block ≡ own.now.block }
    ensures same { IfSome before.now (λ old. result.now ≡ old) }
{
    match before {
        Some(before) => before,
        None => own,
    }
}
