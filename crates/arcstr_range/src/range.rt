//! Ranges of byte offsets in a text, and their tests. No call here allocates.
//!
//! Offsets and lengths are counted in bytes. An offset is a boundary if `str::is_char_boundary`
//! says so.
ghost use Rattle.std.specs.Prelude.{◌≡◌, ◌≢◌, ◌<◌, nat_le, ◌&&◌, if◌then◌else◌, MatchOption};
ghost use Rattle.std.specs.Range.{range_inclusive_start, range_inclusive_end, range_inclusive_exhausted};
ghost use Rattle.arcstr_range.specs.declared.range.StrRange.TheVariants.{Between, From as FromStart, To, Full, Inclusive, ToInclusive};
ghost use Rattle.arcstr_range.specs.Ends.{AnswersEnds, ends_of, length_rule, FitsLength, IsFirstFault};

mod fault;
mod places;

pub use fault::RangeFault;
pub use places::{checked_ends, is_boundary, slice};
use std::ops::{Range, RangeFrom, RangeFull, RangeInclusive, RangeTo, RangeToInclusive};

/// A range of byte offsets in a text, in one of the forms of Rust's ranges over `usize`.
///
/// Each of those forms converts to it. A conversion never fails: only a text or a length can refuse
/// a range.
///
/// Its size is 24 bytes. It can be copied, sent to a thread and shared between threads, and its
/// drop does nothing.
///
/// ```
/// assert_eq!(rt; StrRange::from(1..3), StrRange::Between(1, 3));
/// assert_eq!(rt; StrRange::from(..=2), StrRange::ToInclusive(2));
/// ```
#[derive(Clone, Copy, Debug, PartialEq, Eq, Hash)]
pub enum StrRange {
    /// `start..end`
    Between(usize, usize),
    /// `start..`
    From(usize),
    /// `..end`
    To(usize),
    /// `..`
    Full,
    /// `start..=last`
    Inclusive(usize, usize),
    /// `..=last`
    ToInclusive(usize),
}

impl StrRange {
    /// Returns the start and the end of the range in a sequence of `len` bytes.
    ///
    /// Errors, in this order: `OutOfOrder` if the start is after the end; `PastEnd` if the end is
    /// greater than `len`. An inclusive end of `usize::MAX` counts as one more, and so is past the
    /// end.
    ///
    /// ```
    /// assert_eq!(rt; StrRange::From(1).ends(3), Ok((1, 3)));
    /// assert_eq!(rt; StrRange::From(4).ends(3), Err(RangeFault::OutOfOrder));
    /// assert_eq!(rt; StrRange::Inclusive(1, 3).ends(3), Err(RangeFault::PastEnd));
    /// ```
    #[tactic(auto, using(crate::proofs::Faults::refused_with))]
    pub fn ends(self, len: usize) -> Result<(usize, usize), RangeFault>
        // Promise: They are in order and inside. Otherwise the call returns the first fault, which
        // is never `OffBoundary`.
        ensures answer { let ends = ends_of self len in
            AnswersEnds ends (FitsLength len ends.0 ends.1) (IsFirstFault (length_rule len ends.0 ends.1)) result }
        ensures no_characters { result ≢ Err RangeFault.OffBoundary }
    {
        let Some((start, end)) = self.usize_ends(len) else {
            return Err(RangeFault::PastEnd);
        };
        if start > end {
            return Err(RangeFault::OutOfOrder);
        }
        if end > len {
            return Err(RangeFault::PastEnd);
        }
        Ok((start, end))
    }

    // Returns the start and the end, without a test. Returns `None` if the end overflows `usize`,
    // as an inclusive end of `usize::MAX` does.
    pub(crate) fn usize_ends(self, len: usize) -> Option<(usize, usize)>
        ensures { let ends = ends_of self len in
            MatchOption result (usize.MAX < ends.1) (λ found. found ≡ ends) }
    {
        match self {
            StrRange::Between(start, end) => Some((start, end)),
            StrRange::From(start) => Some((start, len)),
            StrRange::To(end) => Some((0, end)),
            StrRange::Full => Some((0, len)),
            StrRange::Inclusive(start, last) => Some((start, last.checked_add(1)?)),
            StrRange::ToInclusive(last) => Some((0, last.checked_add(1)?)),
        }
    }
}

impl From<Range<usize>> for StrRange {
    ghost from_gives = { λ range given. given ≡ Between range.start range.end };

    fn from(range: Range<usize>) -> StrRange {
        StrRange::Between(range.start, range.end)
    }
}

impl From<RangeFrom<usize>> for StrRange {
    ghost from_gives = { λ range given. given ≡ FromStart range.start };

    fn from(range: RangeFrom<usize>) -> StrRange {
        StrRange::From(range.start)
    }
}

impl From<RangeTo<usize>> for StrRange {
    ghost from_gives = { λ range given. given ≡ To range.end };

    fn from(range: RangeTo<usize>) -> StrRange {
        StrRange::To(range.end)
    }
}

impl From<RangeFull> for StrRange {
    ghost from_gives = { λ _ given. given ≡ Full };

    fn from(_range: RangeFull) -> StrRange {
        StrRange::Full
    }
}

/// After `next` has returned the last value, the range ends before that value, as std's
/// `RangeBounds` says: a spent `a..=a` is `a..a`.
impl From<RangeInclusive<usize>> for StrRange {
    ghost from_gives = { λ range given.
        let start = range_inclusive_start range in
        let last = range_inclusive_end range in
        let is_spent = range_inclusive_exhausted range && nat_le start last in
        given ≡ (if is_spent then Between start last else Inclusive start last) };

    fn from(range: RangeInclusive<usize>) -> StrRange {
        let is_empty = range.is_empty();
        let (start, last) = range.into_inner();
        if is_empty && start <= last {
            return StrRange::Between(start, last);
        }
        StrRange::Inclusive(start, last)
    }
}

impl From<RangeToInclusive<usize>> for StrRange {
    ghost from_gives = { λ range given. given ≡ ToInclusive range.end };

    fn from(range: RangeToInclusive<usize>) -> StrRange {
        StrRange::ToInclusive(range.end)
    }
}
