//! Slices without the white space around a text. Each call clones the handle once, and so can wait.
//! An empty slice keeps the text alive too.
ghost use Rattle.std.specs.Prelude.{◌≡◌, ◌+◌, length};
ghost use Rattle.std.specs.Str.{trim, trim_end, trim_start};
ghost use Rattle.arcstr_range.specs.Ends.{IsLawful};
ghost use Rattle.arcstr_range.specs.Text.{cut};
ghost use Rattle.arcstr_range.specs.Trim.{Trims, TrimsEnd, TrimsStart};
ghost use Rattle.arcstr_range.specs.View.{view_at};
ghost use Rattle.arcstr.specs.Slicing.{IsTrimmed, LiesBetween};
ghost use Rattle.arcstr.specs.Substr.{slice_of, slice_within, text_of};

use crate::arc_str::ArcStr;
use crate::substr::Substr;
use arcstr_range::view::StrView;
use std::ops::Range;
use std::sync::Wait;

impl ArcStr {
    /// Returns the slice of this text with leading and trailing white space removed, as `str::trim`
    /// does.
    ///
    /// ```
    /// let text = ArcStr::from_static("  foo ");
    /// let slice = text.substr_trim(&rt);
    /// assert_eq!(rt; slice.as_str(), "foo");
    /// assert_eq!(rt; slice.range(), 2..5);
    /// ```
    pub fn substr_trim(&self, rt: &impl Wait) -> Substr
        ensures slice { IsTrimmed Trims self.now.text (slice_of self.now) result }
        ensures text { text_of result ≡ trim self.now.text }
        ensures within { LiesBetween 0 (length self.now.text) result }
    {
        self.clone_between(rt, trim_range(self.as_str()))
    }

    /// Returns the slice of this text with leading white space removed, as `str::trim_start` does.
    ///
    /// ```
    /// let text = ArcStr::from_static("  foo ");
    /// let slice = text.substr_trim_start(&rt);
    /// assert_eq!(rt; slice.as_str(), "foo ");
    /// assert_eq!(rt; slice.range(), 2..6);
    /// ```
    pub fn substr_trim_start(&self, rt: &impl Wait) -> Substr
        ensures slice { IsTrimmed TrimsStart self.now.text (slice_of self.now) result }
        ensures text { text_of result ≡ trim_start self.now.text }
        ensures within { LiesBetween 0 (length self.now.text) result }
        ensures end { result.end ≡ length self.now.text }
    {
        self.clone_between(rt, trim_start_range(self.as_str()))
    }

    /// Returns the slice of this text with trailing white space removed, as `str::trim_end` does.
    ///
    /// ```
    /// let text = ArcStr::from_static("  foo ");
    /// let slice = text.substr_trim_end(&rt);
    /// assert_eq!(rt; slice.as_str(), "  foo");
    /// assert_eq!(rt; slice.range(), 0..5);
    /// ```
    pub fn substr_trim_end(&self, rt: &impl Wait) -> Substr
        ensures slice { IsTrimmed TrimsEnd self.now.text (slice_of self.now) result }
        ensures text { text_of result ≡ trim_end self.now.text }
        ensures within { LiesBetween 0 (length self.now.text) result }
        ensures start { result.start ≡ 0 }
    {
        self.clone_between(rt, trim_end_range(self.as_str()))
    }
}

impl Substr {
    /// As `ArcStr::substr_trim`, for the slice's own text.
    pub fn substr_trim(&self, rt: &impl Wait) -> Substr
        ensures slice { IsTrimmed Trims (text_of self.now) (slice_within self.now) result }
        ensures text { text_of result ≡ trim (text_of self.now) }
        ensures within { LiesBetween self.now.start self.now.end result }
    {
        self.clone_between(rt, trim_range(self.as_str()))
    }

    /// As `ArcStr::substr_trim_start`, for the slice's own text.
    pub fn substr_trim_start(&self, rt: &impl Wait) -> Substr
        ensures slice { IsTrimmed TrimsStart (text_of self.now) (slice_within self.now) result }
        ensures text { text_of result ≡ trim_start (text_of self.now) }
        ensures within { LiesBetween self.now.start self.now.end result }
        ensures end { result.end ≡ self.now.end }
    {
        self.clone_between(rt, trim_start_range(self.as_str()))
    }

    /// As `ArcStr::substr_trim_end`, for the slice's own text.
    pub fn substr_trim_end(&self, rt: &impl Wait) -> Substr
        ensures slice { IsTrimmed TrimsEnd (text_of self.now) (slice_within self.now) result }
        ensures text { text_of result ≡ trim_end (text_of self.now) }
        ensures within { LiesBetween self.now.start self.now.end result }
        ensures start { result.start ≡ self.now.start }
    {
        self.clone_between(rt, trim_end_range(self.as_str()))
    }
}

/// Returns the byte range of what `str::trim_start` leaves of the text.
#[tactic(auto, using(arcstr_range::proofs::FoundParts::trimmed_starts))]
fn trim_start_range(text: &str) -> Range<usize>
    ensures lawful { IsLawful text.now result.start result.end }
    ensures longest { TrimsStart (view_at text.now 0)
        (view_at (cut text.now result.start result.end) result.start) }
    ensures end { result.end ≡ result.start + length (cut text.now result.start result.end) }
    ensures text { cut text.now result.start result.end ≡ trim_start text.now }
    ensures last { result.end ≡ length text.now }
{
    StrView::whole(text).trim_start().range()
}

/// Returns the byte range of what `str::trim_end` leaves of the text.
#[tactic(auto, using(arcstr_range::proofs::FoundParts::trimmed_ends))]
fn trim_end_range(text: &str) -> Range<usize>
    ensures lawful { IsLawful text.now result.start result.end }
    ensures longest { TrimsEnd (view_at text.now 0)
        (view_at (cut text.now result.start result.end) result.start) }
    ensures end { result.end ≡ result.start + length (cut text.now result.start result.end) }
    ensures text { cut text.now result.start result.end ≡ trim_end text.now }
    ensures first { result.start ≡ 0 }
{
    StrView::whole(text).trim_end().range()
}

/// Returns the byte range of what `str::trim` leaves of the text.
#[tactic(auto, using(arcstr_range::proofs::FoundParts::trimmed_texts))]
fn trim_range(text: &str) -> Range<usize>
    ensures lawful { IsLawful text.now result.start result.end }
    ensures longest { Trims (view_at text.now 0)
        (view_at (cut text.now result.start result.end) result.start) }
    ensures end { result.end ≡ result.start + length (cut text.now result.start result.end) }
    ensures text { cut text.now result.start result.end ≡ trim text.now }
{
    StrView::whole(text).trim().range()
}
