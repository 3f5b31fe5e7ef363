//! Parts of a text: as a `&str`, as a view, and as slices that keep the text alive.
//!
//! A call that returns a slice clones the handle once, and so can wait. It takes no atomic step if
//! it fails or returns `Substr::new()`. The calls of `Substr` take byte offsets of the slice's own
//! text, and their slices have its parent.
ghost use Rattle.std.specs.Prelude.{◌≡◌, ◌≢◌, ◌↔◌, ◌+◌, ℕ, [], length, IsSome, IfOk, IfSome};
ghost use Rattle.std.specs.Fn.{FnOnceReturnsAt, FnOnceTakesAt};
ghost use Rattle.std.specs.Option.{option_copied};
ghost use Rattle.std.specs.declared.ops.Range.{Range};
ghost use Rattle.arcstr_range.specs.declared.range.StrRange.{StrRange};
ghost use Rattle.arcstr_range.specs.Ends.{IsLawful};
ghost use Rattle.arcstr_range.specs.Text.{cut};
ghost use Rattle.arcstr_range.specs.View.{IsFoundAt, view_at};
ghost use Rattle.arcstr.specs.Slicing.{AnswersFoundRange, AnswersGet, AnswersRange, IsSliceOfView, LiesBetween};
ghost use Rattle.arcstr.specs.Substr.{slice_of, slice_within, text_of};

use crate::arc_str::ArcStr;
use crate::substr::Substr;
use arcstr_range::range::{RangeFault, StrRange, checked_ends, slice};
use arcstr_range::view::StrView;
use std::ops::Range;
use std::sync::Wait;

impl ArcStr {
    /// Returns the part of the text in the range, as `str::get` does. Returns `None` if the ends
    /// are out of order, past the text or inside a character.
    ///
    /// ```
    /// let text = ArcStr::from_static("aé");
    /// assert_eq!(rt; text.get(1..), Some("é"));
    /// assert_eq!(rt; text.get(..2), None);
    /// ```
    pub fn get<R: Into<StrRange>>(&self, range: R) -> Option<&str>
        ensures { (given : StrRange) × R.converts range given
            × AnswersGet self.now.text given (option_copied result) }
    {
        slice(self.as_str(), range.into())
    }

    /// Returns a view of the whole text, at byte offset 0. `substr_from` of this text accepts this
    /// view and its parts without a test.
    ///
    /// ```
    /// let text = ArcStr::from_static("key = value");
    /// let value = text.view().cut(5..11).ok_or("no part")?.trim();
    /// let slice = text.substr_from(&rt, value);
    /// assert_eq!(rt; slice.as_str(), "value");
    /// assert_eq!(rt; slice.range(), 6..11);
    /// ```
    pub fn view(&self) -> StrView<'_>
        ensures value { result ≡ view_at self.now.text 0 }
        // Promise: It is found in the text.
        ensures found { IsFoundAt self.now.text result.text result.place }
    {
        StrView::whole(self.as_str())
    }

    /// Returns the slice of this text in the range. An empty slice keeps the text alive too.
    ///
    /// Errors, in this order: `OutOfOrder` if the start is after the end; `PastEnd` if the end is
    /// past the text; `OffBoundary` if the start or the end is not a character boundary.
    ///
    /// ```
    /// let text = ArcStr::from_str(rt.alloc(), "foo bar")?;
    /// let slice = text.substr(&rt, 4..)?;
    /// assert_eq!(rt; slice.as_str(), "bar");
    /// let fault = text.substr(&rt, 4..9).err();
    /// assert_eq!(rt; fault, Some(RangeFault::PastEnd));
    /// ```
    #[inline]
    pub fn substr<R: Into<StrRange>>(&self, rt: &impl Wait, range: R) -> Result<Substr, RangeFault>
        // Promise: The call succeeds exactly if the range is lawful, and otherwise returns the
        // first fault.
        ensures answer { (given : StrRange) × R.converts range given
            × AnswersRange self.now.text (slice_of self.now) given result }
        // Promise: The slice lies inside the text.
        ensures within { IfOk result (LiesBetween 0 (length self.now.text)) }
    {
        match checked_ends(self.as_str(), range.into()) {
            Ok((start, end)) => Ok(self.clone_between(rt, start..end)),
            Err(fault) => Err(fault),
        }
    }

    /// Returns the slice of this text that a view shows, or `None` exactly if the text does not
    /// have the view's text at the view's byte offset. An empty view is found everywhere, and gives
    /// `Substr::new()`.
    ///
    /// ```
    /// let text = ArcStr::from_str(rt.alloc(), "  foo ")?;
    /// let view = StrView::whole(text.as_str()).trim();
    /// let slice = text.try_substr_from(&rt, view).expect(&rt, "not found");
    /// assert_eq!(rt; slice.as_str(), "foo");
    /// ```
    pub fn try_substr_from(&self, rt: &impl Wait, view: StrView<'_>) -> Option<Substr>
        // Promise: There is a slice exactly if the view is found in the text.
        ensures found { IsSome result ↔ IsFoundAt self.now.text view.entry.text view.entry.place }
        ensures value { IfSome result (IsSliceOfView (slice_of self.now) view.entry) }
        ensures within { IfSome result (LiesBetween 0 (length self.now.text)) }
    {
        if !view.is_found_in(self.as_str()) {
            return None;
        }
        Some(self.substr_from(rt, view))
    }

    /// Returns the slice of this text that a view shows, or `Substr::new()` for an empty view. The
    /// caller must ensure that the text has the view's text at the view's byte offset. The text's
    /// own `view` and its parts satisfy this, and `StrView::is_found_in` tests it for other views.
    ///
    /// ```
    /// let text = ArcStr::from_str(rt.alloc(), "  foo ")?;
    /// let view = StrView::whole(text.as_str()).trim();
    /// let slice = text.substr_from(&rt, view);
    /// assert_eq!(rt; slice.range(), 2..5);
    /// ```
    #[tactic(auto, unfolding(arcstr_range::specs::View::IsFoundAt))]
    pub fn substr_from(&self, rt: &impl Wait, view: StrView<'_>) -> Substr
        requires { IsFoundAt self.now.text view.text view.place }
        ensures slice { IsSliceOfView (slice_of self.now) view.entry result }
        ensures within { LiesBetween 0 (length self.now.text) result }
    {
        if view.text().is_empty() {
            return Substr::new();
        }
        self.clone_between(rt, view.range())
    }

    /// Returns the slice of this text between the byte offsets that the closure returns for it.
    /// Calls the closure once, first; the caller must ensure that it can be called on the text.
    /// Equal offsets give `Substr::new()`, wherever they lie.
    ///
    /// Errors for other offsets, in this order: `OutOfOrder` if the start is after the end;
    /// `PastEnd` if the end is past the text; `OffBoundary` if the start or the end is not a
    /// character boundary.
    ///
    /// ```
    /// let text = ArcStr::from_static("name=value");
    /// let slice = text.substr_using(&rt, |own| 5..own.len())?;
    /// assert_eq!(rt; slice.as_str(), "value");
    /// let fault = text.substr_using(&rt, |_| 5..4).err();
    /// assert_eq!(rt; fault, Some(RangeFault::OutOfOrder));
    /// ```
    pub fn substr_using<F: FnOnce(&str) -> Range<usize>>(
        &self,
        rt: &impl Wait,
        find: F,
    ) -> Result<Substr, RangeFault>
        requires { FnOnceTakesAt F.FnOnce find self.now.text }
        // Promise: The call succeeds exactly if the offsets are equal or their range is lawful, and
        // otherwise returns the first fault.
        ensures answer { (found : Range ℕ) × FnOnceReturnsAt F.FnOnce find self.now.text found
            × AnswersFoundRange self.now.text (slice_of self.now) found result }
        ensures within { IfOk result (LiesBetween 0 (length self.now.text)) }
    {
        let found = find(self.as_str());
        if found.start == found.end {
            return Ok(Substr::new());
        }
        self.substr(rt, found)
    }

    /// As `substr_using`. The Rust crate has both names.
    ///
    /// ```
    /// let text = ArcStr::from_static("name=value");
    /// let slice = text.try_substr_using(&rt, |_| 0..4)?;
    /// assert_eq!(rt; slice.as_str(), "name");
    /// ```
    pub fn try_substr_using<F: FnOnce(&str) -> Range<usize>>(
        &self,
        rt: &impl Wait,
        find: F,
    ) -> Result<Substr, RangeFault>
        requires { FnOnceTakesAt F.FnOnce find self.now.text }
        ensures answer { (found : Range ℕ) × FnOnceReturnsAt F.FnOnce find self.now.text found
            × AnswersFoundRange self.now.text (slice_of self.now) found result }
        ensures within { IfOk result (LiesBetween 0 (length self.now.text)) }
    {
        self.substr_using(rt, find)
    }

    /// Returns the slice of this text between two byte offsets. Clones the handle.
    pub(crate) fn clone_between(&self, rt: &impl Wait, range: Range<usize>) -> Substr
        requires { IsLawful self.now.text range.start range.end }
        ensures slice { result ≡ slice_of self.now range.start range.end }
        ensures text { text_of result ≡ cut self.now.text range.start range.end }
        ensures within { LiesBetween 0 (length self.now.text) result }
    {
        Substr::from_parts_unchecked(self.clone(rt), range)
    }
}

impl Substr {
    /// As `ArcStr::get`, for the slice's own text.
    pub fn get<R: Into<StrRange>>(&self, range: R) -> Option<&str>
        ensures { (given : StrRange) × R.converts range given
            × AnswersGet (text_of self.now) given (option_copied result) }
    {
        slice(self.as_str(), range.into())
    }

    /// As `ArcStr::view`, for the slice's own text.
    pub fn view(&self) -> StrView<'_>
        ensures value { result ≡ view_at (text_of self.now) 0 }
        ensures found { IsFoundAt (text_of self.now) result.text result.place }
    {
        StrView::whole(self.as_str())
    }

    /// As `ArcStr::substr`, for the slice's own text. The range is measured in bytes of that text,
    /// and the new slice has the same parent.
    pub fn substr<R: Into<StrRange>>(&self, rt: &impl Wait, range: R) -> Result<Substr, RangeFault>
        ensures answer { (given : StrRange) × R.converts range given
            × AnswersRange (text_of self.now) (slice_within self.now) given result }
        ensures within { IfOk result (LiesBetween self.now.start self.now.end) }
    {
        self.slice_in(rt, range.into())
    }

    /// Returns the slice of the same parent in the range.
    fn slice_in(&self, rt: &impl Wait, range: StrRange) -> Result<Substr, RangeFault>
        ensures answer { AnswersRange (text_of self.now) (slice_within self.now) range result }
        ensures within { IfOk result (LiesBetween self.now.start self.now.end) }
    {
        match checked_ends(self.as_str(), range) {
            Ok((start, end)) => Ok(self.clone_between(rt, start..end)),
            Err(fault) => Err(fault),
        }
    }

    /// As `ArcStr::try_substr_from`, for the slice's own text: the view's byte offset is one of
    /// that text.
    pub fn try_substr_from(&self, rt: &impl Wait, view: StrView<'_>) -> Option<Substr>
        ensures found { IsSome result
            ↔ IsFoundAt (text_of self.now) view.entry.text view.entry.place }
        ensures value { IfSome result (IsSliceOfView (slice_within self.now) view.entry) }
        ensures within { view.entry.text ≢ []
            → IfSome result (LiesBetween self.now.start self.now.end) }
    {
        if !view.is_found_in(self.as_str()) {
            return None;
        }
        Some(self.substr_from(rt, view))
    }

    /// As `ArcStr::substr_from`, for the slice's own text: the view's byte offset is one of that
    /// text.
    #[tactic(auto, unfolding(arcstr_range::specs::View::IsFoundAt))]
    pub fn substr_from(&self, rt: &impl Wait, view: StrView<'_>) -> Substr
        requires { IsFoundAt (text_of self.now) view.text view.place }
        ensures slice { IsSliceOfView (slice_within self.now) view.entry result }
        ensures within { view.entry.text ≢ [] → LiesBetween self.now.start self.now.end result }
    {
        if view.text().is_empty() {
            return Substr::new();
        }
        self.clone_between(rt, view.range())
    }

    /// As `ArcStr::substr_using`, for the slice's own text. The closure returns byte offsets of
    /// that text.
    pub fn substr_using<F: FnOnce(&str) -> Range<usize>>(
        &self,
        rt: &impl Wait,
        find: F,
    ) -> Result<Substr, RangeFault>
        requires { FnOnceTakesAt F.FnOnce find (text_of self.now) }
        ensures answer { (found : Range ℕ) × FnOnceReturnsAt F.FnOnce find (text_of self.now) found
            × AnswersFoundRange (text_of self.now) (slice_within self.now) found result }
        ensures within { IfOk result (λ slice. text_of slice ≢ []
            → LiesBetween self.now.start self.now.end slice) }
    {
        let found = find(self.as_str());
        if found.start == found.end {
            return Ok(Substr::new());
        }
        self.substr(rt, found)
    }

    /// As `substr_using`. The Rust crate has both names.
    pub fn try_substr_using<F: FnOnce(&str) -> Range<usize>>(
        &self,
        rt: &impl Wait,
        find: F,
    ) -> Result<Substr, RangeFault>
        requires { FnOnceTakesAt F.FnOnce find (text_of self.now) }
        ensures answer { (found : Range ℕ) × FnOnceReturnsAt F.FnOnce find (text_of self.now) found
            × AnswersFoundRange (text_of self.now) (slice_within self.now) found result }
        ensures within { IfOk result (λ slice. text_of slice ≢ []
            → LiesBetween self.now.start self.now.end slice) }
    {
        self.substr_using(rt, find)
    }

    /// Returns the slice of the same parent between two byte offsets of the slice's own text.
    /// Clones the parent's handle.
    pub(crate) fn clone_between(&self, rt: &impl Wait, range: Range<usize>) -> Substr
        requires { IsLawful (text_of self.now) range.start range.end }
        ensures slice { result ≡ slice_within self.now range.start range.end }
        ensures text { text_of result ≡ cut (text_of self.now) range.start range.end }
        ensures within { LiesBetween self.now.start self.now.end result }
        ensures own_length { self.now.start + length (text_of self.now) ≡ self.now.end }
    {
        let start = self.range().start;
        let places = start + range.start..start + range.end;
        Substr::from_parts_unchecked(self.parent().clone(rt), places)
    }
}
