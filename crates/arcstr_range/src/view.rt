//! Views of a text that remember their byte offset in a parent.
ghost use Rattle.std.specs.Prelude.{◌≡◌, ◌↔◌, ◌+◌, ◌≤◌, length, IsTrue, IsSome, IfSome, Some, bytes_eq, ⊤};
ghost use Rattle.std.specs.Cmp.{on_equiv, on_per, partial_equiv_from_equiv};
ghost use Rattle.std.specs.Cmp.Lexicographic.{nat_list_eq_equiv};
ghost use Rattle.std.specs.Fmt.{styled_text};
ghost use Rattle.std.specs.Str.{trim, trim_end, trim_start};
ghost use Rattle.arcstr_range.specs.Ends.{IsLawful};
ghost use Rattle.arcstr_range.specs.Trim.{Trims, TrimsEnd, TrimsStart};
ghost use Rattle.arcstr_range.specs.View.{IsFoundAt, IsFoundWith, end_of, part_of, view_at};

pub mod lines;
mod parts;
pub mod split;
pub mod split_by;
pub mod words;

use crate::range::{RangeFault, StrRange, checked_ends, slice};
use std::alloc::AllocError;
use std::fmt;
use std::marker::Model;
use std::ops::Range;

/// A text and its byte offset, at which it claims to stand in a longer text, its parent. The view
/// does not keep the parent: `is_found_in` tests whether a text has the view at that byte offset.
///
/// The sum of the byte offset and the text's length is at most `usize::MAX`. A view borrows its
/// text, and no call on it allocates.
///
/// Its size is 24 bytes. It can be sent to a thread and shared between threads, and its drop does
/// nothing.
///
/// ```
/// let line = "key = value";
/// let name = StrView::whole(line).cut(0..4).ok_or("no part")?.trim_end();
/// assert_eq!(rt; name.text(), "key");
/// assert!(rt; name.is_found_in(line));
/// ```
#[derive(Debug, Drop)]
pub struct StrView<'a> {
    text: &'a str,
    place: usize,
}

impl<'a> Model for StrView<'a> {
    ghost use Rattle.std.specs.Prelude.{◌^◌, ◌<◌};
    ghost use Rattle.arcstr_range.specs.View.{View, view_at, end_of};

    ghost Value = { View };

    ghost view = { λ fields. view_at fields.text.now fields.place };

    ghost invariant = { λ fields. end_of (view_at fields.text.now fields.place) < 2 ^ 64 };
}

impl<'a> StrView<'a> {
    /// Returns the view of a whole text, at the byte offset 0.
    ///
    /// ```
    /// let view = StrView::whole("abc");
    /// assert_eq!(rt; view.text(), "abc");
    /// assert_eq!(rt; view.place(), 0);
    /// ```
    #[tactic(auto, using(crate::proofs::FoundParts::found_whole))]
    pub fn whole(text: &'a str) -> StrView<'a>
        ensures value { result ≡ view_at text.now 0 }
        // Promise: It is found in its text.
        ensures found { IsFoundAt text.now result.text result.place }
    {
        StrView { text, place: 0 }
    }

    /// Returns the view of a text at a byte offset. Returns `None` exactly if the sum of the byte
    /// offset and the text's length is above `usize::MAX`.
    ///
    /// ```
    /// let view = StrView::at("abc", 4).ok_or("no view")?;
    /// assert_eq!(rt; view.range(), 4..7);
    /// assert!(rt; StrView::at("abc", usize::MAX).is_none());
    /// ```
    pub fn at(text: &'a str, place: usize) -> Option<StrView<'a>>
        // Promise: There is a view exactly if its end is at most `usize::MAX`.
        ensures some { IsSome result ↔ (place + length text.now ≤ usize.MAX) }
        ensures value { IfSome result (λ view. view ≡ view_at text.now place) }
    {
        place.checked_add(text.len())?;
        Some(StrView { text, place })
    }

    /// Returns the view's text.
    ///
    /// ```
    /// assert_eq!(rt; StrView::whole("abc").text(), "abc");
    /// ```
    pub fn text(&self) -> &'a str
        ensures { result.now ≡ self.now.text }
    {
        self.text
    }

    /// Returns the byte offset of the view's text.
    ///
    /// ```
    /// let word = StrView::whole("  abc").trim_start();
    /// assert_eq!(rt; word.place(), 2);
    /// ```
    pub fn place(&self) -> usize
        ensures value { result ≡ self.now.place }
        // Promise: The view's end is at most `usize::MAX`.
        ensures fits { end_of self.now ≤ usize.MAX }
    {
        self.place
    }

    /// Returns a copy of the view. A view is not `Copy`, and `clone` of the trait `Clone` returns a
    /// `Result`, which for a view is always `Ok`.
    ///
    /// ```
    /// let view = StrView::at("abc", 4).ok_or("no view")?;
    /// let again = view.copied();
    /// assert_eq!(rt; (again.text(), again.range()), ("abc", 4..7));
    /// ```
    pub fn copied(&self) -> StrView<'a>
        ensures { result ≡ self.now }
    {
        StrView {
            text: self.text,
            place: self.place,
        }
    }

    /// Returns the byte range of the view: from its byte offset on, as long as its text.
    ///
    /// ```
    /// let word = StrView::whole("  abc").trim_start();
    /// assert_eq!(rt; word.range(), 2..5);
    /// ```
    pub fn range(&self) -> Range<usize>
        ensures start { result.start ≡ self.now.place }
        ensures end { result.end ≡ end_of self.now }
    {
        self.place..self.place + self.text.len()
    }

    /// Returns the part of the view between two byte offsets of its own text. Returns `None`
    /// exactly if they are out of order, past the text or inside a character.
    ///
    /// ```
    /// let part = StrView::whole("aéb").cut(1..3).ok_or("no part")?;
    /// assert_eq!(rt; part.text(), "é");
    /// assert_eq!(rt; part.place(), 1);
    /// assert!(rt; StrView::whole("aéb").cut(0..2).is_none());
    /// ```
    #[tactic(auto, using(crate::proofs::FoundParts::found_part))]
    pub fn cut(&self, range: Range<usize>) -> Option<StrView<'a>>
        // Promise: There is a part exactly if the offsets are in order, inside the text and at
        // character boundaries.
        ensures some { IsSome result ↔ IsLawful self.now.text range.start range.end }
        ensures value { IfSome result (λ part. part ≡ part_of self.now range.start range.end) }
        // Promise: It is found wherever the view is found.
        ensures found { IfSome result (IsFoundWith self.now) }
    {
        let start = range.start;
        let text = slice(self.text, range.into())?;
        Some(StrView {
            text,
            place: self.place + start,
        })
    }

    /// Returns the view with leading white space removed, as `str::trim_start` does. Its byte
    /// offset moves by the bytes removed.
    ///
    /// ```
    /// let word = StrView::whole("  a ").trim_start();
    /// assert_eq!(rt; word.text(), "a ");
    /// assert_eq!(rt; word.place(), 2);
    /// ```
    #[tactic(auto, using(crate::proofs::Trims::trims_start, crate::proofs::FoundParts::found_std_trim_start))]
    pub fn trim_start(&self) -> StrView<'a>
        ensures longest { TrimsStart self.now result }
        ensures text { result.text ≡ trim_start self.now.text }
        // Promise: It is found wherever the view is found.
        ensures found { IsFoundWith self.now result }
    {
        let whole = self.text();
        let text = whole.trim_start();
        StrView {
            text,
            place: self.place + (whole.len() - text.len()),
        }
    }

    /// Returns the view with trailing white space removed, as `str::trim_end` does. Its byte offset
    /// stays the same.
    ///
    /// ```
    /// let word = StrView::whole("  a ").trim_end();
    /// assert_eq!(rt; word.text(), "  a");
    /// assert_eq!(rt; word.place(), 0);
    /// ```
    #[tactic(auto, using(crate::proofs::Trims::trims_end, crate::proofs::FoundParts::found_std_trim_end))]
    pub fn trim_end(&self) -> StrView<'a>
        ensures longest { TrimsEnd self.now result }
        ensures text { result.text ≡ trim_end self.now.text }
        // Promise: It is found wherever the view is found.
        ensures found { IsFoundWith self.now result }
    {
        StrView {
            text: self.text.trim_end(),
            place: self.place,
        }
    }

    /// Returns the view with leading and trailing white space removed, as `str::trim` does. Its
    /// byte offset moves by the bytes removed at the start.
    ///
    /// ```
    /// let word = StrView::whole("  a ").trim();
    /// assert_eq!(rt; word.text(), "a");
    /// assert_eq!(rt; word.place(), 2);
    /// ```
    pub fn trim(&self) -> StrView<'a>
        ensures longest { Trims self.now result }
        ensures text { result.text ≡ trim self.now.text }
        // Promise: It is found wherever the view is found.
        ensures found { IsFoundWith self.now result }
    {
        self.trim_start().trim_end()
    }

    /// Returns whether the parent has the view's text at the view's byte offset, in a valid range.
    /// An empty view is found in every text.
    ///
    /// ```
    /// let word = StrView::whole("  abc").trim_start();
    /// assert!(rt; word.is_found_in("  abc"));
    /// assert!(rt; !word.is_found_in("abc"));
    /// ```
    #[tactic(auto, unfolding(crate::specs::View::IsFoundAt))]
    pub fn is_found_in(&self, parent: &str) -> bool
        ensures { IsTrue result ↔ IsFoundAt parent.now self.now.text self.now.place }
    {
        if self.text.is_empty() {
            return true;
        }
        let range = self.range();
        match checked_ends(parent, range.into()) {
            Ok((start, end)) => &parent[start..end] == self.text,
            Err(RangeFault::OutOfOrder | RangeFault::PastEnd | RangeFault::OffBoundary) => false,
        }
    }
}

impl<'a> Clone for StrView<'a> {
    ghost is_clone = { λ view copy. copy ≡ view };

    ghost is_infallible = { λ _. ⊤ };

    /// Returns a copy of the view, as `copied` does. Never fails.
    fn clone(&self) -> Result<StrView<'a>, AllocError> {
        Ok(self.copied())
    }
}

impl PartialEq for StrView<'_> {
    ghost eq = { λ one other. bytes_eq one.text other.text };

    ghost laws = { on_per (λ view. view.text) (partial_equiv_from_equiv nat_list_eq_equiv) };

    /// Returns whether the two texts are equal, as `==` of two `&str` does, whatever their byte
    /// offsets.
    fn eq(&self, other: &StrView<'_>) -> bool
        ensures value { result ≡ bytes_eq self.now.text other.now.text }
        ensures same { IsTrue result ↔ (self.now.text ≡ other.now.text) }
    {
        self.text == other.text
    }
}

impl Eq for StrView<'_> {
    ghost laws = { on_equiv (λ view. view.text) nat_list_eq_equiv };
}

impl fmt::Display for StrView<'_> {
    ghost output = { λ view. Some view.text };

    ghost styled_output = { λ view spec. Some (styled_text spec view.text) };

    /// Writes the text with padding and precision, as for a `str`. Fails if the writer fails.
    /// Allocates nothing itself.
    fn fmt<W: fmt::Write>(&self, f: &mut fmt::Formatter<W>) -> fmt::Result {
        f.pad(self.text)
    }
}
