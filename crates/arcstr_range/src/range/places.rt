//! Ranges and byte offsets in a text.
ghost use Rattle.std.specs.Prelude.{◌≡◌, ◌↔◌, IsTrue, IsSome, IfSome};
ghost use Rattle.std.specs.Str.{IsCharBoundary};
ghost use Rattle.arcstr_range.specs.Text.{IsPrefixLength, SpellsBetween};
ghost use Rattle.arcstr_range.specs.Ends.{AnswersEnds, ends_in, cut_by, IsLawfulRange, IsFirstRangeFault};

use crate::range::{RangeFault, StrRange};

/// Returns whether the text can be cut at this byte offset: exactly if the offset is the length in
/// bytes of a prefix of the text's characters.
///
/// ```
/// assert!(rt; range::is_boundary("aé", 1));
/// assert!(rt; !range::is_boundary("aé", 2));
/// ```
#[tactic(auto, using(crate::proofs::Boundaries::prefixes_at_boundaries))]
pub fn is_boundary(text: &str, place: usize) -> bool
    ensures boundary { IsTrue result ↔ IsCharBoundary text.now place }
    ensures prefix { IsTrue result ↔ IsPrefixLength text.now place }
{
    text.is_char_boundary(place)
}

/// Returns the start and the end of the range in the text, as byte offsets.
///
/// Errors, in this order: `OutOfOrder` if the start is after the end; `PastEnd` if the end is past
/// the text; `OffBoundary` if the start or the end is not a character boundary.
///
/// ```
/// assert_eq!(rt; range::checked_ends("aé", StrRange::From(1)), Ok((1, 3)));
/// let cut = range::checked_ends("aé", StrRange::To(2));
/// assert_eq!(rt; cut, Err(RangeFault::OffBoundary));
/// ```
pub fn checked_ends(text: &str, range: StrRange) -> Result<(usize, usize), RangeFault>
    // Promise: They are in order, inside the text and at character boundaries. Otherwise the call
    // returns the first fault.
    ensures { AnswersEnds (ends_in text.now range) (IsLawfulRange text.now range)
        (IsFirstRangeFault text.now range) result }
{
    let (start, end) = range.ends(text.len())?;
    if !text.is_char_boundary(start) || !text.is_char_boundary(end) {
        return Err(RangeFault::OffBoundary);
    }
    Ok((start, end))
}

/// Returns the slice of the text between the ends of the range, as `str::get` does. Returns `None`
/// exactly if the ends are out of order, past the text or inside a character. The slice is borrowed
/// from the text.
///
/// ```
/// assert_eq!(rt; range::slice("aé", StrRange::From(1)), Some("é"));
/// assert_eq!(rt; range::slice("aé", StrRange::To(2)), None);
/// ```
#[tactic(auto, using(crate::proofs::Boundaries::slices_by_characters))]
pub fn slice(text: &str, range: StrRange) -> Option<&str>
    // Promise: There is a slice exactly if the range is lawful.
    ensures some { IsSome result ↔ IsLawfulRange text.now range }
    ensures value { IfSome result (λ part. part.now ≡ cut_by text.now range) }
    // Promise: It has the characters between the ends.
    ensures characters { let ends = ends_in text.now range in
        IfSome result (λ part. SpellsBetween text.now ends.0 ends.1 part.now) }
{
    let (start, end) = range.usize_ends(text.len())?;
    if start > end || !text.is_char_boundary(start) || !text.is_char_boundary(end) {
        return None;
    }
    Some(&text[start..end])
}
