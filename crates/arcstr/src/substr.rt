//! `Substr`: a slice of a shared text, which keeps its parent alive.
ghost use Rattle.std.specs.Prelude.{◌≡◌, ◌↔◌, ◌+◌, ◌^◌, ◌<◌, [], length, IsTrue, IsNone, IsSome, IfSome, MatchResult};
ghost use Rattle.arcstr_range.specs.Ends.{IsLawful};
ghost use Rattle.arcstr_range.specs.Text.{SpellsBetween};
ghost use Rattle.arcstr.specs.TextView.{IsStatic, block, literal_of};
ghost use Rattle.arcstr.specs.Substr.{IsSoundSlice, empty_slice, slice_of, text_of, whole_of};

use crate::arc_str::{ArcStr, TRIES};
use arcstr_block::Shared;
use arcstr_count::RC_MAX;
use std::alloc::{AllocError, Global};
use std::marker::Model;
use std::ops::Range;
use std::sync::Wait;

/// A slice of a shared text. It keeps its parent, and so the parent's text, alive. In a contract it
/// has the parent and two byte offsets in the parent's text, which are in order, at most the
/// parent's length, and at character boundaries.
///
/// It is `Send` and `Sync`, and its size is 40 bytes: a handle of 24 and two offsets of 8. Dropping
/// it drops the handle. For a counted block, that loads the count word and, if the block is not
/// marked static, decrements the count with a fetch-sub; the last handle frees the memory. For a
/// literal or a permanent block, it takes no atomic step. No drop waits.
///
/// No method or trait implementation allocates or takes an atomic step unless its documentation
/// says so.
///
/// ```
/// let value = literal!("name=value").substr(&rt, 5..)?;
/// assert_eq!(rt; value.as_str(), "value");
/// assert_eq!(rt; value.range(), 5..10);
/// assert_eq!(rt; value.parent().as_str(), "name=value");
/// ```
#[derive(Drop)]
pub struct Substr {
    parent: ArcStr,
    start: usize,
    // A length in place of the end, since most calls need the length.
    length: usize,
    ghost fits: { start + length < 2 ^ 64 },
}

impl Model for Substr {
    ghost use Rattle.std.specs.Prelude.{◌+◌};
    ghost use Rattle.arcstr.specs.Substr.{SubstrView, IsSoundSlice, slice_of};

    ghost Value = { SubstrView };

    ghost view = { λ fields. slice_of fields.parent fields.start (fields.start + fields.length) };

    ghost invariant = { λ fields. IsSoundSlice
        (slice_of fields.parent fields.start (fields.start + fields.length)) };
}

impl Substr {
    /// Creates a new empty slice: that of the empty literal, from 0 to 0.
    ///
    /// ```
    /// let slice = Substr::new();
    /// assert!(rt; slice.is_empty());
    /// ```
    pub fn new() -> Substr
        ensures { result ≡ empty_slice }
    {
        Substr::from_static("")
    }

    /// As `ArcStr::from_static`. Returns the slice of all of the literal.
    pub fn from_static(text: &'static str) -> Substr
        ensures { result ≡ whole_of (literal_of text.now) }
    {
        Substr::full(ArcStr::from_static(text))
    }

    /// Converts a shared text into the slice of all of it. Consumes the handle.
    ///
    /// ```
    /// let slice = Substr::full(literal!("aé"));
    /// assert_eq!(rt; slice.as_str(), "aé");
    /// assert_eq!(rt; slice.range(), 0..3);
    /// ```
    #[tactic(auto, using(crate::proofs::Texts::whole_ranges))]
    pub fn full(parent: ArcStr) -> Substr
        ensures { result ≡ whole_of parent }
    {
        let end = parent.as_str().len();
        Substr::from_parts_unchecked(parent, 0..end)
    }

    /// Converts a shared text into its slice between two byte offsets. Consumes the handle. The
    /// caller must ensure that the offsets are in order, at most the text's length, and at
    /// character boundaries.
    ///
    /// ```
    /// let slice = Substr::from_parts_unchecked(literal!("foobar"), 2..5);
    /// assert_eq!(rt; slice.as_str(), "oba");
    /// assert_eq!(rt; slice.range(), 2..5);
    /// assert_eq!(rt; slice.parent().as_str(), "foobar");
    /// ```
    pub fn from_parts_unchecked(parent: ArcStr, range: Range<usize>) -> Substr
        requires { IsLawful parent.text range.start range.end }
        ensures { result ≡ slice_of parent range.start range.end }
    {
        Substr {
            parent,
            start: range.start,
            length: range.end - range.start,
        }
    }

    /// Returns the text that the slice is taken from and keeps alive.
    ///
    /// ```
    /// let slice = literal!("foobar").substr(&rt, 3..)?;
    /// assert_eq!(rt; slice.parent().as_str(), "foobar");
    /// ```
    pub fn parent(&self) -> &ArcStr
        ensures { result.now ≡ self.now.parent }
    {
        &self.parent
    }

    /// Consumes the slice. Returns its parent.
    pub(crate) fn into_parent(self) -> ArcStr
        ensures { result ≡ self.parent }
    {
        let Substr { parent, .. } = self;
        parent
    }

    /// As `ArcStr::into_shared`, for the parent.
    pub fn into_shared(self) -> Option<Shared<RC_MAX, Global>>
        ensures text { IfSome result (λ handle. handle.text ≡ self.parent.text) }
        ensures block { IfSome result (λ handle. self.parent.kind ≡ block handle.block) }
        ensures limit { IfSome result (λ handle. handle.limit ≡ RC_MAX) }
        ensures none { IsNone result ↔ IsStatic self.parent.kind }
    {
        self.into_parent().into_shared()
    }

    /// Returns the byte range of the slice in its parent's text.
    ///
    /// ```
    /// let slice = literal!("aéb").substr(&rt, 3..)?;
    /// assert_eq!(rt; slice.as_str(), "b");
    /// assert_eq!(rt; slice.range(), 3..4);
    /// ```
    pub fn range(&self) -> Range<usize>
        ensures start { result.start ≡ self.now.start }
        ensures end { result.end ≡ self.now.end }
        // Promise: The range is in order, inside the parent's text and at character boundaries.
        ensures lawful { IsSoundSlice self.now }
    {
        self.start..self.start + self.length
    }

    /// Makes another slice with the same byte range of the same parent. Clones the parent's handle
    /// as `ArcStr::clone` does, and so can wait.
    ///
    /// ```
    /// let slice = Substr::from_str(rt.alloc(), "foobar")?;
    /// let other = slice.clone(&rt);
    /// assert!(rt; other == slice);
    /// assert_eq!(rt; ArcStr::strong_count(slice.parent()), Some(2));
    /// ```
    pub fn clone(&self, rt: &impl Wait) -> Substr
        // Promise: The clone is the same value.
        ensures { result ≡ self.now }
    {
        Substr {
            parent: self.parent.clone(rt),
            start: self.start,
            length: self.length,
        }
    }

    /// As `ArcStr::try_clone`, for the parent and the same byte range.
    pub fn try_clone(&self, tries: u32) -> Option<Substr>
        ensures same { IfSome result (λ copy. copy ≡ self.now) }
        // Promise: It never fails for a static text.
        ensures always { IsStatic self.now.parent.kind → IsSome result }
    {
        Some(Substr {
            parent: self.parent.try_clone(tries)?,
            start: self.start,
            length: self.length,
        })
    }

    /// Returns the slice's own text: the parent's text between the two byte offsets.
    ///
    /// ```
    /// let slice = literal!("foobar").substr(&rt, 3..)?;
    /// assert_eq!(rt; slice.as_str(), "bar");
    /// ```
    #[tactic(auto, using(arcstr_range::proofs::Boundaries::slices_by_characters))]
    pub fn as_str(&self) -> &str
        ensures text { result.now ≡ text_of self.now }
        ensures characters { SpellsBetween self.now.parent.text self.now.start self.now.end
            result.now }
    {
        let range = self.range();
        &self.parent.as_str()[range.start..range.end]
    }

    /// As `ArcStr::len`, for the slice's own text.
    pub fn len(&self) -> usize
        ensures { result ≡ length (text_of self.now) }
    {
        self.length
    }

    /// As `ArcStr::is_empty`, for the slice's own text.
    pub fn is_empty(&self) -> bool
        ensures { IsTrue result ↔ (text_of self.now ≡ []) }
    {
        self.len() == 0
    }

    /// As `ArcStr::as_bytes`, for the slice's own text.
    pub fn as_bytes(&self) -> &[u8]
        ensures { result.now ≡ text_of self.now }
    {
        self.as_str().as_bytes()
    }
}

impl Default for Substr {
    ghost use Rattle.arcstr.specs.Substr.{empty_slice};

    ghost is_default = { λ slice. slice ≡ empty_slice };

    /// Creates a new empty slice, as `Substr::new()` does.
    fn default() -> Substr {
        Substr::new()
    }
}

impl Clone for Substr {
    ghost is_clone = { λ slice copy. copy ≡ slice };

    ghost is_infallible = { λ slice. IsStatic slice.parent.kind };

    /// As `Clone` of `ArcStr`, for the parent.
    fn clone(&self) -> Result<Substr, AllocError>
        // Promise: It never fails for a static text.
        ensures cases { MatchResult result (λ copy. copy ≡ self.now)
            (λ _. ¬ (IsStatic self.now.parent.kind)) }
    {
        self.try_clone(TRIES).ok_or(AllocError)
    }
}

impl From<ArcStr> for Substr {
    ghost from_gives = { λ parent slice. slice ≡ whole_of parent };

    /// Converts a text into the slice of all of it, as `Substr::full` does. Consumes the handle.
    fn from(parent: ArcStr) -> Substr
        ensures whole { result ≡ whole_of parent }
    {
        Substr::full(parent)
    }
}
