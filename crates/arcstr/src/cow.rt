//! Texts as copy-on-write texts, borrowed or owned.
ghost use Rattle.std.specs.Prelude.{◌≡◌, ◌↔◌, IsOk, IsSome, IfErr, IfOk, IfSome};
ghost use Rattle.std.specs.Cow.{IsBorrowedStr, cow_str_bytes};
ghost use Rattle.arcstr.specs.TextView.{literal};
ghost use Rattle.arcstr.specs.Substr.{text_of};

use crate::arc_str::ArcStr;
use crate::substr::Substr;
use std::alloc::{AllocError, Global};
use std::borrow::CowStr;

impl ArcStr {
    /// Returns the text, borrowed from this handle.
    ///
    /// ```
    /// use std::borrow::CowStr;
    /// let text = ArcStr::from_str(rt.alloc(), "foo")?;
    /// let cow = text.to_cow();
    /// assert_eq!(rt; cow.as_str(), "foo");
    /// assert!(rt; matches!(&cow, CowStr::Borrowed(_)));
    /// ```
    pub fn to_cow(&self) -> CowStr<'_>
        ensures text { cow_str_bytes result ≡ self.now.text }
        ensures borrowed { IsBorrowedStr result }
    {
        CowStr::Borrowed(self.as_str())
    }

    /// Converts the handle into a text that does not depend on it. Borrows the text of a literal,
    /// and copies any other text with one allocation, or none if it is empty. Drops the handle, and
    /// takes only the atomic steps of that drop.
    ///
    /// Returns the `ArcStr` itself if the allocation fails, and only then.
    ///
    /// ```
    /// use std::borrow::CowStr;
    /// let borrowed = ArcStr::from_static("foo").into_cow(rt.alloc())?;
    /// assert!(rt; matches!(&borrowed, CowStr::Borrowed(_)));
    /// let copied = ArcStr::from_str(rt.alloc(), "foo")?.into_cow(rt.alloc())?;
    /// assert!(rt; matches!(&copied, CowStr::Owned(_)));
    /// ```
    pub fn into_cow(self, alloc: Global) -> Result<CowStr<'static>, ArcStr>
        ensures text { IfOk result (λ cow. cow_str_bytes cow ≡ self.text) }
        // Promise: It borrows exactly the text of a literal, which always succeeds.
        ensures borrowed { IfOk result (λ cow. IsBorrowedStr cow ↔ (self.kind ≡ literal)) }
        ensures of_literal { self.kind ≡ literal → IsOk result }
        // Promise: A refused call returns the value.
        ensures back { IfErr result (λ text. text ≡ self) }
    {
        if let Some(text) = self.literal_text() {
            return Ok(CowStr::Borrowed(text));
        }
        match self.to_string(alloc) {
            Ok(copy) => Ok(CowStr::Owned(copy)),
            Err(AllocError) => Err(self),
        }
    }
}

impl Substr {
    /// As `ArcStr::to_cow`, for the slice's own text.
    pub fn to_cow(&self) -> CowStr<'_>
        ensures text { cow_str_bytes result ≡ text_of self.now }
        ensures borrowed { IsBorrowedStr result }
    {
        CowStr::Borrowed(self.as_str())
    }

    /// As `ArcStr::into_cow`, for the slice's own text. Returns the `Substr` itself if the
    /// allocation fails, and only then.
    pub fn into_cow(self, alloc: Global) -> Result<CowStr<'static>, Substr>
        ensures text { IfOk result (λ cow. cow_str_bytes cow ≡ text_of self) }
        ensures borrowed { IfOk result (λ cow. IsBorrowedStr cow ↔ (self.parent.kind ≡ literal)) }
        ensures of_literal { self.parent.kind ≡ literal → IsOk result }
        ensures back { IfErr result (λ slice. slice ≡ self) }
    {
        if let Some(text) = self.literal_text() {
            return Ok(CowStr::Borrowed(text));
        }
        match self.to_string(alloc) {
            Ok(copy) => Ok(CowStr::Owned(copy)),
            Err(AllocError) => Err(self),
        }
    }

    /// Returns the slice's own text as the program holds it, or `None` if the parent is not a
    /// literal.
    fn literal_text(&self) -> Option<&'static str>
        ensures exactly { IsSome result ↔ (self.now.parent.kind ≡ literal) }
        ensures same { IfSome result (λ text. text.now ≡ text_of self.now) }
    {
        let whole = self.parent().literal_text()?;
        let range = self.range();
        Some(&whole[range.start..range.end])
    }
}
