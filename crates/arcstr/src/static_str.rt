//! `StaticStr`: a text that is never freed.
ghost use Rattle.std.specs.Prelude.{◌≡◌, ◌↔◌, length, IsTrue, IsSome, IfSome};
ghost use Rattle.arcstr.specs.TextView.{IsStatic, literal};

use crate::arc_str::ArcStr;
use std::marker::Model;

/// A text that is never freed: a literal or a permanent block. In a contract it has a text and a
/// kind, which is never that of a counted block. It is `Send` and `Sync`, and its size is 24 bytes.
/// Dropping it takes no atomic step and frees nothing.
///
/// No method or trait implementation allocates or takes an atomic step.
///
/// ```
/// let text = ArcStr::from_str(rt.alloc(), "foo")?;
/// let kept: StaticStr = text.leak();
/// drop(text);
/// assert_eq!(rt; kept.as_str(), "foo");
/// ```
#[derive(Drop, PartialEq, Eq, PartialOrd, Hash)]
pub struct StaticStr {
    text: ArcStr,
}

impl Model for StaticStr {
    ghost use Rattle.arcstr.specs.TextView.{IsStatic, TextView};

    ghost Value = { TextView };

    ghost view = { λ kept. kept.text };

    ghost inverse = { λ text. record { text = text } };

    ghost invariant = { λ kept. IsStatic kept.text.kind };
}

impl StaticStr {
    pub(crate) fn new(text: ArcStr) -> StaticStr
        requires { IsStatic text.kind }
        ensures { result ≡ text }
    {
        StaticStr { text }
    }

    /// Returns the text.
    ///
    /// ```
    /// let kept = ArcStr::from_static("aé").leak();
    /// assert_eq!(rt; kept.as_str(), "aé");
    /// ```
    pub fn as_str(&self) -> &str
        ensures { result.now ≡ self.now.text }
    {
        self.text.as_str()
    }

    /// Returns the length of the text in bytes. Does not read the bytes.
    ///
    /// ```
    /// let kept = ArcStr::from_static("aé").leak();
    /// assert_eq!(rt; kept.len(), 3);
    /// ```
    pub fn len(&self) -> usize
        ensures { result ≡ length self.now.text }
    {
        self.as_str().len()
    }

    /// Always returns `true`, since the text is never freed.
    ///
    /// ```
    /// let kept = ArcStr::from_str(rt.alloc(), "foo")?.leak();
    /// assert!(rt; kept.is_static());
    /// ```
    pub fn is_static(&self) -> bool
        ensures answer { IsTrue result }
        ensures kind { IsStatic self.now.kind }
    {
        ArcStr::is_static(&self.text)
    }

    /// Returns the text as a `&'static str` exactly if it is a literal.
    ///
    /// ```
    /// let kept = ArcStr::from_static("foo").leak();
    /// assert_eq!(rt; kept.literal(), Some("foo"));
    /// let block = ArcStr::from_str(rt.alloc(), "foo")?.leak();
    /// assert_eq!(rt; block.literal(), None);
    /// ```
    pub fn literal(&self) -> Option<&'static str>
        ensures exactly { IsSome result ↔ (self.now.kind ≡ literal) }
        ensures same { IfSome result (λ text. text.now ≡ self.now.text) }
    {
        self.text.literal_text()
    }

    /// Returns the same text as an `ArcStr`: a literal for a literal, and otherwise a permanent
    /// block.
    ///
    /// ```
    /// let kept = ArcStr::from_str(rt.alloc(), "foo")?.leak();
    /// let text = kept.to_arc_str();
    /// assert_eq!(rt; text.as_str(), "foo");
    /// assert!(rt; ArcStr::is_static(&text));
    /// ```
    pub fn to_arc_str(&self) -> ArcStr
        ensures same { result ≡ self.now }
        ensures kind { IsStatic result.kind }
    {
        self.text.clone_static()
    }
}
