//! `ArcStr`: a reference-counted immutable text that threads share.
ghost use Rattle.std.specs.Prelude.{◌≡◌, ◌+◌, ◌≤◌, ◌↔◌, [], length, IsTrue, IsSome, IsNone, IfSome, MatchResult};
ghost use Rattle.arcstr.specs.TextView.{IsLimited, IsStatic, block, counted_of, fixed_of, leaked, literal, literal_of};

use crate::static_str::StaticStr;
use arcstr_block::{Fixed, Shared};
use arcstr_count::RC_MAX;
use std::alloc::{AllocError, Global};
use std::marker::Model;
use std::sync::Wait;

/// The number of compare-exchanges that a clone tries if it must not wait.
pub(crate) const TRIES: u32 = 1_000;

/// A reference-counted immutable text that threads share. It is `Send` and `Sync`, and its size is
/// 24 bytes. In a contract it has a text and a kind: a literal, a handle to a counted block, or a
/// permanent block.
///
/// Dropping a handle to a block loads its count word and, if the block is not marked static,
/// decrements the count with a fetch-sub. The last handle of an unmarked block frees its memory.
/// Dropping a literal or a permanent block takes no atomic step. No drop waits.
///
/// No method or trait implementation allocates or takes an atomic step unless its documentation
/// says so.
///
/// ```
/// let text = ArcStr::from_str(rt.alloc(), "foo")?;
/// let other = text.clone(&rt);
/// drop(text);
/// assert_eq!(rt; other.as_str(), "foo");
/// assert_eq!(rt; ArcStr::strong_count(&other), Some(1));
/// ```
#[derive(Drop)]
pub struct ArcStr {
    form: Form,
    ghost limited: { IsLimited form },
}

/// Where the bytes of a text lie: in the program, or in a block, which is counted or permanent.
/// Each kind holds the address of the text and then its length, so code can read both without
/// testing the kind. The counted kind comes first, since only clones and drops test for it: a test
/// for 0 takes one branch.
#[derive(Drop)]
enum Form {
    Counted(Shared<RC_MAX, Global>),
    Literal(&'static str),
    Fixed(Fixed<Global>),
}

impl Model for ArcStr {
    ghost use Rattle.arcstr.specs.TextView.{TextView};

    ghost Value = { TextView };

    ghost use Rattle.arcstr.specs.TextView.{text_view};

    ghost view = { λ shared. text_view shared.form };
}

/// An owned handle without a drop, from `ArcStr::into_raw`. The checker rejects a function that
/// loses it: only `ArcStr::from_raw` consumes it. In a contract it has the text and the kind of the
/// `ArcStr`. It is `Send` and `Sync`, and its size is 24 bytes.
///
/// ```
/// let text = ArcStr::from_str(rt.alloc(), "foo")?;
/// let raw: RawArcStr = ArcStr::into_raw(text.clone(&rt));
/// drop(text);
/// let other = ArcStr::from_raw(raw);
/// assert_eq!(rt; other.as_str(), "foo");
/// ```
pub struct RawArcStr {
    text: ArcStr,
}

impl Model for RawArcStr {
    ghost use Rattle.arcstr.specs.TextView.{TextView};

    ghost Value = { TextView };

    ghost view = { λ raw. raw.text };
}

impl ArcStr {
    /// Creates a new empty text, which is a literal.
    ///
    /// ```
    /// let text = ArcStr::new();
    /// assert!(rt; text.is_empty());
    /// assert!(rt; ArcStr::is_static(&text));
    /// ```
    pub fn new() -> ArcStr
        ensures { result ≡ literal_of [] }
    {
        ArcStr::from_static("")
    }

    /// Creates a literal from a `&'static str`, whose bytes lie in the program.
    ///
    /// ```
    /// let text = ArcStr::from_static("foo");
    /// assert_eq!(rt; text.as_str(), "foo");
    /// assert!(rt; ArcStr::is_static(&text));
    /// ```
    pub fn from_static(text: &'static str) -> ArcStr
        ensures { result ≡ literal_of text.now }
    {
        ArcStr {
            form: Form::Literal(text),
        }
    }

    /// Makes a clone of the handle: another handle to the same text.
    ///
    /// For a block, it loads the count word and, if the block is not marked static, increments the
    /// count with a compare-exchange. If the count is past its limit, the compare-exchange marks
    /// the block static instead. It tries again if another thread changed the count word in
    /// between, and so can wait. For a literal or a permanent block, it takes no atomic step.
    ///
    /// ```
    /// let text = ArcStr::from_str(rt.alloc(), "foo")?;
    /// let other = text.clone(&rt);
    /// assert!(rt; other == text);
    /// assert_eq!(rt; ArcStr::strong_count(&text), Some(2));
    /// ```
    pub fn clone(&self, rt: &impl Wait) -> ArcStr
        // Promise: The clone has the same text in the same block.
        ensures { result ≡ self.now }
    {
        // What a clone seldom does is a call of its own, so that the usual one makes no call that
        // can wait.
        let form = match &self.form {
            Form::Counted(shared) => match shared.up_once() {
                Ok(clone) => Form::Counted(clone),
                Err(found) => Form::Counted(shared.up_from(rt, found)),
            },
            Form::Literal(text) => Form::Literal(text),
            Form::Fixed(fixed) => Form::Fixed(fixed.again()),
        };
        ArcStr { form }
    }

    /// Makes another handle as `clone` does, with at most this many compare-exchanges, so the call
    /// never waits. `None` means that other threads changed the count word each time. Nothing has
    /// changed then. The test `the_calls_of_a_text_leave_its_count` detects a body that always
    /// gives up.
    ///
    /// ```
    /// let text = ArcStr::from_str(rt.alloc(), "foo")?;
    /// assert!(rt; text.try_clone(0).is_none());
    /// assert!(rt; text.try_clone(1).is_some_and(|other| other == text));
    /// ```
    pub fn try_clone(&self, tries: u32) -> Option<ArcStr>
        ensures same { IfSome result (λ copy. copy ≡ self.now) }
        // Promise: It never fails for a static text.
        ensures always { IsStatic self.now.kind → IsSome result }
    {
        let form = match &self.form {
            Form::Counted(shared) => Form::Counted(shared.try_up(tries)?),
            Form::Literal(text) => Form::Literal(text),
            Form::Fixed(fixed) => Form::Fixed(fixed.again()),
        };
        Some(ArcStr { form })
    }

    /// Returns the text.
    ///
    /// ```
    /// let text = ArcStr::from_str(rt.alloc(), "aé")?;
    /// assert_eq!(rt; text.as_str(), "aé");
    /// ```
    pub fn as_str(&self) -> &str
        ensures { result.now ≡ self.now.text }
    {
        match &self.form {
            Form::Literal(text) => text,
            Form::Counted(shared) => shared.as_str(),
            Form::Fixed(fixed) => fixed.as_str(),
        }
    }

    /// Returns the length of the text in bytes. Does not read the bytes.
    ///
    /// ```
    /// let text = ArcStr::from_static("aé");
    /// assert_eq!(rt; text.len(), 3);
    /// ```
    pub fn len(&self) -> usize
        ensures { result ≡ length self.now.text }
    {
        self.as_str().len()
    }

    /// Returns whether the text has a length of zero bytes.
    ///
    /// ```
    /// assert!(rt; ArcStr::from_static("").is_empty());
    /// assert!(rt; !ArcStr::from_static(" ").is_empty());
    /// ```
    pub fn is_empty(&self) -> bool
        ensures { IsTrue result ↔ (self.now.text ≡ []) }
    {
        self.as_str().is_empty()
    }

    /// Returns the bytes of the text.
    ///
    /// ```
    /// let text = ArcStr::from_static("aé");
    /// assert_eq!(rt; text.as_bytes(), b"a\xc3\xa9".as_slice());
    /// ```
    pub fn as_bytes(&self) -> &[u8]
        ensures { result.now ≡ self.now.text }
    {
        self.as_str().as_bytes()
    }

    /// Returns the number of handles to the text's block, including those of slices, or `None` if
    /// the block is marked static. One load of the count word reads both. The number is from 1 to
    /// `RC_MAX + 1`. For a literal or a permanent block, returns `None` without an atomic step.
    ///
    /// ```
    /// let text = ArcStr::from_str(rt.alloc(), "foo")?;
    /// let other = text.clone(&rt);
    /// assert_eq!(rt; ArcStr::strong_count(&text), Some(2));
    /// other.leak();
    /// assert_eq!(rt; ArcStr::strong_count(&text), None);
    /// ```
    pub fn strong_count(this: &ArcStr) -> Option<usize>
        // Promise: A count is from 1 to `RC_MAX + 1`.
        ensures counted { IfSome result (λ count. (1 ≤ count) × (count ≤ RC_MAX + 1)) }
        // Promise: A literal or a permanent block has none.
        ensures never_static { IsStatic this.now.kind → IsNone result }
    {
        match &this.form {
            Form::Counted(shared) => {
                let (count, _) = shared.look();
                count.map(|count| count as usize)
            }
            Form::Literal(_) | Form::Fixed(_) => None,
        }
    }

    /// Returns the handle on the text's counted block, or `None` for a literal or a permanent
    /// block. It serves proofs: the handle's `look` returns the count with the history of the block
    /// so far.
    ///
    /// ```
    /// let text = ArcStr::from_str(rt.alloc(), "foo")?;
    /// assert!(rt; text.counted().is_some_and(|handle| matches!(handle.look(), (Some(1), _))));
    /// assert!(rt; ArcStr::new().counted().is_none());
    /// ```
    pub fn counted(&self) -> Option<&Shared<RC_MAX, Global>>
        ensures text { IfSome result (λ handle. handle.now.text ≡ self.now.text) }
        // Promise: It is a handle on the text's own block.
        ensures block { IfSome result (λ handle. self.now.kind ≡ block handle.now.block) }
        // Promise: Exactly a literal or a permanent block has none.
        ensures none { IsNone result ↔ IsStatic self.now.kind }
    {
        match &self.form {
            Form::Counted(shared) => Some(shared),
            _ => None,
        }
    }

    /// Returns whether the text is never freed. That is always so for a literal or a permanent
    /// block, and takes no atomic step. For another block, one load of the count word tests the
    /// static flag.
    ///
    /// ```
    /// let text = ArcStr::from_str(rt.alloc(), "foo")?;
    /// assert!(rt; !ArcStr::is_static(&text));
    /// text.leak();
    /// assert!(rt; ArcStr::is_static(&text));
    /// ```
    pub fn is_static(this: &ArcStr) -> bool
        ensures { IsStatic this.now.kind → IsTrue result }
    {
        match &this.form {
            Form::Counted(shared) => shared.fixed().0.is_some(),
            Form::Literal(_) | Form::Fixed(_) => true,
        }
    }

    /// Leaks the text, which makes it permanent: its memory is never freed, even after every handle
    /// is dropped. For a block, one fetch-or sets the static flag in the count word, and nothing
    /// clears it. For a literal or a permanent block, it takes no atomic step.
    ///
    /// ```
    /// let text = ArcStr::from_str(rt.alloc(), "foo")?;
    /// let kept = text.leak();
    /// drop(text);
    /// assert_eq!(rt; kept.as_str(), "foo");
    /// ```
    pub fn leak(&self) -> StaticStr
        // Promise: The text stays the same, in the same block, and a literal stays a literal.
        ensures { result ≡ leaked self.now }
    {
        let text = match &self.form {
            Form::Literal(text) => ArcStr::from_static(text),
            Form::Counted(shared) => ArcStr::from_fixed(shared.mark()),
            Form::Fixed(fixed) => ArcStr::from_fixed(fixed.again()),
        };
        StaticStr::new(text)
    }

    /// Returns the text as a `StaticStr` if it is static already. That is always so for a literal
    /// or a permanent block, and takes no atomic step. For another block, one load of the count
    /// word tests the static flag.
    ///
    /// ```
    /// let text = ArcStr::from_str(rt.alloc(), "foo")?;
    /// assert!(rt; ArcStr::as_static(&text).is_none());
    /// text.leak();
    /// let kept = ArcStr::as_static(&text);
    /// assert!(rt; kept.is_some_and(|kept| kept.as_str() == "foo"));
    /// ```
    pub fn as_static(this: &ArcStr) -> Option<StaticStr>
        ensures same { IfSome result (λ kept. kept ≡ leaked this.now) }
        // Promise: A literal or a permanent block always is.
        ensures always_static { IsStatic this.now.kind → IsSome result }
    {
        let text = match &this.form {
            Form::Literal(text) => ArcStr::from_static(text),
            Form::Counted(shared) => ArcStr::from_fixed(shared.fixed().0?),
            Form::Fixed(fixed) => ArcStr::from_fixed(fixed.again()),
        };
        Some(StaticStr::new(text))
    }

    /// Consumes the handle and returns it as a raw value. The raw value keeps the text alive and
    /// stays counted until `from_raw`.
    ///
    /// ```
    /// let text = ArcStr::from_str(rt.alloc(), "foo")?;
    /// let raw = ArcStr::into_raw(text.clone(&rt));
    /// assert_eq!(rt; ArcStr::strong_count(&text), Some(2));
    /// drop(ArcStr::from_raw(raw));
    /// assert_eq!(rt; ArcStr::strong_count(&text), Some(1));
    /// ```
    pub fn into_raw(this: ArcStr) -> RawArcStr
        // Promise: `from_raw` returns the same text, in the same block.
        ensures { result ≡ this }
    {
        RawArcStr { text: this }
    }

    /// Converts a raw value back into the handle that it was made from.
    ///
    /// ```
    /// let raw = ArcStr::into_raw(ArcStr::from_str(rt.alloc(), "foo")?);
    /// let text = ArcStr::from_raw(raw);
    /// assert_eq!(rt; text.as_str(), "foo");
    /// ```
    pub fn from_raw(raw: RawArcStr) -> ArcStr
        ensures { result ≡ raw }
    {
        let RawArcStr { text } = raw;
        text
    }

    /// Makes another handle to a static text, without an atomic step.
    pub(crate) fn clone_static(&self) -> ArcStr
        requires { IsStatic self.now.kind }
        ensures { result ≡ self.now }
    {
        match &self.form {
            Form::Literal(text) => ArcStr::from_static(text),
            Form::Fixed(fixed) => ArcStr::from_fixed(fixed.again()),
            Form::Counted(_) => unreachable!(),
        }
    }

    /// Returns the text of the literal as the program holds it, or `None` if the text is not a
    /// literal.
    pub(crate) fn literal_text(&self) -> Option<&'static str>
        ensures exactly { IsSome result ↔ (self.now.kind ≡ literal) }
        ensures same { IfSome result (λ text. text.now ≡ self.now.text) }
    {
        match &self.form {
            Form::Literal(text) => Some(text),
            Form::Counted(_) | Form::Fixed(_) => None,
        }
    }

    /// Consumes the handle. Returns the one on the text's counted block, or `None` for a literal or
    /// a permanent block. It takes no atomic step, and does not allocate. It serves proofs: the
    /// handle has a seat of its own, so its `end` says which handle ended, and the laws of `Shared`
    /// and `Seen` prove of two handles that at most one frees the block.
    ///
    /// ```
    /// let text = ArcStr::from_str(rt.alloc(), "foo")?;
    /// let other = text.clone(&rt);
    /// assert!(rt; text.into_shared().is_some_and(|handle| handle.end().0 == End::Left));
    /// assert!(rt; other.into_shared().is_some_and(|handle| handle.end().0 == End::Freed));
    /// ```
    pub fn into_shared(self) -> Option<Shared<RC_MAX, Global>>
        ensures text { IfSome result (λ handle. handle.text ≡ self.text) }
        // Promise: It is a handle on the text's own block, as `from_shared` takes it.
        ensures block { IfSome result (λ handle. self.kind ≡ block handle.block) }
        ensures limit { IfSome result (λ handle. handle.limit ≡ RC_MAX) }
        // Promise: Exactly a literal or a permanent block has none.
        ensures none { IsNone result ↔ IsStatic self.kind }
    {
        let ArcStr { form } = self;
        match form {
            Form::Counted(handle) => Some(handle),
            Form::Fixed(_) | Form::Literal(_) => None,
        }
    }

    /// Converts a handle on a block to an `ArcStr`, in that block. It takes no atomic step, and
    /// does not allocate. It serves proofs: of a handle that was just made, a contract says that it
    /// is the first on its block, so two texts made of such handles lie in two blocks.
    ///
    /// ```
    /// use arcstr::block::Shared;
    /// let text = ArcStr::from_shared(Shared::from_text(rt.alloc(), "foo")?);
    /// assert_eq!(rt; text.as_str(), "foo");
    /// ```
    pub fn from_shared(shared: Shared<RC_MAX, Global>) -> ArcStr
        // Each call that makes a `Shared` promises this.
        requires { shared.limit ≡ RC_MAX }
        // Promise: The text lies in the block of the handle.
        ensures { result ≡ counted_of shared.block shared.text }
    {
        ArcStr {
            form: Form::Counted(shared),
        }
    }

    pub(crate) fn from_fixed(fixed: Fixed<Global>) -> ArcStr
        ensures { result ≡ fixed_of fixed.block fixed.text }
    {
        ArcStr {
            form: Form::Fixed(fixed),
        }
    }
}

impl Default for ArcStr {
    ghost use Rattle.std.specs.Prelude.{[]};
    ghost use Rattle.arcstr.specs.TextView.{literal_of};

    ghost is_default = { λ text. text ≡ literal_of [] };

    /// Creates a new empty text, as `ArcStr::new()` does.
    fn default() -> ArcStr {
        ArcStr::new()
    }
}

/// The trait `Clone` serves `#[derive(Clone)]`, `Vec<ArcStr>::clone` and generic code. Code that
/// has an `rt` calls the inherent `clone`, which always succeeds.
impl Clone for ArcStr {
    ghost is_clone = { λ text copy. copy ≡ text };

    ghost is_infallible = { λ text. IsStatic text.kind };

    /// Makes another handle as `try_clone` does, with at most 1,000 tries. Here `AllocError` means
    /// that other threads changed the count word each time.
    fn clone(&self) -> Result<ArcStr, AllocError>
        // Promise: It never fails for a static text.
        ensures cases { MatchResult result (λ copy. copy ≡ self.now)
            (λ _. ¬ (IsStatic self.now.kind)) }
    {
        self.try_clone(TRIES).ok_or(AllocError)
    }
}

impl From<&'static str> for ArcStr {
    ghost from_gives = { λ text shared. shared ≡ literal_of text.now };

    /// Converts a `&'static str` into a literal, as `ArcStr::from_static` does.
    fn from(text: &'static str) -> ArcStr
        ensures literal { result ≡ literal_of text.now }
    {
        ArcStr::from_static(text)
    }
}
