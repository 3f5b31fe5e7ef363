//! Calls that make a text. Each makes one allocation, or none if the text is empty: that is then
//! the empty literal. None takes an atomic step.
ghost use Rattle.std.specs.Prelude.{◌≡◌, ◌↔◌, [], length, replicate, string_bytes, Ok, IsUtf8, OnOk, IfOk, IfErr, IsErrOf};
ghost use Rattle.std.specs.Fn.{FnOnceReturnsAtMut, FnOnceTakesAtMut};
ghost use Rattle.std.specs.Str.Lossy.{utf8_valid_len};
ghost use Rattle.arcstr.specs.TextView.{IsMadeOf, literal_of};
ghost use Rattle.arcstr.specs.Making.{AnswersCopies, AnswersCopy, AnswersMaking, AnswersUtf8, IsFaultOfCopying, IsFaultOfFilling, IsTooLong};
ghost use Rattle.std.specs.List.{join_by};
ghost use Rattle.arcstr.specs.Substr.{IsWholeOfMade, empty_slice, text_of};

use crate::arc_str::ArcStr;
use crate::substr::Substr;
use arcstr_block::{Shared, TextFault, joined_len};
use std::alloc::Global;
use std::convert::AsStr;

impl ArcStr {
    /// Copies a `&str` into a new `ArcStr`.
    ///
    /// Errors, in this order: `Length` if the text has `2^63 - 25` bytes or more; `Memory` if the
    /// allocation fails.
    ///
    /// ```
    /// let text = ArcStr::from_str(rt.alloc(), "foo")?;
    /// assert_eq!(rt; text.as_str(), "foo");
    /// assert_eq!(rt; ArcStr::strong_count(&text), Some(1));
    /// ```
    pub fn from_str(alloc: Global, text: &str) -> Result<ArcStr, TextFault>
        // Promise: An empty text is a literal. The call fails with `Length` exactly if the text is
        // too long.
        ensures { AnswersCopy text.now result }
    {
        if text.is_empty() {
            return Ok(ArcStr::new());
        }
        Ok(ArcStr::from_shared(Shared::from_text(alloc, text)?))
    }

    /// As `from_str`. The Rust crate has both names.
    ///
    /// ```
    /// let text = ArcStr::try_alloc(rt.alloc(), "foo")?;
    /// assert_eq!(rt; text.as_str(), "foo");
    /// ```
    pub fn try_alloc(alloc: Global, text: &str) -> Result<ArcStr, TextFault>
        ensures { AnswersCopy text.now result }
    {
        ArcStr::from_str(alloc, text)
    }

    /// Converts a slice of bytes to an `ArcStr`, by a copy.
    ///
    /// Errors, in this order: `Utf8` if the bytes are not UTF-8, with the length in bytes of their
    /// longest prefix that is; `Length` if there are `2^63 - 25` bytes or more; `Memory` if the
    /// allocation fails.
    ///
    /// ```
    /// let text = ArcStr::from_utf8(rt.alloc(), b"a\xc3\xa9")?;
    /// assert_eq!(rt; text.as_str(), "aé");
    /// let fault = ArcStr::from_utf8(rt.alloc(), b"a\xc3").err();
    /// assert_eq!(rt; fault, Some(TextFault::Utf8(1)));
    /// ```
    pub fn from_utf8(alloc: Global, bytes: &[u8]) -> Result<ArcStr, TextFault>
        ensures made { IfOk result (IsMadeOf bytes.now) }
        // Promise: Without bytes the text is the empty literal.
        ensures empty { bytes.now ≡ [] → result ≡ Ok (literal_of []) }
        // Promise: Bytes that are not UTF-8 give `Utf8` with the length of their longest prefix
        // that is.
        ensures text { OnOk result (IsUtf8 bytes.now) }
        ensures no_text { ¬ (IsUtf8 bytes.now)
            → IsErrOf result (TextFault.Utf8 (utf8_valid_len bytes.now)) }
        // Promise: Bytes that are UTF-8 give `Length` exactly if they are too many.
        ensures too_long { IsUtf8 bytes.now
            → (IsErrOf result TextFault.Length ↔ IsTooLong (length bytes.now)) }
        ensures refused { IfErr result (IsFaultOfCopying bytes.now) }
    {
        match str::from_utf8(bytes) {
            Ok(text) => ArcStr::from_str(alloc, text),
            Err(error) => Err(TextFault::Utf8(error.valid_up_to())),
        }
    }

    /// Creates a text of `n` bytes, which are zero at first and which `fill` writes. It allocates
    /// before it calls the closure. If `n` is 0, it calls the closure on an empty slice. The caller
    /// must ensure that the closure can be called on `n` zero bytes, unless `n` is too long.
    ///
    /// Errors, in this order: `Length` if `n` is `2^63 - 25` or more; `Memory` if the allocation
    /// fails; `Utf8` if the bytes are not UTF-8 after the call, with the length in bytes of their
    /// longest prefix that is. The closure is not called after `Length` or `Memory`.
    ///
    /// The `requires` clause allows a call of the closure only if the length is not too long. The
    /// contract does not say that the closure is not called if the allocation fails: the test
    /// `a_closure_runs_once_there_is_memory` checks that.
    ///
    /// ```
    /// let text = ArcStr::init_with(rt.alloc(), 3, |bytes| bytes.copy_from_slice(b"foo"))?;
    /// assert_eq!(rt; text.as_str(), "foo");
    /// let fault = ArcStr::init_with(rt.alloc(), 3, |bytes| bytes[1] = 255).err();
    /// assert_eq!(rt; fault, Some(TextFault::Utf8(1)));
    /// ```
    pub fn init_with<F: FnOnce(&mut [u8])>(
        alloc: Global,
        n: usize,
        fill: F,
    ) -> Result<ArcStr, TextFault>
        requires callable { (¬ IsTooLong n) → FnOnceTakesAtMut F.FnOnce fill (replicate n 0) }
        ensures left { IfOk result
            (λ made. FnOnceReturnsAtMut F.FnOnce fill (replicate n 0) tt made.text) }
        // Promise: The text is UTF-8 and has the length that was asked for. An empty one is a
        // literal.
        ensures text { IfOk result (λ made. IsUtf8 made.text) }
        ensures as_long { IfOk result (λ made. length made.text ≡ n) }
        ensures kind { IfOk result (λ made. IsMadeOf made.text made) }
        ensures empty { n ≡ 0 → result ≡ Ok (literal_of []) }
        // Promise: The call fails with `Length` exactly if `n` is too long, and with `Utf8` only if
        // the closure leaves no UTF-8.
        ensures too_long { IsErrOf result TextFault.Length ↔ IsTooLong n }
        ensures refused { IfErr result
            (IsFaultOfFilling (λ bytes. FnOnceReturnsAtMut F.FnOnce fill
            (replicate n 0) tt bytes) n) }
    {
        if n == 0 {
            fill_slice(&mut [], fill);
            return Ok(ArcStr::new());
        }
        match Shared::init(alloc, n, fill) {
            Ok(shared) => Ok(ArcStr::from_shared(shared)),
            Err(fault) => Err(fault),
        }
    }

    /// Creates a new text by repeating a text `n` times. If the text is empty or `n` is 0, it
    /// cannot fail.
    ///
    /// Otherwise, errors in this order: `Length` if all copies have `2^63 - 25` bytes or more;
    /// `Memory` if the allocation fails.
    ///
    /// ```
    /// let text = ArcStr::try_repeat(rt.alloc(), "ab", 3)?;
    /// assert_eq!(rt; text.as_str(), "ababab");
    /// let fault = ArcStr::try_repeat(rt.alloc(), "ab", usize::MAX).err();
    /// assert_eq!(rt; fault, Some(TextFault::Length));
    /// ```
    #[tactic(auto, using(crate::proofs::Texts::copies_of_nothing))]
    pub fn try_repeat(alloc: Global, text: &str, n: usize) -> Result<ArcStr, TextFault>
        // Promise: An empty text is a literal. The call fails with `Length` exactly if the text is
        // too long.
        ensures { AnswersCopies n text.now result }
    {
        if n == 0 || text.is_empty() {
            return Ok(ArcStr::new());
        }
        match Shared::repeat(alloc, text, n) {
            Ok(shared) => Ok(ArcStr::from_shared(shared)),
            Err(fault) => Err(fault),
        }
    }

    /// As `try_repeat`. The Rust crate has both names.
    ///
    /// ```
    /// let text = ArcStr::repeat(rt.alloc(), "é", 3)?;
    /// assert_eq!(rt; text.as_str(), "ééé");
    /// ```
    pub fn repeat(alloc: Global, text: &str, n: usize) -> Result<ArcStr, TextFault>
        ensures { AnswersCopies n text.now result }
    {
        ArcStr::try_repeat(alloc, text, n)
    }

    /// Joins the texts in order, with the separator between them, as std's `[S]::join` does. `S` is
    /// `&str`, `String`, `ArcStr`, `Substr` or another type with `AsStr`. The kit's borrow
    /// checker does not cover a list of `&ArcStr`: collect the `as_str` of each instead.
    ///
    /// Errors, in this order: `Length` if the joined text has `2^63 - 25` bytes or more; `Memory`
    /// if the allocation fails.
    ///
    /// ```
    /// let path = ArcStr::join(rt.alloc(), &["usr", "lib", "é"], "/")?;
    /// assert_eq!(rt; path.as_str(), "usr/lib/é");
    /// let twice = ArcStr::join(rt.alloc(), &[path.clone(&rt), path], "")?;
    /// assert_eq!(rt; twice.as_str(), "usr/lib/éusr/lib/é");
    /// ```
    pub fn join<S: AsStr>(alloc: Global, texts: &[S], separator: &str) -> Result<ArcStr, TextFault>
        // Promise: An empty text is a literal. The call fails with `Length` exactly if the text is
        // too long.
        ensures { AnswersCopy (join_by S.text separator.now texts.now) result }
    {
        match joined_len(texts, separator) {
            None => Err(TextFault::Length),
            Some(0) => Ok(ArcStr::new()),
            Some(len) => match Shared::join(alloc, texts, separator, len) {
                Ok(shared) => Ok(ArcStr::from_shared(shared)),
                Err(fault) => Err(fault),
            },
        }
    }
}

impl Substr {
    /// As `ArcStr::from_str`. Returns the slice of all of the new text.
    pub fn from_str(alloc: Global, text: &str) -> Result<Substr, TextFault>
        ensures { AnswersMaking text.now (IsWholeOfMade text.now) empty_slice result }
    {
        Ok(Substr::full(ArcStr::from_str(alloc, text)?))
    }

    /// Copies the slice's own text into a new `ArcStr`, as `ArcStr::from_str` does. The copy does
    /// not keep the parent alive: after a copy of a short slice, the long parent can be freed.
    ///
    /// ```
    /// let slice = literal!("foobar").substr(&rt, 3..)?;
    /// let text = slice.to_arc_str(rt.alloc())?;
    /// assert_eq!(rt; text.as_str(), "bar");
    /// assert_eq!(rt; ArcStr::strong_count(&text), Some(1));
    /// ```
    pub fn to_arc_str(&self, alloc: Global) -> Result<ArcStr, TextFault>
        // Promise: An empty text is a literal. The call fails with `Length` exactly if the text is
        // too long.
        ensures { AnswersCopy (text_of self.now) result }
    {
        ArcStr::from_str(alloc, self.as_str())
    }
}

impl TryFrom<String> for ArcStr {
    type Error = TextFault;

    ghost try_from_gives = { λ text answer. AnswersCopy (string_bytes text) answer };

    /// Copies the string into a new `ArcStr` by its own allocator, as `ArcStr::from_str` does, and
    /// drops the string.
    ///
    /// ```
    /// let string = String::from_str(rt.alloc(), "foo")?;
    /// let text = ArcStr::try_from(string)?;
    /// assert_eq!(rt; text.as_str(), "foo");
    /// ```
    fn try_from(text: String) -> Result<ArcStr, TextFault> {
        ArcStr::from_str(*text.allocator(), text.as_str())
    }
}

impl TryFrom<Vec<u8>> for ArcStr {
    type Error = TextFault;

    ghost try_from_gives = { λ bytes answer. AnswersUtf8 bytes.items (IsMadeOf bytes.items) (literal_of []) answer };

    /// Converts the bytes to an `ArcStr` by their own allocator, as `ArcStr::from_utf8` does, and
    /// drops the bytes.
    ///
    /// ```
    /// let bytes = vec![in rt.alloc(); b'a', 255]?;
    /// assert_eq!(rt; ArcStr::try_from(bytes).err(), Some(TextFault::Utf8(1)));
    /// ```
    fn try_from(bytes: Vec<u8>) -> Result<ArcStr, TextFault> {
        ArcStr::from_utf8(*bytes.allocator(), bytes.as_slice())
    }
}

impl TryFrom<String> for Substr {
    type Error = TextFault;

    ghost try_from_gives = { λ text answer. AnswersMaking (string_bytes text) (IsWholeOfMade (string_bytes text)) empty_slice answer };

    /// As for `ArcStr`. Returns the slice of all of the new text.
    fn try_from(text: String) -> Result<Substr, TextFault> {
        Ok(Substr::full(ArcStr::try_from(text)?))
    }
}

impl TryFrom<Vec<u8>> for Substr {
    type Error = TextFault;

    ghost try_from_gives = { λ bytes answer. AnswersUtf8 bytes.items (IsWholeOfMade bytes.items) empty_slice answer };

    /// As for `ArcStr`. Returns the slice of all of the new text.
    fn try_from(bytes: Vec<u8>) -> Result<Substr, TextFault> {
        Ok(Substr::full(ArcStr::try_from(bytes)?))
    }
}

/// Calls the closure on these bytes.
fn fill_slice<F: FnOnce(&mut [u8])>(bytes: &mut [u8], fill: F)
    requires { FnOnceTakesAtMut F.FnOnce fill bytes.old }
    ensures { FnOnceReturnsAtMut F.FnOnce fill bytes.old tt bytes.new }
{
    fill(bytes);
}
