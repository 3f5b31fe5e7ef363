//! Answers to the exercises of docs/PROVING.md.
ghost use Rattle.std.specs.Prelude.{◌≡◌, ◌++◌, ◌↔◌, IfOk, IfSome, IsSome, IsTrue, Contains, codes, length};
ghost use Rattle.std.specs.Str.{chars};
ghost use Rattle.arcstr.specs.Substr.{text_of};
ghost use Rattle.arcstr.specs.TextView.{TextView};
ghost use Rattle.arcstr_range.specs.Pieces.{words_of};
ghost use Rattle.arcstr_range.specs.View.{view_at};
ghost use Rattle.lessons.specs.Pairs.{ShareParent};

use arcstr::{ArcStr, Substr, TextFault};
use std::alloc::Global;
use std::sync::Wait;

/// The character between a user and a host.
const AT: char = '@';

/// Returns the text with a line end behind it.
///
/// ```
/// let line = as_line(rt.alloc(), &ArcStr::from_static("a"))?;
/// assert_eq!(rt; line.as_str(), "a\n");
/// ```
pub fn as_line(alloc: Global, text: &ArcStr) -> Result<ArcStr, TextFault>
    ensures { IfOk result (λ line. line.text ≡ text.now.text ++ codes "\n") }
{
    ArcStr::join(alloc, &[text.as_str(), "\n"], "")
}

/// Returns the text as a slice of all of it.
///
/// ```
/// assert_eq!(rt; as_slice(ArcStr::from_static("ab")).range(), 0..2);
/// ```
pub fn as_slice(text: ArcStr) -> Substr
    ensures parent { result.parent ≡ text }
    ensures text { text_of result ≡ text.text }
{
    Substr::full(text)
}

/// Returns whether the slice has the text.
///
/// ```
/// let text = ArcStr::from_static("ab");
/// assert!(rt; has_text(&as_slice(text.clone(&rt)), &text));
/// assert!(rt; !has_text(&Substr::new(), &text));
/// ```
pub fn has_text(slice: &Substr, text: &ArcStr) -> bool
    ensures { IsTrue result ↔ (text_of slice.now ≡ text.now.text) }
{
    slice.eq_str(text.as_str())
}

/// Returns how many words the text has.
///
/// ```
/// assert_eq!(rt; word_count(&ArcStr::from_static(" one  two ")), 2);
/// ```
pub fn word_count(text: &ArcStr) -> usize
    ensures { result ≡ length (words_of (view_at text.now.text 0)) }
{
    text.view().split_whitespace().count()
}

/// Splits an address at its `@`. Returns `None` exactly if it has none.
///
/// ```
/// let address = ArcStr::from_static("ada@example");
/// let (user, host) = user_and_host(&rt, &address).ok_or("no `@`")?;
/// assert_eq!(rt; (user.as_str(), host.as_str()), ("ada", "example"));
/// ```
pub fn user_and_host(rt: &impl Wait, address: &ArcStr) -> Option<(Substr, Substr)>
    ensures found { IsSome result ↔ Contains (chars address.now.text) AT }
    ensures kept { IfSome result (λ pair. ShareParent address.now pair) }
{
    address.substr_split_once(rt, AT)
}

/// Returns a text with the same bytes as the slice, which does not keep its parent alive.
///
/// ```
/// let text = ArcStr::from_str(rt.alloc(), "ab")?;
/// let copy = copy_of(rt.alloc(), &text.substr(&rt, 1..)?)?;
/// assert_eq!(rt; copy.as_str(), "b");
/// assert_eq!(rt; ArcStr::strong_count(&text), Some(1));
/// ```
pub fn copy_of(alloc: Global, slice: &Substr) -> Result<ArcStr, TextFault>
    ensures { IfOk result (λ copy. copy.text ≡ text_of slice.now) }
{
    // The weak clause also lets through `ArcStr::init_with(alloc, slice.len(), |_| {})`, which
    // makes a text of zero bytes.
    slice.to_arc_str(alloc)
}
