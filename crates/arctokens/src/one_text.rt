//! The tokens of one shared text.
ghost use Rattle.std.specs.Prelude.{◌≡◌, IfOk, IsErr};
ghost use Rattle.arctokens.specs.Tokens.{AreTokens};
ghost use Rattle.arctokens.specs.Words.{HasWord};

use crate::words::next_word;
use arcstr::{ArcStr, Substr};
use std::alloc::{AllocError, Global};
use std::sync::Wait;

/// Returns the words of a text in ascending order, each as a slice of it. The words are the longest
/// runs of characters that are not white space (`char::is_whitespace`).
///
/// Clones the text once for each word, and so can wait. Allocates only the list, and fails only if
/// that allocation fails; no slice is left then. The contract does not say that a call succeeds if
/// memory is available: tests detect a body that always fails.
///
/// ```
/// let words = tokens(&rt, rt.alloc(), &literal!("foo   bar"))?;
/// assert_eq!(rt; words.len(), 2);
/// assert_eq!(rt; words[1].as_str(), "bar");
/// assert_eq!(rt; words[1].range(), 6..9);
/// ```
pub fn tokens<R: Wait>(rt: &R, alloc: Global, text: &ArcStr) -> Result<Vec<Substr>, AllocError>
    ensures tokens { IfOk result (λ tokens. AreTokens text.now tokens.items) }
    // Promise: A text without words is never refused.
    ensures refused { IsErr result → HasWord text.now.text }
{
    let whole = text.as_str();
    let mut tokens = Vec::new(alloc);
    let mut from = 0;
    while let Some(word) = next_word(whole, from) {
        from = word.end;
        tokens.push(Substr::from_parts_unchecked(text.clone(rt), word))?;
    }
    Ok(tokens)
}

/// A law: a text has only one list of tokens, so any two results of `tokens` for it are equal. It
/// is for proofs, and does nothing at run time. In the example, only its clause proves that the
/// index in `other[0]` is in bounds.
///
/// ```
/// let text = literal!("foo   bar");
/// let one = tokens(&rt, rt.alloc(), &text)?;
/// let other = tokens(&rt, rt.alloc(), &text)?;
/// tokens_are_one(&text, &one, &other);
/// assert!(rt; one.is_empty() || other[0].as_str() == "foo");
/// ```
pub fn tokens_are_one(text: &ArcStr, one: &[Substr], other: &[Substr])
    ensures { AreTokens text.now one.now → AreTokens text.now other.now → one.now ≡ other.now }
{}
