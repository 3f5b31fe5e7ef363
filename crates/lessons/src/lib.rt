//! What others write with `arcstr`: the functions of docs/PROVING.md, the answers to its exercises,
//! that of the lesson on threads of docs/GUIDE.md, and more uses, each with a contract of its own.
#![tactic(auto)]

ghost use Rattle.std.specs.Prelude.{◌≡◌};
ghost use Rattle.std.specs.Str.{trim};
ghost use Rattle.arcstr.specs.Substr.{text_of};

use arcstr::{ArcStr, Substr};
use std::sync::Wait;

/// Returns the line without the white space around it, as a slice of the line.
///
/// ```
/// let line = ArcStr::from_static(" name ");
/// assert_eq!(rt; content(&rt, &line).as_str(), "name");
/// ```
pub fn content(rt: &impl Wait, line: &ArcStr) -> Substr
    ensures kept { result.parent ≡ line.now }
    ensures text { text_of result ≡ trim line.now.text }
{
    line.substr_trim(rt)
}

ghost use Rattle.std.specs.Prelude.{◌/◌, ◌<◌, IfSome, length};

/// Returns how many whole rows of this many bytes the text fills.
///
/// ```
/// assert_eq!(rt; rows(&ArcStr::from_static("abcde"), 2), 2);
/// ```
pub fn rows(text: &ArcStr, width: usize) -> usize
    requires { 0 < width }
    ensures { result ≡ length text.now.text / width }
{
    text.len() / width
}

/// Returns how many whole rows of this many bytes the text fills; `None` if rows have no bytes.
///
/// ```
/// let text = ArcStr::from_static("abcde");
/// assert_eq!(rt; rows_of(&text, 2), Some(2));
/// assert_eq!(rt; rows_of(&text, 0), None);
/// ```
pub fn rows_of(text: &ArcStr, width: usize) -> Option<usize>
    ensures { IfSome result (λ number. number ≡ length text.now.text / width) }
{
    if width == 0 {
        return None;
    }
    Some(rows(text, width))
}

ghost use Rattle.lessons.specs.Pairs.{ShareParent};

/// Splits a line at its first colon. Both parts are slices of the line.
///
/// ```
/// let line = ArcStr::from_static("name: Ada");
/// let (name, _) = at_colon(&rt, &line).ok_or("no `:`")?;
/// assert_eq!(rt; name.as_str(), "name");
/// ```
pub fn at_colon(rt: &impl Wait, line: &ArcStr) -> Option<(Substr, Substr)>
    ensures { IfSome result (λ pair. ShareParent line.now pair) }
{
    line.substr_split_once(rt, ':')
}

ghost use Rattle.std.specs.Prelude.{◌≤◌};

/// Returns how many of the texts are empty.
///
/// ```
/// let texts = [ArcStr::new(), ArcStr::from_static("a")];
/// assert_eq!(rt; empty_texts(&texts), 1);
/// ```
pub fn empty_texts(texts: &[ArcStr]) -> usize
    ensures { result ≤ length texts.now }
{
    let mut count = 0;
    for text in texts {
        if text.is_empty() {
            count += 1;
        }
    }
    count
}

ghost use Rattle.std.specs.Prelude.{◌↔◌, IsSome};

/// Returns how many whole rows of this many bytes the text fills; `None` exactly if rows have no
/// bytes.
///
/// ```
/// let text = ArcStr::from_static("abcde");
/// assert_eq!(rt; rows_unless_empty(&text, 2), Some(2));
/// assert_eq!(rt; rows_unless_empty(&text, 0), None);
/// ```
pub fn rows_unless_empty(text: &ArcStr, width: usize) -> Option<usize>
    ensures some { IsSome result ↔ 0 < width }
    ensures number { IfSome result (λ number. number ≡ length text.now.text / width) }
{
    match width {
        0 => None,
        positive => Some(rows(text, positive)),
    }
}

use std::thread::Threads;
use std::{io, thread};

/// Returns how many lines the text has, which another thread counts. The contract does not say how
/// many, since a proof knows only the type of what a thread returns.
///
/// ```
/// let text = ArcStr::from_static("a\nb");
/// assert_eq!(rt; lines_in_a_thread(&rt, &text)?, 2);
/// ```
pub fn lines_in_a_thread<R: Threads + Wait>(rt: &R, text: &ArcStr) -> io::Result<usize> {
    let clone = text.clone(rt);
    let counting = thread::spawn(rt, move || clone.view().lines().count())?;
    Ok(counting.join(rt))
}

pub mod answers;
pub mod chains;
pub mod drops;
pub mod history;
pub mod laws;
pub mod making;
pub mod parsing;
pub mod uses;
