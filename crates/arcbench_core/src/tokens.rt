//! What the program prints of the words of its input's lines.
ghost use Rattle.std.specs.Prelude.{◌≡◌, ◌≤◌, ◌<◌, ◌↔◌, ◌∷◌, ◌++◌, length, IfOk, OnOk, Err, string_bytes};
ghost use Rattle.std.specs.Str.{IsUtf8};
ghost use Rattle.arcbench_core.specs.Line.{script_lines};
ghost use Rattle.arcbench_core.specs.TokenLines.{IsTokenAnswer, lines_of_lists, slice_line, slice_lines, texts_of_shared};

use arcstr::{ArcStr, Substr};
use arctokens::tokens_all;
use std::alloc::{AllocError, Allocator, Global};
use std::str;
use std::sync::Wait;
use std::thread::Threads;

/// Why the words of an input are not printed.
///
/// Plain data of 1 byte: it may be copied, sent and shared, and its drop does nothing.
///
/// ```
/// let lines = tokens::answer(&rt, rt.alloc(), 2, b"\xff");
/// assert_eq!(rt; lines.err(), Some(TokensFault::NotUtf8));
/// ```
#[derive(Clone, Copy, Debug, PartialEq, Eq)]
pub enum TokensFault {
    /// There was no memory for the texts, their words or the lines.
    Memory,
    /// The input is not UTF-8.
    NotUtf8,
}

impl From<AllocError> for TokensFault {
    ghost use Rattle.arcbench_core.specs.declared.tokens.TokensFault.TheVariants.{Memory};

    ghost from_gives = { λ _ given. given ≡ Memory };

    fn from(_: AllocError) -> TokensFault {
        TokensFault::Memory
    }
}

/// Returns the lines for the words of an input. Each line of the input, cut at newlines, is a text.
/// Each word of a text is a line `I A..B TEXT`, with the number of the text from 0, the byte
/// offsets of the word, and its bytes. `workers` workers find the words.
///
/// The call first checks that the input is UTF-8. A line that is too long for a text counts as out
/// of memory.
///
/// ```
/// let lines = tokens::answer(&rt, rt.alloc(), 2, b"foo\n\nbar\n")?;
/// assert_eq!(rt; lines.as_slice(), b"0 0..3 foo\n2 0..3 bar\n".as_slice());
/// ```
pub fn answer<H, A: Allocator>(
    rt: &H,
    alloc: A,
    workers: usize,
    input: &[u8],
) -> Result<Vec<u8, A>, TokensFault>
where
    H: Threads + Wait + Sync + AllocGlobal,
    requires { (1 ≤ workers) × (workers ≤ 64) }
    ensures ok { IfOk result (λ lines. IsTokenAnswer input.now lines.items) }
    ensures not_utf8 { (result ≡ Err TokensFault.NotUtf8) ↔ ¬ (IsUtf8 input.now) }
{
    let Ok(text) = str::from_utf8(input) else {
        return Err(TokensFault::NotUtf8);
    };
    let texts = texts_of_lines(rt.alloc(), text)?;
    let lists = tokens_all(rt, rt.alloc(), &texts, workers)?;
    let mut lines = String::new(alloc);
    push_lists(&mut lines, &lists)?;
    Ok(lines.into_bytes())
}

/// Makes a text for each line of the input, in order. A line that is too long for a text counts as
/// out of memory, too.
fn texts_of_lines(alloc: Global, input: &str) -> Result<Vec<ArcStr>, AllocError>
    ensures { IfOk result (λ texts. texts_of_shared texts.items ≡ script_lines input.now) }
{
    let mut texts = Vec::new(alloc);
    let mut rest = input;
    while !rest.is_empty() {
        let (line, later) = first_line_of_text(rest);
        let Ok(text) = ArcStr::from_str(alloc, line) else {
            return Err(AllocError);
        };
        texts.push(text)?;
        rest = later;
    }
    Ok(texts)
}

/// Returns the first line of a text, and what comes after it.
fn first_line_of_text(text: &str) -> (&str, &str)
    requires { 0 < length text.now }
    ensures lines { script_lines text.now ≡ result.0.now ∷ script_lines result.1.now }
    ensures shorter { length result.1.now < length text.now }
{
    match text.split_once('\n') {
        Some(parts) => parts,
        None => (text, ""),
    }
}

/// Appends the lines of all slices: those of each list under the list's number.
#[tactic(auto, using(crate::proofs::TokensPrinted::one_list_more))]
fn push_lists<A: Allocator>(out: &mut String<A>, lists: &[Vec<Substr>]) -> Result<(), AllocError>
    ensures { OnOk result (string_bytes out.new
        ≡ string_bytes out.old ++ lines_of_lists 0 lists.now) }
{
    for (number, list) in lists.iter().enumerate() {
        push_slices(out, number, list)?;
    }
    Ok(())
}

/// Appends the lines of slices of one text.
#[tactic(auto, using(crate::proofs::TokensPrinted::one_slice_more))]
fn push_slices<A: Allocator>(
    out: &mut String<A>,
    number: usize,
    slices: &[Substr],
) -> Result<(), AllocError>
    ensures { OnOk result (string_bytes out.new
        ≡ string_bytes out.old ++ slice_lines number slices.now) }
{
    for slice in slices {
        push_slice(out, number, slice)?;
    }
    Ok(())
}

/// Appends the line of a slice.
fn push_slice<A: Allocator>(
    out: &mut String<A>,
    number: usize,
    slice: &Substr,
) -> Result<(), AllocError>
    ensures { OnOk result (string_bytes out.new
        ≡ string_bytes out.old ++ slice_line number slice.now) }
{
    let range = slice.range();
    let start = range.start;
    let end = range.end;
    let text = slice.as_str();
    write!(out, "{number} {start}..{end} {text}\n")
}
