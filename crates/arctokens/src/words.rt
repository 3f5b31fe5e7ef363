//! Finds the words of a text.
ghost use Rattle.std.specs.Prelude.{◌≡◌, ◌+◌, ◌≢◌, ℕ, ◌<◌, ◌≤◌, IfSome, IfNone, not, length, slice_index, map, take, drop};
ghost use Rattle.std.specs.Simd.Lanes.{mask_l};
ghost use Rattle.std.specs.Char.{is_whitespace};
ghost use Rattle.std.specs.Str.{IsCharBoundary};
ghost use Rattle.arctokens.specs.Runs.{AreAlike, HasNoWord, IsBetweenWords, IsCharacterBetween, IsFirstWord, IsRun, IsVisible, is_visible};

use std::ops::Range;
use std::simd::prelude::*;

/// The properties of a character that matter for words.
#[derive(Clone, Copy)]
struct Character {
    /// Whether it is white space.
    white: bool,
    /// Its length in bytes.
    width: usize,
}

/// Returns the range of the first word that starts at or after `from`. No word may lie across
/// `from`.
pub(crate) fn next_word(text: &str, from: usize) -> Option<Range<usize>>
    requires boundary { IsCharBoundary text.now from }
    requires between { IsBetweenWords text.now from }
    ensures first { IfSome result (λ word. IsFirstWord text.now from word.start word.end) }
    ensures none { IfNone result (HasNoWord text.now from) }
{
    let start = run_end(text, from, true);
    if start == text.len() {
        return None;
    }
    let end = run_end(text, start, false);
    Some(start..end)
}

/// Returns the end of the run of the given kind that starts at `from`: the start of the first
/// character of the other kind, or the end of the text.
fn run_end(text: &str, from: usize, white: bool) -> usize
    requires { IsCharBoundary text.now from }
    ensures { IsRun text.now from result white }
{
    let mut at = from;
    while at < text.len() {
        let passed = run_prefix(text, at, white);
        at += passed;
        if passed == LANES {
            continue;
        }
        let next = character_at(text, at);
        if next.white != white {
            return at;
        }
        at += next.width;
    }
    at
}

/// Returns how many bytes a run of the given kind can pass at once. In a run of white space, that
/// is none. In a run of other characters, it is the number of visible ASCII characters at the start
/// of the next vector.
fn run_prefix(text: &str, place: usize, white: bool) -> usize
    requires inside { place < length text.now }
    requires boundary { IsCharBoundary text.now place }
    ensures alike { AreAlike text.now place (place + result) white }
    ensures stops { result ≢ LANES → place + result < length text.now }
{
    if white {
        0
    } else {
        visible_prefix(text.as_bytes(), place)
    }
}

/// The number of bytes in a vector.
const LANES: usize = 16;

/// Returns how many bytes at `place` are visible ASCII characters, which are never white space,
/// within one vector. Returns 0 if fewer bytes than a vector are left.
fn visible_prefix(bytes: &[u8], place: usize) -> usize
    requires { place < length bytes.now }
    ensures within { result ≤ LANES }
    ensures inside { place + result ≤ length bytes.now }
    ensures stops { result ≢ LANES → place + result < length bytes.now }
    ensures visible { (k : ℕ) → place ≤ k → k < place + result
        → IsVisible (slice_index bytes.now k) }
{
    if bytes.len() - place < LANES {
        return 0;
    }
    let others = other_bytes(bytes, place);
    if others == 0 {
        LANES
    } else {
        others.trailing_zeros() as usize
    }
}

/// Returns a bit for each of the next 16 bytes, which is set if the byte is not a visible ASCII
/// character. The first byte has the lowest bit.
fn other_bytes(bytes: &[u8], place: usize) -> u64
    requires { place + LANES ≤ length bytes.now }
    ensures { result ≡ mask_l (map (λ byte. not (is_visible byte))
        (take 16 (drop place bytes.now))) }
{
    let from_first = u8x16::from_slice(&bytes[place..]) - u8x16::splat(33);
    from_first.simd_ge(u8x16::splat(95)).to_bitmask()
}

/// Returns the character at `place`.
fn character_at(text: &str, place: usize) -> Character
    requires inside { place < length text.now }
    requires boundary { IsCharBoundary text.now place }
    ensures { IsCharacterBetween text.now place (place + result.width) result.white }
{
    let byte = text.as_bytes()[place];
    if byte < 128 {
        return Character {
            white: is_white_byte(byte),
            width: 1,
        };
    }
    let Some(character) = text[place..].chars().next() else {
        unreachable!()
    };
    Character {
        white: character.is_whitespace(),
        width: character.len_utf8(),
    }
}

/// Returns whether an ASCII character is white space.
fn is_white_byte(byte: u8) -> bool
    requires { byte < 128 }
    ensures { result ≡ is_whitespace byte }
{
    matches!(byte, b'\t'..=b'\r' | b' ')
}
