//! Numbers in decimal, as scripts and arguments have them.
ghost use Rattle.std.specs.Prelude.{◌≡◌, ◌≢◌, ℕ, ◌^◌, ◌<◌, slice_index, if◌then◌else◌, Some, IfSome};
ghost use Rattle.std.specs.Fmt.{decimal};
ghost use Rattle.std.specs.Str.Parse.{digits_value};
ghost use Rattle.arcbench_core.specs.Line.{is_decimal, number_of, plus_sign};

use std::str;

/// Returns the value of a NUMBER: `0`, or digits that do not begin with `0`, below `2^64`.
///
/// ```
/// assert_eq!(rt; number_of(b"64"), Some(64));
/// assert_eq!(rt; number_of(b"064"), None);
/// ```
#[tactic(auto, using(crate::proofs::LineTexts::number_written, crate::proofs::LineTexts::number_read))]
pub fn number_of(text: &[u8]) -> Option<u64>
    ensures value { result ≡ number_of text.now }
    ensures written { IfSome result (λ n. text.now ≡ decimal n) }
    ensures read { (n : ℕ) → n < 2 ^ 64 → text.now ≡ decimal n → result ≡ Some n }
{
    read_number(text)
}

/// Returns the value of a NUMBER, by the definition of `number_of`.
///
/// This function stands apart so that the other clauses of `number_of` follow from one value, on
/// whichever path the body finds it.
fn read_number(text: &[u8]) -> Option<u64>
    ensures { result ≡ number_of text.now }
{
    match text {
        [b'+', ..] | [b'0', _, ..] => None,
        _ => decimal_of(text),
    }
}

/// Returns the value of decimal digits, below `2^64`.
#[tactic(auto, using(crate::proofs::LineTexts::decimal_from_parse, crate::proofs::LineTexts::no_decimal))]
fn decimal_of(text: &[u8]) -> Option<u64>
    requires no_sign { slice_index text.now 0 ≢ plus_sign }
    ensures { result ≡ (if is_decimal text.now then Some (digits_value 10 text.now) else None) }
{
    str::from_utf8(text).ok()?.parse::<u64>().ok()
}
