//! The lines of a script: how bytes are cut into lines, and the limit or the step that a line
//! stands for.
ghost use Rattle.std.specs.Prelude.{◌≡◌, ◌==◌, ℕ, ◌^◌, ◌<◌, ◌∷◌, Some, IfSome, length, position};
ghost use Rattle.std.specs.List.{before_first, after_first};
ghost use Rattle.arcstr_count.specs.declared.steps.Step.{Step};
ghost use Rattle.arcbench_core.specs.Line.{line_text, limit_text, HasHandle, script_lines, step_named, step_of, limit_in};

use crate::numbers::number_of;
use arcstr::count::Step;

/// Returns the first line of bytes, and what comes after it.
#[tactic(auto, using(crate::proofs::LineTexts::first_lines))]
pub(crate) fn first_line(bytes: &[u8]) -> (&[u8], &[u8])
    requires { 0 < length bytes.now }
    ensures lines { script_lines bytes.now ≡ result.0.now ∷ script_lines result.1.now }
    ensures shorter { length result.1.now < length bytes.now }
{
    parts_around(bytes, b'\n')
}

/// Returns the limit that a first line `limit NUMBER` sets. Any other line sets none.
#[tactic(auto, using(crate::proofs::LineTexts::limit_written))]
pub(crate) fn limit_in(line: &[u8]) -> Option<u64>
    ensures value { result ≡ limit_in line.now }
    ensures written { IfSome result (λ n. line.now ≡ limit_text n) }
    ensures read { (n : ℕ) → n < 2 ^ 64 → line.now ≡ limit_text n → result ≡ Some n }
{
    let (command, number) = parts_around(line, b' ');
    if command == b"limit".as_slice() {
        number_of(number)
    } else {
        None
    }
}

/// Returns the step of a line: `make`, or a command, one space, and the number of a handle. Any
/// other line has none.
pub(crate) fn step_of(line: &[u8]) -> Option<Step>
    ensures value { result ≡ step_of line.now }
    ensures written { IfSome result (λ step. line.now ≡ line_text step) }
    ensures read { (step : Step) → HasHandle step → line.now ≡ line_text step → result ≡ Some step }
{
    if line == b"make".as_slice() {
        return Some(Step::Make);
    }
    let (command, number) = parts_around(line, b' ');
    step_named(command, number_of(number)?)
}

/// Returns the step that a command stands for, on this handle.
fn step_named(command: &[u8], handle: u64) -> Option<Step>
    ensures { result ≡ step_named command.now handle }
{
    match command {
        b"look" => Some(Step::Look(handle)),
        b"clone" => Some(Step::Clone(handle)),
        b"begin" => Some(Step::Begin(handle)),
        b"sub" => Some(Step::Sub(handle)),
        b"back" => Some(Step::Back(handle)),
        b"leak" => Some(Step::Leak(handle)),
        b"raw" => Some(Step::IntoRaw(handle)),
        b"unraw" => Some(Step::FromRaw(handle)),
        _ => None,
    }
}

/// Returns the bytes before the first `byte` and those after it; if there is none, all bytes and no
/// bytes.
fn parts_around(bytes: &[u8], byte: u8) -> (&[u8], &[u8])
    ensures prefix { result.0.now ≡ before_first (λ b. b == byte) bytes.now }
    ensures rest { result.1.now ≡ after_first (λ b. b == byte) bytes.now }
{
    match index_of(bytes, byte) {
        Some(i) => (&bytes[..i], &bytes[i + 1..]),
        None => (bytes, &[]),
    }
}

/// Returns the index of the first `byte`.
fn index_of(bytes: &[u8], byte: u8) -> Option<usize>
    ensures { result ≡ position (λ b. b == byte) bytes.now }
{
    bytes.iter().position(|b| *b == byte)
}
