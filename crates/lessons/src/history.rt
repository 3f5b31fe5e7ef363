//! Answers in order: what a text says after it was leaked, and what follows from how the drops of a
//! text and its clone end.
ghost use Rattle.std.specs.Prelude.{◌≡◌, ◌≢◌, IfOk, IfSome, IsNone, IsSomeAnd, IsTrue};
ghost use Rattle.arcstr.specs.History.{IsSeenBirth};
ghost use Rattle.arcstr_block.specs.Book.{IsLater};
ghost use Rattle.arcstr_block.specs.declared.ending.End.TheVariants.{Freed};
ghost use Rattle.lessons.specs.History.{FreesSecond, IsSeenInUse, OfBoth};

use arcstr::block::{End, Seen};
use arcstr::{ArcStr, TextFault};
use std::alloc::Global;
use std::sync::Wait;

/// Leaks a text, and asks it for its flag and its count.
///
/// ```
/// let text = ArcStr::from_str(rt.alloc(), "foo")?;
/// assert_eq!(rt; leak_and_ask(&text), (true, None));
/// ```
pub fn leak_and_ask(text: &ArcStr) -> (bool, Option<usize>)
    // Promise: It is static, and has no count.
    ensures flag { IsTrue result.0 }
    ensures count { IsNone result.1 }
{
    let (_, seen) = text.leak_after(&None);
    let (is_static, seen) = ArcStr::is_static_after(text, &seen);
    let (count, _) = ArcStr::strong_count_after(text, &seen);
    (is_static, count)
}

/// How two handles ended, and what the clone and each drop has seen.
///
/// ```
/// let ends = end_both(&rt, rt.alloc(), "foo")?;
/// assert_eq!(rt; (ends.first, ends.second), (End::Left, End::Freed));
/// ```
#[derive(Drop)]
pub struct TwoEnds {
    pub born: Option<Seen>,
    pub first: End,
    pub seen: Option<Seen>,
    pub second: End,
    pub last: Option<Seen>,
}

/// Makes a text, clones it, and drops the text and then the clone.
///
/// ```
/// let ends = end_both(&rt, rt.alloc(), "")?;
/// assert_eq!(rt; (ends.first, ends.second), (End::Ended, End::Ended));
/// ```
#[tactic(auto, using(crate::proofs::Ends::how_both_end))]
pub fn end_both(rt: &impl Wait, alloc: Global, text: &str) -> Result<TwoEnds, TextFault>
    // Promise: The history of the clone ends in a step by which a handle was born.
    ensures born { IfOk result (λ ends. IsSeenBirth ends.born) }
    // Promise: What the first drop has seen begins with that history.
    ensures begins { IfOk result (λ ends. IfSome ends.seen
        (λ seen. IsSomeAnd ends.born (λ born. IsLater born.history seen.history))) }
    // Promise: The first drop never frees the block, so it is freed at most once.
    ensures first { IfOk result (λ ends. ends.first ≢ Freed) }
    // Promise: If the second drop frees it, its history begins with all that the first had seen,
    // and has both drops and one free, at its end.
    ensures second { IfOk result (λ ends. ends.second ≡ Freed
        → OfBoth FreesSecond ends.seen ends.last) }
    // Promise: If neither does, a handle on the block lives, or the block is marked static.
    ensures neither { IfOk result (λ ends. ends.second ≢ Freed → IsSeenInUse ends.last) }
{
    let text = ArcStr::from_str(alloc, text)?;
    let (other, born) = text.clone_after(rt, &None);
    let (first, seen) = text.end_after(&born);
    let (second, last) = other.end_after(&seen);
    Ok(TwoEnds {
        born,
        first,
        seen,
        second,
        last,
    })
}
