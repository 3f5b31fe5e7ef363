//! How handles end: what follows for two handles on one text, which end in any order and in any
//! threads, for one that ends while another is kept, and for a text that was leaked; and how many
//! handles a count finds.
ghost use Rattle.std.specs.Prelude.{◌≡◌, ◌≢◌, ◌≤◌, IfSome, ℕ};
ghost use Rattle.arcstr_block.specs.Ending.{IsFreedExactly};
ghost use Rattle.arcstr_block.specs.declared.ending.End.TheVariants.{Ended, Freed};

use arcstr::block::{End, Seen, Shared};
use arcstr::count::RC_MAX;
use arcstr::{ArcStr, Substr};
use std::alloc::Global;
use std::sync::Wait;

/// Leaks a text, and drops the handle. The drop finds the text static.
///
/// ```
/// let text = ArcStr::from_str(rt.alloc(), "foo")?;
/// assert_eq!(rt; leak_and_end(text), End::Ended);
/// ```
pub fn leak_and_end(text: ArcStr) -> End
    ensures { result ≡ Ended }
{
    let (_, seen) = text.leak_after(&None);
    text.end_after(&seen).0
}

/// Drops two handles on one block.
fn end_handles(one: Shared<RC_MAX, Global>, other: Shared<RC_MAX, Global>) -> (End, End)
    requires same { one.block ≡ other.block }
    // Promise: They have two seats in the block's history, and one handle frees it.
    ensures once { result.0 ≡ Freed → result.1 ≢ Freed }
{
    let (one, other) = one.two_handles_have_two_seats(other);
    let (first, seen) = one.end();
    let (second, last) = other.end();
    seen.one_handle_frees(&last);
    (first, second)
}

/// Drops two handles on one text. Neither drop knows what the other has seen, so they may be those
/// of two threads.
///
/// ```
/// let text = ArcStr::from_str(rt.alloc(), "foo")?;
/// let other = text.clone(&rt);
/// assert_eq!(rt; end_apart(text, other), (End::Left, End::Freed));
/// ```
pub fn end_apart(one: ArcStr, other: ArcStr) -> (End, End)
    requires same { one.kind ≡ other.kind }
    // Promise: At most one of them frees the block.
    ensures once { result.0 ≡ Freed → result.1 ≢ Freed }
{
    match (one.into_shared(), other.into_shared()) {
        (Some(one), Some(other)) => end_handles(one, other),
        _ => (End::Ended, End::Ended),
    }
}

/// Drops two slices of one text, as `end_apart` drops two texts.
///
/// ```
/// let text = ArcStr::from_str(rt.alloc(), "foo bar")?;
/// let one = text.substr(&rt, ..3)?;
/// let other = Substr::full(text);
/// assert_eq!(rt; end_slices(one, other), (End::Left, End::Freed));
/// ```
pub fn end_slices(one: Substr, other: Substr) -> (End, End)
    requires same { one.parent.kind ≡ other.parent.kind }
    // Promise: At most one of them frees the block.
    ensures once { result.0 ≡ Freed → result.1 ≢ Freed }
{
    let (Some(one), Some(other)) = (one.into_shared(), other.into_shared()) else {
        return (End::Ended, End::Ended);
    };
    end_handles(one, other)
}

/// Counts the handles on a text, by one of two that the caller has. The contract does not exclude
/// `None`; the example does.
///
/// ```
/// let text = ArcStr::from_str(rt.alloc(), "foo")?;
/// let other = text.clone(&rt);
/// assert_eq!(rt; count_of_two(text, other), Some(2));
/// ```
pub fn count_of_two(one: ArcStr, other: ArcStr) -> Option<u64>
    requires same { one.kind ≡ other.kind }
    // Promise: Both are counted, unless the block is marked static.
    ensures two { IfSome result (λ count. 2 ≤ count) }
{
    let (Some(one), Some(other)) = (one.into_shared(), other.into_shared()) else {
        return None;
    };
    let (count, seen) = one.look_after(&other.seen());
    one.two_handles_are_counted(other, &seen);
    count
}

/// Drops a handle while another one on the same text is kept.
///
/// ```
/// let text = ArcStr::from_str(rt.alloc(), "foo")?;
/// assert_eq!(rt; end_beside(text.clone(&rt), &text), End::Left);
/// ```
pub fn end_beside(text: ArcStr, kept: &ArcStr) -> End
    requires same { text.kind ≡ kept.now.kind }
    // Promise: The drop does not free the block.
    ensures stays { result ≢ Freed }
{
    let (end, seen) = text.end();
    kept.lives(&seen);
    end
}

/// Drops a handle, and then another one, which is told of the first.
///
/// ```
/// let text = ArcStr::from_str(rt.alloc(), "foo")?;
/// let other = text.clone(&rt);
/// assert_eq!(rt; end_in_order(text, other), (End::Left, End::Freed));
/// ```
pub fn end_in_order(one: ArcStr, other: ArcStr) -> (End, End)
    requires same { one.kind ≡ other.kind }
    // Promise: The first drop does not free the block.
    ensures first { result.0 ≢ Freed }
{
    let (first, seen) = one.end();
    other.lives(&seen);
    let (second, _) = other.end_after(&seen);
    (first, second)
}

/// Drops a handle. Returns how it ended, and what the drop has seen.
///
/// ```
/// let (end, seen) = end_and_settle(ArcStr::from_str(rt.alloc(), "foo")?);
/// assert_eq!(rt; (end, seen.is_some()), (End::Freed, true));
/// ```
pub fn end_and_settle(text: ArcStr) -> (End, Option<Seen>)
    // Promise: If no handle on the block is left in what was seen, the block was freed exactly if
    // nothing marked it static.
    ensures settled { IfSome result.1 (λ seen. (limit : ℕ) → IsFreedExactly limit seen.history) }
{
    let (end, seen) = text.end();
    if let Some(seen) = &seen {
        seen.the_six_laws_hold();
    }
    (end, seen)
}
