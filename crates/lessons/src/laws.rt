//! What follows from the laws of blocks: which handles and histories belong to one block. Each
//! function calls a law and states what the law then says of its own arguments.
ghost use Rattle.std.specs.Prelude.{◌≡◌, ◌≢◌, ◌≤◌, IfSome, IsTrue, length};
ghost use mathlib.Core.List.{IsPrefix};
ghost use Rattle.arcstr_block.specs.Handle.{IsMarkedIn};

use arcstr::block::{Down, Fixed, Seen, Shared};
use std::alloc::Global;
use std::sync::Wait;

/// Returns the handle and its clone, which have two seats in the history of one block.
///
/// ```
/// let first = arcstr::block::Shared::from_text(rt.alloc(), "foo")?;
/// let (first, second) = cloned(&rt, first);
/// assert_eq!(rt; (first.as_str(), second.as_str()), ("foo", "foo"));
/// ```
pub fn cloned(rt: &impl Wait, first: Shared<5, Global>) -> (Shared<5, Global>, Shared<5, Global>)
    ensures kept { result.0 ≡ first }
    ensures text { result.1.text ≡ first.text }
    ensures block { result.1.block ≡ result.0.block }
    ensures apart { result.0.seat ≢ result.1.seat }
{
    let second = first.up(rt);
    first.two_handles_have_two_seats(second)
}

/// Looks twice at one block. Whichever look has seen fewer steps, its history is a prefix of the
/// other.
///
/// ```
/// let handle = arcstr::block::Shared::from_text(rt.alloc(), "foo")?;
/// let (first, second) = looked_twice(&handle);
/// first.a_block_has_one_history(&second);
/// ```
pub fn looked_twice(handle: &Shared<5, Global>) -> (Seen, Seen)
    ensures prefix { length result.0.history ≤ length result.1.history
        → IsPrefix result.0.history result.1.history }
    ensures longer { length result.1.history ≤ length result.0.history
        → IsPrefix result.1.history result.0.history }
    ensures block { result.1.block ≡ result.0.block }
{
    let (_, first) = handle.look();
    let (_, second) = handle.look();
    first.a_block_has_one_history(&second);
    (first, second)
}

/// Ends a handle, and frees what it owes. Returns whether it freed the block, and the other handle.
///
/// ```
/// let made = |text| arcstr::block::Shared::from_text(rt.alloc(), text);
/// let (first, lent, fixed) = (made("a")?, made("b")?, made("c")?.mark());
/// let second = first.up(&rt);
/// let (freed, second) = frees_beside(first, second, &lent, &fixed);
/// assert!(rt; !freed && second.as_str() == "a");
/// let (freed, _) = frees_beside(second, made("d")?, &lent, &fixed);
/// assert!(rt; freed);
/// ```
pub fn frees_beside(
    handle: Shared<5, Global>,
    other: Shared<5, Global>,
    lent: &Shared<5, Global>,
    fixed: &Fixed<Global>,
) -> (bool, Shared<5, Global>)
    ensures kept { result.1 ≡ other }
    // Promise: A block that is freed has no other handle, and is not permanent.
    ensures alone { IsTrue result.0 → handle.block ≢ other.block }
    ensures lent { IsTrue result.0 → handle.block ≢ lent.now.block }
    ensures unmarked { IsTrue result.0 → handle.block ≢ fixed.now.block }
{
    match handle.down().0 {
        Down::Owes(owed) => {
            let (owed, other) = owed.an_owed_block_has_no_handle(other);
            let owed = owed.an_owed_block_has_no_borrowed_handle(lent);
            owed.an_owed_block_is_not_permanent(fixed).give_back();
            (true, other)
        }
        Down::Left | Down::Ended => (false, other),
    }
}

/// Ends two handles, and frees what they owe. Returns whether both freed a block.
///
/// ```
/// let made = |text| arcstr::block::Shared::from_text(rt.alloc(), text);
/// let first = made("a")?;
/// let second = first.up(&rt);
/// assert!(rt; !both_free(first, second));
/// assert!(rt; both_free(made("a")?, made("a")?));
/// ```
pub fn both_free(first: Shared<5, Global>, second: Shared<5, Global>) -> bool
    // Promise: A block is freed once, so they were on two blocks.
    ensures { IsTrue result → first.block ≢ second.block }
{
    match (first.down().0, second.down().0) {
        (Down::Owes(owed), Down::Owes(other)) => {
            let (owed, other) = owed.a_block_is_owed_once(other);
            owed.give_back();
            other.give_back();
            true
        }
        (Down::Owes(owed), Down::Left | Down::Ended) => {
            owed.give_back();
            false
        }
        (Down::Left | Down::Ended, Down::Owes(owed)) => {
            owed.give_back();
            false
        }
        (Down::Left | Down::Ended, Down::Left | Down::Ended) => false,
    }
}

/// Marks a block through one handle, and asks for the mark through another one.
///
/// ```
/// let first = arcstr::block::Shared::from_text(rt.alloc(), "foo")?;
/// let (first, second) = cloned(&rt, first);
/// let (_, found) = marked_and_found(&first, &second);
/// assert!(rt; found.is_some());
/// ```
pub fn marked_and_found(
    first: &Shared<5, Global>,
    second: &Shared<5, Global>,
) -> (Seen, Option<Seen>)
    requires { second.now.block ≡ first.now.block }
    // Promise: Both see a history of the one block that has the mark.
    ensures made { IsMarkedIn 5 result.0.history }
    ensures found { IfSome result.1
        (λ found. (found.block ≡ result.0.block) × IsMarkedIn 5 found.history) }
{
    let made = first.mark().again().seen();
    match second.fixed().0 {
        Some(fixed) => (made, Some(fixed.seen())),
        None => (made, None),
    }
}
