//! Laws of every list of steps, in whatever order the handles act, and of the seats of one block. A
//! law does nothing when it runs: its clauses are its purpose. The seats of a block are the states
//! of the handles that were born on it, in the order of their births.

ghost use Rattle.std.specs.Prelude.{◌≡◌, ◌+◌, ◌<◌, ◌≤◌, IsTrue, IsFalse, length, filter};
ghost use Rattle.arcstr_count.specs.Laws.{HoldsInEveryInterleaving};
ghost use Rattle.arcstr_count.specs.Model.{lives, is_dropping, is_owing};
ghost use Rattle.arcstr_count.specs.OneBlock.{Keeps};

use crate::steps::{HandleState, Step};
use crate::words::Word;

/// Proves the laws of every interleaving: for any limit, any list of steps, any prefix of the list
/// and any block made in that prefix. It has no precondition.
///
/// ```
/// let steps = [Step::Make, Step::Clone(0), Step::Leak(1), Step::Begin(0)];
/// every_interleaving(RC_MAX, &steps);
/// ```
pub fn every_interleaving(limit: u64, steps: &[Step])
    ensures laws { HoldsInEveryInterleaving limit steps.now }
{}

/// Proves the law of a running block, whose count word and seats are those of a history of one
/// block: it has as many handles as the history. Its clauses say nothing where the count word and
/// the seats are not the history's.
///
/// An unmarked count word counts the seats of living handles. A marked count word counts at least
/// those of dropping handles. No count exceeds limit + 1. At most one seat owes; if one does, the
/// count word is unmarked with count 0 and no handle lives.
///
/// ```
/// let history = [Step::Make, Step::Clone(0), Step::Begin(1)];
/// let seats = [HandleState::Free, HandleState::Dropping];
/// seats_are_counted(RC_MAX, &history, Word::from_bits(4), &seats);
/// ```
#[tactic(auto, using(crate::proofs::OneBlock::laws_of_seats))]
pub fn seats_are_counted(limit: u64, history: &[Step], word: Word, seats: &[HandleState])
    // Promise: While the block is unmarked, its count is the number of living handles.
    ensures counted { Keeps limit history.now word seats.now → IsFalse word.flag
        → word.count ≡ length (filter lives seats.now) }
    // Promise: Once it is marked, its count is at least the number of dropping handles.
    ensures covered { Keeps limit history.now word seats.now → IsTrue word.flag
        → length (filter is_dropping seats.now) ≤ word.count }
    // Promise: The count is at most one above the limit.
    ensures bounded { Keeps limit history.now word seats.now → word.count ≤ limit + 1 }
    // Promise: At most one handle owes the block. The block is then unmarked, and no handle lives
    // on it.
    ensures one_owes { Keeps limit history.now word seats.now
        → length (filter is_owing seats.now) ≤ 1 }
    ensures owed { Keeps limit history.now word seats.now → 0 < length (filter is_owing seats.now)
        → IsFalse word.flag × (word.count ≡ 0) × (length (filter lives seats.now) ≡ 0) }
{}
