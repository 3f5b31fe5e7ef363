//! What the number in a count word says, and what a clone makes of it: the operations of
//! `arcstr_count::Word` on the number alone, which is all that a step knows of the count word.
ghost use Rattle.std.specs.Prelude.{◌≡◌, ◌≤◌, IsTrue, ◌↔◌, MatchOption};
ghost use Rattle.arcstr_count.specs.Word.{looked_of};
ghost use Rattle.arcstr_block.specs.Word.{IsMarked, IsUnmarked, IsCountWord, IsClone, IsLast, word_of};

use arcstr_count::{RC_MAX, Word};

/// The static flag as a number, which a fetch-or sets.
pub(crate) const MARK: u64 = 1;

/// A count of one as a number, which a fetch-sub subtracts.
pub(crate) const ONE: u64 = 2;

/// Whether the block is marked.
pub(crate) fn is_marked(word: u64) -> bool
    ensures { IsTrue result ↔ IsMarked word }
{
    Word::from_bits(word).marked()
}

/// What a look finds: `None` at a marked count word, else the count.
pub(crate) fn looked(word: u64) -> Option<u64>
    ensures value { result ≡ looked_of (word_of word) }
    ensures marked { MatchOption result (IsMarked word) (λ _. IsUnmarked word) }
{
    Word::from_bits(word).looked()
}

/// The count word after a clone of an unmarked one.
pub(crate) fn word_after_clone(limit: u64, old: u64) -> u64
    requires unmarked { IsUnmarked old }
    requires word { IsCountWord limit old }
    requires low { limit ≤ RC_MAX }
    ensures { IsClone limit old result }
{
    Word::from_bits(old).cloned(limit).bits()
}

/// Whether the count word is unmarked with count 1, as the count word of a new block is. A
/// subtraction that found it was the last one.
pub(crate) fn is_count_of_one(word: u64) -> bool
    ensures { IsTrue result ↔ IsLast word }
{
    Word::from_bits(word) == Word::one()
}
