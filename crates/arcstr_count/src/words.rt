//! The count word of a block: one number that holds its static flag and its count.

ghost use Rattle.std.specs.Prelude.{◌≡◌, ◌+◌, ◌/◌, ◌%◌, ◌<◌, ◌≤◌, ◌==◌, ◌^◌};
ghost use Rattle.arcstr_count.specs.Word.{FlagAndCount, bits_of, looked_of, cloned_of, dropped_of, is_last, marked_of, fresh_word};
ghost use Rattle.arcstr_count.specs.declared.words.TheConstants.{RC_MAX};

use std::marker::Model;

/// The greatest limit on the count of a block, in handles: `2^62 - 1`.
///
/// ```
/// assert_eq!(rt; RC_MAX, (1 << 62) - 1);
/// assert_eq!(rt; Word::one().cloned(RC_MAX).count(), 2);
/// ```
pub const RC_MAX: u64 = (1 << 62) - 1;

/// The count word of a block: the static flag, which says that the block is marked static, and a
/// count.
///
/// It is one `u64`: bit 0 is the flag, the other 63 bits are the count. No call on it allocates.
///
/// Plain data of 8 bytes: it may be copied, sent and shared, and its drop does nothing.
///
/// ```
/// let word = Word::one().cloned(RC_MAX);
/// assert_eq!(rt; word.count(), 2);
/// assert!(rt; !word.marked());
/// ```
#[derive(Clone, Copy, Debug, PartialEq, Eq)]
pub struct Word {
    bits: u64,
}

impl Model for Word {
    ghost Value = { FlagAndCount };

    ghost view = { λ w. record { flag = w.bits % 2 == 1; count = w.bits / 2 } };

    ghost invariant = { λ w. w.bits < 2 ^ 64 };

    ghost inverse = { λ v. record { bits = bits_of v } };
}

impl Word {
    /// Returns the count word of a new block: unmarked, with count 1.
    ///
    /// ```
    /// assert_eq!(rt; Word::one().count(), 1);
    /// assert_eq!(rt; Word::one().bits(), 2);
    /// ```
    pub fn one() -> Word
        ensures { result ≡ fresh_word }
    {
        Word { bits: 2 }
    }

    /// Returns the count word that a number stands for: its lowest bit is the flag, and the other
    /// 63 bits are the count.
    ///
    /// ```
    /// let word = Word::from_bits(7);
    /// assert!(rt; word.marked());
    /// assert_eq!(rt; word.count(), 3);
    /// ```
    pub fn from_bits(bits: u64) -> Word
        ensures { bits_of result ≡ bits }
    {
        Word { bits }
    }

    /// Returns the number that stands for the count word: twice the count, plus 1 if the flag is
    /// set.
    ///
    /// ```
    /// assert_eq!(rt; Word::one().bits(), 2);
    /// assert_eq!(rt; Word::one().with_mark().bits(), 3);
    /// ```
    pub fn bits(self) -> u64
        ensures { result ≡ bits_of self }
    {
        self.bits
    }

    /// Returns whether the block is marked static.
    ///
    /// ```
    /// assert!(rt; Word::from_bits(3).marked());
    /// assert!(rt; !Word::from_bits(2).marked());
    /// ```
    pub fn marked(self) -> bool
        ensures { result ≡ self.flag }
    {
        self.bits % 2 == 1
    }

    /// Returns the count, in handles. On an unmarked block it is the number of living handles.
    ///
    /// ```
    /// assert_eq!(rt; Word::from_bits(6).count(), 3);
    /// assert_eq!(rt; Word::from_bits(7).count(), 3);
    /// ```
    pub fn count(self) -> u64
        ensures value { result ≡ self.count }
        // Promise: It is below `2^63`.
        ensures range { result < 2 ^ 63 }
    {
        self.bits / 2
    }

    /// Returns what a look finds: `None` at a marked count word, else the count.
    ///
    /// ```
    /// assert_eq!(rt; Word::from_bits(6).looked(), Some(3));
    /// assert_eq!(rt; Word::from_bits(7).looked(), None);
    /// ```
    pub fn looked(self) -> Option<u64>
        ensures { result ≡ looked_of self }
    {
        if self.marked() {
            None
        } else {
            Some(self.count())
        }
    }

    /// Returns the count word after a clone. A marked one stays as it was; one whose count is above
    /// the limit gets the flag; any other count word gets a count one higher. The limit has to be
    /// at most `RC_MAX`.
    ///
    /// ```
    /// assert_eq!(rt; Word::from_bits(2).cloned(1), Word::from_bits(4));
    /// assert_eq!(rt; Word::from_bits(4).cloned(1), Word::from_bits(5));
    /// ```
    pub fn cloned(self, limit: u64) -> Word
        requires { limit ≤ RC_MAX }
        // Promise: A marked one stays as it was, one whose count is above the limit gets the flag,
        // and any other one counts one more.
        ensures { result ≡ cloned_of limit self }
    {
        if self.marked() || self.count() > limit {
            self.with_mark()
        } else {
            Word {
                bits: self.bits + 2,
            }
        }
    }

    /// Returns the count word after a subtraction, with a count one lower, and whether the
    /// subtraction was the last one: the count word was unmarked with count
    /// 1. The count word has to count a handle: its count is above 0.
    ///
    /// ```
    /// let (word, last) = Word::one().dropped();
    /// assert_eq!(rt; word.count(), 0);
    /// assert!(rt; last);
    /// ```
    pub fn dropped(self) -> (Word, bool)
        requires { 0 < self.count }
        ensures word { result.0 ≡ dropped_of self }
        ensures last { result.1 ≡ is_last self }
    {
        (
            Word {
                bits: self.bits - 2,
            },
            self.bits == 2,
        )
    }

    /// Returns the count word with the flag set. The count stays.
    ///
    /// ```
    /// assert_eq!(rt; Word::from_bits(6).with_mark(), Word::from_bits(7));
    /// assert_eq!(rt; Word::from_bits(7).with_mark(), Word::from_bits(7));
    /// ```
    pub fn with_mark(self) -> Word
        ensures { result ≡ marked_of self }
    {
        if self.marked() {
            self
        } else {
            Word {
                bits: self.bits + 1,
            }
        }
    }
}
