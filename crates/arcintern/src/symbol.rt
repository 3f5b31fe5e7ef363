//! The number of a text in its interner.
ghost use Rattle.std.specs.Prelude.{◌≡◌, ◌^◌, ◌<◌};

use std::marker::Model;

/// Stands for one text of one `Interner`, `WordList` or `SharedInterner`. It takes 4 bytes, and two
/// symbols of one interner are equal exactly where their texts are. Symbols compare in the order in
/// which their texts were added. The contracts of `Interner` and `WordList` say both, and for a
/// `SharedInterner` tests check both. A symbol does not tell its interner: another interner may
/// have another text at it, or none.
///
/// ```
/// let mut interner = Interner::new(rt.alloc());
/// let foo = interner.intern("foo")?;
/// assert!(rt; foo == interner.intern("foo")?);
/// assert!(rt; foo < interner.intern("bar")?);
/// ```
#[derive(Clone, Copy, Debug, PartialEq, Eq, PartialOrd, Ord, Hash)]
pub struct Symbol(u32);

impl Model for Symbol {
    ghost use Rattle.std.specs.Prelude.{ℕ};

    ghost Value = { ℕ };

    ghost view = { λ symbol. symbol.0 };

    ghost inverse = { λ number. record { 0 = number } };
}

impl Symbol {
    /// Returns the index of the text in its interner, from 0.
    ///
    /// ```
    /// let mut interner = Interner::new(rt.alloc());
    /// assert_eq!(rt; interner.intern("foo")?.index(), 0);
    /// assert_eq!(rt; interner.intern("bar")?.index(), 1);
    /// ```
    pub fn index(self) -> usize
        ensures { result ≡ self }
    {
        self.0 as usize
    }

    /// Returns the symbol of the text at this index.
    pub(crate) fn at(index: usize) -> Symbol
        requires { index < 2 ^ 32 }
        ensures { result ≡ index }
    {
        Symbol(index as u32)
    }
}
