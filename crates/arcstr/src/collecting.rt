//! Texts collected from the items of an iterator, and `String`s from texts. The error is the
//! traits' `AllocError`, also for a text of `2^63 - 25` bytes or more.
ghost use Rattle.std.specs.Prelude.{◌≡◌, ◌++◌, IfOk, encode_utf8_all, flat_map, string_bytes};
ghost use Rattle.std.specs.Iterator.{ExtendsWithItems, IsFinite};
ghost use Rattle.arcstr.specs.Substr.{text_of};
ghost use Rattle.arcstr.specs.TextView.{IsMadeOf};

use crate::arc_str::ArcStr;
use crate::substr::Substr;
use arcstr_block::TextFault;
use std::alloc::{AllocError, Allocator, Global};
use std::convert::AsStr;
use std::iter::{Extend, FromIterator};

impl FromIterator<char> for ArcStr {
    type Alloc = Global;

    ghost from_iter_gives = { λ characters made. IsMadeOf (encode_utf8_all characters) made };

    /// Collects the characters into a `String`, which may be allocated anew as it grows, and copies
    /// that into a block, as `ArcStr::from_str` does.
    ///
    /// ```
    /// let text: ArcStr = "foo".chars().rev().collect(rt.alloc())?;
    /// assert_eq!(rt; text.as_str(), "oof");
    /// ```
    fn from_iter<I: IntoIterator<Item = char>>(
        alloc: Global,
        items: I,
    ) -> Result<ArcStr, AllocError> {
        copied(alloc, String::from_iter(alloc, items)?)
    }
}

impl FromIterator<String> for ArcStr {
    type Alloc = Global;

    ghost from_iter_gives = { λ texts made. IsMadeOf (flat_map string_bytes texts) made };

    /// Joins the strings into a text, as the characters are collected.
    fn from_iter<I: IntoIterator<Item = String>>(
        alloc: Global,
        items: I,
    ) -> Result<ArcStr, AllocError> {
        copied(alloc, String::from_iter(alloc, items)?)
    }
}

impl FromIterator<ArcStr> for ArcStr {
    type Alloc = Global;

    ghost from_iter_gives = { λ texts made. IsMadeOf (flat_map (λ shared. shared.text) texts) made };

    /// Joins the texts into one, as the characters are collected. Drops each handle once its text
    /// is copied. Where the texts lie in a list, `ArcStr::join` makes one allocation.
    fn from_iter<I: IntoIterator<Item = ArcStr>>(
        alloc: Global,
        items: I,
    ) -> Result<ArcStr, AllocError> {
        copied(alloc, String::from_iter(alloc, items)?)
    }
}

impl FromIterator<Substr> for ArcStr {
    type Alloc = Global;

    ghost from_iter_gives = { λ slices made. IsMadeOf (flat_map text_of slices) made };

    /// Joins the slices' own texts, as those of `ArcStr`s are.
    fn from_iter<I: IntoIterator<Item = Substr>>(
        alloc: Global,
        items: I,
    ) -> Result<ArcStr, AllocError> {
        copied(alloc, String::from_iter(alloc, items)?)
    }
}

impl<A: Allocator> Extend<ArcStr> for String<A> {
    ghost extend_gives = { λ old texts new. string_bytes new ≡ string_bytes old ++ flat_map (λ shared. shared.text) texts };

    /// Appends the texts. Drops each handle once its text is copied.
    ///
    /// ```
    /// let mut all = String::new(rt.alloc());
    /// all.extend([literal!("foo"), literal!("bar")])?;
    /// assert_eq!(rt; all.as_str(), "foobar");
    /// ```
    fn extend<I: IntoIterator<Item = ArcStr>>(&mut self, items: I) -> Result<(), AllocError> {
        append(self, items)
    }
}

impl<A: Allocator> Extend<Substr> for String<A> {
    ghost extend_gives = { λ old slices new. string_bytes new ≡ string_bytes old ++ flat_map text_of slices };

    /// Appends the slices' own texts. Drops each handle once its text is copied.
    fn extend<I: IntoIterator<Item = Substr>>(&mut self, items: I) -> Result<(), AllocError> {
        append(self, items)
    }
}

impl<A: Allocator> FromIterator<ArcStr> for String<A> {
    type Alloc = A;

    ghost from_iter_gives = { λ texts made. string_bytes made ≡ flat_map (λ shared. shared.text) texts };

    /// Joins the texts into a new `String`. Drops each handle once its text is copied.
    fn from_iter<I: IntoIterator<Item = ArcStr>>(
        alloc: A,
        items: I,
    ) -> Result<String<A>, AllocError> {
        let mut made = String::new(alloc);
        made.extend(items)?;
        Ok(made)
    }
}

impl<A: Allocator> FromIterator<Substr> for String<A> {
    type Alloc = A;

    ghost from_iter_gives = { λ slices made. string_bytes made ≡ flat_map text_of slices };

    /// Joins the slices' own texts into a new `String`. Drops each handle once its text is copied.
    fn from_iter<I: IntoIterator<Item = Substr>>(
        alloc: A,
        items: I,
    ) -> Result<String<A>, AllocError> {
        let mut made = String::new(alloc);
        made.extend(items)?;
        Ok(made)
    }
}

/// Copies the string into a block, as `ArcStr::from_str` does.
fn copied(alloc: Global, text: String) -> Result<ArcStr, AllocError>
    ensures { IfOk result (IsMadeOf (string_bytes text)) }
{
    match ArcStr::from_str(alloc, text.as_str()) {
        Ok(made) => Ok(made),
        Err(TextFault::Length | TextFault::Memory) => Err(AllocError),
        Err(TextFault::Utf8(_)) => unreachable!(),
    }
}

/// Appends the texts of the items. If an allocation fails, those before it stay appended.
fn append<S: AsStr + Drop, I: IntoIterator<Item = S>, A: Allocator>(
    to: &mut String<A>,
    items: I,
) -> Result<(), AllocError>
    requires { (rest : I.IntoIter) → I.into_iter_gives items rest
        → I.IntoIter.can_next rest × IsFinite (I.IntoIter.remaining rest) }
    ensures { ExtendsWithItems I.into_iter_gives I.IntoIter.next_gives
        (λ old texts new. string_bytes new ≡ string_bytes old ++ flat_map S.text texts) items to.old to.new result }
{
    for item in items {
        to.push_str(item.as_str())?;
    }
    Ok(())
}
