//! A list of slices of one text, which holds the text once.
ghost use Rattle.std.specs.Prelude.{◌≡◌, ◌↔◌, ◌<◌, ◌++◌, [], ◌∷◌, length, slice_get, IsTrue};
ghost use Rattle.std.specs.Prelude.{IsErr, IsSome, IfOk, IfSome, Some};
ghost use Rattle.arcstr_range.specs.Ends.{IsLawful};
ghost use Rattle.arcstr.specs.Substr.{text_of};
ghost use Rattle.arctokens.specs.SliceLists.{slices_in};
ghost use Rattle.arctokens.specs.Tokens.{AreTokens};
ghost use Rattle.arctokens.specs.Words.{HasWord};

use crate::words::next_word;
use arcstr::{ArcStr, Substr};
use std::alloc::{AllocError, Global};
use std::marker::Model;
use std::ops::Range;
use std::sync::Wait;

/// A list of slices of one text, as `token_list` returns it. It holds one handle on the text, and
/// for each slice two byte offsets: 8 bytes for a slice that ends within the first 4 GiB of the
/// text, and 16 for those after. A `Vec<Substr>` holds a handle for each slice, and takes 40 bytes.
///
/// The list keeps the text alive. `get` makes a slice, which keeps the text alive too, and
/// `as_str` borrows its text without a clone. It is `Send` and `Sync`, and its drop drops the
/// handle and frees the list.
///
/// ```
/// let words = token_list(&rt, rt.alloc(), &literal!("foo   bar"))?;
/// assert_eq!(rt; words.len(), 2);
/// assert_eq!(rt; words.as_str(1), Some("bar"));
/// assert_eq!(rt; words.range(1), Some(6..9));
/// ```
#[derive(Drop)]
pub struct Substrs {
    text: ArcStr,
    /// The first ranges, up to the first that ends past `u32::MAX`.
    near: Vec<(u32, u32)>,
    /// The others.
    far: Vec<(usize, usize)>,
}

impl Model for Substrs {
    ghost use Rattle.arctokens.specs.SliceLists.{SubstrsView, IsSoundList, substrs_of};

    ghost Value = { SubstrsView };

    ghost view = { λ fields. substrs_of fields.text fields.near.items fields.far.items };

    ghost invariant = { λ fields.
        IsSoundList (substrs_of fields.text fields.near.items fields.far.items) };
}

impl Substrs {
    /// Makes a list without slices. Allocates nothing.
    pub(crate) fn new(alloc: Global, text: ArcStr) -> Substrs
        ensures text { result.text ≡ text }
        ensures none { result.ranges ≡ [] }
    {
        Substrs {
            text,
            near: Vec::new(alloc),
            far: Vec::new(alloc),
        }
    }

    /// Adds the slice between two byte offsets of the text at the end.
    pub(crate) fn push(&mut self, range: Range<usize>) -> Result<(), AllocError>
        requires { IsLawful self.old.text.text range.start range.end }
        ensures text { self.new.text ≡ self.old.text }
        ensures pushed { IfOk result (λ _.
            self.new.ranges ≡ self.old.ranges ++ (range.start, range.end) ∷ []) }
    {
        if self.far.is_empty() && range.end <= u32::MAX as usize {
            self.near.push((range.start as u32, range.end as u32))?;
        } else {
            self.far.push((range.start, range.end))?;
        }
        Ok(())
    }

    /// Returns the text that the slices are taken from and that the list keeps alive.
    ///
    /// ```
    /// let words = token_list(&rt, rt.alloc(), &literal!("foo   bar"))?;
    /// assert_eq!(rt; words.text().as_str(), "foo   bar");
    /// ```
    pub fn text(&self) -> &ArcStr
        ensures { result.now ≡ self.now.text }
    {
        &self.text
    }

    /// Returns the number of slices.
    ///
    /// ```
    /// assert_eq!(rt; token_list(&rt, rt.alloc(), &literal!("foo   bar"))?.len(), 2);
    /// ```
    pub fn len(&self) -> usize
        ensures { result ≡ length (slices_in self.now) }
    {
        self.near.len() + self.far.len()
    }

    /// Returns whether the list has no slices.
    ///
    /// ```
    /// assert!(rt; token_list(&rt, rt.alloc(), &literal!(" "))?.is_empty());
    /// ```
    pub fn is_empty(&self) -> bool
        ensures { IsTrue result ↔ (slices_in self.now ≡ []) }
    {
        self.near.is_empty() && self.far.is_empty()
    }

    /// Returns the byte range of the slice with this index in the text, or `None` if the list has
    /// fewer slices.
    ///
    /// ```
    /// let words = token_list(&rt, rt.alloc(), &literal!("foo   bar"))?;
    /// assert_eq!(rt; words.range(1), Some(6..9));
    /// assert_eq!(rt; words.range(2), None);
    /// ```
    pub fn range(&self, index: usize) -> Option<Range<usize>>
        // Promise: It finds exactly the indices that are there.
        ensures found { IsSome result ↔ (index < length (slices_in self.now)) }
        ensures range { IfSome result (λ range.
            slice_get self.now.ranges index ≡ Some (range.start, range.end)) }
        // Promise: The range is in order, inside the text and at character boundaries.
        ensures lawful { IfSome result (λ range.
            IsLawful self.now.text.text range.start range.end) }
    {
        let (start, end) = match self.near.get(index) {
            Some((start, end)) => (*start as usize, *end as usize),
            None => *self.far.get(index - self.near.len())?,
        };
        Some(start..end)
    }

    /// Returns the slice with this index, or `None` if the list has fewer slices. Clones the
    /// text's handle as `ArcStr::clone` does, and so can wait.
    ///
    /// ```
    /// let words = token_list(&rt, rt.alloc(), &literal!("foo   bar"))?;
    /// let word = words.get(&rt, 1).ok_or("no word")?;
    /// assert_eq!(rt; (word.as_str(), word.range()), ("bar", 6..9));
    /// assert!(rt; words.get(&rt, 2).is_none());
    /// ```
    pub fn get(&self, rt: &impl Wait, index: usize) -> Option<Substr>
        // Promise: It finds exactly the slices that are there.
        ensures { result ≡ slice_get (slices_in self.now) index }
    {
        let range = self.range(index)?;
        Some(Substr::from_parts_unchecked(self.text.clone(rt), range))
    }

    /// Returns the text of the slice with this index, or `None` if the list has fewer slices. It
    /// takes no atomic step.
    ///
    /// ```
    /// let words = token_list(&rt, rt.alloc(), &literal!("foo   bar"))?;
    /// assert_eq!(rt; words.as_str(1), Some("bar"));
    /// assert_eq!(rt; words.as_str(2), None);
    /// ```
    pub fn as_str(&self, index: usize) -> Option<&str>
        // Promise: It finds exactly the slices that are there.
        ensures found { IsSome result ↔ (index < length (slices_in self.now)) }
        ensures text { IfSome result (λ text.
            IfSome (slice_get (slices_in self.now) index) (λ slice. text.now ≡ text_of slice)) }
    {
        let range = self.range(index)?;
        Some(&self.text.as_str()[range.start..range.end])
    }
}

/// As `tokens`, as a list that holds the text once and each word as two byte offsets: 8 bytes a
/// word in place of 40.
///
/// Clones the text once, whatever the number of its words, and so can wait. Allocates only the
/// list, and fails only if that allocation fails.
///
/// ```
/// let words = token_list(&rt, rt.alloc(), &literal!("foo   bar"))?;
/// assert_eq!(rt; words.as_str(1), Some("bar"));
/// let slice = words.get(&rt, 1).ok_or("no word")?;
/// assert_eq!(rt; slice.range(), 6..9);
/// ```
pub fn token_list<R: Wait>(rt: &R, alloc: Global, text: &ArcStr) -> Result<Substrs, AllocError>
    // Promise: The slices are those of `tokens`.
    ensures tokens { IfOk result (λ list. AreTokens text.now (slices_in list)) }
    // Promise: They are slices of this text.
    ensures text { IfOk result (λ list. list.text ≡ text.now) }
    // Promise: A text without words is never refused.
    ensures refused { IsErr result → HasWord text.now.text }
{
    let whole = text.as_str();
    let mut list = Substrs::new(alloc, text.clone(rt));
    let mut from = 0;
    while let Some(word) = next_word(whole, from) {
        from = word.end;
        list.push(word)?;
    }
    Ok(list)
}
