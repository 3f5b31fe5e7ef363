//! Lists of slices: the parts of a text between the matches of a pattern, its lines and its words,
//! as the iterators of `str` give them.
//!
//! Each call allocates the list, and clones the handle once for each slice, so it can wait. A call
//! that fails drops the slices that it made. Each slice keeps the text alive, even if it is empty.
//! The slices of a `Substr` have its parent.
ghost use Rattle.std.specs.Prelude.{◌≡◌, ◌≢◌, ◌==◌, ℕ, All, List, [], length, map, IfOk, IfSome, IsErr};
ghost use Rattle.std.specs.Iterator.{HoldsAlong, IsFinite};
ghost use Rattle.std.specs.Char.{is_whitespace};
ghost use Rattle.std.specs.List.{filter, join_by};
ghost use Rattle.std.specs.Str.Lines.{lines};
ghost use Rattle.arcstr_range.specs.Matches.{FindsOnly};
ghost use Rattle.arcstr_range.specs.Pieces.{is_not_empty, lines_of, parts_at, texts_between, words_of};
ghost use Rattle.arcstr_range.specs.View.{StandsAt, end_of, view_at};
ghost use Rattle.arcstr.specs.Slicing.{AreSlicesOfParts, LiesBetween, ShowAll, Shows, slices_of};
ghost use Rattle.arcstr.specs.Splitting.{FindsCharacter};
ghost use Rattle.arcstr.specs.Substr.{slice_of, slice_within, text_of};

use crate::arc_str::ArcStr;
use crate::substr::Substr;
use arcstr_range::view::StrView;
use std::alloc::{AllocError, Global};
use std::str::pattern::Pattern;
use std::sync::Wait;

impl ArcStr {
    /// Returns the slices of this text between the matches of the separator, in order, as
    /// `str::split` does. A separator is a `char`, a `&str`, a set of characters, a closure, or
    /// another of std's patterns that is `Copy`. The caller must ensure that it can search, as it
    /// must ensure that a closure can be called.
    ///
    /// There is one slice more than there are matches. Those before a first, after a last and
    /// between two adjacent matches are empty. An empty separator matches before, between and
    /// behind all characters. Fails only if an allocation fails.
    ///
    /// ```
    /// let text = ArcStr::from_str(rt.alloc(), "a,,b")?;
    /// let fields = text.substr_split(&rt, rt.alloc(), ',')?;
    /// assert_eq!(rt; fields.len(), 3);
    /// assert_eq!(rt; (fields[2].as_str(), fields[2].range()), ("b", 3..4));
    /// let paragraphs = literal!("a\n\nb").substr_split(&rt, rt.alloc(), "\n\n")?;
    /// assert_eq!(rt; paragraphs[1].as_str(), "b");
    /// ```
    pub fn substr_split<P: Pattern + Copy>(
        &self,
        rt: &impl Wait,
        alloc: Global,
        separator: P,
    ) -> Result<Vec<Substr>, AllocError>
    where
        P: Drop,
        requires { P.can_search separator }
        // Promise: The slices are those of the parts between the matches, in order.
        ensures parts { IfOk result (λ slices. AreSlicesOfParts (P.find_in_gives separator)
            self.now.text (slice_of self.now) slices.items) }
        // Promise: They lie inside the text.
        ensures within { IfOk result (λ slices.
            All (LiesBetween 0 (length self.now.text)) slices.items) }
        // Promise: Around a text, they join with it to the whole text.
        ensures joined { (wanted : List ℕ) → FindsOnly (P.find_in_gives separator) wanted
            → IfOk result (λ slices. join_by text_of wanted slices.items ≡ self.now.text) }
        // Promise: Around a character, their texts are those between its occurrences.
        ensures at_a_character { IfSome (P.single_char separator) (λ character.
            FindsCharacter (P.find_in_gives separator) character → IfOk result (λ slices.
            (slices.items ≡ slices_of (slice_of self.now)
            (parts_at character (view_at self.now.text 0)))
            × (map text_of slices.items
            ≡ texts_between (λ c. c == character) self.now.text))) }
    {
        let parts = StrView::whole(self.as_str()).split_by(separator);
        let slices = list_slices(self, rt, alloc, parts)?;
        Ok(slices)
    }

    /// Returns the lines of this text as slices, in order, as `str::lines` does. A line end, `\n`
    /// or `\r\n`, is part of no line. Fails only if an allocation fails.
    ///
    /// ```
    /// let text = ArcStr::from_str(rt.alloc(), "a\r\n\nb\n")?;
    /// let lines = text.substr_lines(&rt, rt.alloc())?;
    /// assert_eq!(rt; lines.len(), 3);
    /// assert_eq!(rt; (lines[2].as_str(), lines[2].range()), ("b", 4..5));
    /// ```
    #[tactic(auto, using(crate::proofs::SliceLists::slice_lists))]
    pub fn substr_lines(&self, rt: &impl Wait, alloc: Global) -> Result<Vec<Substr>, AllocError>
        ensures slices { IfOk result
            (λ slices. slices.items
            ≡ slices_of (slice_of self.now) (lines_of (view_at self.now.text 0))) }
        // Promise: Their texts are those of the lines of the text.
        ensures texts { IfOk result (λ slices. map text_of slices.items ≡ lines self.now.text) }
        // Promise: They lie inside the text.
        ensures within { IfOk result (λ slices.
            All (LiesBetween 0 (length self.now.text)) slices.items) }
        // Promise: A text without lines is never refused.
        ensures refused { IsErr result → lines self.now.text ≢ [] }
    {
        let slices = list_slices(self, rt, alloc, self.view().lines())?;
        Ok(slices)
    }

    /// Returns the words of this text as slices, in order, as `str::split_whitespace` does. None is
    /// empty. Fails only if an allocation fails.
    ///
    /// ```
    /// let text = ArcStr::from_str(rt.alloc(), " two  words ")?;
    /// let words = text.substr_split_whitespace(&rt, rt.alloc())?;
    /// assert_eq!(rt; words.len(), 2);
    /// assert_eq!(rt; (words[1].as_str(), words[1].range()), ("words", 6..11));
    /// ```
    #[tactic(auto, using(crate::proofs::SliceLists::slice_lists))]
    pub fn substr_split_whitespace(
        &self,
        rt: &impl Wait,
        alloc: Global,
    ) -> Result<Vec<Substr>, AllocError>
        ensures slices { IfOk result
            (λ slices. slices.items
            ≡ slices_of (slice_of self.now) (words_of (view_at self.now.text 0))) }
        // Promise: Their texts are those of the words of the text.
        ensures texts { IfOk result
            (λ slices. map text_of slices.items
            ≡ filter is_not_empty (texts_between is_whitespace self.now.text)) }
        // Promise: They lie inside the text.
        ensures within { IfOk result (λ slices.
            All (LiesBetween 0 (length self.now.text)) slices.items) }
        // Promise: A text without words is never refused.
        ensures refused { IsErr result
            → filter is_not_empty (texts_between is_whitespace self.now.text) ≢ [] }
    {
        let slices = list_slices(self, rt, alloc, self.view().split_whitespace())?;
        Ok(slices)
    }
}

impl Substr {
    /// As `ArcStr::substr_split`, for the slice's own text.
    pub fn substr_split<P: Pattern + Copy>(
        &self,
        rt: &impl Wait,
        alloc: Global,
        separator: P,
    ) -> Result<Vec<Substr>, AllocError>
    where
        P: Drop,
        requires { P.can_search separator }
        ensures parts { IfOk result (λ slices. AreSlicesOfParts (P.find_in_gives separator)
            (text_of self.now) (slice_within self.now) slices.items) }
        ensures within { IfOk result (λ slices.
            All (LiesBetween self.now.start self.now.end) slices.items) }
        ensures joined { (wanted : List ℕ) → FindsOnly (P.find_in_gives separator) wanted
            → IfOk result (λ slices. join_by text_of wanted slices.items ≡ text_of self.now) }
        ensures at_a_character { IfSome (P.single_char separator) (λ character.
            FindsCharacter (P.find_in_gives separator) character → IfOk result (λ slices.
            (slices.items ≡ slices_of (slice_within self.now)
            (parts_at character (view_at (text_of self.now) 0)))
            × (map text_of slices.items
            ≡ texts_between (λ c. c == character) (text_of self.now)))) }
    {
        let parts = StrView::whole(self.as_str()).split_by(separator);
        let slices = list_slices(self, rt, alloc, parts)?;
        Ok(slices)
    }

    /// As `ArcStr::substr_lines`, for the slice's own text.
    #[tactic(auto, using(crate::proofs::SliceLists::slice_lists))]
    pub fn substr_lines(&self, rt: &impl Wait, alloc: Global) -> Result<Vec<Substr>, AllocError>
        ensures slices { IfOk result
            (λ slices. slices.items
            ≡ slices_of (slice_within self.now) (lines_of (view_at (text_of self.now) 0))) }
        ensures texts { IfOk result
            (λ slices. map text_of slices.items ≡ lines (text_of self.now)) }
        ensures within { IfOk result (λ slices.
            All (LiesBetween self.now.start self.now.end) slices.items) }
        ensures refused { IsErr result → lines (text_of self.now) ≢ [] }
    {
        let slices = list_slices(self, rt, alloc, self.view().lines())?;
        Ok(slices)
    }

    /// As `ArcStr::substr_split_whitespace`, for the slice's own text.
    #[tactic(auto, using(crate::proofs::SliceLists::slice_lists))]
    pub fn substr_split_whitespace(
        &self,
        rt: &impl Wait,
        alloc: Global,
    ) -> Result<Vec<Substr>, AllocError>
        ensures slices { IfOk result
            (λ slices. slices.items
            ≡ slices_of (slice_within self.now) (words_of (view_at (text_of self.now) 0))) }
        ensures texts { IfOk result
            (λ slices. map text_of slices.items
            ≡ filter is_not_empty (texts_between is_whitespace (text_of self.now))) }
        ensures within { IfOk result (λ slices.
            All (LiesBetween self.now.start self.now.end) slices.items) }
        ensures refused { IsErr result
            → filter is_not_empty (texts_between is_whitespace (text_of self.now)) ≢ [] }
    {
        let slices = list_slices(self, rt, alloc, self.view().split_whitespace())?;
        Ok(slices)
    }
}

/// A text that has a slice for each view that stands in it: an `ArcStr`, or a `Substr` with its own
/// text. `V` is `StrView<'_>` and `S` is `Substr`. They are parameters because the checker proves
/// no call by a bound that names a lifetime, where `'static` stands beside it.
trait SlicedAt<V, S> {
    ghost stands: { Self → V → Type 0 };

    ghost has_slice: { Self → V → S → Type 0 };

    /// Returns the slice of this text that the view shows, even of an empty one.
    fn slice_at(&self, rt: &impl Wait, view: V) -> S
        requires { stands self.now view }
        ensures { has_slice self.now view result };
}

impl<'a> SlicedAt<StrView<'a>, Substr> for ArcStr {
    ghost stands = { λ whole view. StandsAt whole.text view.text view.place };

    ghost has_slice = { λ whole. Shows (slice_of whole) (LiesBetween 0 (length whole.text)) };

    fn slice_at(&self, rt: &impl Wait, view: StrView<'a>) -> Substr {
        self.clone_between(rt, view.range())
    }
}

impl<'a> SlicedAt<StrView<'a>, Substr> for Substr {
    ghost stands = { λ whole view. StandsAt (text_of whole) view.text view.place };

    ghost has_slice = { λ whole. Shows (slice_within whole) (LiesBetween whole.start whole.end) };

    fn slice_at(&self, rt: &impl Wait, view: StrView<'a>) -> Substr {
        self.clone_between(rt, view.range())
    }
}

/// Lists the slices of the text that the views show, in order. Fails only if an allocation fails.
fn list_slices<V, S: Drop, T: SlicedAt<V, S>, I: Iterator<Item = V> + Drop>(
    text: &T,
    rt: &impl Wait,
    alloc: Global,
    views: I,
) -> Result<Vec<S>, AllocError>
    requires can { I.can_next views }
    requires ends { IsFinite (I.remaining views) }
    requires stand { HoldsAlong I.next_gives views (All (T.stands text.now)) }
    ensures listed { IfOk result
        (λ slices. ShowAll I.next_gives (T.has_slice text.now) views slices.items) }
    // Promise: Without a view it never fails.
    ensures refused { IsErr result
        → ((view : V) × (rest : I) × I.next_gives views (Some view) rest) }
{
    let mut slices = Vec::new(alloc);
    for view in views {
        slices.push(text.slice_at(rt, view))?;
    }
    Ok(slices)
}
