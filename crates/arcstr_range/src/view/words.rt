//! The words of a view. No call here allocates.
ghost use Rattle.std.specs.Prelude.{◌≡◌, ◌^◌, ◌<◌, [], length, map, IfNone, IfSome};
ghost use Rattle.std.specs.Char.{is_whitespace};
ghost use Rattle.std.specs.List.{filter};
ghost use Rattle.std.specs.Iterator.{YieldsFirst, item_count};
ghost use Rattle.arcstr_range.specs.Pieces.{AreFoundWith, IsFirstWordAt, is_not_empty, texts_between, words_of};

use crate::view::StrView;
use std::marker::Model;
use std::ops::Range;

/// An iterator over the words of a view, from `StrView::split_whitespace`. In a contract it is the
/// list of the words that remain, and each `next` removes the first of them.
///
/// ```
/// let view = StrView::at("é\u{3000}b", 4).ok_or("no view")?;
/// let mut words = view.split_whitespace();
/// let first = words.next().ok_or("no word")?;
/// let second = words.next().ok_or("no word")?;
/// assert_eq!(rt; (first.range(), second.range()), (4..6, 9..10));
/// ```
#[derive(Drop)]
pub struct SplitWhitespace<'a> {
    rest: StrView<'a>,
}

impl<'a> Model for SplitWhitespace<'a> {
    ghost use Rattle.std.specs.Prelude.{List};
    ghost use Rattle.arcstr_range.specs.Pieces.{words_of};
    ghost use Rattle.arcstr_range.specs.View.{View};

    ghost Value = { List View };

    ghost view = { λ it. words_of it.rest };
}

impl<'a> StrView<'a> {
    /// Returns an iterator over the words of the view, in order, as `str::split_whitespace` does:
    /// its parts between white space that are not empty. White space is that of
    /// `char::is_whitespace`, not only of ASCII. Each word has its own byte offset, and is found
    /// wherever the view is found. A pass over all words takes time in proportion to the text.
    ///
    /// ```
    /// let word = StrView::whole(" a  b ").split_whitespace().last();
    /// let last = word.ok_or("no word")?;
    /// assert_eq!(rt; (last.text(), last.range()), ("b", 4..5));
    /// ```
    #[tactic(auto, using(crate::proofs::WordPlaces::facts_of_words))]
    pub fn split_whitespace(&self) -> SplitWhitespace<'a>
        ensures value { result ≡ words_of self.now }
        ensures texts { map (λ word. word.text) result
            ≡ filter is_not_empty (texts_between is_whitespace self.now.text) }
        // Promise: Each part is found wherever the view is found.
        ensures found { AreFoundWith self.now result }
        // Promise: Their numbers fit a `usize`.
        ensures fits { length result < 2 ^ 64 }
    {
        SplitWhitespace {
            rest: self.copied(),
        }
    }
}

impl<'a> Iterator for SplitWhitespace<'a> {
    type Item = StrView<'a>;

    ghost next_gives = { YieldsFirst (λ rest. rest) };

    ghost remaining = { item_count (λ rest. rest) };

    fn next(&mut self) -> Option<StrView<'a>> {
        let place = first_word(&self.rest)?;
        let end = place.end;
        let word = self.rest.between(place.start, end);
        self.rest = self.rest.between(end, self.rest.text().len());
        Some(word)
    }
}

/// Returns the range of the first word in the view's text.
fn first_word(view: &StrView<'_>) -> Option<Range<usize>>
    ensures none { IfNone result (words_of view.now ≡ []) }
    ensures some { IfSome result (λ word. IsFirstWordAt view.now word.start word.end) }
{
    let text = view.text();
    let Some(word) = text.split_whitespace().next() else {
        return None;
    };
    let start = text.len() - text.trim_start().len();
    Some(start..start + word.len())
}
