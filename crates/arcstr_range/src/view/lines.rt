//! The lines of a view. No call here allocates.
ghost use Rattle.std.specs.Prelude.{◌≡◌, ◌+◌, ◌^◌, ◌<◌, ◌≤◌, [], ◌∷◌, length, map, IfNone, IfSome};
ghost use Rattle.std.specs.Iterator.{YieldsFirst, item_count};
ghost use Rattle.std.specs.Str.Lines.{lines, strip_carriage_return};
ghost use Rattle.arcstr_range.specs.Ends.{IsLawful};
ghost use Rattle.arcstr_range.specs.Pieces.{AreFoundWith, lines_of};
ghost use Rattle.arcstr_range.specs.Text.{cut};
ghost use Rattle.arcstr_range.specs.View.{part_of, view_at};

use crate::view::StrView;
use std::marker::Model;

/// An iterator over the lines of a view, from `StrView::lines`. In a contract it is the list of the
/// lines that remain, and each `next` removes the first of them.
///
/// ```
/// let mut lines = StrView::at("é\r\nb", 4).ok_or("no view")?.lines();
/// let first = lines.next().ok_or("no line")?;
/// assert_eq!(rt; (first.text(), first.range()), ("é", 4..6));
/// let second = lines.next().ok_or("no line")?;
/// assert_eq!(rt; (second.text(), second.range()), ("b", 8..9));
/// ```
#[derive(Drop)]
pub struct Lines<'a> {
    rest: StrView<'a>,
}

impl<'a> Model for Lines<'a> {
    ghost use Rattle.std.specs.Prelude.{List};
    ghost use Rattle.arcstr_range.specs.Pieces.{lines_of};
    ghost use Rattle.arcstr_range.specs.View.{View};

    ghost Value = { List View };

    ghost view = { λ it. lines_of it.rest };
}

impl<'a> StrView<'a> {
    /// Returns an iterator over the lines of the view, in order, as `str::lines` does. A line ends
    /// at `\n` or `\r\n`, which is not part of it, or at the end of the text; a `\r` elsewhere
    /// stays. An empty text has no line, and neither has the end of a text after its last `\n`.
    /// Each line has its own byte offset, and is found wherever the view is found. A pass over all
    /// lines takes time in proportion to the text.
    ///
    /// ```
    /// let line = StrView::whole("a\n\nb").lines().last();
    /// let last = line.ok_or("no line")?;
    /// assert_eq!(rt; (last.text(), last.range()), ("b", 3..4));
    /// ```
    #[tactic(auto, using(crate::proofs::Lines::facts_of_lines))]
    pub fn lines(&self) -> Lines<'a>
        ensures value { result ≡ lines_of self.now }
        ensures texts { map (λ line. line.text) result ≡ lines self.now.text }
        // Promise: Each part is found wherever the view is found.
        ensures found { AreFoundWith self.now result }
        // Promise: Their numbers fit a `usize`.
        ensures fits { length result < 2 ^ 64 }
    {
        Lines {
            rest: self.copied(),
        }
    }
}

impl<'a> Iterator for Lines<'a> {
    type Item = StrView<'a>;

    ghost next_gives = { YieldsFirst (λ rest. rest) };

    ghost remaining = { item_count (λ rest. rest) };

    #[tactic(auto, using(crate::proofs::Lines::empty_views))]
    fn next(&mut self) -> Option<StrView<'a>> {
        if self.rest.text().is_empty() {
            return None;
        }
        let (line, rest) = split_first_line(&self.rest);
        self.rest = rest;
        Some(line)
    }
}

/// Returns the first line, and the view after its newline.
#[tactic(auto, using(crate::proofs::Lines::empty_views))]
fn split_first_line<'a>(view: &StrView<'a>) -> (StrView<'a>, StrView<'a>)
    requires { 0 < length view.now.text }
    ensures { lines_of view.now ≡ result.0 ∷ lines_of result.1 }
{
    let end = view.text().len();
    let Some(place) = first_newline(view) else {
        return (view.copied(), view.between(end, end));
    };
    let line = view.between(0, place);
    let stripped = StrView {
        text: without_return(line.text()),
        place: line.place,
    };
    (stripped, view.between(place + 1, end))
}

/// Returns the byte offset of the first newline in the view's text.
#[tactic(auto, using(crate::proofs::Lines::first_newlines, crate::proofs::Pieces::lawful_places))]
fn first_newline(view: &StrView<'_>) -> Option<usize>
    ensures none { IfNone result (0 < length view.now.text → lines_of view.now ≡ view.now ∷ []) }
    ensures some { IfSome result (λ place. lines_of view.now
        ≡ view_at (strip_carriage_return (cut view.now.text 0 place)) view.now.place
        ∷ lines_of (part_of view.now (place + 1) (length view.now.text))) }
    ensures before { IfSome result (λ place. IsLawful view.now.text 0 place) }
    ensures behind { IfSome result
        (λ place. IsLawful view.now.text (place + 1) (length view.now.text)) }
{
    view.text().find('\n')
}

/// Returns the line without a carriage return at its end, if it has one.
fn without_return(line: &str) -> &str
    ensures value { result.now ≡ strip_carriage_return line.now }
    ensures bound { length result.now ≤ length line.now }
{
    if line.ends_with('\r') {
        &line[..line.len() - 1]
    } else {
        line
    }
}
