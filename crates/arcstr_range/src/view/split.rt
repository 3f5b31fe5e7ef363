//! The parts of a view between the occurrences of a character. No call here allocates.
ghost use Rattle.std.specs.Prelude.{◌≡◌, ◌+◌, ◌^◌, ◌<◌, ◌==◌, List, [], ◌∷◌, length, map, IfNone, IfSome};
ghost use Rattle.std.specs.Iterator.{YieldsFirst, item_count};
ghost use Rattle.std.specs.Char.{len_utf8};
ghost use Rattle.std.specs.Option.{option_map_or};
ghost use Rattle.arcstr_range.specs.Ends.{IsLawful};
ghost use Rattle.arcstr_range.specs.Pieces.{AreFoundWith, parts_at, texts_between};
ghost use Rattle.arcstr_range.specs.View.{part_of};

use crate::view::StrView;
use std::marker::Model;

/// An iterator over the parts of a view between the occurrences of a character, from
/// `StrView::split`. In a contract it is the list of the parts that remain, and each `next` removes
/// the first of them.
///
/// ```
/// let mut parts = StrView::at("é=1", 4).ok_or("no view")?.split('=');
/// let name = parts.next().ok_or("no part")?;
/// assert_eq!(rt; (name.text(), name.range()), ("é", 4..6));
/// let value = parts.next().ok_or("no part")?;
/// assert_eq!(rt; (value.text(), value.range()), ("1", 7..8));
/// ```
#[derive(Drop)]
pub struct Split<'a> {
    rest: Option<StrView<'a>>,
    separator: char,
}

impl<'a> Model for Split<'a> {
    ghost use Rattle.std.specs.Prelude.{List, []};
    ghost use Rattle.std.specs.Option.{option_map_or};
    ghost use Rattle.arcstr_range.specs.Pieces.{parts_at};
    ghost use Rattle.arcstr_range.specs.View.{View};

    ghost Value = { List View };

    ghost view = { λ it. option_map_or (parts_at it.separator) it.rest [] };
}

impl<'a> StrView<'a> {
    /// Returns an iterator over the parts of the view between the occurrences of the separator, in
    /// order, as `str::split` does. There is one part more than there are separators. The parts
    /// before a first, after a last and between two adjacent separators are empty, and an empty
    /// text is one empty part. Each part has its own byte offset, and is found wherever the view is
    /// found. A pass over all parts takes time in proportion to the text.
    ///
    /// ```
    /// let part = StrView::whole("a,,").split(',').last();
    /// let last = part.ok_or("no part")?;
    /// assert_eq!(rt; (last.text(), last.range()), ("", 3..3));
    /// ```
    #[tactic(auto, using(crate::proofs::Pieces::parts_at_facts))]
    pub fn split(&self, separator: char) -> Split<'a>
        ensures value { result ≡ parts_at separator self.now }
        ensures texts { map (λ part. part.text) result
            ≡ texts_between (λ c. c == separator) self.now.text }
        // Promise: Each part is found wherever the view is found.
        ensures found { AreFoundWith self.now result }
        // Promise: Their numbers fit a `usize`.
        ensures fits { length result < 2 ^ 64 }
    {
        Split {
            rest: Some(self.copied()),
            separator,
        }
    }
}

impl<'a> Iterator for Split<'a> {
    type Item = StrView<'a>;

    ghost next_gives = { YieldsFirst (λ rest. rest) };

    ghost remaining = { item_count (λ rest. rest) };

    fn next(&mut self) -> Option<StrView<'a>> {
        let (part, rest) = first_part(self.rest.take()?, self.separator);
        self.rest = rest;
        Some(part)
    }
}

/// Returns the part before the first separator, and the view after the separator, if the view has
/// one.
fn first_part<'a>(view: StrView<'a>, separator: char) -> (StrView<'a>, Option<StrView<'a>>)
    ensures { parts_at separator view.entry
        ≡ result.0 ∷ option_map_or (parts_at separator) result.1 [] }
{
    let Some(place) = first_place(&view, separator) else {
        return (view, None);
    };
    let part = view.between(0, place);
    let rest = view.between(place + separator.len_utf8(), view.text().len());
    (part, Some(rest))
}

/// Returns the byte offset of the first separator in the view's text.
#[tactic(auto, using(crate::proofs::Pieces::first_places, crate::proofs::Pieces::lawful_places))]
fn first_place(view: &StrView<'_>, separator: char) -> Option<usize>
    ensures none { IfNone result (parts_at separator view.now ≡ view.now ∷ []) }
    ensures some { IfSome result (λ place. parts_at separator view.now ≡ part_of view.now 0 place
        ∷ parts_at separator (part_of view.now (place + len_utf8 separator) (length view.now.text))) }
    ensures before { IfSome result (λ place. IsLawful view.now.text 0 place) }
    ensures behind { IfSome result
        (λ place. IsLawful view.now.text (place + len_utf8 separator) (length view.now.text)) }
{
    view.text().find(separator)
}
