//! The parts of a view between the matches of any pattern. No call here allocates.
ghost use Rattle.std.specs.Prelude.{◌≡◌, ℕ, ◌<◌, ◌≤◌, Option, Some, false, length, IfSome, IsTrue};
ghost use Rattle.std.specs.Iterator.{at_most};
ghost use Rattle.std.specs.Str.{chars};
ghost use Rattle.arcstr_range.specs.Ends.{IsLawful};
ghost use Rattle.arcstr_range.specs.Matches.{match_taken, split_begun, split_by_steps, split_most, split_pattern, split_rest};

use crate::view::StrView;
use std::str::pattern::Pattern;

/// An iterator over the parts of a view between the matches of a pattern, from `StrView::split_by`.
/// Each `next` takes the first part off the view that is still to be split.
///
/// ```
/// let mut parts = StrView::at("é, 1", 4).ok_or("no view")?.split_by(", ");
/// let name = parts.next().ok_or("no part")?;
/// assert_eq!(rt; (name.text(), name.range()), ("é", 4..6));
/// let value = parts.next().ok_or("no part")?;
/// assert_eq!(rt; (value.text(), value.range()), ("1", 8..9));
/// assert!(rt; parts.next().is_none());
/// ```
#[derive(Drop)]
pub struct SplitBy<'a, P> {
    rest: Option<StrView<'a>>,
    begun: bool,
    pattern: P,
}

impl<'a> StrView<'a> {
    /// Returns an iterator over the parts of the view between the matches of the pattern, in order,
    /// as `str::split` does. A pattern is a `char`, a `&str`, a set of characters, a closure, or
    /// another of std's patterns that is `Copy`: each search begins with a copy of it. The caller
    /// must ensure that it can search, as it must ensure that a closure can be called.
    ///
    /// There is one part more than there are matches, and each has its own byte offset. A pass over
    /// all parts takes time in proportion to the text. For a `char`, the contract of `split` says
    /// more.
    ///
    /// ```
    /// let paragraph = StrView::whole("a\n\nb").split_by("\n\n").last();
    /// let last = paragraph.ok_or("no part")?;
    /// assert_eq!(rt; (last.text(), last.range()), ("b", 3..4));
    /// let words = StrView::whole("a,b;c").split_by(|c: char| c == ',' || c == ';');
    /// assert_eq!(rt; words.count(), 3);
    /// ```
    pub fn split_by<P: Pattern + Copy>(&self, pattern: P) -> SplitBy<'a, P>
        ensures rest { split_rest result ≡ Some self.now }
        ensures begun { split_begun result ≡ false }
        ensures pattern { split_pattern result ≡ pattern }
    {
        SplitBy {
            rest: Some(self.copied()),
            begun: false,
            pattern,
        }
    }
}

impl<'a, P: Pattern + Copy> Iterator for SplitBy<'a, P>
where
    P: Drop,
{
    type Item = StrView<'a>;

    ghost can_next = { λ parts. P.can_search (split_pattern parts) };

    ghost next_gives = { split_by_steps P.find_in_gives };

    ghost remaining = { λ parts. at_most (split_most parts) };

    fn next(&mut self) -> Option<StrView<'a>> {
        let view = self.rest.take()?;
        let found = next_match(view.text(), self.pattern, self.begun);
        self.begun = true;
        let Some((start, end)) = found else {
            return Some(view);
        };
        self.rest = Some(view.between(end, view.text().len()));
        Some(view.between(0, start))
    }
}

/// Returns where the next match begins and ends. Behind an earlier match, an empty match at the
/// start gives way to the one behind the first character.
fn next_match<P: Pattern + Copy>(text: &str, pattern: P, begun: bool) -> Option<(usize, usize)>
where
    P: Drop,
    requires { P.can_search pattern }
    ensures taken { (found : Option (ℕ × ℕ)) × P.find_in_gives pattern text.now found
        × (result ≡ match_taken begun (chars text.now) found) }
    ensures in_order { IfSome result (λ place. place.0 ≤ place.1) }
    ensures before { IfSome result (λ place. IsLawful text.now 0 place.0) }
    ensures behind { IfSome result (λ place. IsLawful text.now place.1 (length text.now)) }
    ensures progress { IfSome result (λ place. IsTrue begun → 0 < place.1) }
{
    let mut search = pattern;
    let found = search.first_in(text)?;
    if !begun || 0 < found.1 {
        return Some(found);
    }
    let width = text.chars().next()?.len_utf8();
    Some((width, width))
}
