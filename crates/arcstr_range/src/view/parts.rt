//! The first and the last match of a pattern in a view, and parts of a view on either side of a
//! byte offset or of a match. A pattern is a `char`, a `&str` or another of std's patterns. The
//! caller must ensure that the pattern can search, as it must ensure that a closure can be called.
ghost use Rattle.std.specs.Prelude.{◌≡◌, ◌↔◌, ◌-◌, ◌≤◌, length, take, drop, IsSome, IfSome, MatchOption, None};
ghost use Rattle.std.specs.Str.{IsCharBoundary};
ghost use Rattle.std.specs.Str.Pattern.{MatchBeginsAt, SplitsAroundMatch, StripsPrefix, StripsSuffix};
ghost use Rattle.arcstr_range.specs.Ends.{IsLawful};
ghost use Rattle.arcstr_range.specs.View.{IsFoundWith, end_of, part_of};

use crate::view::StrView;
use std::str::pattern::Pattern;

impl<'a> StrView<'a> {
    /// Returns the byte offset, within the view's text, of the first match of the pattern, as
    /// `str::find` does. `cut` accepts this offset as a start or an end. A pattern is a `char`, a
    /// `&str` or another of std's patterns. Returns `None` exactly if there is no match. Takes time
    /// in proportion to the text.
    ///
    /// ```
    /// let line = StrView::at("key = é", 10).ok_or("no view")?;
    /// assert_eq!(rt; line.find('é'), Some(6));
    /// assert_eq!(rt; line.find(" ="), Some(3));
    /// assert_eq!(rt; line.find(':'), None);
    /// ```
    pub fn find<P: Pattern>(&self, pattern: P) -> Option<usize>
    where
        P: Drop,
        requires { P.can_search pattern }
        ensures cases { MatchOption result (P.find_in_gives pattern self.now.text None)
            (MatchBeginsAt (P.find_in_gives pattern) self.now.text) }
        // Promise: The offset is a character boundary.
        ensures boundary { IfSome result (IsCharBoundary self.now.text) }
    {
        self.text.find(pattern)
    }

    /// Returns the byte offset, within the view's text, of the last match of the pattern, as
    /// `str::rfind` does. Otherwise as `find`.
    ///
    /// ```
    /// let line = StrView::at("a=b=é", 10).ok_or("no view")?;
    /// assert_eq!(rt; line.rfind('='), Some(3));
    /// assert_eq!(rt; line.rfind("=b"), Some(1));
    /// assert_eq!(rt; line.rfind(':'), None);
    /// ```
    pub fn rfind<P: Pattern>(&self, pattern: P) -> Option<usize>
    where
        P: Drop,
        requires { P.can_search pattern }
        ensures cases { MatchOption result (P.rfind_in_gives pattern self.now.text None)
            (MatchBeginsAt (P.rfind_in_gives pattern) self.now.text) }
        // Promise: The offset is a character boundary.
        ensures boundary { IfSome result (IsCharBoundary self.now.text) }
    {
        self.text.rfind(pattern)
    }

    /// Splits the view at a byte offset of its own text, as `str::split_at_checked` does. Returns
    /// `None` exactly if the offset is past the text or inside a character.
    ///
    /// ```
    /// let (name, rest) = StrView::whole("ab=c").split_at(2).ok_or("no place")?;
    /// assert_eq!(rt; name.text(), "ab");
    /// assert_eq!(rt; (rest.text(), rest.place()), ("=c", 2));
    /// assert!(rt; StrView::whole("é").split_at(1).is_none());
    /// ```
    pub fn split_at(&self, place: usize) -> Option<(StrView<'a>, StrView<'a>)>
        // Promise: There are parts exactly if the offset is a character boundary of the text.
        ensures some { IsSome result ↔ IsCharBoundary self.now.text place }
        ensures before { IfSome result (λ parts. parts.0 ≡ part_of self.now 0 place) }
        ensures after { IfSome result
            (λ parts. parts.1 ≡ part_of self.now place (length self.now.text)) }
        // Promise: Each part is found wherever the view is found.
        ensures found { IfSome result
            (λ parts. IsFoundWith self.now parts.0 × IsFoundWith self.now parts.1) }
    {
        let (before, after) = self.text.split_at_checked(place)?;
        Some((self.at_start(before), self.at_end(after)))
    }

    /// Splits the view around the first match of the separator, as `str::split_once` does. The
    /// first part starts where the view starts, and the second ends where the view ends. Returns
    /// `None` exactly if there is no match.
    ///
    /// ```
    /// let (name, value) = StrView::whole("a=b=c").split_once('=').ok_or("no `=`")?;
    /// assert_eq!(rt; name.text(), "a");
    /// assert_eq!(rt; (value.text(), value.place()), ("b=c", 2));
    /// assert!(rt; StrView::whole("a=b").split_once("==").is_none());
    /// ```
    pub fn split_once<P: Pattern>(&self, separator: P) -> Option<(StrView<'a>, StrView<'a>)>
    where
        P: Drop,
        requires { P.can_search separator }
        ensures texts { MatchOption result (P.find_in_gives separator self.now.text None)
            (λ parts. SplitsAroundMatch (P.find_in_gives separator) self.now.text parts.0.text parts.1.text) }
        // Promise: The first part starts where the view starts, and the second ends where the view
        // ends.
        ensures start { IfSome result (λ parts. parts.0.place ≡ self.now.place) }
        ensures end { IfSome result (λ parts. end_of parts.1 ≡ end_of self.now) }
        // Promise: Each part is found wherever the view is found.
        ensures found { IfSome result
            (λ parts. IsFoundWith self.now parts.0 × IsFoundWith self.now parts.1) }
    {
        let (before, after) = self.text.split_once(separator)?;
        Some((self.at_start(before), self.at_end(after)))
    }

    /// Splits the view around the last match of the separator, as `str::rsplit_once` does. The
    /// first part starts where the view starts, and the second ends where the view ends. Returns
    /// `None` exactly if there is no match.
    ///
    /// ```
    /// let path = StrView::whole("a::b::c");
    /// let (crate_path, name) = path.rsplit_once("::").ok_or("no `::`")?;
    /// assert_eq!(rt; crate_path.text(), "a::b");
    /// assert_eq!(rt; (name.text(), name.place()), ("c", 6));
    /// ```
    pub fn rsplit_once<P: Pattern>(&self, separator: P) -> Option<(StrView<'a>, StrView<'a>)>
    where
        P: Drop,
        requires { P.can_search separator }
        ensures texts { MatchOption result (P.rfind_in_gives separator self.now.text None)
            (λ parts. SplitsAroundMatch (P.rfind_in_gives separator) self.now.text parts.0.text parts.1.text) }
        // Promise: The first part starts where the view starts, and the second ends where the view
        // ends.
        ensures start { IfSome result (λ parts. parts.0.place ≡ self.now.place) }
        ensures end { IfSome result (λ parts. end_of parts.1 ≡ end_of self.now) }
        // Promise: Each part is found wherever the view is found.
        ensures found { IfSome result
            (λ parts. IsFoundWith self.now parts.0 × IsFoundWith self.now parts.1) }
    {
        let (before, after) = self.text.rsplit_once(separator)?;
        Some((self.at_start(before), self.at_end(after)))
    }

    /// Returns the view with the prefix removed, as `str::strip_prefix` does. It ends where the
    /// view ends. Returns `None` exactly if the text does not start with a match.
    ///
    /// ```
    /// let option = StrView::whole("--all");
    /// let name = option.strip_prefix("--").ok_or("no `--`")?;
    /// assert_eq!(rt; (name.text(), name.place()), ("all", 2));
    /// assert!(rt; name.strip_prefix('-').is_none());
    /// ```
    pub fn strip_prefix<P: Pattern>(&self, prefix: P) -> Option<StrView<'a>>
    where
        P: Drop,
        requires { P.can_search prefix }
        ensures text { MatchOption result (P.prefix_len_gives prefix self.now.text None)
            (λ rest. StripsPrefix (P.prefix_len_gives prefix) self.now.text rest.text) }
        // Promise: It ends where the view ends.
        ensures end { IfSome result (λ rest. end_of rest ≡ end_of self.now) }
        // Promise: It is found wherever the view is found.
        ensures found { IfSome result (IsFoundWith self.now) }
    {
        let rest = self.text.strip_prefix(prefix)?;
        Some(self.at_end(rest))
    }

    /// Returns the view with the suffix removed, as `str::strip_suffix` does. It starts where the
    /// view starts. Returns `None` exactly if the text does not end with a match.
    ///
    /// ```
    /// let text = StrView::whole("ab\r\n");
    /// let line = text.strip_suffix("\r\n").ok_or("no end")?;
    /// assert_eq!(rt; (line.text(), line.place()), ("ab", 0));
    /// assert!(rt; line.strip_suffix('\n').is_none());
    /// ```
    pub fn strip_suffix<P: Pattern>(&self, suffix: P) -> Option<StrView<'a>>
    where
        P: Drop,
        requires { P.can_search suffix }
        ensures text { MatchOption result (P.suffix_len_gives suffix self.now.text None)
            (λ rest. StripsSuffix (P.suffix_len_gives suffix) self.now.text rest.text) }
        // Promise: It starts where the view starts.
        ensures start { IfSome result (λ rest. rest.place ≡ self.now.place) }
        // Promise: It is found wherever the view is found.
        ensures found { IfSome result (IsFoundWith self.now) }
    {
        let rest = self.text.strip_suffix(suffix)?;
        Some(self.at_start(rest))
    }

    /// Returns the part with this prefix of the view's text. It starts where the view starts.
    #[tactic(auto, using(crate::proofs::Affixes::found_prefix))]
    fn at_start(&self, prefix: &'a str) -> StrView<'a>
        requires within { length prefix.now ≤ length self.now.text }
        requires prefix { prefix.now ≡ take (length prefix.now) self.now.text }
        ensures text { result.text ≡ prefix.now }
        ensures place { result.place ≡ self.now.place }
        ensures found { IsFoundWith self.now result }
    {
        StrView {
            text: prefix,
            place: self.place,
        }
    }

    /// Returns the part with this suffix of the view's text. It ends where the view ends.
    #[tactic(auto, using(crate::proofs::Affixes::found_suffix))]
    fn at_end(&self, suffix: &'a str) -> StrView<'a>
        requires within { length suffix.now ≤ length self.now.text }
        requires suffix { suffix.now
            ≡ drop (length self.now.text - length suffix.now) self.now.text }
        ensures text { result.text ≡ suffix.now }
        ensures end { end_of result ≡ end_of self.now }
        ensures found { IsFoundWith self.now result }
    {
        StrView {
            text: suffix,
            place: self.place + (self.text.len() - suffix.len()),
        }
    }

    /// Returns the part between two byte offsets of the view's own text, without a test.
    pub(super) fn between(&self, start: usize, end: usize) -> StrView<'a>
        requires { IsLawful self.now.text start end }
        ensures { result ≡ part_of self.now start end }
    {
        StrView {
            text: &self.text[start..end],
            place: self.place + start,
        }
    }
}
