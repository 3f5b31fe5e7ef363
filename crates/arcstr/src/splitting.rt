//! Splits of a text at a byte offset or around a match of a pattern, and slices without a prefix or
//! suffix. A pattern is a `char`, a `&str` or another of std's patterns. The caller must ensure
//! that the pattern can search, as it must ensure that a closure can be called.
//!
//! Each call clones the handle once for each slice that it returns, and so can wait. A call that
//! returns none takes no atomic step. Each slice keeps the text alive, even if it is empty. The
//! calls of `Substr` take byte offsets of the slice's own text, and their slices have its parent.
ghost use Rattle.std.specs.Prelude.{◌≡◌, ◌++◌, ◌-◌, ◌≤◌, ℕ, List, length, take, drop};
ghost use Rattle.std.specs.Prelude.{IfOk, IfSome, MatchOption, None};
ghost use Rattle.std.specs.Str.{IsCharBoundary};
ghost use Rattle.std.specs.Str.Pattern.{SplitsAroundMatch, StripsPrefix, StripsSuffix};
ghost use Rattle.arcstr_range.specs.Ends.{IsLawful};
ghost use Rattle.arcstr_range.specs.Matches.{FindsOnly};
ghost use Rattle.arcstr_range.specs.Text.{cut};
ghost use Rattle.arcstr.specs.Slicing.{LiesBetween};
ghost use Rattle.arcstr.specs.Splitting.{AnswersSplit, AnswersSplitAt, AreInOrder, FindsCharacter, LiesAtEnd, LiesAtStart};
ghost use Rattle.arcstr.specs.Substr.{slice_of, slice_within, text_of};

use crate::arc_str::ArcStr;
use crate::substr::Substr;
use arcstr_range::range::{RangeFault, StrRange, checked_ends};
use std::ops::Range;
use std::str::pattern::Pattern;
use std::sync::Wait;

impl ArcStr {
    /// Splits this text at a byte offset into two slices, as `str::split_at_checked` does.
    ///
    /// Fails as `substr` does for the range up to the offset: first `PastEnd` if the offset is past
    /// the text, then `OffBoundary` if it is inside a character.
    ///
    /// ```
    /// let text = ArcStr::from_static("foobar");
    /// let (foo, bar) = text.substr_split_at(&rt, 3)?;
    /// assert_eq!(rt; (foo.as_str(), bar.as_str()), ("foo", "bar"));
    /// let fault = text.substr_split_at(&rt, 7).err();
    /// assert_eq!(rt; fault, Some(RangeFault::PastEnd));
    /// ```
    pub fn substr_split_at(
        &self,
        rt: &impl Wait,
        place: usize,
    ) -> Result<(Substr, Substr), RangeFault>
        // Promise: The call succeeds exactly if the range is lawful, and otherwise returns the
        // first fault.
        ensures answer { AnswersSplitAt self.now.text (slice_of self.now) place result }
        ensures spans { IfOk result (AreInOrder 0 (length self.now.text)) }
    {
        match checked_ends(self.as_str(), StrRange::To(place)) {
            Ok((start, end)) => {
                let before = self.clone_between(rt, start..end);
                let after = self.clone_between(rt, end..self.len());
                Ok((before, after))
            }
            Err(fault) => Err(fault),
        }
    }

    /// Splits this text around the first match of the separator, as `str::split_once` does. The
    /// separator is part of neither slice. Returns `None` exactly if there is no match.
    ///
    /// ```
    /// let text = ArcStr::from_str(rt.alloc(), "name=a=b")?;
    /// let (name, value) = text.substr_split_once(&rt, '=').expect(&rt, "no `=`");
    /// assert_eq!(rt; name.as_str(), "name");
    /// assert_eq!(rt; value.as_str(), "a=b");
    /// assert!(rt; text.substr_split_once(&rt, "==").is_none());
    /// ```
    #[tactic(auto, using(crate::proofs::FirstMatches::texts_without_matches))]
    pub fn substr_split_once<P: Pattern>(
        &self,
        rt: &impl Wait,
        separator: P,
    ) -> Option<(Substr, Substr)>
    where
        P: Drop,
        requires { P.can_search separator }
        ensures texts { MatchOption result (P.find_in_gives separator self.now.text None)
            (λ parts. SplitsAroundMatch (P.find_in_gives separator) self.now.text (text_of parts.0) (text_of parts.1)) }
        // Promise: The first slice starts where the text starts, and the second ends where the text
        // ends.
        ensures before { IfSome result (λ parts. LiesAtStart (slice_of self.now) parts.0) }
        ensures after { IfSome result
            (λ parts. LiesAtEnd self.now.text (slice_of self.now) parts.1) }
        // Promise: The slices lie in order, and the separator between them.
        ensures spans { IfSome result (AreInOrder 0 (length self.now.text)) }
        // Promise: Around a text, the slices join with it to the whole text.
        ensures joined { (wanted : List ℕ) → FindsOnly (P.find_in_gives separator) wanted
            → IfSome result (λ parts.
            text_of parts.0 ++ wanted ++ text_of parts.1 ≡ self.now.text) }
        // Promise: A text is split at a character exactly if it has that character, and the parts
        // with it between them are the text.
        ensures at_a_character { IfSome (P.single_char separator)
            (λ character. FindsCharacter (P.find_in_gives separator) character
            → AnswersSplit self.now.text (slice_of self.now) character result) }
    {
        let (before, after) = self.as_str().split_once(separator)?;
        Some((
            self.substr_of_prefix(rt, before),
            self.substr_of_suffix(rt, after),
        ))
    }

    /// Splits this text around the last match of the separator, as `str::rsplit_once` does. The
    /// separator is part of neither slice. Returns `None` exactly if there is no match.
    ///
    /// ```
    /// let text = ArcStr::from_static("a::b::c");
    /// let (path, name) = text.substr_rsplit_once(&rt, "::").ok_or("no `::`")?;
    /// assert_eq!(rt; path.as_str(), "a::b");
    /// assert_eq!(rt; name.range(), 6..7);
    /// ```
    pub fn substr_rsplit_once<P: Pattern>(
        &self,
        rt: &impl Wait,
        separator: P,
    ) -> Option<(Substr, Substr)>
    where
        P: Drop,
        requires { P.can_search separator }
        ensures texts { MatchOption result (P.rfind_in_gives separator self.now.text None)
            (λ parts. SplitsAroundMatch (P.rfind_in_gives separator) self.now.text (text_of parts.0) (text_of parts.1)) }
        // Promise: The first slice starts where the text starts, and the second ends where the text
        // ends.
        ensures before { IfSome result (λ parts. LiesAtStart (slice_of self.now) parts.0) }
        ensures after { IfSome result
            (λ parts. LiesAtEnd self.now.text (slice_of self.now) parts.1) }
        // Promise: The slices lie in order, and the separator between them.
        ensures spans { IfSome result (AreInOrder 0 (length self.now.text)) }
        // Promise: Around a text, the slices join with it to the whole text.
        ensures joined { (wanted : List ℕ) → FindsOnly (P.rfind_in_gives separator) wanted
            → IfSome result (λ parts.
            text_of parts.0 ++ wanted ++ text_of parts.1 ≡ self.now.text) }
    {
        let (before, after) = self.as_str().rsplit_once(separator)?;
        Some((
            self.substr_of_prefix(rt, before),
            self.substr_of_suffix(rt, after),
        ))
    }

    /// Returns the slice of this text with the prefix removed, as `str::strip_prefix` does. Returns
    /// `None` exactly if the text does not start with it.
    ///
    /// ```
    /// let text = ArcStr::from_static("--all");
    /// let name = text.substr_strip_prefix(&rt, "--").ok_or("no `--`")?;
    /// assert_eq!(rt; name.as_str(), "all");
    /// assert_eq!(rt; name.range(), 2..5);
    /// ```
    pub fn substr_strip_prefix<P: Pattern>(&self, rt: &impl Wait, prefix: P) -> Option<Substr>
    where
        P: Drop,
        requires { P.can_search prefix }
        ensures text { MatchOption result (P.prefix_len_gives prefix self.now.text None)
            (λ rest. StripsPrefix (P.prefix_len_gives prefix) self.now.text (text_of rest)) }
        // Promise: It ends where the text ends.
        ensures slice { IfSome result (LiesAtEnd self.now.text (slice_of self.now)) }
        ensures within { IfSome result (LiesBetween 0 (length self.now.text)) }
        ensures end { IfSome result (λ rest. rest.end ≡ length self.now.text) }
    {
        let rest = self.as_str().strip_prefix(prefix)?;
        Some(self.substr_of_suffix(rt, rest))
    }

    /// Returns the slice of this text with the suffix removed, as `str::strip_suffix` does. Returns
    /// `None` exactly if the text does not end with it.
    ///
    /// ```
    /// let text = ArcStr::from_static("main.rs");
    /// let name = text.substr_strip_suffix(&rt, ".rs").ok_or("no end")?;
    /// assert_eq!(rt; name.as_str(), "main");
    /// assert!(rt; name.substr_strip_suffix(&rt, '.').is_none());
    /// ```
    pub fn substr_strip_suffix<P: Pattern>(&self, rt: &impl Wait, suffix: P) -> Option<Substr>
    where
        P: Drop,
        requires { P.can_search suffix }
        ensures text { MatchOption result (P.suffix_len_gives suffix self.now.text None)
            (λ rest. StripsSuffix (P.suffix_len_gives suffix) self.now.text (text_of rest)) }
        // Promise: It starts where the text starts.
        ensures slice { IfSome result (LiesAtStart (slice_of self.now)) }
        ensures within { IfSome result (LiesBetween 0 (length self.now.text)) }
        ensures start { IfSome result (λ rest. rest.start ≡ 0) }
    {
        let rest = self.as_str().strip_suffix(suffix)?;
        Some(self.substr_of_prefix(rt, rest))
    }

    /// Returns the slice of this text that holds a prefix of it. The caller must ensure that the
    /// text starts with the prefix. A part that a call of `str` leaves at the start of the text, as
    /// `trim_end_matches` and `split_once` do, satisfies this.
    ///
    /// ```
    /// let text = ArcStr::from_static("run();;");
    /// let slice = text.substr_of_prefix(&rt, text.trim_end_matches(';'));
    /// assert_eq!(rt; slice.as_str(), "run()");
    /// assert_eq!(rt; slice.range(), 0..5);
    /// ```
    pub fn substr_of_prefix(&self, rt: &impl Wait, prefix: &str) -> Substr
        requires within { length prefix.now ≤ length self.now.text }
        requires prefix { prefix.now ≡ take (length prefix.now) self.now.text }
        ensures slice { result ≡ slice_of self.now 0 (length prefix.now) }
        ensures text { text_of result ≡ prefix.now }
        ensures within { LiesBetween 0 (length self.now.text) result }
        ensures start { result.start ≡ 0 }
        ensures boundary { IsCharBoundary self.now.text (length prefix.now) }
    {
        self.clone_between(rt, prefix_range(self.as_str(), prefix))
    }

    /// Returns the slice of this text that holds a suffix of it. The caller must ensure that the
    /// text ends with the suffix. A part that a call of `str` leaves at the end of the text, as
    /// `trim_start_matches` and `split_once` do, satisfies this. For a part in the middle, take the
    /// suffix that starts with it, and then a prefix of that slice.
    ///
    /// ```
    /// let text = ArcStr::from_static("--name--");
    /// let rest = text.substr_of_suffix(&rt, text.trim_start_matches('-'));
    /// assert_eq!(rt; rest.range(), 2..8);
    /// let name = rest.substr_of_prefix(&rt, rest.trim_end_matches('-'));
    /// assert_eq!(rt; name.range(), 2..6);
    /// ```
    pub fn substr_of_suffix(&self, rt: &impl Wait, suffix: &str) -> Substr
        requires within { length suffix.now ≤ length self.now.text }
        requires suffix { suffix.now
            ≡ drop (length self.now.text - length suffix.now) self.now.text }
        ensures slice { result ≡ slice_of self.now (length self.now.text - length suffix.now)
            (length self.now.text) }
        ensures text { text_of result ≡ suffix.now }
        ensures within { LiesBetween 0 (length self.now.text) result }
        ensures end { result.end ≡ length self.now.text }
        ensures boundary { IsCharBoundary self.now.text (length self.now.text - length suffix.now) }
    {
        self.clone_between(rt, suffix_range(self.as_str(), suffix))
    }
}

impl Substr {
    /// As `ArcStr::substr_split_at`, for the slice's own text.
    pub fn substr_split_at(
        &self,
        rt: &impl Wait,
        place: usize,
    ) -> Result<(Substr, Substr), RangeFault>
        ensures answer { AnswersSplitAt (text_of self.now) (slice_within self.now) place result }
        ensures spans { IfOk result (AreInOrder self.now.start self.now.end) }
    {
        match checked_ends(self.as_str(), StrRange::To(place)) {
            Ok((start, end)) => {
                let before = self.clone_between(rt, start..end);
                let after = self.clone_between(rt, end..self.len());
                Ok((before, after))
            }
            Err(fault) => Err(fault),
        }
    }

    /// As `ArcStr::substr_split_once`, for the slice's own text.
    #[tactic(auto, using(crate::proofs::FirstMatches::texts_without_matches))]
    pub fn substr_split_once<P: Pattern>(
        &self,
        rt: &impl Wait,
        separator: P,
    ) -> Option<(Substr, Substr)>
    where
        P: Drop,
        requires { P.can_search separator }
        ensures texts { MatchOption result (P.find_in_gives separator (text_of self.now) None)
            (λ parts. SplitsAroundMatch (P.find_in_gives separator) (text_of self.now) (text_of parts.0) (text_of parts.1)) }
        ensures before { IfSome result (λ parts. LiesAtStart (slice_within self.now) parts.0) }
        ensures after { IfSome result
            (λ parts. LiesAtEnd (text_of self.now) (slice_within self.now) parts.1) }
        ensures spans { IfSome result (AreInOrder self.now.start self.now.end) }
        ensures joined { (wanted : List ℕ) → FindsOnly (P.find_in_gives separator) wanted
            → IfSome result (λ parts.
            text_of parts.0 ++ wanted ++ text_of parts.1 ≡ text_of self.now) }
        ensures at_a_character { IfSome (P.single_char separator)
            (λ character. FindsCharacter (P.find_in_gives separator) character
            → AnswersSplit (text_of self.now) (slice_within self.now) character result) }
    {
        let (before, after) = self.as_str().split_once(separator)?;
        Some((
            self.substr_of_prefix(rt, before),
            self.substr_of_suffix(rt, after),
        ))
    }

    /// As `ArcStr::substr_rsplit_once`, for the slice's own text.
    pub fn substr_rsplit_once<P: Pattern>(
        &self,
        rt: &impl Wait,
        separator: P,
    ) -> Option<(Substr, Substr)>
    where
        P: Drop,
        requires { P.can_search separator }
        ensures texts { MatchOption result (P.rfind_in_gives separator (text_of self.now) None)
            (λ parts. SplitsAroundMatch (P.rfind_in_gives separator) (text_of self.now) (text_of parts.0) (text_of parts.1)) }
        ensures before { IfSome result (λ parts. LiesAtStart (slice_within self.now) parts.0) }
        ensures after { IfSome result
            (λ parts. LiesAtEnd (text_of self.now) (slice_within self.now) parts.1) }
        ensures spans { IfSome result (AreInOrder self.now.start self.now.end) }
        ensures joined { (wanted : List ℕ) → FindsOnly (P.rfind_in_gives separator) wanted
            → IfSome result (λ parts.
            text_of parts.0 ++ wanted ++ text_of parts.1 ≡ text_of self.now) }
    {
        let (before, after) = self.as_str().rsplit_once(separator)?;
        Some((
            self.substr_of_prefix(rt, before),
            self.substr_of_suffix(rt, after),
        ))
    }

    /// As `ArcStr::substr_strip_prefix`, for the slice's own text.
    pub fn substr_strip_prefix<P: Pattern>(&self, rt: &impl Wait, prefix: P) -> Option<Substr>
    where
        P: Drop,
        requires { P.can_search prefix }
        ensures text { MatchOption result (P.prefix_len_gives prefix (text_of self.now) None)
            (λ rest. StripsPrefix (P.prefix_len_gives prefix) (text_of self.now) (text_of rest)) }
        ensures slice { IfSome result (LiesAtEnd (text_of self.now) (slice_within self.now)) }
        ensures within { IfSome result (LiesBetween self.now.start self.now.end) }
        ensures end { IfSome result (λ rest. rest.end ≡ self.now.end) }
    {
        let rest = self.as_str().strip_prefix(prefix)?;
        Some(self.substr_of_suffix(rt, rest))
    }

    /// As `ArcStr::substr_strip_suffix`, for the slice's own text.
    pub fn substr_strip_suffix<P: Pattern>(&self, rt: &impl Wait, suffix: P) -> Option<Substr>
    where
        P: Drop,
        requires { P.can_search suffix }
        ensures text { MatchOption result (P.suffix_len_gives suffix (text_of self.now) None)
            (λ rest. StripsSuffix (P.suffix_len_gives suffix) (text_of self.now) (text_of rest)) }
        ensures slice { IfSome result (LiesAtStart (slice_within self.now)) }
        ensures within { IfSome result (LiesBetween self.now.start self.now.end) }
        ensures start { IfSome result (λ rest. rest.start ≡ self.now.start) }
    {
        let rest = self.as_str().strip_suffix(suffix)?;
        Some(self.substr_of_prefix(rt, rest))
    }

    /// As `ArcStr::substr_of_prefix`, for the slice's own text.
    pub fn substr_of_prefix(&self, rt: &impl Wait, prefix: &str) -> Substr
        requires within { length prefix.now ≤ length (text_of self.now) }
        requires prefix { prefix.now ≡ take (length prefix.now) (text_of self.now) }
        ensures slice { result ≡ slice_within self.now 0 (length prefix.now) }
        ensures text { text_of result ≡ prefix.now }
        ensures within { LiesBetween self.now.start self.now.end result }
        ensures start { result.start ≡ self.now.start }
        ensures boundary { IsCharBoundary (text_of self.now) (length prefix.now) }
    {
        self.clone_between(rt, prefix_range(self.as_str(), prefix))
    }

    /// As `ArcStr::substr_of_suffix`, for the slice's own text.
    pub fn substr_of_suffix(&self, rt: &impl Wait, suffix: &str) -> Substr
        requires within { length suffix.now ≤ length (text_of self.now) }
        requires suffix { suffix.now
            ≡ drop (length (text_of self.now) - length suffix.now) (text_of self.now) }
        ensures slice { result ≡ slice_within self.now
            (length (text_of self.now) - length suffix.now) (length (text_of self.now)) }
        ensures text { text_of result ≡ suffix.now }
        ensures within { LiesBetween self.now.start self.now.end result }
        ensures end { result.end ≡ self.now.end }
        ensures boundary { IsCharBoundary (text_of self.now)
            (length (text_of self.now) - length suffix.now) }
    {
        self.clone_between(rt, suffix_range(self.as_str(), suffix))
    }
}

/// Returns the range of the prefix in the text.
#[tactic(auto, using(arcstr_range::proofs::Affixes::slices_of_prefixes))]
fn prefix_range(text: &str, prefix: &str) -> Range<usize>
    requires within { length prefix.now ≤ length text.now }
    requires prefix { prefix.now ≡ take (length prefix.now) text.now }
    ensures start { result.start ≡ 0 }
    ensures end { result.end ≡ length prefix.now }
    ensures lawful { IsLawful text.now result.start result.end }
    ensures same { cut text.now result.start result.end ≡ prefix.now }
{
    prove!(prefix.len() <= text.len());
    0..prefix.len()
}

/// Returns the range of the suffix in the text.
#[tactic(auto, using(arcstr_range::proofs::Affixes::slices_of_suffixes))]
fn suffix_range(text: &str, suffix: &str) -> Range<usize>
    requires within { length suffix.now ≤ length text.now }
    requires suffix { suffix.now ≡ drop (length text.now - length suffix.now) text.now }
    ensures start { result.start ≡ length text.now - length suffix.now }
    ensures end { result.end ≡ length text.now }
    ensures lawful { IsLawful text.now result.start result.end }
    ensures same { cut text.now result.start result.end ≡ suffix.now }
{
    let end = text.len();
    end - suffix.len()..end
}
