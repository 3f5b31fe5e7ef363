//! Texts as patterns: `text.contains(&other)`, `text.split(&separator)`. Each call of `str` that
//! takes a `&str` as its pattern takes a reference to a text too, with the same result. A call that
//! returns a `Substr`, such as `substr_split_once`, takes `other.as_str()`: with a reference to a
//! text it runs, but the borrow checker of the proof does not cover the call.
ghost use Rattle.std.specs.Prelude.{◌≡◌};
ghost use Rattle.std.specs.Str.Pattern.{FindsText, FindsTextPrefix, FindsTextSuffix, RFindsText};
ghost use Rattle.arcstr.specs.Substr.{text_of};

use crate::arc_str::ArcStr;
use crate::substr::Substr;
use std::str::pattern::Pattern;

unsafe impl<'a> Pattern for &'a ArcStr {
    ghost find_in_gives = { λ wanted text found. FindsText (wanted.now.text) text found };

    ghost rfind_in_gives = { λ wanted text found. RFindsText (wanted.now.text) text found };

    ghost prefix_len_gives = { λ wanted text found. FindsTextPrefix (wanted.now.text) text found };

    ghost suffix_len_gives = { λ wanted text found. FindsTextSuffix (wanted.now.text) text found };

    ghost same_pattern = { λ old new. new.now.text ≡ old.now.text };

    /// Returns where the first match begins and ends, as for a `&str`.
    ///
    /// ```
    /// let (text, word) = (literal!("foo bar"), literal!("bar"));
    /// assert!(rt; text.contains(&word));
    /// assert_eq!(rt; text.find(&word), Some(4));
    /// ```
    fn first_in(&mut self, text: &str) -> Option<(usize, usize)> {
        ArcStr::as_str(*self).first_in(text)
    }

    /// Returns where the last match begins and ends, as for a `&str`.
    fn last_in(&mut self, text: &str) -> Option<(usize, usize)> {
        ArcStr::as_str(*self).last_in(text)
    }

    /// Returns the length of this text if `text` begins with it.
    fn front_of(&mut self, text: &str) -> Option<usize> {
        ArcStr::as_str(*self).front_of(text)
    }

    /// Returns the length of this text if `text` ends with it.
    fn back_of(&mut self, text: &str) -> Option<usize> {
        ArcStr::as_str(*self).back_of(text)
    }
}

unsafe impl<'a> Pattern for &'a Substr {
    ghost find_in_gives = { λ wanted text found. FindsText (text_of wanted.now) text found };

    ghost rfind_in_gives = { λ wanted text found. RFindsText (text_of wanted.now) text found };

    ghost prefix_len_gives = { λ wanted text found. FindsTextPrefix (text_of wanted.now) text found };

    ghost suffix_len_gives = { λ wanted text found. FindsTextSuffix (text_of wanted.now) text found };

    ghost same_pattern = { λ old new. text_of new.now ≡ text_of old.now };

    /// As for a `&ArcStr`, with the slice's own text.
    fn first_in(&mut self, text: &str) -> Option<(usize, usize)> {
        Substr::as_str(*self).first_in(text)
    }

    /// As for a `&ArcStr`, with the slice's own text.
    fn last_in(&mut self, text: &str) -> Option<(usize, usize)> {
        Substr::as_str(*self).last_in(text)
    }

    /// As for a `&ArcStr`, with the slice's own text.
    fn front_of(&mut self, text: &str) -> Option<usize> {
        Substr::as_str(*self).front_of(text)
    }

    /// As for a `&ArcStr`, with the slice's own text.
    fn back_of(&mut self, text: &str) -> Option<usize> {
        Substr::as_str(*self).back_of(text)
    }
}
