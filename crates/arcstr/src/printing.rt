//! The output of a text, formatted as a `str` is. The output of a `Substr` is that of its own text,
//! and that of a `StaticStr` is that of its text.
ghost use Rattle.std.specs.Prelude.{◌≡◌, Some, IfOk, string_bytes};
ghost use Rattle.std.specs.Fmt.{debug_str, styled_text};
ghost use Rattle.arcstr.specs.Substr.{text_of};

use crate::arc_str::ArcStr;
use crate::static_str::StaticStr;
use crate::substr::Substr;
use std::alloc::{AllocError, Global};
use std::fmt;

impl ArcStr {
    /// Copies the text into a `String`. Makes one allocation, or none if the text is empty. Fails
    /// only if the allocation fails.
    ///
    /// ```
    /// let copy = ArcStr::from_static("foo").to_string(rt.alloc())?;
    /// assert_eq!(rt; copy.as_str(), "foo");
    /// ```
    pub fn to_string(&self, alloc: Global) -> Result<String, AllocError>
        ensures { IfOk result (λ copy. string_bytes copy ≡ self.now.text) }
    {
        String::from_str(alloc, self.as_str())
    }
}

impl fmt::Display for ArcStr {
    ghost output = { λ shared. Some shared.text };

    ghost styled_output = { λ shared spec. Some (styled_text spec shared.text) };

    /// Writes the text with padding and precision, as for a `str`. Fails if the writer fails.
    /// Allocates nothing itself.
    fn fmt<W: fmt::Write>(&self, f: &mut fmt::Formatter<W>) -> fmt::Result {
        f.pad(ArcStr::as_str(self))
    }
}

impl fmt::Debug for ArcStr {
    ghost debug_output = { λ shared. debug_str shared.text };

    /// Writes the text in quotes and escaped, as for a `str`. Fails if the writer fails. Allocates
    /// nothing itself.
    fn fmt<W: fmt::Write>(&self, f: &mut fmt::Formatter<W>) -> fmt::Result {
        let text = ArcStr::as_str(self);
        fmt::Debug::fmt(&text, f)
    }
}

impl Substr {
    /// As `ArcStr::to_string`, for the slice's own text.
    pub fn to_string(&self, alloc: Global) -> Result<String, AllocError>
        ensures { IfOk result (λ copy. string_bytes copy ≡ text_of self.now) }
    {
        String::from_str(alloc, self.as_str())
    }
}

impl fmt::Display for Substr {
    ghost output = { λ slice. Some (text_of slice) };

    ghost styled_output = { λ slice spec. Some (styled_text spec (text_of slice)) };

    /// Writes the slice's own text as `Display` of `ArcStr` does.
    fn fmt<W: fmt::Write>(&self, f: &mut fmt::Formatter<W>) -> fmt::Result {
        f.pad(Substr::as_str(self))
    }
}

impl fmt::Debug for Substr {
    ghost debug_output = { λ slice. debug_str (text_of slice) };

    /// Writes the slice's own text as `Debug` of `ArcStr` does.
    fn fmt<W: fmt::Write>(&self, f: &mut fmt::Formatter<W>) -> fmt::Result {
        let text = Substr::as_str(self);
        fmt::Debug::fmt(&text, f)
    }
}

impl fmt::Display for StaticStr {
    ghost output = { λ kept. Some kept.text };

    ghost styled_output = { λ kept spec. Some (styled_text spec kept.text) };

    /// Writes the text as `Display` of `ArcStr` does.
    ///
    /// ```
    /// let kept = literal!("foo").leak();
    /// let shown = format!(in rt.alloc(); "{kept:>5} {kept:?}")?;
    /// assert_eq!(rt; shown.as_str(), "  foo \"foo\"");
    /// ```
    fn fmt<W: fmt::Write>(&self, f: &mut fmt::Formatter<W>) -> fmt::Result {
        f.pad(StaticStr::as_str(self))
    }
}

impl fmt::Debug for StaticStr {
    ghost debug_output = { λ kept. debug_str kept.text };

    /// Writes the text as `Debug` of `ArcStr` does.
    fn fmt<W: fmt::Write>(&self, f: &mut fmt::Formatter<W>) -> fmt::Result {
        let text = StaticStr::as_str(self);
        fmt::Debug::fmt(&text, f)
    }
}
