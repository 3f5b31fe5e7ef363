//! Reads one line of a configuration.
ghost use Rattle.std.specs.Prelude.{◌≡◌, ◌↔◌, Contains, IfSome, IsSome};
ghost use Rattle.std.specs.Str.{chars};
ghost use Rattle.arcstr.specs.Substr.{text_of};
ghost use Rattle.example_config.specs.Entries.{IsEnclosed, IsEntry, equals_sign};

use crate::fault::{Fault, Reason};
use arcstr::Substr;
use std::sync::Wait;

/// A line `key = value`.
#[derive(Drop)]
pub struct Entry {
    pub key: Substr,
    pub value: Substr,
}

impl Entry {
    /// Reads an entry: the text before and after the first `=` of the line, without the white space
    /// around it. Returns `None` exactly if the line has no `=`. Allocates nothing.
    pub fn read(rt: &impl Wait, line: &Substr) -> Option<Entry>
        ensures found { IsSome result ↔ Contains (chars (text_of line.now)) equals_sign }
        ensures sides { IfSome result (IsEntry line.now) }
    {
        let (key, value) = line.substr_split_once(rt, '=')?;
        Some(Entry {
            key: key.substr_trim(rt),
            value: value.substr_trim(rt),
        })
    }
}

/// Returns the part between the two characters, if the slice begins with `first` and ends with the
/// next `last` in it. Allocates nothing.
pub fn between(rt: &impl Wait, slice: &Substr, first: char, last: char) -> Option<Substr>
    ensures text { IfSome result (λ inner. IsEnclosed slice.now first last inner) }
    ensures kept { IfSome result (λ inner. inner.parent ≡ slice.now.parent) }
{
    let rest = slice.substr_strip_prefix(rt, first)?;
    let (inner, after) = rest.substr_split_once(rt, last)?;
    after.is_empty().then_some(inner)
}

/// The content of a line.
#[derive(Drop)]
pub enum Line {
    Blank,
    Section(Substr),
    Pair(Entry),
}

impl Line {
    /// Reads a trimmed line: nothing if it is empty or begins with `#`, a section if it begins with
    /// `[`, and otherwise an entry, whose value loses the quotes around it. Allocates nothing.
    pub fn read(rt: &impl Wait, line: &Substr) -> Result<Line, Fault> {
        if line.is_empty() || line.starts_with('#') {
            return Ok(Line::Blank);
        }
        if line.starts_with('[') {
            let name = between(rt, line, '[', ']').ok_or(Fault::at(line, Reason::OpenSection))?;
            return Ok(Line::Section(name.substr_trim(rt)));
        }
        let mut entry = Entry::read(rt, line).ok_or(Fault::at(line, Reason::NoEqualsSign))?;
        if entry.key.is_empty() {
            return Err(Fault::at(line, Reason::NoKey));
        }
        if entry.value.starts_with('"') {
            let inner = between(rt, &entry.value, '"', '"');
            entry.value = inner.ok_or(Fault::at(&entry.value, Reason::OpenQuote))?;
        }
        Ok(Line::Pair(entry))
    }
}
