//! Chains of views, as a parser writes them. Views find the parts, and those that are kept become
//! slices at the end, however many views came before. No function here has a proof file.
ghost use Rattle.std.specs.Prelude.{◌≡◌, ◌≢◌, ◌≤◌, [], IfSome};
ghost use Rattle.arcstr.specs.Slicing.{LiesBetween};
ghost use Rattle.arcstr.specs.Substr.{text_of};

use arcstr::Substr;
use std::sync::Wait;

/// The module and the message of a line of a log. Both are slices of the line.
///
/// ```
/// let line = Substr::from_static("10:02 WARN [ net ]  slow peer ");
/// let entry = Entry::read(&rt, &line).ok_or("no entry")?;
/// assert_eq!(rt; (entry.module.as_str(), entry.message.as_str()), ("net", "slow peer"));
/// ```
#[derive(Drop)]
pub struct Entry {
    pub module: Substr,
    pub message: Substr,
}

impl Entry {
    /// Reads a line `TIME LEVEL [MODULE] MESSAGE`. Each slice comes after seven views. The clauses
    /// say where the parts lie if there are any; the example tests that a line has them.
    ///
    /// ```
    /// let line = Substr::from_static("10:02 WARN [net] slow peer");
    /// let entry = Entry::read(&rt, &line).ok_or("no entry")?;
    /// assert_eq!(rt; entry.message.range(), 17..26);
    /// ```
    pub fn read(rt: &impl Wait, line: &Substr) -> Option<Entry>
        ensures module { IfSome result (λ entry. text_of entry.module ≢ []
            → LiesBetween line.now.start line.now.end entry.module) }
        ensures kept { IfSome result (λ entry. text_of entry.message ≢ []
            → entry.message.parent ≡ line.now.parent) }
        ensures last { IfSome result (λ entry. entry.message.end ≤ line.now.end) }
    {
        let (_, rest) = line.view().split_once(' ')?;
        let (_, rest) = rest.trim_start().split_once(' ')?;
        let (module, message) = rest.trim_start().strip_prefix('[')?.split_once(']')?;
        Some(Entry {
            module: line.substr_from(rt, module.trim()),
            message: line.substr_from(rt, message.trim()),
        })
    }
}

/// Returns the last value of a key in lines `key = value;` or `key = "value";`. In each line the
/// value comes after up to ten views, behind a `match`. It has no clause: what the check proves here
/// is that the line has the view, as `substr_from` requires.
///
/// ```
/// let lines = [Substr::from_static("a = 1;"), Substr::from_static("a = \" b \" ;")];
/// let value = last_value(&rt, &lines, "a").ok_or("no value")?;
/// assert_eq!(rt; (value.as_str(), value.range()), ("b", 6..7));
/// ```
pub fn last_value(rt: &impl Wait, lines: &[Substr], key: &str) -> Option<Substr> {
    let mut last = None;
    for line in lines {
        let Some((own, rest)) = line.view().trim().split_once('=') else {
            continue;
        };
        let value = match rest.trim_start().strip_prefix('"') {
            Some(rest) => rest
                .trim_end()
                .strip_suffix(';')?
                .trim_end()
                .strip_suffix('"')?
                .trim(),
            None => rest.trim().strip_suffix(';')?.trim_end(),
        };
        if own.trim_end().text() == key {
            last = Some(line.substr_from(rt, value));
        }
    }
    last
}
