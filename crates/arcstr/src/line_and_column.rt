//! The line and the column of a slice or a byte offset, as an editor shows them.
ghost use Rattle.std.specs.Prelude.{◌↔◌, IfSome, IsSome};
ghost use Rattle.std.specs.Str.{IsCharBoundary};
ghost use Rattle.arcstr.specs.LineAndColumn.{EndsAt, StandsInLine};

use crate::arc_str::ArcStr;
use crate::substr::Substr;
use arcstr_range::view::StrView;
use std::fmt;

/// Where a part of a text starts, as an editor shows it. Lines and columns are counted from 1, and
/// columns in characters (`char`s). A line ends behind its `\n`, so a `\r` before it has a column.
///
/// Its size is 16 bytes. It prints as `line 9, column 1`.
///
/// ```
/// let text = literal!("a\nbé = c");
/// let at = text.line_and_column(8).ok_or("no place")?;
/// assert_eq!(rt; (at.line, at.column), (2, 6));
/// let printed = format!(in rt.alloc(); "{at}")?;
/// assert_eq!(rt; printed.as_str(), "line 2, column 6");
/// ```
#[derive(Clone, Copy, Debug, PartialEq, Eq, PartialOrd, Ord, Hash)]
pub struct LineAndColumn {
    pub line: usize,
    pub column: usize,
}

impl ArcStr {
    /// Returns the line and the column of a byte offset. That of the end of the text is there too.
    /// Returns `None` exactly if the offset is past the text or inside a character. Takes time in
    /// proportion to the text before it.
    ///
    /// ```
    /// let text = literal!("é\n");
    /// let at = text.line_and_column(2).ok_or("no place")?;
    /// assert_eq!(rt; (at.line, at.column), (1, 2));
    /// let end = text.line_and_column(3).ok_or("no place")?;
    /// assert_eq!(rt; (end.line, end.column), (2, 1));
    /// assert!(rt; text.line_and_column(1).is_none());
    /// ```
    pub fn line_and_column(&self, place: usize) -> Option<LineAndColumn>
        ensures some { IsSome result ↔ IsCharBoundary self.now.text place }
        ensures value { IfSome result (StandsInLine self.now.text place) }
    {
        let text = self.as_str();
        if !text.is_char_boundary(place) {
            return None;
        }
        Some(line_behind(&text[..place]))
    }
}

impl Substr {
    /// Returns the line and the column at which the slice starts in its parent. Takes time in
    /// proportion to the text before it.
    ///
    /// ```
    /// let value = literal!("a = 1\nb = 2").substr(&rt, 10..)?;
    /// let at = value.line_and_column();
    /// assert_eq!(rt; (at.line, at.column), (2, 5));
    /// ```
    pub fn line_and_column(&self) -> LineAndColumn
        ensures { StandsInLine self.now.parent.text self.now.start result }
    {
        line_behind(&self.parent().as_str()[..self.range().start])
    }
}

/// Returns the line and the column of the end of a text.
fn line_behind(before: &str) -> LineAndColumn
    ensures { EndsAt before.now result }
{
    let (mut line, mut own) = (0, before);
    for part in StrView::whole(before).split('\n') {
        line += 1;
        own = part.text();
    }
    LineAndColumn {
        line,
        column: own.chars().count() + 1,
    }
}

impl fmt::Display for LineAndColumn {
    /// Writes `line`, the line, `column` and the column. Fails if the writer fails.
    fn fmt<W: fmt::Write>(&self, f: &mut fmt::Formatter<W>) -> fmt::Result {
        write!(f, "line {}, column {}", self.line, self.column)
    }
}
