//! Why a line of a configuration cannot be read, and where.
ghost use Rattle.std.specs.Prelude.{◌≡◌};
ghost use Rattle.arcstr.specs.LineAndColumn.{StandsInLine};

use arcstr::{LineAndColumn, Substr};
use thiserror::Error;

/// Why a line cannot be read.
#[derive(Clone, Copy, Debug, PartialEq, Eq, Error)]
pub enum Reason {
    #[error("no `=`")]
    NoEqualsSign,
    #[error("no key before the `=`")]
    NoKey,
    #[error("a section that does not end with its one `]`")]
    OpenSection,
    #[error("a value that does not end with its second quote")]
    OpenQuote,
}

/// A line that cannot be read, and where the part of it stands that causes this.
#[derive(Debug, Drop, Error)]
#[error("{place}: {reason}")]
pub struct Fault {
    pub place: LineAndColumn,
    pub reason: Reason,
}

impl Fault {
    /// Makes the fault of a part of a line.
    pub fn at(part: &Substr, reason: Reason) -> Fault
        ensures reason { result.reason ≡ reason }
        ensures place { StandsInLine part.now.parent.text part.now.start result.place }
    {
        let place = part.line_and_column();
        Fault { place, reason }
    }
}
