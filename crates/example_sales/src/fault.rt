//! Why a row cannot be read, and where it stands.
ghost use Rattle.std.specs.Prelude.{◌≡◌, ◌+◌, ◌<◌, ◌^◌};
ghost use Rattle.example_sales.specs.declared.fault.Reason.TheVariants.{Encoding};

use arcstr::ArcStr;
use csv::Position;
use thiserror::Error;

/// Why a row cannot be read.
#[derive(Debug, Drop, Error)]
pub enum Reason {
    #[error("{found} fields, where the first row has {wanted}")]
    Fields { found: u64, wanted: u64 },
    #[error("field {0} is not UTF-8")]
    Encoding(u64),
    #[error("{0:?} is no number of cents")]
    Cents(ArcStr),
}

impl Reason {
    /// Makes the reason of a field that is not UTF-8. `before` is the number of fields before it.
    pub fn encoding(before: u64) -> Reason
        ensures { before + 1 < 2 ^ 64 → result ≡ Encoding (before + 1) }
    {
        Reason::Encoding(before.saturating_add(1))
    }
}

/// A row that cannot be read, by its line from 1 and the byte offset at which it starts.
#[derive(Debug, Drop, Error)]
#[error("line {line}, byte {start}: {reason}")]
pub struct Fault {
    pub line: u64,
    pub start: u64,
    pub reason: Reason,
}

impl Fault {
    /// Makes the fault of the row at this position.
    pub fn at(position: Option<Position>, reason: Reason) -> Fault {
        let position = position.unwrap_or(Position::new());
        Fault {
            line: position.line,
            start: position.byte,
            reason,
        }
    }
}
