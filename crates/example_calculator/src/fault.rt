//! Why a line is refused, and where.
ghost use Rattle.std.specs.Prelude.{◌≡◌};

use arcintern::InternFault;
use arcstr::Substr;
use std::alloc::AllocFailed;
use std::fmt;
use thiserror::Error;

/// Why a line is refused.
#[derive(Clone, Copy, Debug, PartialEq, Eq, Error)]
pub enum Reason {
    #[error("this character begins no token")]
    UnknownCharacter,
    #[error("a number has only the digits 0 to 9, and a name begins with a letter")]
    BadNumber,
    #[error("a number that does not fit 64 bits")]
    LargeNumber,
    #[error("a number, a name or `(` is missing")]
    NoOperand,
    #[error("an operator is missing")]
    NoOperator,
    #[error("a `(` without its `)`")]
    NotClosed,
    #[error("a `)` without its `(`")]
    NotOpened,
    #[error("a name without a value")]
    NoValue,
    #[error("a division by zero, or a result that does not fit 64 bits")]
    NoResult,
    /// Not the line's fault: it ends the program, since later lines would lack the line's name.
    #[error("out of memory, or no room for one name more")]
    NoRoom,
}

/// A reason, and the byte offset in the text at which it shows.
#[derive(Clone, Copy, Debug)]
pub struct Fault {
    pub place: usize,
    pub reason: Reason,
}

impl Fault {
    /// The fault at this byte offset, for this reason.
    pub fn at(place: usize, reason: Reason) -> Fault
        ensures place { result.place ≡ place }
        ensures reason { result.reason ≡ reason }
    {
        Fault { place, reason }
    }
}

impl From<InternFault> for Fault {
    fn from(_fault: InternFault) -> Fault {
        Fault::at(0, Reason::NoRoom)
    }
}

impl<T: Drop> From<AllocFailed<T>> for Fault {
    fn from(_refused: AllocFailed<T>) -> Fault {
        Fault::at(0, Reason::NoRoom)
    }
}

/// A line that is refused, with its number from 1.
#[derive(Drop)]
pub struct Refusal {
    pub number: usize,
    pub line: Substr,
    pub fault: Fault,
}

impl Refusal {
    /// The number of characters before the fault, as the line is printed.
    fn column(&self) -> usize {
        let before = self.line.range().start..self.fault.place;
        let mut column: usize = 0;
        for _ in self.line.parent().get(before).unwrap_or("").escape_debug() {
            column = column.saturating_add(1);
        }
        column
    }
}

impl fmt::Display for Refusal {
    fn fmt<W: fmt::Write>(&self, f: &mut fmt::Formatter<W>) -> fmt::Result {
        let (number, reason, line) = (self.number, self.fault.reason, &self.line);
        let column = self.column();
        writeln!(f, "line {number}: {reason}")?;
        writeln!(f, "    {}", line.escape_debug())?;
        write!(f, "    {:column$}^", "")
    }
}
