//! Why a range is refused.
ghost use Rattle.std.specs.Prelude.{◌≡◌, Some};

use std::error::Error;
use std::io::ErrorKind;
use std::{fmt, io};

/// Why a range is refused. The variants are in the order of the tests, and the first test that
/// fails is reported. Its message is a short text, and it owns no memory. By `?` it becomes an
/// `io::Error` or an `anyhow::Error`.
///
/// Its size is 1 byte. It can be copied, sent to a thread and shared between threads, and its drop
/// does nothing.
///
/// ```
/// let ends = range::checked_ends("aé", StrRange::To(2));
/// assert_eq!(rt; ends, Err(RangeFault::OffBoundary));
/// let shown = RangeFault::OffBoundary.to_string(rt.alloc())?;
/// assert_eq!(rt; shown.as_str(), "range cuts a character");
/// ```
#[derive(Clone, Copy, Debug, PartialEq, Eq, Hash)]
pub enum RangeFault {
    /// The start is after the end.
    OutOfOrder,
    /// The end is after the end of the text.
    PastEnd,
    /// The start or the end is inside a character.
    OffBoundary,
}

impl RangeFault {
    ghost use Rattle.arcstr_range.specs.Ends.{range_fault_number, range_fault_text};

    /// Returns the number of the fault, in the order of the tests from 1 on. No fault has the
    /// number 3.
    ///
    /// ```
    /// assert_eq!(rt; RangeFault::OutOfOrder.number(), 1);
    /// assert_eq!(rt; RangeFault::OffBoundary.number(), 4);
    /// ```
    pub fn number(&self) -> u8
        ensures { result ≡ range_fault_number self.now }
    {
        match self {
            RangeFault::OutOfOrder => 1,
            RangeFault::PastEnd => 2,
            RangeFault::OffBoundary => 4,
        }
    }

    /// Returns what is wrong, in a few words.
    fn text(&self) -> &'static str
        ensures { result.now ≡ range_fault_text self.now }
    {
        match self {
            RangeFault::OutOfOrder => "range start is after its end",
            RangeFault::PastEnd => "range ends past the text",
            RangeFault::OffBoundary => "range cuts a character",
        }
    }
}

impl fmt::Display for RangeFault {
    ghost use Rattle.arcstr_range.specs.Ends.{range_fault_text};

    ghost output = { λ fault. Some (range_fault_text fault) };

    fn fmt<W: fmt::Write>(&self, f: &mut fmt::Formatter<W>) -> fmt::Result {
        f.write_str(self.text())
    }
}

impl Error for RangeFault {}

/// Lets `?` work in a function that also does I/O.
impl From<RangeFault> for io::Error {
    ghost use Rattle.std.specs.Prelude.{◌≡◌};
    ghost use Rattle.std.specs.IoError.{error_kind};
    ghost use Rattle.std.specs.declared.io.ErrorKind.TheVariants.{InvalidInput};

    ghost from_gives = { λ _ error. error_kind error ≡ InvalidInput };

    /// Returns an `InvalidInput` error with the message of the fault. Allocates nothing.
    fn from(fault: RangeFault) -> io::Error {
        io::Error::new(ErrorKind::InvalidInput, fault.text())
    }
}
