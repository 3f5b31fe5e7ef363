//! Why a world or a run fails. A fault has a number and a text, and is plain data: it may be
//! copied, sent and shared, and its drop does nothing. No call here allocates.

ghost use Rattle.std.specs.Prelude.{◌≡◌, Some};
ghost use Rattle.arcstr_world.specs.Faults.{run_fault_number, run_fault_text};

use std::error::Error;
use std::io::ErrorKind;
use std::{fmt, io};

/// Why a world cannot be made or a step cannot be taken. `LimitTooLarge` is tested first. Once a
/// world exists, its only fault is `Memory`. A fault is displayed as its text.
///
/// Takes 1 byte.
///
/// ```
/// use arcstr_count::RC_MAX;
/// let refused = World::new(rt.alloc(), RC_MAX + 1);
/// assert!(rt; matches!(refused, Err(RunFault::LimitTooLarge)));
/// ```
#[derive(Clone, Copy, Debug, PartialEq, Eq)]
pub enum RunFault {
    /// The limit is above `RC_MAX`.
    LimitTooLarge,
    /// Out of memory: a table, the replies or an answer could not grow.
    Memory,
}

impl RunFault {
    /// Returns the number of the fault, counted from 1, for callers that pass faults on as numbers.
    /// In this repository only tests read it.
    ///
    /// ```
    /// assert_eq!(rt; RunFault::LimitTooLarge.number(), 1);
    /// assert_eq!(rt; RunFault::Memory.number(), 2);
    /// ```
    pub fn number(&self) -> u8
        ensures { result ≡ run_fault_number self.now }
    {
        match self {
            RunFault::LimitTooLarge => 1,
            RunFault::Memory => 2,
        }
    }

    /// Returns the text of the fault, as it is printed.
    ///
    /// ```
    /// assert_eq!(rt; RunFault::Memory.text(), "out of memory");
    /// ```
    pub fn text(&self) -> &'static str
        ensures { result.now ≡ run_fault_text self.now }
    {
        match self {
            RunFault::LimitTooLarge => "limit too large",
            RunFault::Memory => "out of memory",
        }
    }
}

impl fmt::Display for RunFault {
    ghost output = { λ fault. Some (run_fault_text fault) };

    fn fmt<W: fmt::Write>(&self, f: &mut fmt::Formatter<W>) -> fmt::Result {
        f.write_str(self.text())
    }
}

impl Error for RunFault {}

/// Lets `?` work in a function that also does I/O.
impl From<RunFault> for io::Error {
    ghost use Rattle.std.specs.Prelude.{◌≡◌};
    ghost use Rattle.std.specs.IoError.{error_kind};
    ghost use Rattle.arcstr_world.specs.Faults.{run_fault_kind};

    ghost from_gives = { λ fault error. error_kind error ≡ run_fault_kind fault };

    /// Returns an error of kind `InvalidInput` for a limit that is too large, and `OutOfMemory`.
    /// Allocates nothing.
    ///
    /// ```
    /// use std::io;
    /// let error = io::Error::from(RunFault::LimitTooLarge);
    /// assert_eq!(rt; error.kind(), io::ErrorKind::InvalidInput);
    /// ```
    fn from(fault: RunFault) -> io::Error {
        match fault {
            RunFault::LimitTooLarge => io::Error::new(ErrorKind::InvalidInput, "limit too large"),
            RunFault::Memory => io::Error::from(ErrorKind::OutOfMemory),
        }
    }
}
