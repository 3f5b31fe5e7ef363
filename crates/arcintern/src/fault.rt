//! Why a text is not interned.
ghost use Rattle.std.specs.Prelude.{◌≡◌, Some};
ghost use Rattle.arcintern.specs.Texts.{intern_fault_text};

use std::alloc::{AllocError, AllocFailed};
use std::error::Error;
use std::io::ErrorKind;
use std::{fmt, io};

/// Why a text is not interned. A call that interns tests for the faults in the order of the
/// variants. It takes one byte, and prints what is wrong. By `?` it becomes an `io::Error` and an
/// `anyhow::Error`.
///
/// ```
/// let printed = format!(in rt.alloc(); "{}", InternFault::Full)?;
/// assert_eq!(rt; printed.as_str(), "interner is full");
/// ```
#[derive(Clone, Copy, Debug, PartialEq, Eq)]
pub enum InternFault {
    /// The interner has `MOST_TEXTS` texts already, or a `WordList` would have more than
    /// `MOST_BYTES` bytes.
    Full,
    /// The text is too long: it has `2^63 - 25` bytes or more.
    Length,
    /// The memory ran out.
    Memory,
}

impl fmt::Display for InternFault {
    ghost output = { λ fault. Some (intern_fault_text fault) };

    fn fmt<W: fmt::Write>(&self, f: &mut fmt::Formatter<W>) -> fmt::Result {
        match self {
            InternFault::Full => f.write_str("interner is full"),
            InternFault::Length => f.write_str("text is too long"),
            InternFault::Memory => f.write_str("out of memory"),
        }
    }
}

impl Error for InternFault {}

impl From<AllocError> for InternFault {
    ghost use Rattle.std.specs.Prelude.{◌≡◌};
    ghost use Rattle.arcintern.specs.declared.fault.InternFault.TheVariants.{Memory};

    ghost from_gives = { λ _ fault. fault ≡ Memory };

    fn from(_refused: AllocError) -> InternFault {
        InternFault::Memory
    }
}

/// What could not be stored is dropped.
impl<T: Drop> From<AllocFailed<T>> for InternFault {
    ghost use Rattle.std.specs.Prelude.{◌≡◌};
    ghost use Rattle.arcintern.specs.declared.fault.InternFault.TheVariants.{Memory};

    ghost from_gives = { λ _ fault. fault ≡ Memory };

    fn from(refused: AllocFailed<T>) -> InternFault {
        InternFault::from(AllocError::from(refused))
    }
}

impl From<InternFault> for io::Error {
    ghost use Rattle.std.specs.Prelude.{◌≡◌};
    ghost use Rattle.std.specs.IoError.{error_kind};
    ghost use Rattle.arcintern.specs.Texts.{intern_fault_kind};

    ghost from_gives = { λ fault error. error_kind error ≡ intern_fault_kind fault };

    /// `OutOfMemory` where the memory ran out, and else `InvalidInput`.
    fn from(fault: InternFault) -> io::Error {
        match fault {
            InternFault::Full => io::Error::new(ErrorKind::InvalidInput, "interner is full"),
            InternFault::Length => io::Error::new(ErrorKind::InvalidInput, "text is too long"),
            InternFault::Memory => io::Error::from(ErrorKind::OutOfMemory),
        }
    }
}
