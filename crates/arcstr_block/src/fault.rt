//! Why a text cannot be made, and the length from which it is too long.
ghost use Rattle.std.specs.Prelude.{◌≡◌, Some};
ghost use Rattle.std.specs.IoError.{error_kind};
ghost use Rattle.arcstr_block.specs.Making.{text_fault_number, text_fault_text, text_fault_kind};
ghost use Rattle.arcstr_block.specs.declared.fault.TextFault.TheVariants.{Memory};

use std::alloc::{AllocError, AllocFailed};
use std::error::Error;
use std::io::ErrorKind;
use std::{fmt, io};

/// The least number of bytes that is too long for a block.
///
/// ```
/// assert_eq!(rt; TOO_LONG, 9_223_372_036_854_775_783);
/// ```
pub const TOO_LONG: usize = (1 << 63) - 25;

/// Why a text cannot be made. It is plain data of 16 bytes, and prints what is wrong. `?` converts
/// it to an `io::Error` or an `anyhow::Error`.
///
/// ```
/// let made = Shared::<5, _>::init(rt.alloc(), 3, |bytes| bytes[2] = 255);
/// assert!(rt; matches!(made, Err(TextFault::Utf8(2))));
/// let printed = format!(in rt.alloc(); "{}", TextFault::Utf8(2))?;
/// assert_eq!(rt; printed.as_str(), "bytes are not UTF-8 from place 2");
/// ```
#[derive(Clone, Copy, Debug, PartialEq, Eq)]
pub enum TextFault {
    /// The text is too long: it has `2^63 - 25` bytes or more.
    Length,
    /// There was no memory for the text.
    Memory,
    /// The bytes are not UTF-8: their longest prefix that is UTF-8 has this many bytes.
    Utf8(usize),
}

impl TextFault {
    /// Returns the number of the fault, counted from 1 in the order of the variants. Only tests use
    /// it.
    ///
    /// ```
    /// assert_eq!(rt; TextFault::Length.number(), 1);
    /// assert_eq!(rt; TextFault::Utf8(2).number(), 3);
    /// ```
    pub fn number(&self) -> u8
        ensures { result ≡ text_fault_number self.now }
    {
        match self {
            TextFault::Length => 1,
            TextFault::Memory => 2,
            TextFault::Utf8(_) => 3,
        }
    }
}

impl fmt::Display for TextFault {
    ghost output = { λ fault. Some (text_fault_text fault) };

    fn fmt<W: fmt::Write>(&self, f: &mut fmt::Formatter<W>) -> fmt::Result {
        match self {
            TextFault::Length => f.write_str("text is too long"),
            TextFault::Memory => f.write_str("out of memory"),
            TextFault::Utf8(place) => write!(f, "bytes are not UTF-8 from place {place}"),
        }
    }
}

impl Error for TextFault {}

// So one function can use `?` for texts and for vectors.
impl From<AllocError> for TextFault {
    ghost from_gives = { λ _ fault. fault ≡ Memory };

    fn from(_refused: AllocError) -> TextFault {
        TextFault::Memory
    }
}

/// The value that could not be stored is dropped.
impl<T: Drop> From<AllocFailed<T>> for TextFault {
    ghost from_gives = { λ _ fault. fault ≡ Memory };

    fn from(refused: AllocFailed<T>) -> TextFault {
        TextFault::from(AllocError::from(refused))
    }
}

// So one function can make texts and do I/O, with `?` for both.
impl From<TextFault> for io::Error {
    ghost from_gives = { λ fault error. error_kind error ≡ text_fault_kind fault };

    /// `InvalidInput` for a text that is too long, `OutOfMemory`, and `InvalidData` for bytes that
    /// are not UTF-8.
    fn from(fault: TextFault) -> io::Error {
        match fault {
            TextFault::Length => io::Error::new(ErrorKind::InvalidInput, "text is too long"),
            TextFault::Memory => io::Error::from(ErrorKind::OutOfMemory),
            TextFault::Utf8(_) => io::Error::new(ErrorKind::InvalidData, "bytes are not UTF-8"),
        }
    }
}
