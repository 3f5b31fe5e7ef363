//! Scripts of steps on counted blocks, their answers, and the run of a script from a reader to a
//! writer.
ghost use Rattle.std.specs.Prelude.{◌≡◌, ◌≢◌, ◌↔◌, ◌⊎◌, false, IsTrue, IfErr, OnOk, IfSome, Some, Err};
ghost use Rattle.std.specs.Io.KnownBytes.{IsAtEnd};
ghost use Rattle.arcstr_world.specs.declared.faults.RunFault.TheVariants.{LimitTooLarge as RunLimitTooLarge};
ghost use Rattle.arcbench_core.specs.Script.{answer_to, WritesAnswer, copy_fault_from, copy_fault_number, copy_fault_of_input, copy_fault_text};

use crate::input::{InputFault, read_to_end};
pub use crate::numbers::number_of;
use crate::port::Port;
pub use answers::answer;
use arcstr_world::RunFault;
use std::alloc::Allocator;
use std::error::Error;
use std::io::{Read, Write};
use std::{fmt, io};

mod answers;
mod line;

/// Why a script was not answered.
///
/// Plain data of 1 byte: it may be copied, sent and shared, and its drop does nothing.
///
/// ```
/// use arcstr_world::RunFault;
/// assert_eq!(rt; CopyFault::from(RunFault::Memory), CopyFault::Memory);
/// ```
#[derive(Clone, Copy, Debug, PartialEq, Eq)]
pub enum CopyFault {
    /// The limit of the script is above `RC_MAX`.
    LimitTooLarge,
    /// There was no memory for the script or its answer.
    Memory,
    /// Reading or writing failed.
    Io,
}

impl CopyFault {
    /// Returns the number of the fault, counted from 1.
    ///
    /// ```
    /// assert_eq!(rt; CopyFault::Io.number(), 3);
    /// ```
    pub fn number(&self) -> u8
        ensures { result ≡ copy_fault_number self.now }
    {
        match self {
            CopyFault::LimitTooLarge => 1,
            CopyFault::Memory => 2,
            CopyFault::Io => 3,
        }
    }

    /// Returns the text of the fault, as it is printed.
    ///
    /// ```
    /// assert_eq!(rt; CopyFault::Memory.text(), "out of memory");
    /// ```
    pub fn text(&self) -> &'static str
        ensures { result.now ≡ copy_fault_text self.now }
    {
        match self {
            CopyFault::LimitTooLarge => "limit too large",
            CopyFault::Memory => "out of memory",
            CopyFault::Io => "io",
        }
    }
}

impl fmt::Display for CopyFault {
    ghost output = { λ fault. Some (copy_fault_text fault) };

    fn fmt<W: fmt::Write>(&self, f: &mut fmt::Formatter<W>) -> fmt::Result {
        f.write_str(self.text())
    }
}

impl Error for CopyFault {}

impl From<RunFault> for CopyFault {
    ghost from_gives = { λ fault given. given ≡ copy_fault_from fault };

    fn from(fault: RunFault) -> CopyFault {
        match fault {
            RunFault::LimitTooLarge => CopyFault::LimitTooLarge,
            RunFault::Memory => CopyFault::Memory,
        }
    }
}

impl From<InputFault> for CopyFault {
    ghost from_gives = { λ fault given. given ≡ copy_fault_of_input fault };

    fn from(fault: InputFault) -> CopyFault {
        match fault {
            InputFault::Memory => CopyFault::Memory,
            InputFault::Io => CopyFault::Io,
        }
    }
}

/// Reads a script to its end and writes its answer.
///
/// Errors, in this order: while reading, `Io` or `Memory`, whichever comes first; then the faults
/// of `answer`; while writing, `Io`. All allocations come before the first write, so only a fault
/// of writing can leave a part of the answer written.
///
/// The test `each_command_has_its_answer` catches a body that always answers `Memory`.
///
/// ```
/// let mut written = Vec::new(rt.alloc());
/// let mut input = Port::new(b"limit 5\nmake\n".as_slice());
/// copy(rt.alloc(), &mut input, &mut Port::new(&mut written))?;
/// assert_eq!(rt; written.as_slice(), b"made 0\n".as_slice());
/// ```
pub fn copy<A: Allocator + Copy, R: Read, W: Write>(
    alloc: A,
    input: &mut Port<R>,
    output: &mut Port<W>,
) -> Result<(), CopyFault>
    requires input_is_sound { input.old.failed ≡ false }
    requires output_is_sound { output.old.failed ≡ false }

    ensures ok { OnOk result (IfSome (R.remaining input.old.value)
        (λ script. WritesAnswer script (W.contents output.old.value) (W.contents output.new.value))) }
    ensures at_end { OnOk result (IsAtEnd (R.remaining input.new.value)) }

    // Promise: `Io` comes exactly if a port failed.
    ensures io { (result ≡ Err CopyFault.Io)
        ↔ (IsTrue input.new.failed ⊎ IsTrue output.new.failed) }
    // Promise: Unless memory or a stream fails, `LimitTooLarge` comes exactly if the script's limit
    // is too large.
    ensures too_large { result ≢ Err CopyFault.Memory → result ≢ Err CopyFault.Io
        → IfSome (R.remaining input.old.value) (λ script.
        (result ≡ Err CopyFault.LimitTooLarge) ↔ (answer_to script ≡ Err RunLimitTooLarge)) }

    // Nothing was written after any fault except one of writing.
    // Promise: Unless writing fails, a call that fails writes nothing.
    ensures unwritten { IfErr result (λ fault. fault ≢ CopyFault.Io → output.new ≡ output.old) }
    ensures unwritten_unread { IsTrue input.new.failed → output.new ≡ output.old }
{
    let script = read_to_end(alloc, input)?;
    let answer = answer(alloc, &script)?;
    output
        .write_all(&answer)
        .map_err(|_: io::Error| CopyFault::Io)
}
