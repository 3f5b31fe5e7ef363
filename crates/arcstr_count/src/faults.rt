//! Why a step is refused. A fault has a number and a name, and is plain data: it may be copied,
//! sent and shared, and its drop does nothing. No call here allocates.

ghost use Rattle.std.specs.Prelude.{◌≡◌, Some};
ghost use Rattle.arcstr_count.specs.Faults.{step_fault_number, step_fault_text};

use std::error::Error;
use std::fmt;

/// Why a step is refused. The state of the handle that the step names decides the fault. A handle
/// has one state, so at most one fault applies. A fault is displayed as its name.
///
/// Takes 1 byte.
///
/// ```
/// let refused = Reply::Refused(StepFault::NotInDrop);
/// assert!(rt; matches!(refused, Reply::Refused(fault) if fault.name() == "NotInDrop"));
/// ```
#[derive(Clone, Copy, Debug, PartialEq, Eq)]
pub enum StepFault {
    /// No handle has this number: it was never born, owes its block, or has ended.
    NoHandle,
    /// The handle is dropping.
    InDrop,
    /// The handle is not dropping.
    NotInDrop,
    /// The handle does not owe its block.
    NotOwing,
    /// The handle is a raw value.
    IsRaw,
    /// The handle is not a raw value.
    NotRaw,
}

impl StepFault {
    /// Returns the number of the fault, counted from 1. A script's reply contains it.
    ///
    /// ```
    /// assert_eq!(rt; StepFault::NoHandle.number(), 1);
    /// assert_eq!(rt; StepFault::NotRaw.number(), 6);
    /// ```
    pub fn number(&self) -> u8
        ensures { result ≡ step_fault_number self.now }
    {
        match self {
            StepFault::NoHandle => 1,
            StepFault::InDrop => 2,
            StepFault::NotInDrop => 3,
            StepFault::NotOwing => 4,
            StepFault::IsRaw => 5,
            StepFault::NotRaw => 6,
        }
    }

    /// Returns the name of the fault, as it is printed.
    ///
    /// ```
    /// assert_eq!(rt; StepFault::IsRaw.name(), "IsRaw");
    /// ```
    pub fn name(&self) -> &'static str
        ensures { result.now ≡ step_fault_text self.now }
    {
        match self {
            StepFault::NoHandle => "NoHandle",
            StepFault::InDrop => "InDrop",
            StepFault::NotInDrop => "NotInDrop",
            StepFault::NotOwing => "NotOwing",
            StepFault::IsRaw => "IsRaw",
            StepFault::NotRaw => "NotRaw",
        }
    }
}

impl fmt::Display for StepFault {
    ghost output = { λ fault. Some (step_fault_text fault) };

    fn fmt<W: fmt::Write>(&self, f: &mut fmt::Formatter<W>) -> fmt::Result {
        f.write_str(self.name())
    }
}

impl Error for StepFault {}
