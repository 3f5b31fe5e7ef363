//! Reference counts as histories: what steps on counted blocks mean.
//!
//! Handles are numbered in order of birth, blocks in order of making. `specs/Model.antt` defines
//! what a history of steps means, as one step function.
#![tactic(auto)]

pub use faults::StepFault;
pub use laws::{every_interleaving, seats_are_counted};
pub use steps::{BlockSummary, HandleState, HandleSummary, Reply, Step};
pub use words::{RC_MAX, Word};

mod faults;
mod laws;
mod steps;
mod words;
