//! A world of counted blocks, which answers steps as the model of `arcstr_count` says, and what
//! this model means in sentences.
//!
//! `World` answers one step at a time, and `run` answers a whole list.
#![tactic(auto)]

pub use faults::RunFault;
pub use runs::run;
pub use worlds::World;

mod faults;
mod runs;
pub mod sentences;
mod worlds;
