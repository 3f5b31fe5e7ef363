//! One counted block: an atomic count word and a text, in one piece of memory from its allocator.
//!
//! A `Shared` is one handle on a block. Its clone is a load and a compare-exchange, its drop a load
//! and a fetch-sub; at a marked block each is the load alone. A mark, which is a fetch-or, makes
//! the block permanent. Whoever subtracts last takes the whole memory, as `Owed`.
#![tactic(auto)]

pub use building::Draft;
pub use ending::End;
pub use fault::{TOO_LONG, TextFault};
pub use fixed::Fixed;
pub use joining::joined_len;
pub use owed::{Down, Owed};
pub use seen::Seen;
pub use shared::Shared;

mod block;
mod building;
mod ending;
mod fault;
mod fixed;
mod joining;
mod laws;
mod making;
mod owed;
mod pointer;
mod seen;
mod shared;
mod word;
