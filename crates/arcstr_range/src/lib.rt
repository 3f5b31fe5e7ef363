//! Ranges and views of texts: the ends of a range, which ranges are valid in a text, and views,
//! which remember their byte offset in a parent.
#![tactic(auto)]

pub mod range;
pub mod view;
