//! Scripts of steps on counted blocks, callers of one text in threads of their own, the words of an
//! input's lines, and the program over its arguments, a reader and two writers.
#![tactic(auto)]

mod input;
mod numbers;
pub mod pool;
pub mod port;
pub mod program;
pub mod script;
pub mod threads;
pub mod tokens;
