//! The words of shared texts, as slices of them: of one text, or of many texts with 1 to 64
//! workers.
#![tactic(auto)]

pub use many_texts::{tokens_all, tokens_all_with};
pub use one_text::{tokens, tokens_are_one};
pub use substrs::{Substrs, token_list};
pub use workers::Gate;

mod many_texts;
mod one_text;
mod substrs;
mod words;
mod workers;
