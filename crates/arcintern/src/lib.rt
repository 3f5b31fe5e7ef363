//! Interners, which keep each distinct text once and number the texts in the order in which they
//! came. `Interner` and `SharedInterner` keep each text as an `ArcStr`, and `WordList` keeps all in
//! one allocation. `SymbolMap` keeps values by these numbers.
#![tactic(auto)]

pub use fault::InternFault;
pub use interner::{Interner, InternerPairs, MOST_TEXTS};
pub use shared_interner::{SharedInterner, SharedSymbol, SharedTexts};
pub use symbol::Symbol;
pub use symbol_map::{SymbolMap, SymbolMapIter};
pub use word_list::{MOST_BYTES, WordList, WordListIter, WordListPairs};

mod fault;
mod interner;
mod serde_impls;
mod shared_interner;
mod slots;
mod symbol;
mod symbol_map;
mod word_list;
