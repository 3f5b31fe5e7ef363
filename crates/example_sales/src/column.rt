//! A column of texts.

use arcintern::{InternFault, Interner, Symbol};
use arcstr::ArcStr;
use std::alloc::{AllocError, Global};
use std::hash::RandomState;

/// A column of texts, of which the interner keeps each distinct one once. A row has its text's
/// symbol, which takes 4 bytes. Strangers may pick the texts, so the interner hashes by a random
/// seed: they cannot find texts that collide.
#[derive(Drop)]
pub struct Column {
    texts: Interner<RandomState>,
    symbols: Vec<Symbol>,
}

impl Column {
    /// Makes a column without rows, which hashes by `hash_builder`.
    pub fn new(alloc: Global, hash_builder: RandomState) -> Column {
        Column {
            texts: Interner::with_hasher(alloc, hash_builder),
            symbols: Vec::new(alloc),
        }
    }

    /// Adds a row with this text. A text that is there is not copied.
    pub fn push(&mut self, text: &str) -> Result<(), InternFault> {
        let symbol = self.texts.intern(text)?;
        self.symbols.push(symbol)?;
        Ok(())
    }

    /// Returns each text with the sum of the numbers of its rows, in the order in which the texts
    /// came.
    pub fn sums(&self, alloc: Global, numbers: &[u64]) -> Result<Vec<(&ArcStr, u64)>, AllocError> {
        let mut sums = vec![in alloc; 0u64; self.texts.len()]?;
        for (symbol, number) in self.symbols.iter().zip(numbers) {
            if let Some(sum) = sums.get_mut(symbol.index()) {
                *sum = sum.saturating_add(*number);
            }
        }
        self.texts.iter().zip(sums).collect(alloc)
    }
}
