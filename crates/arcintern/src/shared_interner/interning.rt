//! The calls that intern a text, and that find one by its word.
ghost use Rattle.std.specs.Prelude.{◌≡◌, ◌<◌, ◌≤◌, IfOk, IfSome, IsErrOf, IsNone, length};
ghost use Rattle.arcstr.specs.Making.{IsTooLong};
ghost use Rattle.arcintern.specs.Texts.{IsSymbolOfWord};

use crate::fault::InternFault;
use crate::interner::{MOST_TEXTS, copy_of};
use crate::shared_interner::{SharedInterner, SharedSymbol};
use crate::slots::{half_of, hash_of_word};
use arcstr::ArcStr;
use std::alloc::Global;
use std::hash::BuildHasher;
use std::sync::Wait;

impl<S: BuildHasher> SharedInterner<S> {
    /// Returns the symbol of the text that spells this word. If there is none, a copy of the word
    /// becomes a text, with the next number: that allocates the copy, which an empty word does not
    /// need, and room where a table or the list is full. A new word is refused with the first
    /// `InternFault` that applies.
    ///
    /// `tools/ask` tests that a known word is never refused where memory is out, and that no
    /// call finds a refused word.
    ///
    /// ```
    /// let interner = SharedInterner::new(rt.alloc(), 8)?;
    /// let symbol = interner.intern(&rt, "foo")?;
    /// assert!(rt; interner.intern(&rt, "foo")?.number() == symbol.number());
    /// assert!(rt; interner.intern(&rt, "bar")?.number() != symbol.number());
    /// ```
    pub fn intern(&self, rt: &impl Wait, word: &str) -> Result<SharedSymbol, InternFault>
        ensures word { IfOk result (λ symbol. IsSymbolOfWord self.now symbol word.now) }
        // Promise: `Length` comes only for a copy that is too long.
        ensures too_long { IsErrOf result InternFault.Length → IsTooLong (length word.now) }
    {
        self.find_or_add(rt, word, None)
    }

    /// Returns the symbol of the text that spells the same as this one. If there is none, a clone
    /// of this text becomes a text: that takes the steps of `ArcStr::clone`, and allocates where a
    /// table or the list is full. Refused as `intern` is, but never for its length.
    ///
    /// ```
    /// let interner = SharedInterner::new(rt.alloc(), 8)?;
    /// let text = ArcStr::from_str(rt.alloc(), "foo")?;
    /// let symbol = interner.intern_arc(&rt, &text)?;
    /// assert!(rt; interner.text(&symbol).eq_str("foo"));
    /// assert_eq!(rt; ArcStr::strong_count(&text), Some(2));
    /// ```
    pub fn intern_arc(&self, rt: &impl Wait, text: &ArcStr) -> Result<SharedSymbol, InternFault>
        ensures word { IfOk result (λ symbol. IsSymbolOfWord self.now symbol text.now.text) }
        // Promise: `Length` never comes.
        ensures never_too_long { ¬ (IsErrOf result InternFault.Length) }
    {
        self.find_or_add(rt, text.as_str(), Some(text))
    }

    /// Returns the symbol of the text that spells this word, or `None` if there was none when the
    /// call began. Takes no lock, never waits, and does not allocate.
    ///
    /// ```
    /// let interner = SharedInterner::new(rt.alloc(), 8)?;
    /// let symbol = interner.intern(&rt, "foo")?;
    /// let found = interner.get("foo");
    /// assert!(rt; found.is_some_and(|found| found.number() == symbol.number()));
    /// assert!(rt; interner.get("fo").is_none());
    /// ```
    pub fn get(&self, word: &str) -> Option<SharedSymbol>
        ensures { IfSome result (λ symbol. IsSymbolOfWord self.now symbol word.now) }
    {
        let hash = hash_of_word(&self.hash_builder, word);
        let shard = &self.shards[shard_of(hash, self.shards.len())];
        shard.find(half_of(hash), &self.texts, word)
    }

    /// Returns the symbol of this word. If there is none, adds `whole` or, without
    /// one, a copy of the word. That text is made before the lock is taken, and dropped if another
    /// thread has added the word meanwhile.
    pub(crate) fn find_or_add(
        &self,
        rt: &impl Wait,
        word: &str,
        whole: Option<&ArcStr>,
    ) -> Result<SharedSymbol, InternFault>
        requires { IfSome whole (λ text. text.now.text ≡ word.now) }
        ensures word { IfOk result (λ symbol. IsSymbolOfWord self.now symbol word.now) }
        ensures too_long { IsErrOf result InternFault.Length
            → IsNone whole.entry × IsTooLong (length word.now) }
    {
        let hash = hash_of_word(&self.hash_builder, word);
        let shard = &self.shards[shard_of(hash, self.shards.len())];
        let half = half_of(hash);
        if let Some(symbol) = shard.find(half, &self.texts, word) {
            return Ok(symbol);
        }
        if self.len() >= MOST_TEXTS {
            return Err(InternFault::Full);
        }
        let text = text_to_keep(rt, self.alloc, word, whole)?;
        let mut used = shard.used.lock(rt);
        let table = shard.table_with_room(self.alloc, *used)?;
        let Some((slot, is_passed)) = table.empty_slot(half) else {
            return Err(InternFault::Memory);
        };
        if is_passed {
            if let Some(symbol) = table.find(half, &self.texts, word) {
                return Ok(symbol);
            }
        }
        let symbol = self.texts.push(rt, text)?;
        if table.put(slot, half, symbol.index() as u32).is_ok() {
            *used = used.saturating_add(1);
        }
        Ok(symbol)
    }
}

/// Returns the shard of the words with this hash: its upper half as a fraction of `2^32`, of the
/// number of shards.
pub(crate) fn shard_of(hash: u64, shards: usize) -> usize
    requires some { 1 ≤ shards }
    requires most { shards ≤ 64 }
    ensures { result < shards }
{
    (((hash >> 32) * shards as u64) >> 32) as usize
}

/// Returns a clone of `whole` or, without one, a copy of the word.
fn text_to_keep(
    rt: &impl Wait,
    alloc: Global,
    word: &str,
    whole: Option<&ArcStr>,
) -> Result<ArcStr, InternFault>
    requires { IfSome whole (λ text. text.now.text ≡ word.now) }
    ensures text { IfOk result (λ text. text.text ≡ word.now) }
    ensures too_long { IsErrOf result InternFault.Length
        → IsNone whole.entry × IsTooLong (length word.now) }
{
    match whole {
        Some(text) => Ok(text.clone(rt)),
        None => copy_of(alloc, word),
    }
}
