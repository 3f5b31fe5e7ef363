//! The tokens of many texts, found by 1 to 64 workers.
ghost use Rattle.std.specs.Prelude.{ℕ, ◌<◌, ◌≤◌, IfOk, OnOk};
ghost use Rattle.arctokens.specs.Pieces.{ArePieces};
ghost use Rattle.arctokens.specs.Tokens.{AreTokensOfEach};

use crate::workers::{Gate, pieces_of_all};
use arcstr::{ArcStr, Substr};
use std::alloc::{AllocError, Global};
use std::mem;
use std::sync::Wait;
use std::thread::Threads;

/// A gate at which no worker waits.
struct OpenGate;

impl Gate for OpenGate {
    fn pass(&self, _worker: usize) {}
}

/// Returns the tokens of each text, in the order of the texts: one list for each, as `tokens`
/// returns it. Finds them with `workers` workers, one of which is the calling thread, as
/// `tokens_all_with` does with a gate at which no worker waits. The caller must ensure that there
/// are 1 to 64 workers. Fails only if an allocation fails.
///
/// ```
/// let texts = [literal!("foo   bar"), literal!("")];
/// let lists = tokens_all(&rt, rt.alloc(), &texts, 4)?;
/// assert_eq!(rt; lists.len(), 2);
/// assert_eq!(rt; lists[0].len(), 2);
/// assert_eq!(rt; lists[1].len(), 0);
/// ```
pub fn tokens_all<R: Threads + Wait + Sync>(
    rt: &R,
    alloc: Global,
    texts: &[ArcStr],
    workers: usize,
) -> Result<Vec<Vec<Substr>>, AllocError>
    requires { (1 ≤ workers) × (workers ≤ 64) }
    ensures { IfOk result (λ lists. AreTokensOfEach texts.now lists.items) }
{
    tokens_all_with(rt, alloc, texts, workers, &OpenGate)
}

/// Returns the tokens of each text, in the order of the texts: one list for each, as `tokens`
/// returns it.
///
/// Text `i` goes to worker `i % workers`. A worker passes the gate once, and then finds the tokens
/// of its texts. The last worker is the calling thread; each other has a thread of its own. The
/// calling thread starts all of them first. For each that cannot be started it then passes the gate
/// and processes the texts, before it does its own work.
///
/// The caller must ensure that there are 1 to 64 workers. The call joins all threads, and so can
/// wait. It fails only if an allocation fails: a thread that cannot be started is not an error.
///
/// After an error, every started thread has been joined, and no slice is left. Tests check what the
/// contract does not say: that the threads run at once, that a worker passes the gate only once,
/// and before its first text, and that a call succeeds if memory is available.
///
/// ```
/// struct Open;
/// impl Gate for Open {
///     fn pass(&self, _worker: usize) {}
/// }
/// assert_eq!(rt; tokens_all_with(&rt, rt.alloc(), &[], 2, &Open)?.len(), 0);
/// ```
pub fn tokens_all_with<R: Threads + Wait + Sync, G: Gate + Sync>(
    rt: &R,
    alloc: Global,
    texts: &[ArcStr],
    workers: usize,
    gate: &G,
) -> Result<Vec<Vec<Substr>>, AllocError>
    requires { (1 ≤ workers) × (workers ≤ 64) }
    ensures tokens { IfOk result (λ lists. AreTokensOfEach texts.now lists.items) }
    // Promise: Each worker passes the gate with its number.
    ensures all_passed { OnOk result ((worker : ℕ) → worker < workers → G.passed gate.now worker) }
{
    let pieces = pieces_of_all(rt, alloc, texts, workers, gate)?;
    in_order_of_texts(alloc, texts, workers, pieces)
}

/// Returns the lists of all pieces in the order of the texts, which the workers took in turn.
fn in_order_of_texts(
    alloc: Global,
    texts: &[ArcStr],
    workers: usize,
    mut pieces: Vec<Vec<Vec<Substr>>>,
) -> Result<Vec<Vec<Substr>>, AllocError>
    requires some { 1 ≤ workers }
    requires pieces { ArePieces texts.now workers pieces.items }
    ensures { IfOk result (λ lists. AreTokensOfEach texts.now lists.items) }
{
    let mut lists = Vec::with_capacity(alloc, texts.len())?;
    for number in 0..texts.len() {
        let piece = &mut pieces[number % workers];
        let list = mem::replace(&mut piece[number / workers], Vec::new(alloc));
        lists.push_reserved(list);
    }
    Ok(lists)
}
