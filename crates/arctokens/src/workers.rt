//! Workers that find the tokens of many texts: the calling thread, and each other in a thread of
//! its own.
ghost use Rattle.std.specs.Prelude.{◌≡◌, ◌≤◌, ◌<◌, ℕ, List, length, IfOk, OnOk, IfSome, vec_len, vec_capacity, slice_index_or};
ghost use Rattle.arcstr.specs.TextView.{TextView};
ghost use Rattle.arctokens.specs.Pieces.{ArePieces, IsPieceOf};
ghost use Rattle.arctokens.specs.Tokens.{AreTokens};
ghost use Rattle.arctokens.specs.Shares.{AreSharesOfFirst, IsPromiseOf, IsShare};

use crate::one_text::tokens;
use arcstr::{ArcStr, Substr};
use std::alloc::{AllocError, Global};
use std::sync::Wait;
use std::thread;
use std::thread::{Promise, PromisedHandle, Threads};

/// A gate that each worker passes once, before its first text. The contract of `tokens_all_with`
/// says that each worker passes. Tests check that it passes only once, and before its first text.
///
/// ```
/// struct Open;
/// impl Gate for Open {
///     fn pass(&self, _worker: usize) {}
/// }
/// tokens_all_with(&rt, rt.alloc(), &[literal!("a b")], 2, &Open)?;
/// ```
pub trait Gate {
    /// What is known once the worker with this number has passed; by default nothing.
    ghost passed: { Self → ℕ → Type 0 } = { λ _ _. Unit {0} };

    /// Called once for each worker, with its number, even if the worker has no text.
    fn pass(&self, worker: usize)
        ensures { passed self.now worker };
}

/// The lists of one worker's texts, or an allocation failure.
type Piece = Result<Vec<Vec<Substr>>, AllocError>;

/// Promises that one worker passes the gate, and its piece when there are `workers` of them.
#[derive(Drop)]
struct PieceOf<'a, G: Gate> {
    texts: &'a [ArcStr],
    workers: usize,
    worker: usize,
    gate: &'a G,
}

impl<'a, G: Gate> PieceOf<'a, G> {
    fn new(texts: &'a [ArcStr], workers: usize, worker: usize, gate: &'a G) -> PieceOf<'a, G>
        ensures { IsPromiseOf texts.now workers worker gate.now result }
    {
        PieceOf {
            texts,
            workers,
            worker,
            gate,
        }
    }
}

impl<'a, G: Gate> Promise<Piece> for PieceOf<'a, G> {
    ghost kept_by = { λ promise piece.
        IsPieceOf promise.texts.now promise.workers promise.worker piece × G.passed promise.gate.now promise.worker };
}

type PieceThread<'a, G> = PromisedHandle<Piece, PieceOf<'a, G>>;

/// Where a worker's piece comes from.
#[derive(Drop)]
enum Share<'a, G: Gate> {
    /// A thread that is not yet joined.
    Thread(PieceThread<'a, G>),
    /// A piece from the calling thread: its own, or that of a worker whose thread could not be
    /// started.
    Own(Piece),
}

impl<'a, G: Gate> Share<'a, G> {
    /// Returns the piece, after joining the thread that finds it.
    fn into_piece<R: Threads>(self, rt: &R) -> Piece
        ensures { (texts : List TextView) (workers worker : ℕ) (gate : _)
            → IsShare G.passed texts workers worker gate self.entry
            → IsPieceOf texts workers worker result × G.passed gate worker }
    {
        match self {
            Share::Thread(thread) => thread.join(rt),
            Share::Own(piece) => piece,
        }
    }
}

/// Starts a thread for each worker but the last, does the last worker's work itself, and joins all
/// threads. Returns the pieces in the order of the workers. Allocates the list of thread handles
/// before it starts the first thread, so that it can join each.
pub(crate) fn pieces_of_all<R: Threads + Wait + Sync, G: Gate + Sync>(
    rt: &R,
    alloc: Global,
    texts: &[ArcStr],
    workers: usize,
    gate: &G,
) -> Result<Vec<Vec<Vec<Substr>>>, AllocError>
    requires { (1 ≤ workers) × (workers ≤ 64) }
    ensures pieces { IfOk result (λ pieces. ArePieces texts.now workers pieces.items) }
    ensures all_passed { OnOk result ((worker : ℕ) → worker < workers → G.passed gate.now worker) }
{
    thread::scope(
        thread::scope_env(),
        rt,
        |scope| -> Result<Vec<Vec<Vec<Substr>>>, AllocError>
            requires { (1 ≤ workers) × (workers ≤ 64) }
            ensures pieces { IfOk result
                (λ pieces. ArePieces texts.entry.now workers pieces.items) }
            ensures all_passed { OnOk result
                ((worker : ℕ) → worker < workers → G.passed gate.entry.now worker) }
        {
            let mut threads: Vec<Option<PieceThread<G>>> = Vec::with_capacity(alloc, workers)?;
            let shares: Vec<Share<G>> = Vec::with_capacity(alloc, workers)?;
            let pieces: Vec<Vec<Vec<Substr>>> = Vec::with_capacity(alloc, workers)?;
            for worker in 0..workers - 1 {
                let started = scope.spawn_with(
                    PieceOf::new(texts, workers, worker, gate),
                    move || -> Piece
                        requires { (worker < workers) × (workers ≤ 64) }
                    { piece_of(rt, alloc, texts, workers, worker, gate) },
                );
                threads.push_reserved(started.ok());
            }
            threads.push_reserved(None);
            let shares = shares_of_all(rt, alloc, texts, workers, gate, threads, shares);
            pieces_of_shares(rt, texts, workers, gate, shares, pieces)
        },
    )
}

/// Returns the shares of all workers: their threads, or for a worker without a thread the piece
/// that the calling thread finds instead. Joins no thread.
fn shares_of_all<'a, R: Wait, G: Gate>(
    rt: &R,
    alloc: Global,
    texts: &[ArcStr],
    workers: usize,
    gate: &G,
    threads: Vec<Option<PieceThread<'a, G>>>,
    mut shares: Vec<Share<'a, G>>,
) -> Vec<Share<'a, G>>
    requires workers { workers ≤ 64 }
    requires one_each { vec_len threads ≡ workers }
    requires promised { (worker : ℕ) (d : _) → worker < workers
        → IfSome (slice_index_or threads.items worker d)
        (λ thread. IsPromiseOf texts.now workers worker gate.now thread.promise) }
    requires empty { vec_len shares ≡ 0 }
    requires room { workers ≤ vec_capacity shares }
    ensures { AreSharesOfFirst G.passed texts.now workers workers gate.now result.items }
{
    for thread in threads {
        let worker = shares.len();
        shares.push_reserved(share_of(rt, alloc, texts, workers, worker, gate, thread));
    }
    shares
}

/// Returns the share of one worker.
fn share_of<'a, R: Wait, G: Gate>(
    rt: &R,
    alloc: Global,
    texts: &[ArcStr],
    workers: usize,
    worker: usize,
    gate: &G,
    thread: Option<PieceThread<'a, G>>,
) -> Share<'a, G>
    requires worker { worker < workers }
    requires workers { workers ≤ 64 }
    requires promised { IfSome thread
        (λ thread. IsPromiseOf texts.now workers worker gate.now thread.promise) }
    ensures { IsShare G.passed texts.now workers worker gate.now result }
{
    match thread {
        Some(thread) => Share::Thread(thread),
        None => Share::Own(piece_of(rt, alloc, texts, workers, worker, gate)),
    }
}

/// Does the work of one worker: passes the gate, and then finds the tokens of each of its texts.
fn piece_of<R: Wait, G: Gate>(
    rt: &R,
    alloc: Global,
    texts: &[ArcStr],
    workers: usize,
    worker: usize,
    gate: &G,
) -> Piece
    requires worker { worker < workers }
    requires workers { workers ≤ 64 }
    ensures piece { IsPieceOf texts.now workers worker result }
    ensures passed { G.passed gate.now worker }
{
    gate.pass(worker);
    let mut lists = Vec::new(alloc);
    let mut number = worker;
    while number < texts.len() {
        lists.push(tokens_of_one(rt, alloc, texts, number)?)?;
        number += workers;
    }
    Ok(lists)
}

/// Returns the tokens of the text with this number. The proof of `piece_of` cites it.
fn tokens_of_one<R: Wait>(
    rt: &R,
    alloc: Global,
    texts: &[ArcStr],
    number: usize,
) -> Result<Vec<Substr>, AllocError>
    requires { number < length texts.now }
    ensures { IfOk result (λ tokens. (d : TextView)
        → AreTokens (slice_index_or texts.now number d) tokens.items) }
{
    tokens(rt, alloc, &texts[number])
}

/// Returns the pieces of all shares. Joins every thread first, and then returns an error if an
/// allocation of any worker failed.
fn pieces_of_shares<'a, R: Threads, G: Gate>(
    rt: &R,
    texts: &[ArcStr],
    workers: usize,
    gate: &G,
    shares: Vec<Share<'a, G>>,
    mut pieces: Vec<Vec<Vec<Substr>>>,
) -> Result<Vec<Vec<Vec<Substr>>>, AllocError>
    requires shares { AreSharesOfFirst G.passed texts.now workers workers gate.now shares.items }
    requires empty { vec_len pieces ≡ 0 }
    requires room { workers ≤ vec_capacity pieces }
    ensures pieces { IfOk result (λ pieces. ArePieces texts.now workers pieces.items) }
    ensures all_passed { OnOk result ((worker : ℕ) → worker < workers → G.passed gate.now worker) }
{
    for share in shares {
        if let Ok(lists) = share.into_piece(rt) {
            pieces.push_reserved(lists);
        }
    }
    if pieces.len() < workers {
        return Err(AllocError);
    }
    Ok(pieces)
}
