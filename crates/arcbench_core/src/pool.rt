//! Callers in threads of their own, each with its own handle on one text.
ghost use Rattle.std.specs.Prelude.{◌≡◌, ◌≢◌, ℕ, ◌<◌, ◌≤◌, ◌↔◌, IfOk, OnOk, IsErr, IsOkAnd, Ok, Err, Some, vec_len, slice_index_or};
ghost use Rattle.arcbench_core.specs.Threads.{pool_fault_number, pool_fault_text};

use arcstr::ArcStr;
use std::alloc::{AllocError, Global};
use std::error::Error;
use std::sync::Wait;
use std::thread::{Promise, PromisedHandle, Threads};
use std::{fmt, thread};

/// What each worker passes once, between its clone and its end.
///
/// ```
/// struct Open;
/// impl Gate for Open {
///     fn pass(&self, _worker: usize) {}
/// }
/// callers(&rt, rt.alloc(), &literal!("foobar"), 2, &Open)?;
/// ```
pub trait Gate {
    /// What is known once the worker with this number has passed; by default nothing.
    ghost passed: { Self → ℕ → Type 0 } = { λ _ _. Unit {0} };

    /// Called once by each worker, with its number.
    fn pass(&self, worker: usize)
        ensures { passed self.now worker };
}

/// Why the workers could not all do their work.
///
/// Plain data of 1 byte: it may be copied, sent and shared, and its drop does nothing.
///
/// ```
/// let fault = PoolFault::NoThread;
/// assert_eq!(rt; format!(in rt.alloc(); "{fault}")?.as_str(), "no thread");
/// ```
#[derive(Clone, Copy, Debug, PartialEq, Eq)]
pub enum PoolFault {
    /// There was no memory for the lists of workers and handles.
    Memory,
    /// A thread could not be started, because of an allocation failure or otherwise.
    NoThread,
}

impl PoolFault {
    /// Returns the number of the fault, counted from 1.
    ///
    /// ```
    /// assert_eq!(rt; PoolFault::NoThread.number(), 2);
    /// ```
    pub fn number(&self) -> u8
        ensures { result ≡ pool_fault_number self.now }
    {
        match self {
            PoolFault::Memory => 1,
            PoolFault::NoThread => 2,
        }
    }

    /// Returns the text of the fault, as it is printed.
    ///
    /// ```
    /// assert_eq!(rt; PoolFault::Memory.text(), "out of memory");
    /// ```
    pub fn text(&self) -> &'static str
        ensures { result.now ≡ pool_fault_text self.now }
    {
        match self {
            PoolFault::Memory => "out of memory",
            PoolFault::NoThread => "no thread",
        }
    }
}

impl fmt::Display for PoolFault {
    ghost output = { λ fault. Some (pool_fault_text fault) };

    fn fmt<W: fmt::Write>(&self, f: &mut fmt::Formatter<W>) -> fmt::Result {
        f.write_str(self.text())
    }
}

impl Error for PoolFault {}

impl From<AllocError> for PoolFault {
    ghost use Rattle.arcbench_core.specs.declared.pool.PoolFault.TheVariants.{Memory};

    ghost from_gives = { λ _ given. given ≡ Memory };

    fn from(_: AllocError) -> PoolFault {
        PoolFault::Memory
    }
}

/// Promises a handle on this text, from the worker with this number, which has passed this gate.
#[derive(Drop)]
struct HandleOf<'a, G: Gate> {
    text: &'a ArcStr,
    gate: &'a G,
    worker: usize,
}

impl<'a, G: Gate> Promise<ArcStr> for HandleOf<'a, G> {
    ghost kept_by = { λ promise handle. (handle ≡ promise.text.now) × G.passed promise.gate.now promise.worker };
}

type Worker<'a, G> = PromisedHandle<ArcStr, HandleOf<'a, G>>;

/// Starts `workers` threads, each of which clones the text, passes the gate once with its number
/// and returns its clone. The call returns their handles in the order of the workers. It fails with
/// `Memory` if there was no memory for the lists of workers and handles, and with `NoThread` if a
/// thread was not started. After either fault every thread that was started has been joined, and
/// its clone dropped.
///
/// The contract does not say that memory and threads are available: the test
/// `all_callers_run_at_once` catches a body that always refuses.
///
/// ```
/// struct Open;
/// impl Gate for Open {
///     fn pass(&self, _worker: usize) {}
/// }
/// assert!(rt; callers(&rt, rt.alloc(), &ArcStr::new(), 2, &Open).is_ok());
/// ```
pub fn callers<R: Threads + Wait + Sync, G: Gate + Sync>(
    rt: &R,
    alloc: Global,
    text: &ArcStr,
    workers: usize,
    gate: &G,
) -> Result<Vec<ArcStr>, PoolFault>
    requires { (1 ≤ workers) × (workers ≤ 64) }
    // Promise: There is one handle for each worker, and each has the same text.
    ensures one_each { IfOk result (λ handles. vec_len handles ≡ workers) }
    ensures same_text { IfOk result
        (λ handles. (worker : ℕ) (d : _) → worker < workers
        → slice_index_or handles.items worker d ≡ text.now) }
    // Promise: Each worker passes the gate with its number.
    ensures all_passed { OnOk result ((worker : ℕ) → worker < workers → G.passed gate.now worker) }
{
    thread::scope(
        thread::scope_env(),
        rt,
        |scope| -> Result<Vec<ArcStr>, PoolFault>
            ensures one_each { IfOk result (λ handles. vec_len handles ≡ workers) }
            ensures same_text { IfOk result
                (λ handles. (worker : ℕ) (d : _) → worker < workers
                → slice_index_or handles.items worker d ≡ text.entry.now) }
            ensures all_passed { OnOk result
                ((worker : ℕ) → worker < workers → G.passed gate.entry.now worker) }
        {
            let mut started: Vec<Worker<G>> = Vec::with_capacity(alloc, workers)?;
            for worker in 0..workers {
                let promise = HandleOf { text, gate, worker };
                let Ok(handle) = scope.spawn_with(
                    promise,
                    move || clone_and_pass(rt, text, worker, gate),
                ) else {
                    break;
                };
                started.push_reserved(handle);
            }
            check_all_started(join_all(rt, text, gate, started), workers)
        },
    )
}

/// Does the work of one worker: clones the text, passes the gate, and returns the clone.
fn clone_and_pass<R: Wait, G: Gate>(rt: &R, text: &ArcStr, worker: usize, gate: &G) -> ArcStr
    ensures same_text { result ≡ text.now }
    ensures passed { G.passed gate.now worker }
{
    let handle = text.clone(rt);
    gate.pass(worker);
    handle
}

/// Joins each thread that was started, even if there is no memory for their handles.
fn join_all<'a, R: Threads, G: Gate>(
    rt: &R,
    text: &ArcStr,
    gate: &G,
    started: Vec<Worker<'a, G>>,
) -> Result<Vec<ArcStr>, AllocError>
    requires texts { (worker : ℕ) (d : _) → worker < vec_len started
        → (slice_index_or started.items worker d).promise.text.now ≡ text.now }
    requires gates { (worker : ℕ) (d : _) → worker < vec_len started
        → (slice_index_or started.items worker d).promise.gate.now ≡ gate.now }
    requires numbers { (worker : ℕ) (d : _) → worker < vec_len started
        → (slice_index_or started.items worker d).promise.worker ≡ worker }
    ensures one_each { IfOk result (λ handles. vec_len handles ≡ vec_len started.entry) }
    ensures same_text { IfOk result
        (λ handles. (worker : ℕ) (d : _) → worker < vec_len started.entry
        → slice_index_or handles.items worker d ≡ text.now) }
    ensures all_passed { OnOk result
        ((worker : ℕ) → worker < vec_len started.entry → G.passed gate.now worker) }
{
    match thread::join_promised(rt, started) {
        Ok(handles) => Ok(handles),
        Err(refused) => {
            for worker in refused.value {
                drop(worker.join(rt));
            }
            Err(AllocError)
        }
    }
}

/// Returns the handles if there is one for each worker, and else the fault.
fn check_all_started(
    handles: Result<Vec<ArcStr>, AllocError>,
    workers: usize,
) -> Result<Vec<ArcStr>, PoolFault>
    ensures ok { IfOk result (λ all. (handles ≡ Ok all) × (vec_len all ≡ workers)) }
    ensures memory { (result ≡ Err PoolFault.Memory) ↔ IsErr handles }
    ensures no_thread { (result ≡ Err PoolFault.NoThread)
        ↔ IsOkAnd handles (λ all. vec_len all ≢ workers) }
{
    let handles = handles?;
    if handles.len() == workers {
        Ok(handles)
    } else {
        Err(PoolFault::NoThread)
    }
}
