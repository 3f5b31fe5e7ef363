//! What the program prints of callers in threads.
ghost use Rattle.std.specs.Prelude.{◌≡◌, ◌≤◌, length, vec_len, ◌++◌, ◌∷◌, [], IfOk, IfErr, OnOk, OnErr, Err, string_bytes, codes};
ghost use Rattle.std.specs.Fmt.{decimal};
ghost use Rattle.arcbench_core.specs.Line.{newline};
ghost use Rattle.arcbench_core.specs.Threads.{shared_text, ReadSharedText, worker_line, worker_lines, threads_answer};

use crate::pool::{Gate, PoolFault, callers};
use arcstr::{ArcStr, TextFault};
use std::alloc::{AllocError, Global};
use std::sync::Wait;
use std::thread::Threads;

/// A gate that every worker passes at once.
struct OpenGate;

impl Gate for OpenGate {
    fn pass(&self, _worker: usize) {}
}

/// Starts callers of one text, and returns their handles. The test `each_command_has_its_answer`
/// catches a body that always refuses.
///
/// ```
/// let handles = threads::start(&rt, rt.alloc(), 2)?;
/// assert_eq!(rt; handles.len(), 2);
/// assert_eq!(rt; handles[1].as_str(), "foobar");
/// ```
pub fn start<R: Threads + Wait + Sync>(
    rt: &R,
    alloc: Global,
    workers: usize,
) -> Result<Vec<ArcStr>, PoolFault>
    requires { (1 ≤ workers) × (workers ≤ 64) }
    ensures one_each { IfOk result (λ handles. vec_len handles ≡ workers) }
    ensures shared_text { IfOk result (λ handles. ReadSharedText handles.items) }
{
    start_with(rt, alloc, ArcStr::from_str(alloc, "foobar"), workers)
}

/// Starts callers of this text; returns `Memory` if there is none.
fn start_with<R: Threads + Wait + Sync>(
    rt: &R,
    alloc: Global,
    text: Result<ArcStr, TextFault>,
    workers: usize,
) -> Result<Vec<ArcStr>, PoolFault>
    requires workers { (1 ≤ workers) × (workers ≤ 64) }
    requires shared_text { IfOk text (λ text. text.text ≡ shared_text) }
    ensures one_each { IfOk result (λ handles. vec_len handles ≡ workers) }
    ensures shared_text { IfOk result (λ handles. ReadSharedText handles.items) }
    ensures memory { OnErr text (result ≡ Err PoolFault.Memory) }
{
    match text {
        Ok(text) => callers(rt, alloc, &text, workers, &OpenGate),
        Err(TextFault::Length | TextFault::Memory | TextFault::Utf8(_)) => Err(PoolFault::Memory),
    }
}

/// Returns the lines of callers: one for each caller, with the text as its handle reads it, and a
/// last one with their number. If there are no callers, the fault is that of the pool; else it is
/// `Memory`.
///
/// ```
/// let lines = threads::answer(rt.alloc(), threads::start(&rt, rt.alloc(), 1))?;
/// assert_eq!(rt; lines.as_slice(), b"worker 0 foobar\ndone 1\n".as_slice());
/// ```
pub fn answer(alloc: Global, handles: Result<Vec<ArcStr>, PoolFault>) -> Result<Vec<u8>, PoolFault>
    requires { IfOk handles (λ all. ReadSharedText all.items) }
    ensures lines { IfOk handles (λ all. IfOk result
        (λ out. out.items ≡ threads_answer (vec_len all))) }
    ensures fault_of_the_pool { IfErr handles (λ fault. result ≡ Err fault) }
    ensures memory { OnOk handles (IfErr result (λ fault. fault ≡ PoolFault.Memory)) }
{
    let handles = handles?;
    let mut out = String::new(alloc);
    push_lines(&mut out, &handles)?;
    push_end(&mut out, handles.len())?;
    Ok(out.into_bytes())
}

/// Appends the line of each worker, in the order of their handles.
#[tactic(auto, using(crate::proofs::AnsweredLines::one_worker_more))]
fn push_lines(out: &mut String, handles: &[ArcStr]) -> Result<(), AllocError>
    requires { ReadSharedText handles.now }
    ensures { OnOk result (string_bytes out.new
        ≡ string_bytes out.old ++ worker_lines (length handles.now)) }
{
    for (worker, handle) in handles.iter().enumerate() {
        push_line(out, worker, handle)?;
    }
    Ok(())
}

fn push_line(out: &mut String, worker: usize, handle: &ArcStr) -> Result<(), AllocError>
    ensures { OnOk result (handle.now.text ≡ shared_text
        → string_bytes out.new ≡ string_bytes out.old ++ worker_line worker) }
{
    let text = handle.as_str();
    write!(out, "worker {worker} {text}\n")
}

fn push_end(out: &mut String, workers: usize) -> Result<(), AllocError>
    ensures { OnOk result (string_bytes out.new
        ≡ string_bytes out.old ++ codes "done " ++ decimal workers ++ newline ∷ []) }
{
    write!(out, "done {workers}\n")
}
