//! The program over its arguments, a reader and two writers.
ghost use Rattle.std.specs.Prelude.{◌≡◌, ◌≢◌, ◌≤◌, ◌↔◌, ◌⊎◌, false, IsTrue, IsSome, IfSome, IfOk, IfErr, OnOk, None, Some, Err, vec_len};
ghost use Rattle.std.specs.Io.KnownBytes.{IsAtEnd, Appends};
ghost use Rattle.std.specs.IoError.{error_kind};
ghost use Rattle.std.specs.Str.{IsUtf8};
ghost use Rattle.arcstr_world.specs.declared.faults.RunFault.TheVariants.{LimitTooLarge};
ghost use Rattle.arcbench_core.specs.Script.{answer_to};
ghost use Rattle.arcbench_core.specs.Threads.{ReadSharedText, threads_answer};
ghost use Rattle.arcbench_core.specs.TokenLines.{WritesTokens};
ghost use Rattle.arcbench_core.specs.Program.{command_in, worker_count, fault_of, fault_of_input, status_of, HasLawfulCount, IsDone, ReadsInput};
ghost use Rattle.arcbench_core.specs.Program.{IsForScript, IsForThreads, IsForTokens, IsFaultOfThreads, IsFaultOfTokens};

use crate::input::{InputFault, read_to_end};
use crate::numbers::number_of;
use crate::pool::PoolFault;
use crate::port::Port;
use crate::script::{CopyFault, copy};
use crate::tokens::TokensFault;
use crate::{threads, tokens};
use arcstr::ArcStr;
use std::alloc::{Allocator, Global};
use std::io;
use std::io::{ErrorKind, Read, Write};
use std::sync::Wait;
use std::thread::Threads;
use thiserror::Error;

/// A command of the program.
#[derive(Clone, Copy, Debug, PartialEq, Eq)]
pub(crate) enum Command {
    /// Runs the script in its input.
    Script,
    /// Starts this many callers of one text, from 1 to 64.
    Threads(usize),
    /// Prints the words of the lines of its input. This many workers, from 1 to 64, find the words.
    Tokens(usize),
}

/// Why the program ends with a status above 0, with the line that it prints.
#[derive(Clone, Copy, Debug, PartialEq, Eq, Error)]
pub(crate) enum Fault {
    #[error("usage: arcbench script, arcbench threads N, arcbench tokens N")]
    Usage,
    #[error("arcbench: limit too large")]
    LimitTooLarge,
    #[error("arcbench: out of memory")]
    Memory,
    #[error("arcbench: io")]
    Io,
    #[error("arcbench: no thread")]
    NoThread,
    #[error("arcbench: not UTF-8")]
    NotUtf8,
}

impl From<CopyFault> for Fault {
    ghost from_gives = { λ fault given. given ≡ fault_of fault };

    fn from(fault: CopyFault) -> Fault {
        match fault {
            CopyFault::LimitTooLarge => Fault::LimitTooLarge,
            CopyFault::Memory => Fault::Memory,
            CopyFault::Io => Fault::Io,
        }
    }
}

impl From<InputFault> for Fault {
    ghost from_gives = { λ fault given. given ≡ fault_of_input fault };

    fn from(fault: InputFault) -> Fault {
        match fault {
            InputFault::Memory => Fault::Memory,
            InputFault::Io => Fault::Io,
        }
    }
}

/// Runs the program, and returns its status: 0 if it is done, 1 for arguments that mean no command,
/// 2 for a limit that is too large, 3 for out of memory, 4 for a fault of reading or writing, 5 if
/// a thread could not be started, 6 if the input of `tokens` is not UTF-8.
///
/// A status above 0 has a line, which goes to `errors`; a fault in writing it does not change the
/// status. `rt` permits it to start threads and to wait, and provides the machine's allocator for
/// the texts of threads.
///
/// The contract does not say that memory is available: the test `each_command_has_its_answer`
/// catches a body that always answers 3 to a command.
///
/// ```
/// let args = [String::from_str(rt.alloc(), "script")?];
/// let mut input = Port::new(b"limit 5\nmake\n".as_slice());
/// let (mut out, mut errors) = (Port::new(Vec::new(rt.alloc())), Vec::new(rt.alloc()));
/// let status = serve(&rt, rt.alloc(), &args, &mut input, &mut out, &mut errors);
/// assert_eq!(rt; status, 0);
/// ```
pub fn serve<H, A: Allocator + Copy, R: Read, W: Write, E: Write>(
    rt: &H,
    alloc: A,
    arguments: &[String],
    input: &mut Port<R>,
    output: &mut Port<W>,
    errors: &mut E,
) -> u8
where
    H: Threads + Wait + Sync + AllocGlobal,
    requires input_is_sound { input.old.failed ≡ false }
    requires output_is_sound { output.old.failed ≡ false }

    ensures statuses { result ≤ 6 }
    // Promise: Status 1 comes exactly for arguments that mean no command.
    ensures usage { (result ≡ 1) ↔ (command_in arguments.now ≡ None) }
    // Promise: After status 0 the whole answer was written, and the input was read to its end.
    ensures done { result ≡ 0 → IfSome (command_in arguments.now) (λ command. IsDone command
        (R.remaining input.old.value) (W.contents output.old.value) (W.contents output.new.value)) }
    ensures at_end { result ≡ 0 → ReadsInput arguments.now → IsAtEnd (R.remaining input.new.value) }
    // Promise: Status 2 comes only to `script`. Unless memory or a stream fails, it comes exactly
    // if the script's limit is too large.
    ensures too_large { result ≢ 3 → result ≢ 4 → IsForScript arguments.now
        → IfSome (R.remaining input.old.value)
        (λ script. (result ≡ 2) ↔ (answer_to script ≡ Err LimitTooLarge)) }
    ensures too_large_of_scripts { result ≡ 2 → IsForScript arguments.now }
    // Promise: Status 3 comes only to a command.
    ensures memory { result ≡ 3 → IsSome (command_in arguments.now) }
    // Promise: Status 4 comes exactly if a port failed.
    ensures io { (result ≡ 4) ↔ (IsTrue input.new.failed ⊎ IsTrue output.new.failed) }
    // Promise: Status 5 comes only to `threads`.
    ensures no_thread { result ≡ 5 → IsForThreads arguments.now }
    // Promise: Status 6 comes only to `tokens`. Unless memory or a stream fails, it comes exactly
    // if the input is not UTF-8.
    ensures not_utf8 { result ≢ 3 → result ≢ 4 → IsForTokens arguments.now
        → IfSome (R.remaining input.old.value)
        (λ bytes. (result ≡ 6) ↔ ¬ (IsUtf8 bytes)) }
    ensures not_utf8_of_tokens { result ≡ 6 → IsForTokens arguments.now }

    // What stays the same.
    // Promise: A command without input reads none.
    ensures unread { ¬ (ReadsInput arguments.now) → input.new ≡ input.old }
    // Promise: Nothing was written after a fault of reading, nor after other statuses than 0 and 4.
    ensures unwritten { result ≢ 0 → result ≢ 4 → output.new ≡ output.old }
    ensures unwritten_unread { IsTrue input.new.failed → output.new ≡ output.old }
    // Promise: After status 0 no error was written.
    ensures silent { result ≡ 0 → errors.new ≡ errors.old }
{
    let done = match command_of(arguments) {
        None => Err(Fault::Usage),
        Some(Command::Script) => copy(alloc, input, output).map_err(Fault::from),
        Some(Command::Threads(workers)) => {
            let handles = threads::start(rt, rt.alloc(), workers);
            tell_threads(rt.alloc(), handles, output)
        }
        Some(Command::Tokens(workers)) => tell_tokens(rt, alloc, workers, input, output),
    };
    status_after(errors, done)
}

/// Returns the status if the program's own arguments could not be read: out of memory, or an
/// argument that is not a text, which counts as no command.
///
/// ```
/// use std::io::{self, ErrorKind};
/// let mut errors = Vec::new(rt.alloc());
/// let status = serve_without_words(&mut errors, &io::Error::from(ErrorKind::OutOfMemory));
/// assert_eq!(rt; status, 3);
/// assert_eq!(rt; errors.as_slice(), b"arcbench: out of memory\n".as_slice());
/// ```
pub fn serve_without_words<E: Write>(errors: &mut E, error: &io::Error) -> u8
    ensures memory { (result ≡ 3) ↔ (error_kind error.now ≡ ErrorKind.OutOfMemory) }
    ensures usage { (result ≡ 1) ↔ (error_kind error.now ≢ ErrorKind.OutOfMemory) }
{
    if error.kind() == ErrorKind::OutOfMemory {
        report(errors, Fault::Memory)
    } else {
        report(errors, Fault::Usage)
    }
}

/// Returns the command that the arguments mean; `None` for other arguments.
fn command_of(arguments: &[String]) -> Option<Command>
    ensures value { result ≡ command_in arguments.now }
    ensures lawful { IfSome result HasLawfulCount }
{
    match arguments {
        [command] if command.as_str() == "script" => Some(Command::Script),
        [command, count] if command.as_str() == "threads" => {
            worker_count(count.as_bytes()).map(Command::Threads)
        }
        [command, count] if command.as_str() == "tokens" => {
            worker_count(count.as_bytes()).map(Command::Tokens)
        }
        _ => None,
    }
}

/// Returns the number of workers that an argument means: a NUMBER from 1 to 64.
fn worker_count(argument: &[u8]) -> Option<usize>
    ensures value { result ≡ worker_count argument.now }
    ensures lawful { IfSome result (λ count. (1 ≤ count) × (count ≤ 64)) }
{
    match number_of(argument) {
        Some(count) if 1 <= count && count <= 64 => Some(count as usize),
        _ => None,
    }
}

/// Writes the lines of callers once all lines are there. If there are no callers, returns the fault
/// of the pool.
pub(crate) fn tell_threads<W: Write>(
    alloc: Global,
    handles: Result<Vec<ArcStr>, PoolFault>,
    output: &mut Port<W>,
) -> Result<(), Fault>
    requires shared_text { IfOk handles (λ all. ReadSharedText all.items) }
    requires sound { output.old.failed ≡ false }
    ensures done { IfOk handles (λ all. OnOk result (Appends (W.contents output.old.value)
        (W.contents output.new.value) (threads_answer (vec_len all)))) }
    ensures memory_of_the_pool { handles ≡ Err PoolFault.Memory → result ≡ Err Fault.Memory }
    ensures no_thread { (result ≡ Err Fault.NoThread) ↔ (handles ≡ Err PoolFault.NoThread) }
    ensures fault { IfErr result IsFaultOfThreads }
    ensures io { (result ≡ Err Fault.Io) ↔ IsTrue output.new.failed }
    ensures unwritten { IfErr result (λ fault. fault ≢ Fault.Io → output.new ≡ output.old) }
{
    let lines = match threads::answer(alloc, handles) {
        Ok(lines) => lines,
        Err(PoolFault::Memory) => return Err(Fault::Memory),
        Err(PoolFault::NoThread) => return Err(Fault::NoThread),
    };
    output.write_all(&lines).map_err(|_: io::Error| Fault::Io)
}

/// Reads the input to its end, and writes the lines of its words once all lines are there. `rt`
/// provides the machine's allocator for the texts and their words.
fn tell_tokens<H, A: Allocator + Copy, R: Read, W: Write>(
    rt: &H,
    alloc: A,
    workers: usize,
    input: &mut Port<R>,
    output: &mut Port<W>,
) -> Result<(), Fault>
where
    H: Threads + Wait + Sync + AllocGlobal,
    requires workers { (1 ≤ workers) × (workers ≤ 64) }
    requires input_is_sound { input.old.failed ≡ false }
    requires output_is_sound { output.old.failed ≡ false }

    ensures done { OnOk result (IfSome (R.remaining input.old.value)
        (λ bytes. WritesTokens bytes (W.contents output.old.value) (W.contents output.new.value))) }
    ensures at_end { OnOk result (IsAtEnd (R.remaining input.new.value)) }
    ensures fault { IfErr result IsFaultOfTokens }
    ensures io { (result ≡ Err Fault.Io) ↔ (IsTrue input.new.failed ⊎ IsTrue output.new.failed) }
    ensures not_utf8 { result ≢ Err Fault.Memory → result ≢ Err Fault.Io
        → IfSome (R.remaining input.old.value)
        (λ bytes. (result ≡ Err Fault.NotUtf8) ↔ ¬ (IsUtf8 bytes)) }
    ensures unwritten { IfErr result (λ fault. fault ≢ Fault.Io → output.new ≡ output.old) }
    ensures unwritten_unread { IsTrue input.new.failed → output.new ≡ output.old }
{
    let bytes = read_to_end(alloc, input)?;
    let lines = match tokens::answer(rt, alloc, workers, &bytes) {
        Ok(lines) => lines,
        Err(TokensFault::Memory) => return Err(Fault::Memory),
        Err(TokensFault::NotUtf8) => return Err(Fault::NotUtf8),
    };
    if output.write_all(&lines).is_err() {
        return Err(Fault::Io);
    }
    Ok(())
}

/// Returns the status 0 if all is done, else that of the fault, whose line is printed.
pub(crate) fn status_after<E: Write>(errors: &mut E, done: Result<(), Fault>) -> u8
    ensures ok { OnOk done (result ≡ 0) }
    ensures silent { OnOk done (errors.new ≡ errors.old) }
    ensures fault { IfErr done (λ fault. result ≡ status_of fault) }
{
    match done {
        Ok(()) => 0,
        Err(fault) => report(errors, fault),
    }
}

/// Prints the line of a fault, and returns its status.
fn report<E: Write>(errors: &mut E, fault: Fault) -> u8
    ensures { result ≡ status_of fault }
{
    let _ = writeln!(errors, "{fault}");
    match fault {
        Fault::Usage => 1,
        Fault::LimitTooLarge => 2,
        Fault::Memory => 3,
        Fault::Io => 4,
        Fault::NoThread => 5,
        Fault::NotUtf8 => 6,
    }
}
