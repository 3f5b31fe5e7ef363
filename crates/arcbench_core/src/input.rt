//! The bytes of an input.
ghost use Rattle.std.specs.Prelude.{◌≡◌, ◌↔◌, false, IsTrue, IfOk, OnOk, IfSome, Err};
ghost use Rattle.std.specs.Io.KnownBytes.{IsAtEnd};

use crate::port::Port;
use std::alloc::Allocator;
use std::io::Read;

/// Why an input was not read to its end.
#[derive(Clone, Copy)]
pub(crate) enum InputFault {
    /// There was no memory for the bytes.
    Memory,
    /// Reading failed.
    Io,
}

/// How many bytes one read asks for.
const CHUNK: usize = 8192;

/// Reads all bytes that are left. Any error of a read ends it, including that of an interrupted
/// read.
pub(crate) fn read_to_end<A: Allocator, R: Read>(
    alloc: A,
    input: &mut Port<R>,
) -> Result<Vec<u8, A>, InputFault>
    requires { input.old.failed ≡ false }
    ensures bytes { IfOk result (λ script. IfSome (R.remaining input.old.value)
        (λ bytes. script.items ≡ bytes)) }
    ensures at_end { OnOk result (IsAtEnd (R.remaining input.new.value)) }
    ensures io { (result ≡ Err InputFault.Io) ↔ IsTrue input.new.failed }
{
    let mut script = Vec::new(alloc);
    let mut chunk = [0; CHUNK];
    loop {
        match input.read(&mut chunk) {
            Err(_) => return Err(InputFault::Io),
            Ok(0) => return Ok(script),
            Ok(count) => {
                if script.extend_from_slice(&chunk[..count]).is_err() {
                    return Err(InputFault::Memory);
                }
            }
        }
    }
}
