//! A reader or a writer that remembers whether it failed.
ghost use Rattle.std.specs.Prelude.{◌≡◌, ◌||◌, false, is_err, OnOk};
ghost use Rattle.std.specs.Io.{ReadsAtMost};
ghost use Rattle.std.specs.Io.KnownBytes.{ReadConsumes, Appends};
ghost use Rattle.arcbench_core.specs.Threads.{PortView};

use std::io;
use std::io::{Read, Write};
use std::marker::Model;

/// A reader or a writer with a flag, which the first error of one of its calls sets permanently.
///
/// It can be sent and shared where its reader or writer can, and its drop drops the reader or
/// writer.
///
/// ```
/// let mut room = [0; 2];
/// let mut port = Port::new(room.as_mut_slice());
/// port.write_all(b"ab")?;
/// assert!(rt; port.write_all(b"c").is_err());
/// assert!(rt; port.failed());
/// ```
#[derive(Drop)]
pub struct Port<T> {
    value: T,
    failed: bool,
}

impl<T> Model for Port<T> {
    ghost Value = { PortView T };

    ghost view = { λ p. record { value = p.value; failed = p.failed } };
}

impl<T> Port<T> {
    /// Makes a port that has not failed.
    ///
    /// ```
    /// let port = Port::new(b"abc".as_slice());
    /// assert!(rt; !port.failed());
    /// ```
    pub fn new(value: T) -> Port<T>
        ensures { result ≡ record { value = value; failed = false } }
    {
        Port {
            value,
            failed: false,
        }
    }

    /// Returns whether a call has failed.
    ///
    /// ```
    /// let mut room = [0; 2];
    /// let mut port = Port::new(room.as_mut_slice());
    /// assert!(rt; port.write_all(b"abc").is_err());
    /// assert!(rt; port.failed());
    /// ```
    pub fn failed(&self) -> bool
        ensures { result ≡ self.now.failed }
    {
        self.failed
    }
}

impl<R: Read> Port<R> {
    /// Reads once from the reader. The contract does not say which error it returns: the test
    /// `a_port_remembers_a_fault` catches a body that returns another one.
    ///
    /// ```
    /// let mut port = Port::new(b"abc".as_slice());
    /// let mut bytes = [0; 4];
    /// assert_eq!(rt; port.read(&mut bytes)?, 3);
    /// assert_eq!(rt; bytes, *b"abc\0");
    /// ```
    pub fn read(&mut self, buf: &mut [u8]) -> io::Result<usize>
        ensures bound { ReadsAtMost result buf.new }
        ensures bytes { ReadConsumes (R.remaining self.old.value) (R.remaining self.new.value)
            result buf.new }
        // Promise: The port remembers a fault.
        ensures failed { self.new.failed ≡ (self.old.failed || is_err result) }
    {
        let result = self.value.read(buf);
        self.failed = self.failed || result.is_err();
        result
    }
}

impl<W: Write> Port<W> {
    /// Writes all the bytes to the writer. The same test checks which error it returns.
    ///
    /// ```
    /// let mut bytes = Vec::new(rt.alloc());
    /// Port::new(&mut bytes).write_all(b"abc")?;
    /// assert_eq!(rt; bytes.as_slice(), b"abc".as_slice());
    /// ```
    pub fn write_all(&mut self, bytes: &[u8]) -> io::Result<()>
        ensures bytes { OnOk result (Appends (W.contents self.old.value) (W.contents self.new.value)
            bytes.now) }
        // Promise: The port remembers a fault.
        ensures failed { self.new.failed ≡ (self.old.failed || is_err result) }
    {
        let result = self.value.write_all(bytes);
        self.failed = self.failed || result.is_err();
        result
    }
}
