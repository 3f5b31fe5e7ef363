//! Reads texts from readers and files, into the block that is to hold them. No call here takes an
//! atomic step.
ghost use Rattle.std.specs.Prelude.{◌≡◌, ◌≤◌, ◌<◌, ◌+◌, List, ℕ, [], ◌++◌, length, take, drop, true, false};
ghost use Rattle.std.specs.Prelude.{IfSome, IfOk, IfErr, OnOk, OnErr};
ghost use Rattle.std.specs.Io.KnownBytes.{Consumes, Keeps, IsAtEnd};
ghost use mathlib.Core.List.{IsPrefix};
ghost use Rattle.arcstr.specs.Building.{HasRoom};
ghost use Rattle.arcstr.specs.TextView.{literal_of};
ghost use Rattle.arcstr.specs.Reading.{HasRead, IsFaultOfTaking, IsFaultOfReading, IsNoInterrupt};

use crate::arc_str::ArcStr;
use crate::builder::ArcStrBuilder;
use arcstr_block::TextFault;
use std::alloc::Global;
use std::error::Error;
use std::fs::{File, OpenFile};
use std::io::{ErrorKind, Read};
use std::marker::Model;
use std::path::AsPath;
use std::rt::Files;
use std::{fmt, io};

/// How many bytes one read asks for at most.
const CHUNK: usize = 16 * 1024;

/// For how many bytes more there is room at least, after a read that found none.
const ROOM: usize = 1024;

/// The most bytes that a builder holds back: those of one character.
const HELD: usize = 4;

/// Why a text cannot be read. It is plain data, and prints what is wrong. `?` converts it to an
/// `io::Error` or an `anyhow::Error`.
///
/// ```
/// let fault = ArcStr::read_from(rt.alloc(), b"a\xc3".as_slice()).err();
/// assert!(rt; matches!(fault, Some(ReadFault::Text(TextFault::Utf8(1)))));
/// ```
#[derive(Clone, Copy, Debug)]
pub enum ReadFault {
    /// The file cannot be opened, or a read failed.
    Io(io::Error),
    /// The bytes are not UTF-8, or there is no memory for the text.
    Text(TextFault),
}

impl fmt::Display for ReadFault {
    fn fmt<W: fmt::Write>(&self, f: &mut fmt::Formatter<W>) -> fmt::Result {
        match self {
            ReadFault::Io(error) => error.fmt(f),
            ReadFault::Text(fault) => fault.fmt(f),
        }
    }
}

impl Error for ReadFault {}

impl From<TextFault> for ReadFault {
    ghost use Rattle.arcstr.specs.declared.reading.ReadFault.TheVariants.{Text};

    ghost from_gives = { λ fault made. made ≡ Text fault };

    fn from(fault: TextFault) -> ReadFault {
        ReadFault::Text(fault)
    }
}

impl From<io::Error> for ReadFault {
    ghost use Rattle.arcstr.specs.declared.reading.ReadFault.TheVariants.{Io};

    ghost from_gives = { λ error made. made ≡ Io error };

    fn from(error: io::Error) -> ReadFault {
        ReadFault::Io(error)
    }
}

// So one function can read texts and do other I/O, with `?` for both.
impl From<ReadFault> for io::Error {
    fn from(fault: ReadFault) -> io::Error {
        match fault {
            ReadFault::Io(error) => error,
            ReadFault::Text(fault) => io::Error::from(fault),
        }
    }
}

impl ArcStr {
    /// Reads a text to the end of a reader, as `io::read_to_string` does. Without bytes the text is
    /// the empty literal. The bytes are checked as they come, and written to the block. The block
    /// grows as that of an `ArcStrBuilder`, and a text that does not fill it is copied once to a
    /// block of its length.
    ///
    /// Errors: `Io` if a read fails, but an interrupted read is tried again; `Text` with `Utf8` if
    /// the bytes are not UTF-8, with the length in bytes of their longest prefix that is; `Text`
    /// with `Length` or `Memory` as from `push_str`. The first that is met is returned.
    ///
    /// ```
    /// let text = ArcStr::read_from(rt.alloc(), "foobar".as_bytes())?;
    /// assert_eq!(rt; text.as_str(), "foobar");
    /// ```
    pub fn read_from<R: Read>(alloc: Global, reader: R) -> Result<ArcStr, ReadFault>
    where
        R: Drop,
        ensures text { IfOk result
            (λ made. IfSome (R.remaining reader) (λ bytes. made.text ≡ bytes)) }
        // Promise: An empty text is the empty literal.
        ensures empty { IfOk result (λ made. made.text ≡ [] → made ≡ literal_of []) }
        // Promise: An interrupted read is tried again.
        ensures retried { IfErr result IsNoInterrupt }
    {
        read_whole(ArcStrBuilder::new(alloc), reader)
    }

    /// Reads a file as a text, as `fs::read_to_string` does. The length of the file gives the
    /// capacity, so the call makes one allocation of the text's size. If the file changes meanwhile
    /// the text is what the reads gave, and may be copied once. An empty text is the empty literal.
    /// The path `/dev/stdin` names standard input, from its beginning if it is a file.
    ///
    /// Errors are those of `read_from`, and `Io` if the file cannot be opened.
    ///
    /// ```
    /// let fault = ArcStr::read_file(&rt, "no/such/file").err();
    /// assert!(rt; matches!(fault, Some(ReadFault::Io(_))));
    /// ```
    pub fn read_file<R: AllocGlobal + Files, P: AsPath>(
        rt: &R,
        path: P,
    ) -> Result<ArcStr, ReadFault>
        // Promise: An empty text is the empty literal.
        ensures empty { IfOk result (λ made. made.text ≡ [] → made ≡ literal_of []) }
    {
        let file = File::open(rt, path)?;
        let builder = ArcStrBuilder::with_capacity(rt.alloc(), size_of_file(&file))?;
        read_whole(builder, file)
    }
}

impl ArcStrBuilder {
    /// Appends what a reader gives to its end, as `read_to_string` does. If there is room for it,
    /// the call does not allocate.
    ///
    /// Errors are those of `ArcStr::read_from`; the number of `Utf8` is the length of the text
    /// then. The text so far stays, and what was read before the fault is appended to it. After
    /// `Utf8` the bytes from the fault on are lost. After any other error no byte is: those of a
    /// character that is not read whole are held back, and the next call begins with them.
    ///
    /// ```
    /// let mut builder = ArcStrBuilder::with_capacity(rt.alloc(), 6)?;
    /// builder.push_str("foo")?;
    /// builder.read_from(&mut "bar".as_bytes())?;
    /// assert_eq!(rt; builder.finish()?.as_str(), "foobar");
    /// ```
    pub fn read_from<R: Read>(&mut self, reader: &mut R) -> Result<(), ReadFault>
        ensures text { OnOk result (IfSome (R.remaining reader.old)
            (λ bytes. self.new.text ≡ (self.old.text ++ self.old.held) ++ bytes)) }
        ensures held { OnOk result (self.new.held ≡ []) }
        ensures end { OnOk result (IsAtEnd (R.remaining reader.new)) }
        // Promise: Whether or not the call fails, the text begins with the text before it.
        ensures kept { IsPrefix self.old.text self.new.text }
        // Promise: An interrupted read is tried again, `Utf8` has the length of the text, and
        // after any other error each byte that was read is in the text or held back.
        ensures refused { IfErr result (IsFaultOfReading self.new.text
            (HasRead (R.remaining reader.old) (R.remaining reader.new) self.old self.new)) }
    {
        let mut chunk = [0u8; CHUNK];
        let held = self.held.copy_to(&mut chunk);
        if let Err(fault) = self.take_in(&chunk[..held]) {
            return Err(ReadFault::Text(fault));
        }
        for _ in 0..u64::MAX {
            match read_chunk(self, reader, &mut chunk) {
                Ok(true) => {}
                Ok(false) => return Ok(()),
                Err(fault) => return Err(fault),
            }
        }
        Err(ReadFault::Io(io::Error::new(ErrorKind::TimedOut, "gave up after 2^64 reads")))
    }

    /// Appends the longest text at the start of the bytes, and holds back what follows it if that
    /// may be the beginning of a character. It takes the place of what was held back before.
    fn take_in(&mut self, bytes: &[u8]) -> Result<(), TextFault>
        requires { HELD < length bytes.now → HasRoom self.old (length bytes.now) }
        ensures few { IfOk result (λ _. length self.new.held < HELD) }
        ensures all { IfOk result
            (λ _. self.new.text ++ self.new.held ≡ self.old.text ++ bytes.now) }
        ensures kept { IsPrefix self.old.text self.new.text }
        ensures refused { IfErr result (IsFaultOfTaking self.new.text
            (self.new.text ++ self.new.held ≡ self.old.text ++ bytes.now)) }
    {
        let mut rest = bytes;
        if let Some(first) = bytes.utf8_chunks().next() {
            let text = first.valid();
            let room = self.capacity().saturating_sub(self.len());
            let wanted = if text.len() <= room { 0 } else { ROOM };
            if let Err(fault) = self.reserve(wanted) {
                self.held = Held::of(bytes);
                return Err(fault);
            }
            self.push_str(text)?;
            rest = &bytes[text.len()..];
        }
        if may_begin_a_character(rest) {
            self.held = Held::of(rest);
            return Ok(());
        }
        self.held = Held::none();
        Err(TextFault::Utf8(self.len()))
    }
}

/// The bytes that a builder holds back: the beginning of a character, or a whole one for which
/// there was no memory. A contract sees these bytes.
#[derive(Drop)]
pub(crate) struct Held {
    bytes: [u8; HELD],
    count: u8,
    ghost few: { count ≤ 4 },
}

impl Model for Held {
    ghost Value = { List ℕ };

    ghost view = { λ held. take held.count held.bytes };
}

impl Held {
    pub(crate) fn none() -> Held
        ensures { result ≡ [] }
    {
        Held {
            bytes: [0; HELD],
            count: 0,
        }
    }

    fn of(bytes: &[u8]) -> Held
        requires { length bytes.now ≤ HELD }
        ensures { result ≡ bytes.now }
    {
        let mut held = [0; HELD];
        held[..bytes.len()].copy_from_slice(bytes);
        Held {
            bytes: held,
            count: bytes.len() as u8,
        }
    }

    /// Copies the bytes to the start of a chunk, and returns how many they are.
    fn copy_to(&self, chunk: &mut [u8]) -> usize
        requires { HELD ≤ length chunk.old }
        ensures bytes { take result chunk.new ≡ self.now }
        ensures count { result ≡ length self.now }
        ensures few { result ≤ HELD }
        ensures long { length chunk.new ≡ length chunk.old }
    {
        let count = self.count as usize;
        chunk[..count].copy_from_slice(&self.bytes[..count]);
        count
    }
}

/// Whether the bytes are none, or the first of a character and not all of it.
fn may_begin_a_character(bytes: &[u8]) -> bool
    ensures { result ≡ true → length bytes.now < HELD }
{
    let fault = str::from_utf8(bytes).err();
    bytes.len() < HELD && fault.is_none_or(|fault| fault.error_len().is_none())
}

/// Reads to the end of a reader into a builder of an empty text, and returns the text.
fn read_whole<R: Read>(mut builder: ArcStrBuilder, mut reader: R) -> Result<ArcStr, ReadFault>
where
    R: Drop,
    requires { (builder.text ≡ []) × (builder.held ≡ []) }
    ensures text { IfOk result (λ made. IfSome (R.remaining reader) (λ bytes. made.text ≡ bytes)) }
    ensures empty { IfOk result (λ made. made.text ≡ [] → made ≡ literal_of []) }
    ensures retried { IfErr result IsNoInterrupt }
{
    builder.read_from(&mut reader)?;
    Ok(builder.finish()?)
}

/// Reads once, and appends the text that is there then. Returns `false` at the end of the input.
/// Where there is no room it reads only as many bytes as can be held back.
fn read_chunk<R: Read>(
    builder: &mut ArcStrBuilder,
    reader: &mut R,
    chunk: &mut [u8],
) -> Result<bool, ReadFault>
    requires room { HELD ≤ length chunk.old }
    requires few { length builder.old.held < HELD }
    ensures long { length chunk.new ≡ length chunk.old }
    ensures few { IfOk result (λ _. length builder.new.held < HELD) }
    ensures read { IfOk result (λ _.
        HasRead (R.remaining reader.old) (R.remaining reader.new) builder.old builder.new) }
    ensures end { IfOk result (λ more. more ≡ false
        → (builder.new.held ≡ []) × IsAtEnd (R.remaining reader.new)) }
    ensures kept { IsPrefix builder.old.text builder.new.text }
    ensures refused { IfErr result (IsFaultOfReading builder.new.text
        (HasRead (R.remaining reader.old) (R.remaining reader.new) builder.old builder.new)) }
{
    let start = builder.held.copy_to(chunk);
    let room = builder.capacity().saturating_sub(builder.len());
    let end = room.clamp(HELD, chunk.len());
    match read_at(reader, chunk, start, end) {
        Ok(0) if start == 0 => Ok(false),
        Ok(0) => {
            builder.held = Held::none();
            Err(ReadFault::Text(TextFault::Utf8(builder.len())))
        }
        Ok(count) => match builder.take_in(&chunk[..start + count]) {
            Ok(()) => Ok(true),
            Err(fault) => Err(ReadFault::Text(fault)),
        },
        Err(error) if error.kind() == ErrorKind::Interrupted => Ok(true),
        Err(error) => Err(ReadFault::Io(error)),
    }
}

/// Reads once, into the bytes from `start` to `end`.
fn read_at<R: Read>(reader: &mut R, bytes: &mut [u8], start: usize, end: usize) -> io::Result<usize>
    requires { (start < end) × (end ≤ length bytes.old) }
    ensures long { length bytes.new ≡ length bytes.old }
    ensures front { take start bytes.new ≡ take start bytes.old }
    ensures fits { IfOk result (λ n. start + n ≤ end) }
    ensures ok { IfOk result (λ n. Consumes (R.remaining reader.old) (R.remaining reader.new)
        (take n (drop start bytes.new))) }
    ensures err { OnErr result (Keeps (R.remaining reader.old) (R.remaining reader.new)) }
    ensures end { IfOk result (λ n. n ≡ 0 → IsAtEnd (R.remaining reader.new)) }
{
    reader.read(&mut bytes[start..end])
}

/// Returns the length of a file in bytes, or 0 if it is not known. A clause sees no file.
fn size_of_file(file: &impl OpenFile) -> usize {
    file.metadata()
        .map_or(0, |metadata| metadata.len() as usize)
}
