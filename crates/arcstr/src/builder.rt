//! Builds a text piece by piece in the block that is to hold it. No call here takes an atomic step.
ghost use Rattle.std.specs.Prelude.{◌≡◌, ◌↔◌, ◌+◌, ◌≤◌, ◌<◌, [], ◌++◌, length, encode_utf8, IsTrue, IsFalse};
ghost use Rattle.std.specs.Prelude.{Ok, IsOk, IfSome, IfOk, IfErr, IsErrOf, OnOk};
ghost use Rattle.std.specs.Fmt.{with_newline};
ghost use Rattle.arcstr.specs.TextView.{literal_of};
ghost use Rattle.arcstr.specs.Building.{HasRoom, IsDoubled};
ghost use Rattle.arcstr.specs.Making.{IsTooLong, IsFaultOfMaking};

use crate::arc_str::ArcStr;
use crate::reading::Held;
use arcstr_block::{Draft, TOO_LONG, TextFault};
use std::alloc::Global;
use std::fmt;
use std::fmt::{Display, Write};
use std::marker::Model;

/// The least capacity in bytes of the first block that a push makes.
const FIRST: usize = 64;

/// An `ArcStr` that is being built. In a contract it has the text so far, a capacity, which is the
/// number of bytes that its block has room for, and the bytes that `read_from` holds back. It
/// appends as a `String` does, and `write!` and `writeln!` write to it. Its size is 48 bytes.
///
/// The bytes are written to the block that the finished text keeps. So a text that fills its
/// capacity is finished without a copy and without an allocation. A shorter one is copied once, to
/// a block of its length: the count word lies behind the text, at a place that follows from the
/// length.
///
/// ```
/// let mut builder = ArcStrBuilder::with_capacity(rt.alloc(), 6)?;
/// builder.push_str("foo")?;
/// builder.push('b')?;
/// write!(builder, "{}", "ar")?;
/// let text = builder.finish()?;
/// assert_eq!(rt; text.as_str(), "foobar");
/// ```
#[derive(Drop)]
pub struct ArcStrBuilder {
    draft: Option<Draft<Global>>,
    alloc: Global,
    pub(crate) held: Held,
}

impl Model for ArcStrBuilder {
    ghost use Rattle.arcstr.specs.Building.{Building, building_of, unfinished_of};

    ghost Value = { Building };

    ghost view = { λ builder. building_of (unfinished_of builder.draft) builder.held };
}

impl ArcStrBuilder {
    /// Creates a builder of an empty text. Does not allocate.
    ///
    /// ```
    /// let builder = ArcStrBuilder::new(rt.alloc());
    /// assert_eq!(rt; (builder.as_str(), builder.capacity()), ("", 0));
    /// ```
    pub fn new(alloc: Global) -> ArcStrBuilder
        ensures empty { result.text ≡ [] }
        ensures capacity { result.capacity ≡ 0 }
        ensures held { result.held ≡ [] }
    {
        ArcStrBuilder {
            draft: None,
            alloc,
            held: Held::none(),
        }
    }

    /// Creates a builder of an empty text with room for exactly `capacity` bytes. Makes one
    /// allocation, or none if the capacity is 0.
    ///
    /// Errors, in this order: `Length` if the capacity is `2^63 - 25` bytes or more; `Memory` if
    /// the allocation fails.
    ///
    /// ```
    /// let builder = ArcStrBuilder::with_capacity(rt.alloc(), 6)?;
    /// assert_eq!(rt; (builder.as_str(), builder.capacity()), ("", 6));
    /// let fault = ArcStrBuilder::with_capacity(rt.alloc(), usize::MAX).err();
    /// assert_eq!(rt; fault, Some(TextFault::Length));
    /// ```
    pub fn with_capacity(alloc: Global, capacity: usize) -> Result<ArcStrBuilder, TextFault>
        ensures empty { IfOk result (λ made. made.text ≡ []) }
        ensures capacity { IfOk result (λ made. made.capacity ≡ capacity) }
        ensures held { IfOk result (λ made. made.held ≡ []) }
        // Promise: The call fails with `Length` exactly if the capacity is too long.
        ensures too_long { IsErrOf result TextFault.Length ↔ IsTooLong capacity }
        ensures refused { IfErr result (IsFaultOfMaking capacity) }
    {
        let mut builder = ArcStrBuilder::new(alloc);
        if capacity > 0 {
            builder.draft = Some(Draft::new(alloc, capacity)?);
        }
        Ok(builder)
    }

    /// Returns the text so far.
    ///
    /// ```
    /// let mut builder = ArcStrBuilder::new(rt.alloc());
    /// builder.push_str("foo")?;
    /// assert_eq!(rt; builder.as_str(), "foo");
    /// ```
    pub fn as_str(&self) -> &str
        ensures { result.now ≡ self.now.text }
    {
        match &self.draft {
            Some(draft) => draft.as_str(),
            None => "",
        }
    }

    /// Returns the length of the text so far, in bytes.
    ///
    /// ```
    /// let mut builder = ArcStrBuilder::new(rt.alloc());
    /// builder.push('é')?;
    /// assert_eq!(rt; builder.len(), 2);
    /// ```
    pub fn len(&self) -> usize
        ensures { result ≡ length self.now.text }
    {
        self.as_str().len()
    }

    /// Returns whether nothing was appended yet.
    ///
    /// ```
    /// let builder = ArcStrBuilder::with_capacity(rt.alloc(), 8)?;
    /// assert!(rt; builder.is_empty());
    /// ```
    pub fn is_empty(&self) -> bool
        ensures { IsTrue result ↔ (self.now.text ≡ []) }
    {
        self.as_str().is_empty()
    }

    /// Returns the number of bytes that the text can have before its block has to grow.
    ///
    /// ```
    /// let builder = ArcStrBuilder::with_capacity(rt.alloc(), 8)?;
    /// assert_eq!(rt; builder.capacity(), 8);
    /// ```
    pub fn capacity(&self) -> usize
        ensures { result ≡ self.now.capacity }
    {
        match &self.draft {
            Some(draft) => draft.capacity(),
            None => 0,
        }
    }

    /// Makes room for at least `additional` bytes more. Pushes of at most `additional` bytes in all
    /// then cannot fail. If there is no room yet, moves the text to a block of at least twice the
    /// capacity, by one allocation.
    ///
    /// Errors, in this order: `Length` if the text would have `2^63 - 25` bytes or more; `Memory`
    /// if the allocation fails. The builder is unchanged then.
    ///
    /// ```
    /// let mut builder = ArcStrBuilder::new(rt.alloc());
    /// builder.reserve(100)?;
    /// assert!(rt; builder.capacity() >= 100);
    /// ```
    pub fn reserve(&mut self, additional: usize) -> Result<(), TextFault>
        ensures text { self.new.text ≡ self.old.text }
        ensures held { self.new.held ≡ self.old.held }
        ensures room { IfOk result (λ _. length self.old.text + additional ≤ self.new.capacity) }
        // Promise: If there is room already, the call does nothing and cannot fail.
        ensures within { HasRoom self.old additional → IsOk result }
        ensures stays { HasRoom self.old additional → self.new.capacity ≡ self.old.capacity }
        ensures left { IfErr result (λ _. self.new.capacity ≡ self.old.capacity) }
        // Promise: A block that is too small is left for one of at least twice its capacity.
        ensures doubles { self.old.capacity < length self.old.text + additional
            → IfOk result (λ _. IsDoubled self.old.capacity self.new.capacity) }
        // Promise: The call fails with `Length` exactly if the text would be too long.
        ensures too_long { IsErrOf result TextFault.Length
            ↔ IsTooLong (length self.old.text + additional) }
        ensures refused { IfErr result (IsFaultOfMaking (length self.old.text + additional)) }
    {
        match &mut self.draft {
            Some(draft) => draft.reserve(additional),
            None if additional == 0 => Ok(()),
            None => {
                self.draft = Some(Draft::new(self.alloc, additional.max(FIRST))?);
                Ok(())
            }
        }
    }

    /// Appends a text. If there is room for it, cannot fail, and does not allocate; otherwise makes
    /// room as `reserve` does.
    ///
    /// Errors, in this order: `Length` if the text would have `2^63 - 25` bytes or more; `Memory`
    /// if the allocation fails. The text so far stays then.
    ///
    /// ```
    /// let mut builder = ArcStrBuilder::new(rt.alloc());
    /// builder.push_str("foo")?;
    /// builder.push_str("bar")?;
    /// assert_eq!(rt; builder.as_str(), "foobar");
    /// ```
    pub fn push_str(&mut self, text: &str) -> Result<(), TextFault>
        ensures pushed { IfOk result (λ _. self.new.text ≡ self.old.text ++ text.now) }
        ensures kept { IfErr result (λ _. self.new.text ≡ self.old.text) }
        ensures held { self.new.held ≡ self.old.held }
        // Promise: If there is room, the call cannot fail, and the block stays.
        ensures within { HasRoom self.old (length text.now) → IsOk result }
        ensures stays { HasRoom self.old (length text.now) → self.new.capacity ≡ self.old.capacity }
        ensures left { IfErr result (λ _. self.new.capacity ≡ self.old.capacity) }
        ensures doubles { self.old.capacity < length self.old.text + length text.now
            → IfOk result (λ _. IsDoubled self.old.capacity self.new.capacity) }
        // Promise: The call fails with `Length` exactly if the text would be too long.
        ensures too_long { IsErrOf result TextFault.Length
            ↔ IsTooLong (length self.old.text + length text.now) }
        ensures refused { IfErr result
            (IsFaultOfMaking (length self.old.text + length text.now)) }
    {
        if !self.has_room(text.len()) && !self.make_room(text.len()) {
            return Err(self.fault_of_room(text.len()));
        }
        match &mut self.draft {
            Some(draft) => draft.append(text),
            None if text.is_empty() => {}
            None => unreachable!(),
        }
        Ok(())
    }

    /// Appends a character, as `push_str` appends its text.
    ///
    /// ```
    /// let mut builder = ArcStrBuilder::new(rt.alloc());
    /// builder.push('é')?;
    /// assert_eq!(rt; builder.as_str(), "é");
    /// ```
    pub fn push(&mut self, character: char) -> Result<(), TextFault>
        ensures pushed { IfOk result (λ _. self.new.text ≡ self.old.text ++ encode_utf8 character) }
        ensures kept { IfErr result (λ _. self.new.text ≡ self.old.text) }
        ensures held { self.new.held ≡ self.old.held }
        ensures within { HasRoom self.old (length (encode_utf8 character)) → IsOk result }
        ensures stays { HasRoom self.old (length (encode_utf8 character))
            → self.new.capacity ≡ self.old.capacity }
        ensures left { IfErr result (λ _. self.new.capacity ≡ self.old.capacity) }
        ensures doubles { self.old.capacity < length self.old.text + length (encode_utf8 character)
            → IfOk result (λ _. IsDoubled self.old.capacity self.new.capacity) }
        ensures too_long { IsErrOf result TextFault.Length
            ↔ IsTooLong (length self.old.text + length (encode_utf8 character)) }
        ensures refused { IfErr result
            (IsFaultOfMaking (length self.old.text + length (encode_utf8 character))) }
    {
        let mut bytes = [0u8; 4];
        self.push_str(character.encode_utf8(&mut bytes))
    }

    /// Appends what is formatted. `write!` calls this method, so that its error is a `TextFault`;
    /// `writeln!` calls `writeln`.
    ///
    /// Fails with `Memory` if an allocation fails, if the text would have `2^63 - 25` bytes or
    /// more, or if the `fmt` of a value fails. The pieces that were appended before that stay, as
    /// in a `String`.
    ///
    /// ```
    /// let mut builder = ArcStrBuilder::new(rt.alloc());
    /// write!(builder, "cool {}", 123)?;
    /// assert_eq!(rt; builder.as_str(), "cool 123");
    /// ```
    pub fn write_fmt<D: Display + Drop>(&mut self, value: D) -> Result<(), TextFault>
        ensures written { OnOk result (IfSome (D.output value)
            (λ bytes. self.new.text ≡ self.old.text ++ bytes)) }
        ensures refused { IfErr result (λ fault. fault ≡ TextFault.Memory) }
    {
        match Write::write(self, value) {
            Ok(()) => Ok(()),
            Err(fmt::Error) => Err(TextFault::Memory),
        }
    }

    /// As `write_fmt`, with a newline after it.
    pub fn writeln<D: Display + Drop>(&mut self, value: D) -> Result<(), TextFault>
        ensures written { OnOk result (IfSome (with_newline (D.output value))
            (λ bytes. self.new.text ≡ self.old.text ++ bytes)) }
        ensures refused { IfErr result (λ fault. fault ≡ TextFault.Memory) }
    {
        match Write::writeln(self, value) {
            Ok(()) => Ok(()),
            Err(fmt::Error) => Err(TextFault::Memory),
        }
    }

    /// Returns the built text. An empty one is a literal. If the text fills its capacity, the call
    /// neither copies nor allocates, and cannot fail. Otherwise it copies the text once, to a block
    /// of its length, and frees the old one. Bytes that `read_from` holds back are dropped.
    ///
    /// Fails only with `Memory`, if the allocation for a text that does not fill its capacity
    /// fails.
    ///
    /// ```
    /// let mut builder = ArcStrBuilder::new(rt.alloc());
    /// builder.push_str("foobar")?;
    /// let text = builder.finish()?;
    /// assert_eq!(rt; text.as_str(), "foobar");
    /// assert_eq!(rt; ArcStr::strong_count(&text), Some(1));
    /// ```
    pub fn finish(self) -> Result<ArcStr, TextFault>
        ensures made { IfOk result (λ made. made.text ≡ self.text) }
        // Promise: An empty text is the empty literal.
        ensures empty { self.text ≡ [] → result ≡ Ok (literal_of []) }
        // Promise: A text that fills its capacity is always made.
        ensures full { length self.text ≡ self.capacity → IsOk result }
        ensures refused { IfErr result (λ fault. fault ≡ TextFault.Memory) }
    {
        if self.is_empty() {
            return Ok(ArcStr::new());
        }
        let ArcStrBuilder {
            draft,
            alloc: _,
            held: _,
        } = self;
        match draft {
            Some(draft) => Ok(ArcStr::from_shared(draft.finish()?)),
            None => Ok(ArcStr::new()),
        }
    }

    /// Appends the rest of the text, which fills the capacity exactly, and returns the whole. It
    /// does not allocate and cannot fail, so the memory for a text can be taken before a change
    /// begins.
    ///
    /// ```
    /// let room = ArcStrBuilder::with_capacity(rt.alloc(), 3)?;
    /// let text = room.fill("foo");
    /// assert_eq!(rt; text.as_str(), "foo");
    /// ```
    pub fn fill(self, rest: &str) -> ArcStr
        requires full { length self.text + length rest.now ≡ self.capacity }
        ensures text { result.text ≡ self.text ++ rest.now }
        // Promise: Without capacity the text is the empty literal.
        ensures empty { self.capacity ≡ 0 → result ≡ literal_of [] }
    {
        if self.capacity() == 0 {
            return ArcStr::new();
        }
        let ArcStrBuilder {
            draft,
            alloc: _,
            held: _,
        } = self;
        match draft {
            Some(draft) => ArcStr::from_shared(draft.fill(rest)),
            None => unreachable!(),
        }
    }

    fn has_room(&self, additional: usize) -> bool
        ensures room { IsTrue result ↔ HasRoom self.now additional }
        ensures fits { IsTrue result → ¬ IsTooLong (length self.now.text + additional) }
    {
        match &self.draft {
            Some(draft) => draft.has_room(additional),
            None => additional == 0,
        }
    }

    /// Makes room as `reserve` does, and returns whether there is. It is out of line and returns no
    /// fault, so that a push that finds room takes few instructions.
    #[cold]
    #[inline(never)]
    fn make_room(&mut self, additional: usize) -> bool
        ensures text { self.new.text ≡ self.old.text }
        ensures held { self.new.held ≡ self.old.held }
        ensures room { IsTrue result → HasRoom self.new additional }
        ensures fits { IsTrue result → ¬ IsTooLong (length self.old.text + additional) }
        ensures left { IsFalse result → self.new.capacity ≡ self.old.capacity }
        ensures doubles { self.old.capacity < length self.old.text + additional
            → IsTrue result → IsDoubled self.old.capacity self.new.capacity }
    {
        self.reserve(additional).is_ok()
    }

    /// Returns why there is no room: the text would be too long, or there is no memory.
    fn fault_of_room(&self, additional: usize) -> TextFault
        ensures too_long { (result ≡ TextFault.Length) ↔ IsTooLong (length self.now.text + additional) }
        ensures refused { IsFaultOfMaking (length self.now.text + additional) result }
    {
        if self.len().saturating_add(additional) >= TOO_LONG {
            TextFault::Length
        } else {
            TextFault::Memory
        }
    }
}

impl Write for ArcStrBuilder {
    ghost write_str_gives = { λ before bytes after. after.text ≡ before.text ++ bytes };

    /// Appends the text, as `push_str` does. Fails if that does.
    fn write_str(&mut self, text: &str) -> fmt::Result {
        match self.push_str(text) {
            Ok(()) => Ok(()),
            Err(TextFault::Length | TextFault::Memory | TextFault::Utf8(_)) => Err(fmt::Error),
        }
    }
}
