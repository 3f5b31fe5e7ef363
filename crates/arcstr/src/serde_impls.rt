//! The traits of `serde` for texts and slices, which are written and read as strings, so that
//! structs with texts can derive them. A slice is written as its own text, and read as the slice of
//! all of a new text. Writing allocates nothing itself and takes no atomic step.
ghost use Rattle.std.specs.Prelude.{◌≡◌, IfOk, OnOk};
ghost use Rattle.serde.specs.Event.{Logs, text};
ghost use Rattle.serde.specs.Steps.{Gives};
ghost use Rattle.arcstr.specs.Substr.{text_of, whole_of};
ghost use Rattle.arcstr.specs.TextView.{IsMadeOf};

use crate::arc_str::ArcStr;
use crate::substr::Substr;
use arcstr_block::TextFault;
use serde::{
    Described, Deserialize, DeserializeOwned, Deserializer, Format, Serialize, Serializer,
};
use std::alloc::Global;

impl Described for ArcStr {
    ghost writes = { λ shared old new. Logs old new (text shared.text) };
}

impl Serialize for ArcStr {
    /// Writes the text as a string. Fails if the format fails.
    fn serialize<S: Serializer>(&self, out: &mut S) -> Result<(), S::Error>
        ensures written { OnOk result
            (Logs (S.written out.old) (S.written out.new) (text self.now.text)) }
    {
        out.str(ArcStr::as_str(self))
    }
}

impl Described for Substr {
    ghost writes = { λ slice old new. Logs old new (text (text_of slice)) };
}

impl Serialize for Substr {
    /// Writes the slice's own text as a string. Fails if the format fails.
    fn serialize<S: Serializer>(&self, out: &mut S) -> Result<(), S::Error>
        ensures written { OnOk result
            (Logs (S.written out.old) (S.written out.new) (text (text_of self.now))) }
    {
        out.str(Substr::as_str(self))
    }
}

impl DeserializeOwned for ArcStr {
    /// Reads a string as the format does, and copies it into a block. The copy makes one
    /// allocation, and none for the empty text.
    ///
    /// Errors, in this order: an error of the format; a text of `2^63 - 25` bytes or more; an
    /// allocation failure of the block.
    fn deserialize_owned<F: Format>(
        alloc: Global,
        from: &mut Deserializer<'_, '_, F>,
    ) -> Result<ArcStr, F::Error>
        ensures read { IfOk result (λ made. Gives F.gives from.old (text made.text) from.new) }
        ensures kind { IfOk result (λ made. IsMadeOf made.text made) }
    {
        let read = from.string(alloc)?;
        match ArcStr::from_str(alloc, read.as_str()) {
            Ok(made) => Ok(made),
            Err(TextFault::Memory) => Err(from.no_memory()),
            Err(TextFault::Length) => Err(from.custom("text is too long")),
            Err(TextFault::Utf8(_)) => unreachable!(),
        }
    }
}

impl<'de> Deserialize<'de> for ArcStr {
    /// Reads the text as `deserialize_owned` does.
    fn deserialize<F: Format>(
        alloc: Global,
        from: &mut Deserializer<'de, '_, F>,
    ) -> Result<ArcStr, F::Error>
        ensures read { IfOk result (λ made. Gives F.gives from.old (text made.text) from.new) }
        ensures kind { IfOk result (λ made. IsMadeOf made.text made) }
    {
        DeserializeOwned::deserialize_owned(alloc, from)
    }
}

impl DeserializeOwned for Substr {
    /// Reads a text as `ArcStr` does, and returns the slice of all of it.
    fn deserialize_owned<F: Format>(
        alloc: Global,
        from: &mut Deserializer<'_, '_, F>,
    ) -> Result<Substr, F::Error>
        ensures read { IfOk result
            (λ slice. Gives F.gives from.old (text (text_of slice)) from.new) }
        ensures whole { IfOk result (λ slice. slice ≡ whole_of slice.parent) }
    {
        let parent: ArcStr = DeserializeOwned::deserialize_owned(alloc, from)?;
        Ok(Substr::full(parent))
    }
}

impl<'de> Deserialize<'de> for Substr {
    /// Reads the slice as `deserialize_owned` does.
    fn deserialize<F: Format>(
        alloc: Global,
        from: &mut Deserializer<'de, '_, F>,
    ) -> Result<Substr, F::Error>
        ensures read { IfOk result
            (λ slice. Gives F.gives from.old (text (text_of slice)) from.new) }
        ensures whole { IfOk result (λ slice. slice ≡ whole_of slice.parent) }
    {
        DeserializeOwned::deserialize_owned(alloc, from)
    }
}
