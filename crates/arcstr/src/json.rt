//! Texts as JSON values, as names of members, and the errors of reading a text from a JSON value.
ghost use Rattle.std.specs.Prelude.{◌≡◌, Some, IfOk};
ghost use Rattle.serde_json.specs.Data.{string};
ghost use Rattle.serde_json.specs.Find.{get};
ghost use Rattle.serde_json.specs.View.{view};
ghost use Rattle.arcstr.specs.Json.{ReadsArcStr, ReadsSubstr, text_in};
ghost use Rattle.arcstr.specs.Substr.{text_of};

use crate::arc_str::ArcStr;
use crate::substr::Substr;
use arcstr_block::TextFault;
use serde_json::{Index, ToValue, Value};
use std::alloc::{AllocError, AllocFailed, Global};
use std::error::Error;
use std::io::ErrorKind;
use std::{fmt, io};

/// Why a JSON value cannot be read as a text. The variants are in the order of the tests. It can be
/// copied, sent to a thread and shared between threads. Its size is one byte, and its drop does
/// nothing.
///
/// ```
/// use serde_json::Value;
/// let fault = ArcStr::from_json(rt.alloc(), &Value::from(12u8)).err();
/// assert_eq!(rt; fault, Some(JsonFault::NotText));
/// let shown = format!(in rt.alloc(); "{}", JsonFault::NotText)?;
/// assert_eq!(rt; shown.as_str(), "value is not a text");
/// ```
#[derive(Clone, Copy, Debug, PartialEq, Eq, Hash)]
pub enum JsonFault {
    /// The value is not a string.
    NotText,
    /// The text is too long for a block: it has `2^63 - 25` bytes or more.
    Length,
    /// The allocation for the text failed.
    Memory,
}

impl JsonFault {
    ghost use Rattle.arcstr.specs.Json.{json_fault_number};

    /// Returns the number of the fault, from 1 to 3 in the order of the tests.
    ///
    /// ```
    /// assert_eq!(rt; JsonFault::NotText.number(), 1);
    /// assert_eq!(rt; JsonFault::Memory.number(), 3);
    /// ```
    pub fn number(&self) -> u8
        ensures { result ≡ json_fault_number self.now }
    {
        match self {
            JsonFault::NotText => 1,
            JsonFault::Length => 2,
            JsonFault::Memory => 3,
        }
    }
}

impl fmt::Display for JsonFault {
    ghost use Rattle.arcstr.specs.Json.{json_fault_text};

    ghost output = { λ fault. Some (json_fault_text fault) };

    /// Writes what was wrong, in a few words. Fails if the writer fails. Allocates nothing itself.
    fn fmt<W: fmt::Write>(&self, f: &mut fmt::Formatter<W>) -> fmt::Result {
        f.write_str(match self {
            JsonFault::NotText => "value is not a text",
            JsonFault::Length => "text is too long",
            JsonFault::Memory => "out of memory",
        })
    }
}

impl Error for JsonFault {}

impl From<AllocError> for JsonFault {
    ghost use Rattle.std.specs.Prelude.{◌≡◌};
    ghost use Rattle.arcstr.specs.declared.json.JsonFault.TheVariants.{Memory};

    ghost from_gives = { λ _ fault. fault ≡ Memory };

    /// Returns `Memory`, whatever allocation failed. Allocates nothing.
    fn from(_refused: AllocError) -> JsonFault {
        JsonFault::Memory
    }
}

impl<T: Drop> From<AllocFailed<T>> for JsonFault {
    ghost use Rattle.std.specs.Prelude.{◌≡◌};
    ghost use Rattle.arcstr.specs.declared.json.JsonFault.TheVariants.{Memory};

    ghost from_gives = { λ _ fault. fault ≡ Memory };

    /// Returns `Memory`, whatever allocation failed. Allocates nothing. Drops the value that was
    /// not stored.
    fn from(refused: AllocFailed<T>) -> JsonFault {
        JsonFault::from(AllocError::from(refused))
    }
}

impl From<JsonFault> for io::Error {
    ghost use Rattle.std.specs.Prelude.{◌≡◌};
    ghost use Rattle.std.specs.IoError.{error_kind};
    ghost use Rattle.arcstr.specs.Json.{json_fault_kind};

    ghost from_gives = { λ fault error. error_kind error ≡ json_fault_kind fault };

    /// Returns an error of kind `InvalidData` for a value that is not a string, `InvalidInput` for
    /// a text that is too long, and `OutOfMemory`. Allocates nothing.
    ///
    /// ```
    /// use std::io;
    /// let error = io::Error::from(JsonFault::NotText);
    /// assert_eq!(rt; error.kind(), io::ErrorKind::InvalidData);
    /// ```
    fn from(fault: JsonFault) -> io::Error {
        match fault {
            JsonFault::NotText => io::Error::new(ErrorKind::InvalidData, "value is not a text"),
            JsonFault::Length => io::Error::new(ErrorKind::InvalidInput, "text is too long"),
            JsonFault::Memory => io::Error::from(ErrorKind::OutOfMemory),
        }
    }
}

impl ArcStr {
    /// Copies the text into a JSON string. Makes one allocation, or none if the text is empty.
    /// Fails only if the allocation fails.
    ///
    /// ```
    /// let value = ArcStr::from_static("a\"é").to_json(rt.alloc())?;
    /// assert_eq!(rt; value.as_str(), Some("a\"é"));
    /// assert_eq!(rt; value.to_string(rt.alloc())?.as_str(), "\"a\\\"é\"");
    /// ```
    pub fn to_json(&self, alloc: Global) -> Result<Value, AllocError>
        ensures { IfOk result (λ value. text_in value ≡ Some self.now.text) }
    {
        Value::try_from_str(alloc, self.as_str())
    }

    /// Copies the text of a JSON string into an `ArcStr`. Makes one allocation, or none if the text
    /// is empty.
    ///
    /// Errors, in this order: `NotText` if the value is not a string; `Length` if the text has
    /// `2^63 - 25` bytes or more; `Memory` if the allocation fails.
    ///
    /// ```
    /// use serde_json::Value;
    /// let value = Value::try_from_str(rt.alloc(), "foo")?;
    /// let text = ArcStr::from_json(rt.alloc(), &value)?;
    /// assert_eq!(rt; text.as_str(), "foo");
    /// let fault = ArcStr::from_json(rt.alloc(), &Value::Null).err();
    /// assert_eq!(rt; fault, Some(JsonFault::NotText));
    /// ```
    pub fn from_json(alloc: Global, value: &Value) -> Result<ArcStr, JsonFault>
        // Promise: It fails with the first fault that applies.
        ensures { ReadsArcStr value.now result }
    {
        let Some(text) = value.as_str() else {
            return Err(JsonFault::NotText);
        };
        match ArcStr::from_str(alloc, text) {
            Ok(made) => Ok(made),
            Err(TextFault::Length) => Err(JsonFault::Length),
            Err(TextFault::Memory) => Err(JsonFault::Memory),
            Err(TextFault::Utf8(_)) => unreachable!(),
        }
    }
}

impl Substr {
    /// As `ArcStr::to_json`, for the slice's own text.
    pub fn to_json(&self, alloc: Global) -> Result<Value, AllocError>
        ensures { IfOk result (λ value. text_in value ≡ Some (text_of self.now)) }
    {
        Value::try_from_str(alloc, self.as_str())
    }

    /// As `ArcStr::from_json`. Returns the slice of all of the text.
    pub fn from_json(alloc: Global, value: &Value) -> Result<Substr, JsonFault>
        ensures { ReadsSubstr value.now result }
    {
        Ok(Substr::full(ArcStr::from_json(alloc, value)?))
    }
}

impl ToValue for &ArcStr {
    ghost gives = { λ shared value. view value ≡ string shared.now.text };

    /// Copies the text into a JSON string as `to_json` does, for `json!`.
    ///
    /// ```
    /// use serde_json::json;
    /// let name = literal!("foo");
    /// let value = json!(in rt.alloc(); {"name": &name})?;
    /// assert_eq!(rt; value.to_string(rt.alloc())?.as_str(), "{\"name\":\"foo\"}");
    /// ```
    fn to_value(self, alloc: Global) -> Result<Value, AllocError> {
        self.to_json(alloc)
    }
}

impl Index for &ArcStr {
    ghost finds = { λ shared. get shared.now.text };

    /// Returns the member that has the text as its name, as for a `&str`.
    ///
    /// ```
    /// use serde_json::json;
    /// let value = json!(in rt.alloc(); {"foo": 1})?;
    /// assert!(rt; value.get(&literal!("foo")).is_some());
    /// assert!(rt; value.get(&literal!("bar")).is_none());
    /// ```
    fn index_into<'v>(&self, value: &'v Value) -> Option<&'v Value> {
        ArcStr::as_str(*self).index_into(value)
    }

    /// As `index_into`, with a reference by which the member can be changed.
    fn index_into_mut<'v>(&self, value: &'v mut Value) -> Option<&'v mut Value> {
        ArcStr::as_str(*self).index_into_mut(value)
    }
}

impl ToValue for &Substr {
    ghost gives = { λ slice value. view value ≡ string (text_of slice.now) };

    /// As `to_value` of `&ArcStr`, for the slice's own text.
    fn to_value(self, alloc: Global) -> Result<Value, AllocError> {
        self.to_json(alloc)
    }
}

impl Index for &Substr {
    ghost finds = { λ slice. get (text_of slice.now) };

    /// As `index_into` of `&ArcStr`, for the slice's own text.
    fn index_into<'v>(&self, value: &'v Value) -> Option<&'v Value> {
        Substr::as_str(*self).index_into(value)
    }

    /// As `index_into`, with a reference by which the member can be changed.
    fn index_into_mut<'v>(&self, value: &'v mut Value) -> Option<&'v mut Value> {
        Substr::as_str(*self).index_into_mut(value)
    }
}
