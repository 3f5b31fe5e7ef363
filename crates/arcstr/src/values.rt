//! Texts as values and keys of `toml`, and as values that `log` records.
ghost use Rattle.std.specs.Prelude.{◌≡◌, Some};
ghost use Rattle.toml.specs.Data.{get, string};
ghost use Rattle.toml.specs.View.{view};
ghost use Rattle.arcstr.specs.Substr.{text_of};

use crate::arc_str::ArcStr;
use crate::substr::Substr;
use log::kv::Primitive;
use std::alloc::{AllocError, Global};
use toml::macros::ToValue;
use toml::value::{Index, Value};

impl ToValue for &ArcStr {
    ghost gives = { λ shared value. view value ≡ string shared.now.text };

    /// Copies the text into a TOML string, for `toml!`. Makes one allocation, or none if the text
    /// is empty. Fails only if the allocation fails.
    ///
    /// ```
    /// use toml::toml;
    /// let name = literal!("foo");
    /// let table = toml!(in rt.alloc(); name = (&name))?;
    /// assert_eq!(rt; toml::table_to_string(rt.alloc(), &table)?.as_str(), "name = \"foo\"\n");
    /// ```
    fn to_value(self, alloc: Global) -> Result<Value, AllocError> {
        Value::string(alloc, self.as_str())
    }
}

impl ToValue for &Substr {
    ghost gives = { λ slice value. view value ≡ string (text_of slice.now) };

    /// As `to_value` of `&ArcStr`, for the slice's own text.
    fn to_value(self, alloc: Global) -> Result<Value, AllocError> {
        Value::string(alloc, self.as_str())
    }
}

impl Index for &ArcStr {
    ghost finds = { λ shared. get shared.now.text };

    /// Returns the value that has the text as its key, as for a `&str`.
    ///
    /// ```
    /// let table: toml::Value = toml::from_str(rt.alloc(), "foo = 1")?;
    /// assert!(rt; table.get(&literal!("foo")).is_some());
    /// assert!(rt; table.get(&literal!("bar")).is_none());
    /// ```
    fn index<'v>(&self, value: &'v Value) -> Option<&'v Value> {
        ArcStr::as_str(*self).index(value)
    }

    /// As `index`, with a reference by which the value can be changed.
    fn index_mut<'v>(&self, value: &'v mut Value) -> Option<&'v mut Value> {
        ArcStr::as_str(*self).index_mut(value)
    }
}

impl Index for &Substr {
    ghost finds = { λ slice. get (text_of slice.now) };

    /// As `index` of `&ArcStr`, for the slice's own text.
    fn index<'v>(&self, value: &'v Value) -> Option<&'v Value> {
        Substr::as_str(*self).index(value)
    }

    /// As `index`, with a reference by which the value can be changed.
    fn index_mut<'v>(&self, value: &'v mut Value) -> Option<&'v mut Value> {
        Substr::as_str(*self).index_mut(value)
    }
}

impl log::kv::ToValue for ArcStr {
    type Shown = Primitive;

    ghost text = { λ shared. Some shared.text };

    ghost borrowed_str = { λ shared. Some shared.text };

    /// Returns the text as a value of a record, without a copy.
    ///
    /// ```
    /// use log::kv::{ToValue, Value};
    /// let name = literal!("foo");
    /// assert!(rt; matches!(name.to_value(), Value::Str("foo")));
    /// ```
    fn to_value(&self) -> log::kv::Value<'_, Primitive> {
        log::kv::Value::Str(self.as_str())
    }
}

impl log::kv::ToValue for Substr {
    type Shown = Primitive;

    ghost text = { λ slice. Some (text_of slice) };

    ghost borrowed_str = { λ slice. Some (text_of slice) };

    /// As `to_value` of an `ArcStr`, for the slice's own text.
    fn to_value(&self) -> log::kv::Value<'_, Primitive> {
        log::kv::Value::Str(self.as_str())
    }
}
