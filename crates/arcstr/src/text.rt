//! The texts as `&str` and `&[u8]`, by std's traits `DerefStr`, `AsStr`, `AsSlice`, `AsBytes`,
//! `AsPath` and `AsDeref`. By `DerefStr`, every method of `str` can be called on them; a method of
//! the type itself takes precedence. No call here allocates or takes an atomic step.
ghost use Rattle.std.specs.Prelude.{◌≡◌, ℕ, List, Some};
ghost use Rattle.arcstr.specs.Substr.{text_of};

use crate::arc_str::ArcStr;
use crate::static_str::StaticStr;
use crate::substr::Substr;
use std::convert::{AsSlice, AsStr};
use std::io::AsBytes;
use std::ops::{AsDeref, DerefStr};
use std::path::AsPath;

impl DerefStr for ArcStr {
    ghost deref_gives = { λ shared bytes. bytes ≡ shared.text };

    /// Returns the text, as `as_str` does: `text.trim()` is `text.as_str().trim()`.
    fn deref(&self) -> &str
        ensures text { result.now ≡ self.now.text }
    {
        ArcStr::as_str(self)
    }
}

impl DerefStr for Substr {
    ghost deref_gives = { λ slice bytes. bytes ≡ text_of slice };

    /// Returns the slice's own text, as `as_str` does.
    fn deref(&self) -> &str
        ensures text { result.now ≡ text_of self.now }
    {
        Substr::as_str(self)
    }
}

impl DerefStr for StaticStr {
    ghost deref_gives = { λ kept bytes. bytes ≡ kept.text };

    /// Returns the text, as `as_str` does.
    fn deref(&self) -> &str
        ensures text { result.now ≡ self.now.text }
    {
        StaticStr::as_str(self)
    }
}

impl AsStr for ArcStr {
    ghost text = { λ shared. shared.text };

    /// Returns the text.
    fn as_str(&self) -> &str {
        ArcStr::as_str(self)
    }
}

impl AsSlice<u8> for ArcStr {
    ghost items = { λ shared. shared.text };

    /// Returns the bytes of the text.
    fn as_slice(&self) -> &[u8] {
        ArcStr::as_bytes(self)
    }
}

impl AsStr for Substr {
    ghost text = { text_of };

    /// Returns the slice's own text.
    fn as_str(&self) -> &str {
        Substr::as_str(self)
    }
}

impl AsSlice<u8> for Substr {
    ghost items = { text_of };

    /// Returns the bytes of the slice's own text.
    fn as_slice(&self) -> &[u8] {
        Substr::as_bytes(self)
    }
}

impl AsStr for StaticStr {
    ghost text = { λ kept. kept.text };

    /// Returns the text.
    fn as_str(&self) -> &str {
        StaticStr::as_str(self)
    }
}

impl AsSlice<u8> for StaticStr {
    ghost items = { λ kept. kept.text };

    /// Returns the bytes of the text.
    fn as_slice(&self) -> &[u8] {
        StaticStr::as_str(self).as_bytes()
    }
}

impl AsBytes for ArcStr {
    ghost bytes = { λ shared. Some shared.text };

    /// Returns the bytes of the text. By this trait a text is passed where Rust asks for
    /// `AsRef<[u8]>`, as in `Cursor::new(text)`.
    ///
    /// ```
    /// use std::io::{Cursor, Read};
    /// let mut reader = Cursor::new(literal!("foo"));
    /// let mut bytes = [0; 2];
    /// reader.read_exact(&mut bytes)?;
    /// assert_eq!(rt; bytes, *b"fo");
    /// ```
    fn as_byte_slice(&self) -> &[u8] {
        ArcStr::as_bytes(self)
    }
}

impl AsBytes for &ArcStr {
    ghost bytes = { λ shared. Some shared.now.text };

    /// Returns the bytes of the text, as in `fs::write(rt, path, &text)`.
    fn as_byte_slice(&self) -> &[u8] {
        ArcStr::as_bytes(*self)
    }
}

impl AsBytes for Substr {
    ghost bytes = { λ slice. Some (text_of slice) };

    /// Returns the bytes of the slice's own text.
    fn as_byte_slice(&self) -> &[u8] {
        Substr::as_bytes(self)
    }
}

impl AsBytes for &Substr {
    ghost bytes = { λ slice. Some (text_of slice.now) };

    /// Returns the bytes of the slice's own text.
    fn as_byte_slice(&self) -> &[u8] {
        Substr::as_bytes(*self)
    }
}

impl AsPath for ArcStr {
    ghost path_text = { λ shared. Some shared.text };

    /// Returns the text as that of a path. By this trait a text or a reference to one is passed
    /// where Rust asks for `AsRef<Path>`, as in `File::open(rt, &text)`.
    ///
    /// ```
    /// use std::fs::File;
    /// let path = literal!("no such file");
    /// assert!(rt; File::open(&rt, &path).is_err());
    /// ```
    fn path_text(&self) -> &str {
        ArcStr::as_str(self)
    }
}

impl AsPath for Substr {
    ghost path_text = { λ slice. Some (text_of slice) };

    /// Returns the slice's own text as that of a path.
    fn path_text(&self) -> &str {
        Substr::as_str(self)
    }
}

impl<'a> AsDeref<'a> for ArcStr {
    type Shown = &'a str;

    ghost as_deref_gives = { λ shared shown. shown.now ≡ shared.text };

    ghost View = { List ℕ };

    ghost view = { λ shared. shared.text };

    ghost output_view = { λ shown. shown.now };

    /// Returns the text, for `as_deref` of an `Option` or a `Result`.
    ///
    /// ```
    /// let name = Some(literal!("foo"));
    /// assert_eq!(rt; name.as_deref(), Some("foo"));
    /// assert_eq!(rt; name.as_deref().unwrap_or("none"), "foo");
    /// ```
    fn shown(&'a self) -> &'a str {
        ArcStr::as_str(self)
    }
}

impl<'a> AsDeref<'a> for Substr {
    type Shown = &'a str;

    ghost as_deref_gives = { λ slice shown. shown.now ≡ text_of slice };

    ghost View = { List ℕ };

    ghost view = { text_of };

    ghost output_view = { λ shown. shown.now };

    /// Returns the slice's own text, for `as_deref` of an `Option` or a `Result`.
    fn shown(&'a self) -> &'a str {
        Substr::as_str(self)
    }
}
