//! Texts as keys of the maps and sets of std and `indexmap`. A key of either type can be looked up
//! by a `&str` and by a reference to the other type: `map.get("foo")`, `set.contains("foo")`,
//! `map["foo"]`, `set.get_index_of("foo")`, `map.get(&slice)`. A look-up allocates nothing and
//! takes no atomic step.
ghost use Rattle.std.specs.Prelude.{◌≡◌, ◌↔◌, IsTrue, bytes_eq};
ghost use Rattle.std.proofs.Common.{ap};
ghost use Rattle.std.specs.BTreeMap.Comparable.{le_lt_trans};
ghost use Rattle.std.specs.Cmp.Lexicographic.{bytes_decides, nat_list_cmp_total, nat_list_eq_equiv, slice_cmp};
ghost use Rattle.std.specs.Hash as fed;
ghost use Rattle.std.specs.Ordering.{nat_cmp};
ghost use Rattle.arcstr.specs.Substr.{text_of};

use crate::arc_str::ArcStr;
use crate::substr::Substr;
use std::cmp::Ordering;
use std::collections::btree_map::Comparable;
use std::collections::hash_map::Equivalent;

impl Equivalent<ArcStr> for &str {
    ghost equivalent = { λ text key. bytes_eq text.now key.text };

    ghost respects_hash = { λ text key same. ap fed.str ((bytes_decides text.now key.text).0 same) };

    ghost respects_eq = { λ text one other. nat_list_eq_equiv.congr text.now one.text other.text };

    /// Returns whether the key's text equals this `str`, byte by byte.
    fn equivalent(&self, key: &ArcStr) -> bool
        ensures value { result ≡ bytes_eq self.now.now key.now.text }
        ensures same { IsTrue result ↔ (self.now.now ≡ key.now.text) }
    {
        *self == ArcStr::as_str(key)
    }
}

impl Equivalent<Substr> for &str {
    ghost equivalent = { λ text key. bytes_eq text.now (text_of key) };

    ghost respects_hash = { λ text key same. ap fed.str ((bytes_decides text.now (text_of key)).0 same) };

    ghost respects_eq = { λ text one other. nat_list_eq_equiv.congr text.now (text_of one) (text_of other) };

    /// Returns whether the key's own text equals this `str`, byte by byte.
    fn equivalent(&self, key: &Substr) -> bool
        ensures value { result ≡ bytes_eq self.now.now (text_of key.now) }
        ensures same { IsTrue result ↔ (self.now.now ≡ text_of key.now) }
    {
        *self == Substr::as_str(key)
    }
}

impl Comparable<ArcStr> for &str {
    ghost compare = { λ text key. slice_cmp nat_cmp text.now key.text };

    ghost respects_cmp = { λ text one other. nat_list_cmp_total.congr text.now one.text other.text };

    ghost below_greater = { λ text one other. le_lt_trans nat_list_cmp_total text.now one.text other.text };

    /// Compares this `str` with the key's text, byte by byte.
    fn compare(&self, key: &ArcStr) -> Ordering
        ensures value { result ≡ slice_cmp nat_cmp self.now.now key.now.text }
    {
        (*self).cmp(ArcStr::as_str(key))
    }
}

impl Comparable<Substr> for &str {
    ghost compare = { λ text key. slice_cmp nat_cmp text.now (text_of key) };

    ghost respects_cmp = { λ text one other. nat_list_cmp_total.congr text.now (text_of one) (text_of other) };

    ghost below_greater = { λ text one other. le_lt_trans nat_list_cmp_total text.now (text_of one) (text_of other) };

    /// Compares this `str` with the key's own text, byte by byte.
    fn compare(&self, key: &Substr) -> Ordering
        ensures value { result ≡ slice_cmp nat_cmp self.now.now (text_of key.now) }
    {
        (*self).cmp(Substr::as_str(key))
    }
}

impl indexmap::Equivalent<ArcStr> for &str {
    ghost equivalent = { λ text key. bytes_eq text.now key.text };

    ghost respects_hash = { λ text key same. ap fed.str ((bytes_decides text.now key.text).0 same) };

    ghost respects_eq = { λ text one other. nat_list_eq_equiv.congr text.now one.text other.text };

    /// Returns whether the key's text equals this `str`, byte by byte.
    fn equivalent(&self, key: &ArcStr) -> bool
        ensures value { result ≡ bytes_eq self.now.now key.now.text }
        ensures same { IsTrue result ↔ (self.now.now ≡ key.now.text) }
    {
        Equivalent::equivalent(self, key)
    }
}

impl indexmap::Equivalent<Substr> for &str {
    ghost equivalent = { λ text key. bytes_eq text.now (text_of key) };

    ghost respects_hash = { λ text key same. ap fed.str ((bytes_decides text.now (text_of key)).0 same) };

    ghost respects_eq = { λ text one other. nat_list_eq_equiv.congr text.now (text_of one) (text_of other) };

    /// Returns whether the key's own text equals this `str`, byte by byte.
    fn equivalent(&self, key: &Substr) -> bool
        ensures value { result ≡ bytes_eq self.now.now (text_of key.now) }
        ensures same { IsTrue result ↔ (self.now.now ≡ text_of key.now) }
    {
        Equivalent::equivalent(self, key)
    }
}

impl Equivalent<ArcStr> for &Substr {
    ghost equivalent = { λ slice key. bytes_eq (text_of slice.now) key.text };

    ghost respects_hash = { λ slice key same. ap fed.str ((bytes_decides (text_of slice.now) key.text).0 same) };

    ghost respects_eq = { λ slice one more. nat_list_eq_equiv.congr (text_of slice.now) one.text more.text };

    /// Returns whether the key's text equals the slice's own text, byte by byte.
    ///
    /// ```
    /// let mut map = std::collections::HashMap::new(rt.alloc());
    /// map.insert(literal!("bar"), 1)?;
    /// let slice = literal!("foobar").substr(&rt, 3..)?;
    /// assert_eq!(rt; map.get(&slice), Some(&1));
    /// ```
    fn equivalent(&self, key: &ArcStr) -> bool
        ensures value { result ≡ bytes_eq (text_of self.now.now) key.now.text }
        ensures same { IsTrue result ↔ (text_of self.now.now ≡ key.now.text) }
    {
        Substr::as_str(*self) == ArcStr::as_str(key)
    }
}

impl Equivalent<Substr> for &ArcStr {
    ghost equivalent = { λ shared key. bytes_eq shared.now.text (text_of key) };

    ghost respects_hash = { λ shared key same. ap fed.str ((bytes_decides shared.now.text (text_of key)).0 same) };

    ghost respects_eq = { λ shared one more. nat_list_eq_equiv.congr shared.now.text (text_of one) (text_of more) };

    /// Returns whether the slice's own text equals this text, byte by byte.
    fn equivalent(&self, key: &Substr) -> bool
        ensures value { result ≡ bytes_eq self.now.now.text (text_of key.now) }
        ensures same { IsTrue result ↔ (self.now.now.text ≡ text_of key.now) }
    {
        ArcStr::as_str(*self) == Substr::as_str(key)
    }
}

impl Comparable<ArcStr> for &Substr {
    ghost compare = { λ slice key. slice_cmp nat_cmp (text_of slice.now) key.text };

    ghost respects_cmp = { λ slice one more. nat_list_cmp_total.congr (text_of slice.now) one.text more.text };

    ghost below_greater = { λ slice one more. le_lt_trans nat_list_cmp_total (text_of slice.now) one.text more.text };

    /// Compares the slice's own text with the key's text, byte by byte.
    fn compare(&self, key: &ArcStr) -> Ordering
        ensures value { result ≡ slice_cmp nat_cmp (text_of self.now.now) key.now.text }
    {
        Substr::as_str(*self).cmp(ArcStr::as_str(key))
    }
}

impl Comparable<Substr> for &ArcStr {
    ghost compare = { λ shared key. slice_cmp nat_cmp shared.now.text (text_of key) };

    ghost respects_cmp = { λ shared one more. nat_list_cmp_total.congr shared.now.text (text_of one) (text_of more) };

    ghost below_greater = { λ shared one more. le_lt_trans nat_list_cmp_total shared.now.text (text_of one) (text_of more) };

    /// Compares this text with the slice's own text, byte by byte.
    fn compare(&self, key: &Substr) -> Ordering
        ensures value { result ≡ slice_cmp nat_cmp self.now.now.text (text_of key.now) }
    {
        ArcStr::as_str(*self).cmp(Substr::as_str(key))
    }
}

impl indexmap::Equivalent<ArcStr> for &Substr {
    ghost equivalent = { λ slice key. bytes_eq (text_of slice.now) key.text };

    ghost respects_hash = { λ slice key same. ap fed.str ((bytes_decides (text_of slice.now) key.text).0 same) };

    ghost respects_eq = { λ slice one more. nat_list_eq_equiv.congr (text_of slice.now) one.text more.text };

    /// Returns whether the key's text equals the slice's own text, byte by byte.
    fn equivalent(&self, key: &ArcStr) -> bool
        ensures value { result ≡ bytes_eq (text_of self.now.now) key.now.text }
        ensures same { IsTrue result ↔ (text_of self.now.now ≡ key.now.text) }
    {
        Equivalent::equivalent(self, key)
    }
}

impl indexmap::Equivalent<Substr> for &ArcStr {
    ghost equivalent = { λ shared key. bytes_eq shared.now.text (text_of key) };

    ghost respects_hash = { λ shared key same. ap fed.str ((bytes_decides shared.now.text (text_of key)).0 same) };

    ghost respects_eq = { λ shared one more. nat_list_eq_equiv.congr shared.now.text (text_of one) (text_of more) };

    /// Returns whether the slice's own text equals this text, byte by byte.
    fn equivalent(&self, key: &Substr) -> bool
        ensures value { result ≡ bytes_eq self.now.now.text (text_of key.now) }
        ensures same { IsTrue result ↔ (self.now.now.text ≡ text_of key.now) }
    {
        Equivalent::equivalent(self, key)
    }
}
