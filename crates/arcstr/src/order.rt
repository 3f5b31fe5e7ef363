//! Equality, order and hash of texts. They depend only on the text, not on its kind.
//! Those of `Substr` depend only on the slice's own text. Those of `StaticStr` are those
//! of `ArcStr`, and all but the order are derived.
ghost use Rattle.std.specs.Prelude.{◌≡◌, ◌↔◌, Some, IsTrue, bytes_eq, refl};
ghost use Rattle.std.proofs.Common.{rules};
ghost use Rattle.std.specs.Cmp.{on_equiv, on_per, on_po, on_total, partial_equiv_from_equiv};
ghost use Rattle.std.specs.Cmp.Lexicographic.{nat_list_cmp_total, nat_list_eq_equiv, slice_cmp, texts_po, texts_ties};
ghost use Rattle.std.specs.Cmp.Rules.{hashing};
ghost use Rattle.std.specs.Hash as fed;
ghost use Rattle.std.specs.Ordering.{nat_cmp};
ghost use Rattle.arcstr.specs.TextOrder.{IsTextOrder};
ghost use Rattle.arcstr.specs.Substr.{text_of};

use crate::arc_str::ArcStr;
use crate::static_str::StaticStr;
use crate::substr::Substr;
use std::cmp::Ordering;
use std::hash::{Hash, Hasher};

impl ArcStr {
    /// Returns whether the text equals a `&str`, byte by byte.
    ///
    /// ```
    /// let text = ArcStr::from_str(rt.alloc(), "foo")?;
    /// assert!(rt; text.eq_str("foo"));
    /// assert!(rt; !text.eq_str("fo"));
    /// ```
    pub fn eq_str(&self, other: &str) -> bool
        ensures { IsTrue result ↔ (self.now.text ≡ other.now) }
    {
        self.as_str() == other
    }
}

impl PartialEq for ArcStr {
    ghost eq = { λ one other. bytes_eq one.text other.text };

    ghost laws = { on_per (λ shared. shared.text) (partial_equiv_from_equiv nat_list_eq_equiv) };

    /// Returns whether the two texts are equal, byte by byte, whatever their kinds.
    fn eq(&self, other: &ArcStr) -> bool
        ensures value { result ≡ bytes_eq self.now.text other.now.text }
        ensures same { IsTrue result ↔ (self.now.text ≡ other.now.text) }
    {
        self.eq_str(other.as_str())
    }
}

impl Eq for ArcStr {
    ghost laws = { on_equiv (λ shared. shared.text) nat_list_eq_equiv };
}

impl PartialOrd for ArcStr {
    ghost partial_cmp = { λ one other. Some (slice_cmp nat_cmp one.text other.text) };

    ghost laws = { on_po (λ shared. shared.text) texts_po };

    /// Compares the two texts as `cmp` does. Always returns `Some`.
    fn partial_cmp(&self, other: &ArcStr) -> Option<Ordering> {
        Some(self.cmp(other))
    }
}

impl Ord for ArcStr {
    ghost cmp = { λ one other. slice_cmp nat_cmp one.text other.text };

    ghost total = { on_total (λ shared. shared.text) nat_list_cmp_total };

    ghost matches_partial_cmp = { λ one other. refl };

    ghost matches_eq = { λ one other. texts_ties one.text other.text };

    /// Compares the two texts byte by byte, whatever their kinds: a proper prefix of a text comes
    /// before it, and otherwise the first bytes that differ decide.
    #[tactic(auto, using(crate::proofs::Orders::text_orders))]
    fn cmp(&self, other: &ArcStr) -> Ordering
        ensures value { result ≡ slice_cmp nat_cmp self.now.text other.now.text }
        ensures order { IsTextOrder self.now.text other.now.text result }
    {
        self.as_str().cmp(other.as_str())
    }
}

impl Hash for ArcStr {
    ghost hash_input = { λ shared. fed.str shared.text };

    ghost respects_eq = { Prim.search (hashing, rules) };

    /// Feeds the text to the hasher as a `str` does, whatever its kind.
    fn hash<H: Hasher>(&self, state: &mut H) {
        ArcStr::as_str(self).hash(state);
    }
}

impl Substr {
    /// As `ArcStr::eq_str`, for the slice's own text.
    pub fn eq_str(&self, other: &str) -> bool
        ensures { IsTrue result ↔ (text_of self.now ≡ other.now) }
    {
        self.as_str() == other
    }
}

impl PartialEq for Substr {
    ghost eq = { λ one other. bytes_eq (text_of one) (text_of other) };

    ghost laws = { on_per text_of (partial_equiv_from_equiv nat_list_eq_equiv) };

    /// Returns whether the own texts of the two slices are equal, byte by byte, whatever their
    /// parents and ranges.
    fn eq(&self, other: &Substr) -> bool
        ensures value { result ≡ bytes_eq (text_of self.now) (text_of other.now) }
        ensures same { IsTrue result ↔ (text_of self.now ≡ text_of other.now) }
    {
        self.eq_str(other.as_str())
    }
}

impl Eq for Substr {
    ghost laws = { on_equiv text_of nat_list_eq_equiv };
}

impl PartialOrd for Substr {
    ghost partial_cmp = { λ one other. Some (slice_cmp nat_cmp (text_of one) (text_of other)) };

    ghost laws = { on_po text_of texts_po };

    /// Compares the two slices as `cmp` does. Always returns `Some`.
    fn partial_cmp(&self, other: &Substr) -> Option<Ordering> {
        Some(self.cmp(other))
    }
}

impl Ord for Substr {
    ghost cmp = { λ one other. slice_cmp nat_cmp (text_of one) (text_of other) };

    ghost total = { on_total text_of nat_list_cmp_total };

    ghost matches_partial_cmp = { λ one other. refl };

    ghost matches_eq = { λ one other. texts_ties (text_of one) (text_of other) };

    /// Compares the own texts of the two slices, as `Ord` of `ArcStr` does.
    #[tactic(auto, using(crate::proofs::Orders::text_orders))]
    fn cmp(&self, other: &Substr) -> Ordering
        ensures value { result ≡ slice_cmp nat_cmp (text_of self.now) (text_of other.now) }
        ensures order { IsTextOrder (text_of self.now) (text_of other.now) result }
    {
        self.as_str().cmp(other.as_str())
    }
}

impl Hash for Substr {
    ghost hash_input = { λ slice. fed.str (text_of slice) };

    ghost respects_eq = { Prim.search (hashing, rules) };

    /// Feeds the slice's own text to the hasher as a `str` does, so equal slices have equal hashes.
    fn hash<H: Hasher>(&self, state: &mut H) {
        Substr::as_str(self).hash(state);
    }
}

impl Ord for StaticStr {
    ghost cmp = { λ one other. slice_cmp nat_cmp one.text other.text };

    ghost total = { on_total (λ kept. kept.text) nat_list_cmp_total };

    ghost matches_partial_cmp = { λ one other. refl };

    ghost matches_eq = { λ one other. texts_ties one.text other.text };

    /// Compares the two texts as `Ord` of `ArcStr` does.
    #[tactic(auto, using(crate::proofs::Orders::text_orders))]
    fn cmp(&self, other: &StaticStr) -> Ordering
        ensures value { result ≡ slice_cmp nat_cmp self.now.text other.now.text }
        ensures order { IsTextOrder self.now.text other.now.text result }
    {
        StaticStr::as_str(self).cmp(StaticStr::as_str(other))
    }
}
