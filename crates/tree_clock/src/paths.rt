//! Paths of the tree of leaves.
ghost use Rattle.std.specs.Prelude.{◌≡◌, ℕ, ◌+◌, ◌-◌, ◌<◌, ◌≤◌, ◌^◌, ◌↔◌, ◌++◌, ◌∷◌, [], List, All, IsTrue, if◌then◌else◌, length, nat_eq, slice_index, take, Some};
ghost use Rattle.std.proofs.Common.{rules};
ghost use Rattle.std.specs.Cmp.{partial_equiv_from_equiv, partial_order_from_own_ties};
ghost use Rattle.std.specs.Cmp.Lexicographic.{pointwise, slice_cmp, nat_list_eq_equiv};
ghost use Rattle.std.specs.Cmp.Rules.{comparing};
ghost use Rattle.std.specs.Ordering.{nat_cmp, as_partial_cmp};
ghost use Rattle.tree_clock.specs.Letters.{IsLetter, number_of};
ghost use Rattle.tree_clock.specs.Limits.{path_limit};
ghost use Rattle.tree_clock.specs.Path.{letters, path_text, zero_letter, one_letter};

use std::cmp::Ordering;
use std::fmt;
use std::hash::{Hash, Hasher};
use std::marker::Model;

/// A path: at most `PATH_LIMIT` letters, each `0` or `1`. Contracts see the list of its letters, `zero_letter` and `one_letter`.
#[derive(Clone, Copy, Debug)]
pub struct Path {
    bits: u64,
    len: u8,
}

impl Model for Path {
    ghost use Rattle.std.specs.Prelude.{List, ℕ, ◌≤◌, ◌<◌, ◌^◌, length};

    ghost Value = { List ℕ };

    ghost use Rattle.tree_clock.specs.Path.{letters};
    ghost use Rattle.tree_clock.specs.Letters.{number_of, inside-letters};
    ghost use Rattle.tree_clock.specs.Limits.{path_limit};

    ghost view = { λ p. letters p.len p.bits };

    ghost invariant = { λ p. (p.len ≤ path_limit) × (p.bits < 2 ^ p.len) };

    ghost inverse = { λ path. record { bits = number_of path; len = length path } };

    ghost inverse_ok = { inside-letters };
}

impl Path {
    /// The path with no letter.
    pub fn root() -> Path
        ensures { result ≡ [] }
    {
        Path { bits: 0, len: 0 }
    }

    /// The number of letters.
    pub fn len(&self) -> u8
        ensures value { result ≡ length self.now }
        ensures at_most { result ≤ path_limit }
        ensures letters { All IsLetter self.now }
    {
        self.len
    }

    /// Whether the path is the root.
    pub fn is_empty(&self) -> bool
        ensures { IsTrue result ↔ (self.now ≡ []) }
    {
        self.len == 0
    }

    /// Whether the letter at a place, counted from 0 at the front, is `1`.
    pub fn letter(&self, i: u8) -> bool
        requires { i < length self.now }
        ensures { slice_index self.now i ≡ (if result then one_letter else zero_letter) }
    {
        self.bits >> (self.len - 1 - i) & 1 == 1
    }

    /// The path with one more letter, `1` or `0`.
    pub fn child(&self, one: bool) -> Path
        requires { length self.now < path_limit }
        ensures { result ≡ self.now ++ (if one then one_letter else zero_letter) ∷ [] }
    {
        Path {
            bits: self.bits * 2 + u64::from(one),
            len: self.len + 1,
        }
    }

    // The number that all letters spell.
    fn number(&self) -> u64
        ensures { result ≡ number_of self.now }
    {
        self.bits
    }

    // The number that the first letters spell.
    fn front(&self, n: u8) -> u64
        requires { n ≤ length self.now }
        ensures below { result < 2 ^ n }
        ensures letters { letters n result ≡ take n self.now }
    {
        if n == 0 {
            0
        } else {
            self.bits >> (self.len - n)
        }
    }
}

impl PartialEq for Path {
    ghost eq = { pointwise nat_eq };

    ghost laws = { partial_equiv_from_equiv nat_list_eq_equiv };

    fn eq(&self, other: &Path) -> bool {
        self.len == other.len && self.bits == other.bits
    }
}

impl Eq for Path {
    ghost laws = { nat_list_eq_equiv };
}

impl PartialOrd for Path {
    ghost partial_cmp = { as_partial_cmp (slice_cmp nat_cmp) };

    ghost laws = { partial_order_from_own_ties (Prim.search (comparing, rules)) (Prim.search (comparing, rules)) };

    fn partial_cmp(&self, other: &Path) -> Option<Ordering> {
        Some(self.cmp(other))
    }
}

impl Ord for Path {
    ghost cmp = { slice_cmp nat_cmp };

    ghost total = { Prim.search (comparing, rules) };

    ghost matches_partial_cmp = { Prim.search (comparing, rules) };

    ghost matches_eq = { Prim.search (comparing, rules) };

    fn cmp(&self, other: &Path) -> Ordering {
        let common = self.len.min(other.len);
        self.front(common)
            .cmp(&other.front(common))
            .then(self.len.cmp(&other.len))
    }
}

impl Hash for Path {
    ghost use Rattle.std.specs.Cmp.Rules.{hashing};
    ghost use Rattle.std.specs.Hash as fed;

    ghost hash_input = { λ path. fed.u64 (number_of path) ++ fed.u8 (length path) };

    ghost respects_eq = { Prim.search (hashing, comparing, rules) };

    fn hash<H: Hasher>(&self, state: &mut H) {
        self.number().hash(state);
        self.len().hash(state);
    }
}

impl fmt::Display for Path {
    ghost output = { λ p. Some (path_text p) };

    fn fmt<W: fmt::Write>(&self, f: &mut fmt::Formatter<W>) -> fmt::Result {
        write!(f, "r")?;
        for i in 0..self.len() {
            if self.letter(i) {
                write!(f, "1")?;
            } else {
                write!(f, "0")?;
            }
        }
        Ok(())
    }
}
