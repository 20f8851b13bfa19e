//! Leaves: the right to use a path's ticks, which a fork shares out.
ghost use Rattle.std.specs.Prelude.{◌≡◌, ℕ, ◌↔◌, ◌++◌, ◌∷◌, [], List, length, IfOk, IfErr, IfSome, IfNone, OnSome, IsNone};
ghost use Rattle.std.specs.Result.{IsErr};
ghost use Rattle.tree_clock.specs.Limits.{path_limit};
ghost use Rattle.tree_clock.specs.Path.{AreApart, zero_letter, one_letter};

use crate::limits::PATH_LIMIT;
use crate::paths::Path;
use std::marker::Model;

/// The right to use the ticks of a path. It can't be copied: a fork gives its sons in its place.
#[derive(Debug, Drop)]
pub struct Leaf {
    path: Path,
}

impl Model for Leaf {
    ghost use Rattle.std.specs.Prelude.{List, ℕ};

    ghost Value = { List ℕ };

    ghost view = { λ leaf. leaf.path };
}

/// A leaf that can't fork, since its path has `PATH_LIMIT` letters.
#[derive(Debug, Drop)]
pub struct Deep {
    /// The leaf, as it was.
    pub leaf: Leaf,
}

impl Leaf {
    /// The leaf that all others are forked from.
    pub fn genesis() -> Leaf
        ensures { result ≡ [] }
    {
        Leaf { path: Path::root() }
    }

    /// The leaf at a path.
    pub fn at(path: Path) -> Leaf
        ensures { result ≡ path }
    {
        Leaf { path }
    }

    /// Its path.
    pub fn path(&self) -> Path
        ensures { result ≡ self.now }
    {
        self.path
    }

    /// The two sons of the leaf, at the letters `0` and `1`. It takes no memory.
    pub fn fork(self) -> Result<(Leaf, Leaf), Deep>
        ensures zero { IfOk result (λ sons. sons.0 ≡ self ++ zero_letter ∷ []) }
        ensures one { IfOk result (λ sons. sons.1 ≡ self ++ one_letter ∷ []) }

        // The sons are apart, and what was apart from the leaf is apart from both.
        ensures apart { IfOk result (λ sons. AreApart sons.0 sons.1) }
        ensures keeps_apart { (other : List ℕ) → AreApart self other
            → IfOk result (λ sons. AreApart sons.0 other × AreApart sons.1 other) }

        // A leaf of as many letters as there may be, and no other, comes back.
        ensures deep { IsErr result ↔ (length self ≡ path_limit) }
        ensures leaf { IfErr result (λ deep. deep.leaf ≡ self) }
    {
        if self.path.len() == PATH_LIMIT {
            return Err(Deep { leaf: self });
        }
        let zero = Leaf {
            path: self.path.child(false),
        };
        let one = Leaf {
            path: self.path.child(true),
        };
        Ok((zero, one))
    }

    /// Forks the leaf in place: it becomes its son at the letter `0`, and the one at `1` is given. It takes no memory.
    pub fn give(&mut self) -> Option<Leaf>
        ensures left { OnSome result (self.new ≡ self.old ++ zero_letter ∷ []) }
        ensures right { IfSome result (λ right. right ≡ self.old ++ one_letter ∷ []) }

        // The halves are apart, and what was apart from the leaf is apart from both.
        ensures apart { IfSome result (λ right. AreApart self.new right) }
        ensures keeps_apart { (other : List ℕ) → AreApart self.old other
            → IfSome result (λ right. AreApart self.new other × AreApart right other) }

        // A leaf of as many letters as there may be, and no other, gives none and stays as it was.
        ensures deep { IsNone result ↔ (length self.old ≡ path_limit) }
        ensures unchanged { IfNone result (self.new ≡ self.old) }
    {
        let path = self.path;
        if path.len() == PATH_LIMIT {
            return None;
        }
        self.path = path.child(false);
        Some(Leaf::at(path.child(true)))
    }
}
