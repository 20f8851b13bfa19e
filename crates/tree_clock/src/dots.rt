//! Dots and ranges of dots.
use crate::paths::Path;
use std::cmp::Ordering;
use std::fmt;

/// A dot: one tick of a path, from 1 to `TICK_LIMIT`. Its text is the path's, a dot and the tick, as `r01.3`.
#[derive(Clone, Copy, Debug, PartialEq, Eq)]
pub struct Dot {
    /// The path.
    pub path: Path,
    /// The tick.
    pub tick: u32,
}

impl PartialOrd for Dot {
    ghost use Rattle.std.specs.Cmp.{partial_order_from_own_ties};
    ghost use Rattle.std.specs.Cmp.Rules.{comparing};
    ghost use Rattle.std.specs.Ordering.{as_partial_cmp};
    ghost use Rattle.std.proofs.Common.{rules};
    ghost use Rattle.tree_clock.specs.Dot.{dot_cmp};
    ghost use Rattle.tree_clock.specs.DotLaws.{dot_total};

    ghost partial_cmp = { as_partial_cmp dot_cmp };

    ghost laws = { partial_order_from_own_ties (Prim.search (dot_total, comparing, rules)) (Prim.search (comparing, rules)) };

    fn partial_cmp(&self, other: &Dot) -> Option<Ordering> {
        Some(self.cmp(other))
    }
}

// By path, then by tick.
impl Ord for Dot {
    ghost use Rattle.std.specs.Cmp.Rules.{comparing};
    ghost use Rattle.std.proofs.Common.{rules};
    ghost use Rattle.tree_clock.specs.Dot.{dot_cmp};
    ghost use Rattle.tree_clock.specs.DotLaws.{dot_total};

    ghost cmp = { dot_cmp };

    ghost total = { dot_total };

    ghost matches_partial_cmp = { Prim.search (comparing, rules) };

    ghost matches_eq = { Prim.search (comparing, rules) };

    fn cmp(&self, other: &Dot) -> Ordering {
        self.path.cmp(&other.path).then(self.tick.cmp(&other.tick))
    }
}

impl fmt::Display for Dot {
    ghost use Rattle.std.specs.Prelude.{Some};
    ghost use Rattle.tree_clock.specs.Dot.{dot_text};

    ghost output = { λ d. Some (dot_text d) };

    fn fmt<W: fmt::Write>(&self, f: &mut fmt::Formatter<W>) -> fmt::Result {
        write!(f, "{}.{}", self.path, self.tick)
    }
}

/// The dots of a path from a first tick to a last. Its text is as `r01.1-3`.
#[derive(Clone, Copy, Debug, PartialEq, Eq)]
pub struct Range {
    /// The path.
    pub path: Path,
    /// The first tick.
    pub first: u32,
    /// The last tick.
    pub last: u32,
}

impl fmt::Display for Range {
    ghost use Rattle.std.specs.Prelude.{Some};
    ghost use Rattle.tree_clock.specs.Dot.{range_text};

    ghost output = { λ r. Some (range_text r) };

    fn fmt<W: fmt::Write>(&self, f: &mut fmt::Formatter<W>) -> fmt::Result {
        write!(f, "{}.{}-{}", self.path, self.first, self.last)
    }
}

impl Range {
    ghost use Rattle.std.specs.Prelude.{◌↔◌, IsTrue};
    ghost use Rattle.tree_clock.specs.Dot.{IsIn};

    /// Whether the dot is one of the range.
    pub fn contains(&self, dot: &Dot) -> bool
        ensures { IsTrue result ↔ IsIn self.now dot.now }
    {
        dot.path == self.path && self.first <= dot.tick && dot.tick <= self.last
    }
}
