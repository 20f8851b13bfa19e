//! Lists of ranges of dots, which stand for sets of dots.
ghost use Rattle.std.specs.Prelude.{◌≡◌, ◌↔◌, ◌++◌, ◌∷◌, [], length, IsTrue, IfOk, OnOk, OnErr};
ghost use Rattle.tree_clock.specs.Dot.{Knows};

use crate::dots::{Dot, Range};
use std::alloc::{AllocError, Global};
use std::marker::Model;

/// A list of ranges. Contracts see it as the list.
#[derive(Drop)]
pub struct Ranges {
    items: Vec<Range>,
}

impl Model for Ranges {
    ghost use Rattle.std.specs.Prelude.{List};
    ghost use Rattle.tree_clock.specs.declared.dots.Range.{Range};

    ghost Value = { List Range };

    ghost view = { λ ranges. ranges.items.items };
}

impl Ranges {
    /// The list with no range.
    pub fn new(alloc: Global) -> Ranges
        ensures { result ≡ [] }
    {
        Ranges {
            items: Vec::new(alloc),
        }
    }

    /// The number of ranges.
    pub fn len(&self) -> usize
        ensures { result ≡ length self.now }
    {
        self.items.len()
    }

    /// Whether there is no range.
    pub fn is_empty(&self) -> bool
        ensures { IsTrue result ↔ (self.now ≡ []) }
    {
        self.items.is_empty()
    }

    /// The ranges as a slice.
    pub fn as_slice(&self) -> &[Range]
        ensures { result.now ≡ self.now }
    {
        self.items.as_slice()
    }

    /// Adds a range at the end.
    pub fn push(&mut self, range: Range) -> Result<(), AllocError>
        ensures ok { OnOk result (self.new ≡ self.old ++ range ∷ []) }
        ensures err { OnErr result (self.new ≡ self.old) }
    {
        self.items.push(range)?;
        Ok(())
    }

    /// A copy.
    pub fn copy_in(&self, alloc: Global) -> Result<Ranges, AllocError>
        ensures { IfOk result (λ copy. copy ≡ self.now) }
    {
        Ok(Ranges {
            items: Vec::from_slice(alloc, self.items.as_slice())?,
        })
    }

    /// Whether the dot is one of those of a range.
    pub fn knows(&self, dot: &Dot) -> bool
        ensures { IsTrue result ↔ Knows self.now dot.now }
    {
        knows(self.items.as_slice(), dot)
    }
}

/// Whether the dot is one of those of a range.
pub fn knows(ranges: &[Range], dot: &Dot) -> bool
    ensures { IsTrue result ↔ Knows ranges.now dot.now }
{
    for range in ranges {
        if range.contains(dot) {
            return true;
        }
    }
    false
}
