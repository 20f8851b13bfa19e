//! Changes of sets of pairs, and what such a set can be asked.
ghost use Rattle.std.specs.Prelude.{List, ◌↔◌, IsTrue, IfOk};
ghost use Rattle.mld_ops.specs.Applies.{IsOfRange};
ghost use Rattle.mld_ops.specs.declared.tagged.Tagged.{Tagged};
ghost use Rattle.tree_clock.specs.Lists.{Has};

use crate::tagged::Tagged;
use std::alloc::{AllocError, Global};
use tree_clock::Range;

/// A change of a set of pairs: it loses `drops`, and then gains `adds`. Both lists ascend.
#[derive(Drop)]
pub struct Cut {
    /// The pairs that go.
    pub drops: Vec<Tagged>,
    /// The pairs that come.
    pub adds: Vec<Tagged>,
}

/// A set of pairs.
pub trait Tags {
    /// Its pairs.
    ghost pairs: { Self → List Tagged };

    /// Whether it has the pair.
    fn has(&self, pair: &Tagged) -> bool
        ensures { IsTrue result ↔ Has (pairs self.now) pair.now };

    /// Its pairs whose dot is one of the range, ascending.
    fn of_range(&self, alloc: Global, range: &Range) -> Result<Vec<Tagged>, AllocError>
        ensures { IfOk result (λ found. IsOfRange range.now (pairs self.now) found.items) };
}
