//! Sets of pairs.
ghost use Rattle.std.specs.Prelude.{◌≡◌, ◌↔◌, IsTrue, IfOk, IsOk, OnOk, OnErr};
ghost use Rattle.mld_ops.specs.Applies.{Applies, IsOfRange};
ghost use Rattle.suset.specs.StateJoin.{IsJoined};
ghost use Rattle.mld_ops.specs.Tagged.{tagged_cmp};
ghost use Rattle.tree_clock.specs.Lists.{Has, IsAscending};

use crate::changes::apply_to;
use crate::joins::joined;
use mld_ops::{Cut, Tagged, Tags, copy_pairs, has_pair};
use std::alloc::{AllocError, Global};
use std::marker::Model;
use tree_clock::{Clock, Range};

/// A set of pairs. Contracts see it as an ascending list.
#[derive(Drop)]
pub struct TaggedSet {
    pairs: Vec<Tagged>,
}

impl Model for TaggedSet {
    ghost use Rattle.std.specs.Prelude.{List};
    ghost use Rattle.mld_ops.specs.Tagged.{tagged_cmp};
    ghost use Rattle.mld_ops.specs.declared.tagged.Tagged.{Tagged};
    ghost use Rattle.tree_clock.specs.Lists.{IsAscending};

    ghost Value = { List Tagged };

    ghost view = { λ set. set.pairs.items };

    ghost invariant = { λ set. IsAscending tagged_cmp set.pairs.items };
}

impl TaggedSet {
    /// The set of these pairs, which ascend. It takes no memory, and so it succeeds.
    pub fn from_list(list: Vec<Tagged>) -> Result<TaggedSet, AllocError>
        requires { IsAscending tagged_cmp list.items }
        ensures pairs { IfOk result (λ set. set ≡ list.items) }
        ensures succeeds { IsOk result }
    {
        Ok(TaggedSet { pairs: list })
    }

    /// Whether it has the pair.
    pub fn contains(&self, pair: &Tagged) -> bool
        ensures { IsTrue result ↔ Has self.now pair.now }
    {
        has_pair(&self.pairs, pair)
    }

    /// Its pairs, ascending.
    pub fn to_list(&self, alloc: Global) -> Result<Vec<Tagged>, AllocError>
        ensures pairs { IfOk result (λ list. list.items ≡ self.now) }
        ensures ascending { IsAscending tagged_cmp self.now }
    {
        copy_pairs(alloc, &self.pairs)
    }

    /// Its pairs, ascending, to be moved on.
    pub fn into_list(self) -> Vec<Tagged>
        ensures pairs { result.items ≡ self }
        ensures ascending { IsAscending tagged_cmp self }
    {
        let TaggedSet { pairs } = self;
        pairs
    }

    /// Loses the pairs that a cut drops, and then gains those that it adds. Where memory is wanting, it stays as it was.
    pub fn apply(&mut self, alloc: Global, cut: Cut) -> Result<(), AllocError>
        requires drops { IsAscending tagged_cmp cut.drops.items }
        requires adds { IsAscending tagged_cmp cut.adds.items }
        ensures ok { OnOk result (Applies cut.drops.items cut.adds.items self.old self.new) }
        ensures err { OnErr result (self.new ≡ self.old) }
    {
        apply_to(alloc, &mut self.pairs, cut)
    }

    /// The join with what another has who knows the dots of a clock, where the clock `own` has the dots that are known here: the pairs of
    /// both, and those of one side whose dot the other side doesn't know.
    pub fn join(
        &self,
        alloc: Global,
        own: &Clock,
        other: &[Tagged],
        theirs: &Clock,
    ) -> Result<TaggedSet, AllocError>
        requires { IsAscending tagged_cmp other.now }
        ensures { IfOk result (λ set. IsJoined own.now.ticks self.now other.now theirs.now.ticks set) }
    {
        Ok(TaggedSet {
            pairs: joined(alloc, own, &self.pairs, other, theirs)?,
        })
    }
}

impl Tags for TaggedSet {
    ghost pairs = { λ set. set };

    fn has(&self, pair: &Tagged) -> bool {
        self.contains(pair)
    }

    fn of_range(&self, alloc: Global, range: &Range) -> Result<Vec<Tagged>, AllocError> {
        inside(alloc, &self.pairs, range)
    }
}

// The pairs whose dot is one of the range.
fn inside(alloc: Global, pairs: &[Tagged], range: &Range) -> Result<Vec<Tagged>, AllocError>
    requires { IsAscending tagged_cmp pairs.now }
    ensures { IfOk result (λ found. IsOfRange range.now pairs.now found.items) }
{
    let mut found = Vec::new(alloc);
    for pair in pairs {
        if range.contains(&pair.dot) {
            found.push(pair.share()?)?;
        }
    }
    Ok(found)
}
