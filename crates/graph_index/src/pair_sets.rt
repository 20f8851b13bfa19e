//! Small sets of pairs.
ghost use Rattle.std.specs.Prelude.{◌≡◌, ◌≤◌, [], IfOk, OnOk, OnErr, vec_len};
ghost use Rattle.mld_ops.specs.Applies.{Applies};
ghost use Rattle.mld_ops.specs.Tagged.{tagged_cmp};
ghost use Rattle.tree_clock.specs.Lists.{IsAscending};

use crate::changes::{add_all, remove_all};
use crate::copies::copy_chunks;
use crate::pair_order::PairOrder;
use crate::ranges::found_among_all;
use mld_ops::{Cut, Tagged, Tags};
use pair_orders::chunked_list::Chunked;
use std::alloc::{AllocError, Global};
use std::marker::Model;
use tree_clock::Range;

/// A set of pairs in one order alone, for what is gathered and given out as a list. Contracts see the ascending list.
#[derive(Drop)]
pub struct PairSet {
    list: Chunked<Tagged>,
}

impl Model for PairSet {
    ghost use Rattle.std.specs.Prelude.{List};
    ghost use Rattle.mld_ops.specs.Tagged.{tagged_cmp};
    ghost use Rattle.mld_ops.specs.declared.tagged.Tagged.{Tagged};
    ghost use Rattle.tree_clock.specs.Lists.{IsAscending};

    ghost Value = { List Tagged };

    ghost view = { λ set. set.list.elements };

    ghost invariant = { λ set. IsAscending tagged_cmp set.list.elements };
}

impl PairSet {
    /// No pair.
    pub fn empty(alloc: Global) -> PairSet
        ensures { result ≡ [] }
    {
        PairSet {
            list: Chunked::new(alloc),
        }
    }

    /// Loses the pairs that a cut drops, and then gains those that it adds. Where memory is wanting, it is as it was.
    pub fn change(&mut self, alloc: Global, cut: Cut) -> Result<(), AllocError>
        ensures ok { OnOk result (Applies cut.drops.items cut.adds.items self.old self.new) }
        ensures err { OnErr result (self.new ≡ self.old) }
    {
        self.list.prepare(alloc, cut.adds.len())?;
        let Cut { drops, adds } = cut;
        lose_and_gain(&mut self.list, &drops, adds);
        Ok(())
    }

    /// Its pairs, ascending.
    pub fn to_list(&self, alloc: Global) -> Result<Vec<Tagged>, AllocError>
        ensures pairs { IfOk result (λ list. list.items ≡ self.now) }
        ensures ascending { IsAscending tagged_cmp self.now }
    {
        copy_chunks(alloc, self.list.chunks())
    }
}

impl Tags for PairSet {
    ghost pairs = { λ set. set };

    fn has(&self, pair: &Tagged) -> bool {
        self.list.contains(&PairOrder, pair)
    }

    // It looks at each pair.
    fn of_range(&self, alloc: Global, range: &Range) -> Result<Vec<Tagged>, AllocError> {
        found_among_all(alloc, &self.list, range)
    }
}

// Loses pairs, and then gains others. It takes no memory.
fn lose_and_gain(list: &mut Chunked<Tagged>, drops: &[Tagged], adds: Vec<Tagged>)
    requires room { vec_len adds ≤ list.old.room }
    requires ascending { IsAscending tagged_cmp list.old.elements }
    ensures { Applies drops.now adds.items list.old.elements list.new.elements }
{
    remove_all(list, drops);
    let mut rest = adds;
    add_all(&PairOrder, list, &mut rest);
}
