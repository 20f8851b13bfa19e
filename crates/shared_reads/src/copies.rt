//! The state of which there are two copies, and what one swap makes of it.
ghost use Rattle.std.specs.Prelude.{◌≡◌, OnOk, OnErr};
ghost use Rattle.shared_reads.specs.HistoryRule.{change_of, mark_of};
ghost use Rattle.shared_reads.specs.PairChanges.{after, after_mark};

use crate::deeds::Deed;
use crate::history::Reached;
use graph_index::Graph;
use left_right::Absorb;
use mld_ops::{Cut, copy_pairs};
use std::alloc::{AllocError, Global};
use std::marker::Model;

/// What seats see: pairs, and what is published so far. Contracts see both.
#[derive(Drop)]
pub struct Shown {
    graph: Graph,
    list: Reached,
}

impl Model for Shown {
    ghost use Rattle.shared_reads.specs.Copies.{ShownValue};

    ghost Value = { ShownValue };

    ghost view = { λ s. record { pairs = s.graph.pairs; reach = s.list } };
}

impl Shown {
    /// These pairs, where this is published.
    pub(crate) fn new(graph: Graph, list: Reached) -> Shown
        ensures { result ≡ record { pairs = graph.pairs; reach = list } }
    {
        Shown { graph, list }
    }

    /// The pairs.
    pub(crate) fn graph(&self) -> &Graph
        ensures { result.now.pairs ≡ self.now.pairs }
    {
        &self.graph
    }

    /// What is published.
    pub(crate) fn list(&self) -> &Reached
        ensures { result.now ≡ self.now.reach }
    {
        &self.list
    }
}

/// What one swap publishes: a deed, and the list with its mark.
#[derive(Drop)]
pub struct Published {
    pub alloc: Global,
    pub deed: Deed,
    pub list: Reached,
}

impl Absorb<Published> for Shown {
    ghost use Rattle.shared_reads.specs.Copies.{applied};

    type State = Shown;

    ghost state = { λ shown. shown };

    ghost applied = { applied };

    fn absorb_first(&mut self, published: &Published, _other: &Shown) -> Result<(), AllocError> {
        do_deed(published.alloc, &mut self.graph, &published.deed)?;
        self.list = published.list.again();
        Ok(())
    }
}

// Does to the pairs what a deed says.
fn do_deed(alloc: Global, graph: &mut Graph, deed: &Deed) -> Result<(), AllocError>
    ensures ok { OnOk result (graph.new.pairs ≡ after_mark graph.old.pairs (mark_of deed.now)) }
    ensures err { OnErr result (graph.new.pairs ≡ graph.old.pairs) }
{
    match deed {
        Deed::Cut(cut) => do_cut(alloc, graph, cut),
        Deed::End => Ok(()),
    }
}

// Applies a cut to the pairs.
fn do_cut(alloc: Global, graph: &mut Graph, cut: &Cut) -> Result<(), AllocError>
    ensures ok { OnOk result (graph.new.pairs ≡ after graph.old.pairs (change_of cut.now)) }
    ensures err { OnErr result (graph.new.pairs ≡ graph.old.pairs) }
{
    let copy = Cut {
        drops: copy_pairs(alloc, &cut.drops)?,
        adds: copy_pairs(alloc, &cut.adds)?,
    };
    graph.prepare(alloc, &copy)?;
    graph.apply(copy);
    Ok(())
}
