//! A graph, and a plain list beside it.
ghost use Rattle.std.specs.Prelude.{◌↔◌, IsTrue};
ghost use Rattle.tree_clock.specs.Lists.{IsAscending};

use graph_index::Graph;
use mld_ops::{Cut, Tagged, copy_pairs};
use std::alloc::{AllocError, Global};

/// A graph, and the pairs that it should have, in order.
#[derive(Drop)]
pub struct Both {
    /// The graph.
    pub graph: Graph,
    /// The pairs.
    pub list: Vec<Tagged>,
}

/// The value in a box.
pub fn boxed<T: Drop>(alloc: Global, value: T) -> Result<Box<T>, AllocError> {
    Ok(Box::new(alloc, value)?)
}

/// Puts a value behind those of a list.
pub fn push<T: Drop>(list: &mut Vec<T>, value: T) -> Result<(), AllocError> {
    list.push(value)?;
    Ok(())
}

/// Puts pairs in order, each once.
pub fn put_in_order(list: &mut Vec<Tagged>) {
    list.sort_unstable_by(|pair, other| pair.cmp(other));
    list.dedup_by(|pair, other| (*pair).cmp(other).is_eq());
}

/// Whether each item is below the next one.
fn is_ascending<T: Ord>(items: &[T]) -> bool
    ensures { IsTrue result ↔ IsAscending T.cmp items.now }
{
    items.is_sorted_by(|item, other| item.cmp(other).is_lt())
}

/// The graph of a list in order. Of any other it is empty.
fn graph_of(alloc: Global, list: &[Tagged]) -> Result<Graph, AllocError> {
    let copy = copy_pairs(alloc, list)?;
    if is_ascending(&copy) {
        Graph::from_list(alloc, copy)
    } else {
        Ok(Graph::empty(alloc))
    }
}

/// A list, and a graph that is made of it.
pub fn both_of(alloc: Global, list: Vec<Tagged>) -> Result<Box<Both>, AllocError> {
    let graph = graph_of(alloc, &list)?;
    boxed(alloc, Both { graph, list })
}

/// Changes a list as a cut says.
fn cut_list(list: &mut Vec<Tagged>, cut: &Cut) -> Result<(), AllocError> {
    list.retain(|pair| cut.drops.binary_search(pair).is_err());
    for pair in &cut.adds {
        push(list, pair.share()?)?;
    }
    put_in_order(list);
    Ok(())
}

/// Changes both as a cut says.
pub fn cut_both(alloc: Global, both: &mut Both, cut: Box<Cut>) -> Result<(), AllocError> {
    cut_list(&mut both.list, &cut)?;
    both.graph.prepare(alloc, &cut)?;
    both.graph.apply(Box::into_inner(cut));
    Ok(())
}
