//! Dots of two leaves, and clocks, pairs and sets of them, as the tests write them.
ghost use Rattle.std.specs.Prelude.{IfOk};
ghost use Rattle.mld_ops.specs.Tagged.{tagged_cmp};
ghost use Rattle.tree_clock.specs.Lists.{IsAscending};

use mld_ops::{Tagged, insert_pair};
use rdf_terms::read_triple;
use std::alloc::Global;
use std::test::Fail;
use suset::TaggedSet;
use tree_clock::{Clock, Dot, Path};

/// A dot of the left leaf.
pub(crate) fn left(tick: u32) -> Dot {
    Dot {
        path: Path::root().child(false),
        tick,
    }
}

/// A dot of the right leaf.
pub(crate) fn right(tick: u32) -> Dot {
    Dot {
        path: Path::root().child(true),
        tick,
    }
}

/// A pair, by its subject and its dot.
pub(crate) fn pair(alloc: Global, subject: &str, dot: &Dot) -> Result<Tagged, Fail> {
    let text = format!(in alloc; "<http://d/{subject}> <http://d/p> <http://d/o> .")?;
    Ok(Tagged {
        triple: read_triple(alloc, text.as_str())?,
        dot: *dot,
    })
}

fn fill(alloc: Global, list: &mut Vec<Tagged>, rows: &[(&str, Dot)]) -> Result<(), Fail>
    requires { IsAscending tagged_cmp list.old.items }
    ensures { IsAscending tagged_cmp list.new.items }
{
    for (subject, dot) in rows {
        insert_pair(list, pair(alloc, subject, dot)?)?;
    }
    Ok(())
}

/// Pairs, ascending.
pub(crate) fn pairs(alloc: Global, rows: &[(&str, Dot)]) -> Result<Vec<Tagged>, Fail>
    ensures { IfOk result (λ list. IsAscending tagged_cmp list.items) }
{
    let mut list = Vec::new(alloc);
    fill(alloc, &mut list, rows)?;
    Ok(list)
}

/// A clock that knows these dots and those before them.
pub(crate) fn clock(alloc: Global, dots: &[Dot]) -> Result<Clock, Fail> {
    let mut clock = Clock::empty(alloc);
    for dot in dots {
        clock.reserve(&dot.path)?;
        clock.raise(dot);
    }
    Ok(clock)
}

/// Whether these are just the pairs of these dots, in order.
pub(crate) fn have_dots(pairs: &[Tagged], dots: &[Dot]) -> bool {
    pairs.len() == dots.len() && pairs.iter().zip(dots).all(|(pair, dot)| pair.dot == *dot)
}

/// The set of these pairs.
pub(crate) fn set(alloc: Global, rows: &[(&str, Dot)]) -> Result<TaggedSet, Fail> {
    let list = pairs(alloc, rows)?;
    Ok(TaggedSet::from_list(list)?)
}

/// Whether a set has just the pairs of these dots, in order.
pub(crate) fn has_just(alloc: Global, set: &TaggedSet, dots: &[Dot]) -> Result<bool, Fail> {
    let list = set.to_list(alloc)?;
    Ok(have_dots(&list, dots))
}
