//! Pairs of the root's ticks and graphs of them, as the tests write them: by rows, each the line of a triple and a tick. And values in
//! boxes and lists; only here is a value let go for which there is no memory.
ghost use Rattle.std.specs.Prelude.{◌≡◌, IfOk};
ghost use Rattle.mld_ops.specs.Tagged.{tagged_cmp};
ghost use Rattle.tree_clock.specs.Lists.{IsAscending};

use graph_index::Graph;
use mld_ops::{Tagged, insert_pair};
use rdf_terms::read_triple;
use std::alloc::{AllocError, Global};
use std::test::Fail;
use tree_clock::{Dot, Path};

/// The value in a box.
pub(crate) fn boxed<T: Drop>(alloc: Global, value: T) -> Result<Box<T>, AllocError>
    ensures { IfOk result (λ it. it.value ≡ value) }
{
    Ok(Box::new(alloc, value)?)
}

/// Puts a value behind those of a list.
pub(crate) fn push<T: Drop>(list: &mut Vec<T>, value: T) -> Result<(), AllocError> {
    list.push(value)?;
    Ok(())
}

/// The pair of a row.
pub(crate) fn pair(alloc: Global, (line, tick): (&str, u32)) -> Result<Tagged, Fail> {
    let path = Path::root();
    Ok(Tagged {
        triple: read_triple(alloc, line)?,
        dot: Dot { path, tick },
    })
}

/// The pair of a row, in a box.
pub(crate) fn boxed_pair(alloc: Global, row: (&str, u32)) -> Result<Box<Tagged>, Fail> {
    Ok(boxed(alloc, pair(alloc, row)?)?)
}

fn fill(alloc: Global, list: &mut Vec<Tagged>, rows: &[(&str, u32)]) -> Result<(), Fail>
    requires { IsAscending tagged_cmp list.old.items }
    ensures { IsAscending tagged_cmp list.new.items }
{
    for row in rows {
        insert_pair(list, pair(alloc, *row)?)?;
    }
    Ok(())
}

/// The pairs of rows, ascending.
pub(crate) fn pairs(alloc: Global, rows: &[(&str, u32)]) -> Result<Vec<Tagged>, Fail>
    ensures { IfOk result (λ list. IsAscending tagged_cmp list.items) }
{
    let mut list = Vec::new(alloc);
    fill(alloc, &mut list, rows)?;
    Ok(list)
}

/// The graph of the pairs of rows.
pub(crate) fn graph(alloc: Global, rows: &[(&str, u32)]) -> Result<Box<Graph>, Fail> {
    let list = pairs(alloc, rows)?;
    Ok(boxed(alloc, Graph::from_list(alloc, list)?)?)
}
