//! Lists of rows of which some go and some come: made ready first, which takes memory, and then moved, which doesn't.
ghost use Rattle.std.specs.Prelude.{◌+◌, ◌<◌, ◌^◌, IfOk, vec_len};
ghost use Rattle.reply_rows.specs.Moving.{AreBeyond, AreRowsUnknown, HasRowRoom, IsMoved};
ghost use Rattle.reply_rows.specs.Rising.{IsRising, row_order};

use crate::merging::{unknown_of, with, without};
use crate::row_orders::copy_rows;
use jrql_ast::Row;
use std::alloc::{AllocError, Global};

/// Room for a list of rows where some go and some come.
#[derive(Drop)]
pub struct Rooms {
    /// For those that stay.
    pub stay: Vec<Row>,
    /// For those that stay and come.
    pub whole: Vec<Row>,
}

/// Room for so many rows of which some go, and so many more.
pub fn rooms_for(alloc: Global, rows: usize, more: usize) -> Result<Rooms, AllocError>
    requires { rows + more < 2 ^ 64 }
    ensures { IfOk result (HasRowRoom rows more) }
{
    Ok(Rooms {
        stay: Vec::with_capacity(alloc, rows)?,
        whole: Vec::with_capacity(alloc, rows + more)?,
    })
}

/// A list of rows once some go and some come.
pub fn moved(rows: Vec<Row>, go: &[Row], come: Vec<Row>, rooms: Rooms) -> Vec<Row>
    requires rising { IsRising row_order rows.items }
    requires go { IsRising row_order go.now }
    requires come { IsRising row_order come.items }
    requires room { HasRowRoom (vec_len rows) (vec_len come) rooms }
    ensures { IsMoved rows.items go.now come.items result.items }
{
    let Rooms { stay, whole } = rooms;
    with(without(rows, go, stay), come, whole)
}

/// Those of the first rows that aren't among the second, as often as they stand more among the first.
pub fn beyond(alloc: Global, rows: &[Row], others: &[Row]) -> Result<Vec<Row>, AllocError>
    requires rising { IsRising row_order rows.now }
    requires others { IsRising row_order others.now }
    ensures { IfOk result (λ beyond. AreBeyond rows.now others.now beyond.items) }
{
    let copies = copy_rows(alloc, rows)?;
    let room = Vec::with_capacity(alloc, copies.len())?;
    Ok(without(copies, others, room))
}

/// Those of the rows that aren't known, each once.
pub fn unknown_among(alloc: Global, known: &[Row], rows: &[Row]) -> Result<Vec<Row>, AllocError>
    requires known { IsRising row_order known.now }
    requires rising { IsRising row_order rows.now }
    ensures { IfOk result (λ unknown. AreRowsUnknown rows.now known.now unknown.items) }
{
    let copies = copy_rows(alloc, rows)?;
    let room = Vec::with_capacity(alloc, copies.len())?;
    Ok(unknown_of(copies, known, room))
}
