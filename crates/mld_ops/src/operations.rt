//! Operations, and the meaning of a history, computed as it is defined: slow, and meant for small histories.
ghost use Rattle.std.specs.Prelude.{◌≡◌, ◌↔◌, ◌⊎◌, IsTrue, IfOk, OnOk};
ghost use Rattle.mld_ops.specs.Deleted.{IsDeleted, IsOf};
ghost use Rattle.mld_ops.specs.Meaning.{IsMeaning};
ghost use Rattle.mld_ops.specs.Tagged.{tagged_cmp};
ghost use Rattle.mld_ops.specs.declared.tagged.Tagged.{Tagged};
ghost use Rattle.tree_clock.specs.Dot.{Knows};
ghost use Rattle.tree_clock.specs.Lists.{Has, IsAscending};

use crate::pairs::insert_pair;
use crate::tagged::Tagged;
use rdf_terms::Triple;
use std::alloc::{AllocError, Global};
use std::marker::Model;
use tree_clock::{Dot, Range, Ranges, knows};

/// An operation: its dot, the dots known where it was made, the pairs that it deletes, and the triples that it inserts.
#[derive(Drop)]
pub struct Operation {
    /// Its dot.
    pub dot: Dot,
    /// The dots known where it was made.
    pub causes: Ranges,
    /// The pairs that it deletes.
    pub deletes: Vec<Tagged>,
    /// The triples that it inserts, each tagged by its dot.
    pub inserts: Vec<Triple>,
}

impl Model for Operation {
    ghost use Rattle.mld_ops.specs.History.{Operation as OperationValue};

    ghost Value = { OperationValue };

    ghost view = { λ o. record { dot = o.dot; causes = o.causes; deletes = o.deletes.items; inserts = o.inserts.items } };
}

/// The pairs of a history for one who knows the dots of some ranges, ascending: those that a known operation inserted
/// and no known operation deletes. It takes time by the square of the history's length.
pub fn meaning(
    alloc: Global,
    history: &[Operation],
    known: &[Range],
) -> Result<Vec<Tagged>, AllocError>
    ensures { IfOk result (λ pairs. IsMeaning history.now known.now pairs.items) }
{
    let mut pairs = Vec::new(alloc);
    for operation in history {
        if is_known(known, operation) {
            insert_kept(&mut pairs, history, known, operation)?;
        }
    }
    Ok(pairs)
}

// Puts in the pairs of the operation that no known operation deletes.
fn insert_kept(
    pairs: &mut Vec<Tagged>,
    history: &[Operation],
    known: &[Range],
    operation: &Operation,
) -> Result<(), AllocError>
    requires { IsAscending tagged_cmp pairs.old.items }
    ensures ascending { IsAscending tagged_cmp pairs.new.items }
    ensures ok { OnOk result ((pair : Tagged) → Has pairs.new.items pair
        ↔ (Has pairs.old.items pair ⊎ IsOf history.now known.now operation.now.dot operation.now.inserts pair)) }
{
    insert_triples(pairs, history, known, &operation.dot, &operation.inserts)
}

// Puts in the triples with the dot, each unless a known operation deletes that pair.
fn insert_triples(
    pairs: &mut Vec<Tagged>,
    history: &[Operation],
    known: &[Range],
    dot: &Dot,
    triples: &[Triple],
) -> Result<(), AllocError>
    requires { IsAscending tagged_cmp pairs.old.items }
    ensures ascending { IsAscending tagged_cmp pairs.new.items }
    ensures ok { OnOk result ((pair : Tagged) → Has pairs.new.items pair
        ↔ (Has pairs.old.items pair ⊎ IsOf history.now known.now dot.now triples.now pair)) }
{
    for triple in triples {
        let pair = Tagged {
            triple: triple.share()?,
            dot: *dot,
        };
        insert_unless_deleted(pairs, history, known, pair)?;
    }
    Ok(())
}

// Puts in the pair, unless a known operation deletes it.
fn insert_unless_deleted(
    pairs: &mut Vec<Tagged>,
    history: &[Operation],
    known: &[Range],
    pair: Tagged,
) -> Result<(), AllocError>
    requires { IsAscending tagged_cmp pairs.old.items }
    ensures ascending { IsAscending tagged_cmp pairs.new.items }
    ensures ok { OnOk result ((other : Tagged) → Has pairs.new.items other
        ↔ (Has pairs.old.items other ⊎ ((other ≡ pair) × ¬ IsDeleted history.now known.now pair))) }
{
    if is_deleted(history, known, &pair) {
        Ok(())
    } else {
        insert_pair(pairs, pair)
    }
}

// Whether a known operation deletes the pair.
fn is_deleted(history: &[Operation], known: &[Range], pair: &Tagged) -> bool
    ensures { IsTrue result ↔ IsDeleted history.now known.now pair.now }
{
    for operation in history {
        if is_known(known, operation) && deletes(operation, pair) {
            return true;
        }
    }
    false
}

// Whether the operation's dot is known.
fn is_known(known: &[Range], operation: &Operation) -> bool
    ensures { IsTrue result ↔ Knows known.now operation.now.dot }
{
    knows(known, &operation.dot)
}

// Whether the operation deletes the pair.
fn deletes(operation: &Operation, pair: &Tagged) -> bool
    ensures { IsTrue result ↔ Has operation.now.deletes pair.now }
{
    stands(&operation.deletes, pair)
}

// Whether the pair is one of a list in any order.
fn stands(pairs: &[Tagged], pair: &Tagged) -> bool
    ensures { IsTrue result ↔ Has pairs.now pair.now }
{
    pairs.contains(pair)
}
