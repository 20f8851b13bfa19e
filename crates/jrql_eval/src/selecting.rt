//! Selects.
ghost use Rattle.std.specs.Prelude.{◌≡◌, ◌<◌, ◌≤◌, length, drop, IfOk, IsErrOf};
ghost use Rattle.jrql_rows.specs.mld_ops.Present.{present};
ghost use Rattle.jrql_rows.specs.jrql_ast.InForm.{IsQueryInForm};
ghost use Rattle.jrql_rows.specs.jrql_ast.QueryAnswers.{IsAnswer, distinct_rows, found, limited, solution_limit};
ghost use Rattle.jrql_rows.specs.KeptValues.{rows_at};
ghost use Rattle.jrql_eval.specs.Asked.{AsksRows, IsSelectedOf};

use crate::faults::EvalFault;
use crate::solving::find_rows;
use jrql_rows::graph_index::Graph;
use jrql_rows::jrql_ast::{Answer, Query, Row, Select, Sequence, What};
use jrql_rows::{KeptRows, sorted_by_replies};
use std::alloc::{AllocError, Global};

// Each row once, where that is asked for.
fn drop_repeats(distinct: bool, kept: &KeptRows<'_>, rows: &mut Vec<usize>)
    ensures { rows_at kept.now.rows rows.new.items ≡ distinct_rows distinct (rows_at kept.now.rows rows.old.items) }
{
    if distinct {
        rows.dedup_by(|row, other| kept.compare(*row, *other).is_eq());
    }
}

// As many rows as a select asks for, behind as many as it leaves out.
fn cut(rows: &[usize], offset: u64, limit: Option<u64>) -> &[usize]
    ensures { result.now ≡ limited limit (drop offset rows.now) }
{
    let begun = offset.min(rows.len() as u64) as usize;
    let rest = &rows[begun..];
    match limit {
        Some(limit) => &rest[..limit.min(rest.len() as u64) as usize],
        None => rest,
    }
}

/// The answer to a select: what the solutions of its group have for its variables, sorted from the first variable on in the order of
/// replies, each row once where it is `distinct`, then without those of `offset`, and of those that are left as many as `limit` allows
/// (SPARQL 1.1 Query Language, section 15). It is refused with `TooMany` where the group has more than 1,048,576 solutions.
pub fn select(alloc: Global, graph: &Graph, query: &Query) -> Result<Answer, EvalFault>
    requires form { IsQueryInForm query.now }
    requires kind { AsksRows query.now.what }
    ensures answer { IfOk result (IsAnswer (present graph.now.pairs) query.now) }
    ensures few { IfOk result (λ answer. length (found (present graph.now.pairs) query.now.group) ≤ solution_limit) }
    ensures too_many { IsErrOf result EvalFault.TooMany
        → solution_limit < length (found (present graph.now.pairs) query.now.group) }
{
    let What::Select(select) = &query.what else {
        unreachable!()
    };
    let mut kept = KeptRows::new(alloc, graph, select.vars.as_slice(), select.distinct);
    find_rows(alloc, &query.group, &mut kept)?;
    Ok(Answer::Rows(selected(alloc, select, &kept)?))
}

// Rows of a select's values, as it asks for them.
fn selected(
    alloc: Global,
    select: &Select,
    kept: &KeptRows<'_>,
) -> Result<Sequence<Row>, AllocError>
    ensures { IfOk result (IsSelectedOf select.now kept.now.rows) }
{
    let mut rows = sorted_by_replies(alloc, kept)?;
    drop_repeats(select.distinct, kept, &mut rows);
    let left = cut(&rows, select.offset, select.limit);
    Ok(Sequence::from_vec(kept.make_rows(alloc, left)?))
}
