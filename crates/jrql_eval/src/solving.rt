//! The solutions of a group.
ghost use Rattle.std.specs.Prelude.{◌≡◌, ◌<◌, ◌≤◌, ◌∷◌, [], length, IfOk, IsErrOf};
ghost use Rattle.std.specs.List.{range_with_len};
ghost use Rattle.jrql_rows.specs.mld_ops.Present.{present};
ghost use Rattle.jrql_rows.specs.jrql_ast.InForm.{IsGroupInForm, variables_of};
ghost use Rattle.jrql_rows.specs.jrql_ast.QueryAnswers.{IsSolutions, found, solution_limit};
ghost use Rattle.jrql_eval.specs.Evaluating.{asks_nothing};
ghost use Rattle.jrql_eval.specs.KeptFound.{KeepsFound};

use crate::faults::EvalFault;
use crate::scanning::are_present;
use crate::searching::{Ending, search};
use jrql_plans::plan_of;
use jrql_rows::graph_index::Graph;
use jrql_rows::jrql_ast::{Group, Row};
use jrql_rows::jrql_filters::all_can_hold;
use jrql_rows::{Bindings, KeptRows, columns_of, sorted_by_columns};
use std::alloc::{AllocError, Global};

// How many variables a group has.
fn variables_of(group: &Group) -> usize
    requires { IsGroupInForm group.now }
    ensures { result ≡ variables_of group.now }
{
    group.names.len() + group.hidden as usize
}

// Whether a group asks for nothing, as that of an update of one triple. It has one solution then, in which nothing is bound.
fn asks_nothing(group: &Group) -> bool
    requires { IsGroupInForm group.now }
    ensures { result ≡ asks_nothing group.now }
{
    variables_of(group) == 0
        && group.patterns.is_empty()
        && group.branches.is_empty()
        && group.filters.is_empty()
}

// That solution alone.
fn empty_row(alloc: Global) -> Result<Vec<Row>, AllocError>
    ensures { IfOk result (λ rows. rows.items ≡ [] ∷ []) }
{
    let mut rows = Vec::with_capacity(alloc, 1)?;
    rows.push(Row::new(alloc))?;
    Ok(rows)
}

/// All variables of a group.
pub(crate) fn all_variables(alloc: Global, group: &Group) -> Result<Vec<u16>, AllocError>
    requires { IsGroupInForm group.now }
    ensures { IfOk result (λ variables. variables.items ≡ range_with_len 0 (variables_of group.now)) }
{
    let count = variables_of(group);
    let mut variables = Vec::with_capacity(alloc, count)?;
    for variable in 0..count as u16 {
        variables.push(variable)?;
    }
    Ok(variables)
}

/// Keeps the solutions of a group, in whatever order.
pub(crate) fn find_rows(
    alloc: Global,
    group: &Group,
    kept: &mut KeptRows<'_>,
) -> Result<(), EvalFault>
    requires form { IsGroupInForm group.now }
    requires few { kept.old.count ≤ solution_limit }
    ensures { KeepsFound kept.old (found (present kept.old.graph.pairs) group.now) result kept.new }
{
    let plan = plan_of(alloc, group)?;
    let mut start = Bindings::unbound(alloc, kept.graph(), variables_of(group))?;
    if !all_can_hold(&plan.tests, &start) {
        return Ok(());
    }
    if !are_present(&plan.checks, &start) {
        return Ok(());
    }
    let ending = Ending {
        filters: group.filters.as_slice(),
        branches: &plan.branches,
    };
    search(alloc, &ending, &plan.stages, &mut start, kept)
}

/// The solutions of a group, sorted by its named variables in the order of their names, then by its hidden ones: for each branch all
/// rows in which the patterns of the group and of the branch are triples of the graph, and for which all filters hold (SPARQL 1.1 Query
/// Language, section 18). They are refused with `TooMany` where there are more than 1,048,576.
pub fn solutions(alloc: Global, graph: &Graph, group: &Group) -> Result<Vec<Row>, EvalFault>
    requires { IsGroupInForm group.now }
    ensures rows { IfOk result (λ rows. IsSolutions (present graph.now.pairs) group.now rows.items) }
    ensures few { IfOk result (λ rows. length (found (present graph.now.pairs) group.now) ≤ solution_limit) }
    ensures too_many { IsErrOf result EvalFault.TooMany
        → solution_limit < length (found (present graph.now.pairs) group.now) }
{
    if asks_nothing(group) {
        let rows = empty_row(alloc)?;
        return Ok(rows);
    }
    let variables = all_variables(alloc, group)?;
    let mut kept = KeptRows::new(alloc, graph, &variables, false);
    find_rows(alloc, group, &mut kept)?;
    let columns = columns_of(alloc, group.names.as_slice(), group.hidden)?;
    let sorted = sorted_by_columns(alloc, &kept, &columns)?;
    Ok(kept.make_rows(alloc, &sorted)?)
}
