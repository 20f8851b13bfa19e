//! Rows, found stage by stage, depth first, so that the rows alone take memory.
ghost use Rattle.std.specs.Prelude.{◌≡◌, ◌≤◌, Some, IsSome, ◌∷◌, [], if◌then◌else◌};
ghost use Rattle.std.specs.List.{All, filter, flat_map};
ghost use Rattle.jrql_rows.specs.graph_index.Numbered.{triple_numbered};
ghost use Rattle.jrql_rows.specs.jrql_ast.QueryAnswers.{solution_limit};
ghost use Rattle.jrql_rows.specs.mld_ops.Present.{present};
ghost use Rattle.jrql_rows.specs.jrql_ast.Solutions.{matches_from};
ghost use Rattle.jrql_plans.specs.PlannedGroups.{AreTestsOf, IsBranchReady, planned_in};
ghost use Rattle.jrql_eval.specs.Evaluating.{IsEndReady, IsReadyBehind, all_hold, ended_by, led_to, led_from};
ghost use Rattle.jrql_eval.specs.KeptFound.{KeepsFound, agree_numbered};
ghost use Rattle.jrql_rows.specs.Unbinding.{free_variables};

use crate::faults::EvalFault;
use crate::limits::SOLUTION_LIMIT;
use crate::scanning::{are_present, triples_for};
use jrql_plans::{BranchPlan, PatternStage};
use jrql_rows::graph_index::TermNumbers;
use jrql_rows::jrql_ast::Filter;
use jrql_rows::jrql_filters::{all_can_hold, all_hold};
use jrql_rows::{Bindings, FreeVariables, KeptRows, bind_pattern, free_variables, unbind_all};
use std::alloc::Global;

// Keeps what is asked of a row that is found. It is refused with `TooMany` where it is one too many.
fn keep(row: &Bindings<'_>, kept: &mut KeptRows<'_>) -> Result<(), EvalFault>
    requires graphs { row.now.graph ≡ kept.old.graph }
    requires few { kept.old.count ≤ solution_limit }
    ensures { KeepsFound kept.old (row.now.row ∷ []) result kept.new }
{
    if kept.count() >= SOLUTION_LIMIT {
        return Err(EvalFault::TooMany);
    }
    kept.keep(row)?;
    Ok(())
}

// Keeps a row for which every filter holds.
fn keep_if(filters: &[Filter], row: &Bindings<'_>, kept: &mut KeptRows<'_>) -> Result<(), EvalFault>
    requires graphs { row.now.graph ≡ kept.old.graph }
    requires few { kept.old.count ≤ solution_limit }
    ensures { KeepsFound kept.old (if all_hold filters.now row.now.row then row.now.row ∷ [] else []) result kept.new }
{
    if all_hold(filters, row) {
        keep(row, kept)
    } else {
        Ok(())
    }
}

/// What is at the end of stages: branches, one after another, or none, and the filters that hold of each row that is kept.
#[derive(Clone, Copy)]
pub(crate) struct Ending<'a> {
    pub(crate) filters: &'a [Filter],
    pub(crate) branches: &'a [BranchPlan<'a>],
}

/// Keeps the rows that stages lead to from a row, and branches behind them, and for which every filter holds, in whatever order.
#[cycle(search)]
pub(crate) fn search(
    alloc: Global,
    ending: &Ending<'_>,
    stages: &[PatternStage<'_>],
    row: &mut Bindings<'_>,
    kept: &mut KeptRows<'_>,
) -> Result<(), EvalFault>
    requires ready { IsEndReady ending.now stages.now row.old.row }
    requires graphs { row.old.graph ≡ kept.old.graph }
    requires few { kept.old.count ≤ solution_limit }
    ensures rows { KeepsFound kept.old (led_to (present row.old.graph.pairs) ending.now stages.now row.old.row) result kept.new }
    ensures same { row.new ≡ row.old }
{
    match stages.split_first() {
        None => search_branches(alloc, ending, row, kept),
        Some((stage, rest)) => {
            let found = triples_for(alloc, stage.pattern, row)?;
            search_each(alloc, ending, stage, rest, &found, row, kept)
        }
    }
}

// The same, at the end of stages.
#[cycle(search)]
fn search_branches(
    alloc: Global,
    ending: &Ending<'_>,
    row: &mut Bindings<'_>,
    kept: &mut KeptRows<'_>,
) -> Result<(), EvalFault>
    requires ready { IsEndReady ending.now [] row.old.row }
    requires graphs { row.old.graph ≡ kept.old.graph }
    requires few { kept.old.count ≤ solution_limit }
    ensures rows { KeepsFound kept.old (filter (all_hold ending.now.filters.now)
        (ended_by (present row.old.graph.pairs) ending.now.branches.now row.old.row)) result kept.new }
    ensures same { row.new ≡ row.old }
{
    if ending.branches.is_empty() {
        return keep_if(ending.filters, row, kept);
    }
    for branch in ending.branches {
        search_branch(alloc, ending.filters, branch, row, kept)?;
    }
    Ok(())
}

// The same, for one branch.
#[cycle(search)]
fn search_branch(
    alloc: Global,
    filters: &[Filter],
    branch: &BranchPlan<'_>,
    row: &mut Bindings<'_>,
    kept: &mut KeptRows<'_>,
) -> Result<(), EvalFault>
    requires ready { IsBranchReady row.old.row branch.now }
    requires tests { AreTestsOf filters.now branch.now.stages.items }
    requires graphs { row.old.graph ≡ kept.old.graph }
    requires few { kept.old.count ≤ solution_limit }
    ensures rows { KeepsFound kept.old (filter (all_hold filters.now)
        (matches_from (present row.old.graph.pairs) (planned_in branch.now) row.old.row)) result kept.new }
    ensures same { row.new ≡ row.old }
{
    if !are_present(&branch.checks, row) {
        return Ok(());
    }
    let ending = Ending {
        filters,
        branches: &[],
    };
    search(alloc, &ending, &branch.stages, row, kept)
}

// The same, where the first stage is one of these triples after another.
#[cycle(search)]
fn search_each(
    alloc: Global,
    ending: &Ending<'_>,
    stage: &PatternStage<'_>,
    rest: &[PatternStage<'_>],
    found: &[TermNumbers],
    row: &mut Bindings<'_>,
    kept: &mut KeptRows<'_>,
) -> Result<(), EvalFault>
    requires ready { IsEndReady ending.now (stage.now ∷ rest.now) row.old.row }
    requires there { All (λ numbers. IsSome (triple_numbered row.old.graph numbers)) found.now }
    requires graphs { row.old.graph ≡ kept.old.graph }
    requires few { kept.old.count ≤ solution_limit }
    ensures rows { KeepsFound kept.old
        (flat_map (λ numbers. led_from (present row.old.graph.pairs) ending.now stage.now rest.now
        (agree_numbered row.old.graph stage.now.pattern.now row.old.row numbers)) found.now)
        result kept.new }
    ensures same { row.new ≡ row.old }
{
    let free = free_variables(stage.pattern, row);
    for numbers in found {
        search_behind(alloc, ending, stage, rest, numbers, &free, row, kept)?;
    }
    Ok(())
}

// The same, once the first stage is a triple. Which of its variables are free is known.
#[cycle(search)]
fn search_behind(
    alloc: Global,
    ending: &Ending<'_>,
    stage: &PatternStage<'_>,
    rest: &[PatternStage<'_>],
    numbers: &TermNumbers,
    free: &FreeVariables,
    row: &mut Bindings<'_>,
    kept: &mut KeptRows<'_>,
) -> Result<(), EvalFault>
    requires ready { IsEndReady ending.now (stage.now ∷ rest.now) row.old.row }
    requires there { IsSome (triple_numbered row.old.graph numbers.now) }
    requires graphs { row.old.graph ≡ kept.old.graph }
    requires free { free.now ≡ free_variables stage.now.pattern.now row.old.row }
    requires few { kept.old.count ≤ solution_limit }
    ensures rows { KeepsFound kept.old (led_from (present row.old.graph.pairs) ending.now stage.now rest.now
        (agree_numbered row.old.graph stage.now.pattern.now row.old.row numbers.now))
        result kept.new }
    ensures same { row.new ≡ row.old }
{
    if !bind_pattern(stage.pattern, numbers, row) {
        unbind_all(free, row);
        return Ok(());
    }
    let told = search_bound(alloc, ending, stage, rest, row, kept);
    unbind_all(free, row);
    told
}

// The same, once its variables are bound.
#[cycle(search)]
fn search_bound(
    alloc: Global,
    ending: &Ending<'_>,
    stage: &PatternStage<'_>,
    rest: &[PatternStage<'_>],
    row: &mut Bindings<'_>,
    kept: &mut KeptRows<'_>,
) -> Result<(), EvalFault>
    requires ready { IsReadyBehind ending.now stage.now rest.now row.old.row }
    requires graphs { row.old.graph ≡ kept.old.graph }
    requires few { kept.old.count ≤ solution_limit }
    ensures rows { KeepsFound kept.old
        (led_from (present row.old.graph.pairs) ending.now stage.now rest.now (Some row.old.row)) result kept.new }
    ensures same { row.new ≡ row.old }
{
    if !all_can_hold(&stage.tests, row) {
        return Ok(());
    }
    if !are_present(&stage.checks, row) {
        return Ok(());
    }
    search(alloc, ending, rest, row, kept)
}
