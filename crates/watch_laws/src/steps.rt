//! What a change does to the rows of a watch: made ready first, which may fail, and then done, which can't.
ghost use Rattle.std.specs.Prelude.{◌≡◌, ◌+◌, ◌-◌, ◌<◌, ◌≤◌, ◌^◌, [], true, false, IfOk, IsErrOf, length, map, vec_len};
ghost use Rattle.jrql_ast.specs.QueryAnswers.{IsSortingOf, project, solution_limit};
ghost use Rattle.jrql_ast.specs.Solutions.{value_of};
ghost use Rattle.reply_rows.specs.Moving.{AreBeyond, AreRowsUnknown, HasRowRoom, IsMoved};
ghost use Rattle.reply_rows.specs.Rising.{IsRising, row_order};
ghost use Rattle.watch_laws.specs.Stepping.{IsStepDone, IsOnceFor, IsOnceReady, IsStepFor, IsStepReady};
ghost use Rattle.watch_laws.specs.declared.faults.LiveFault.{LiveFault};

use crate::faults::LiveFault;
use jrql_ast::Row;
use jrql_eval::SOLUTION_LIMIT;
use rdf_terms::Term;
use reply_rows::{
    Rooms, beyond, copy_rows, moved, rooms_for, share_place, sort_rows, unknown_among, unknown_of,
};
use std::alloc::{AllocError, Global};
use std::mem::replace;

/// The rows that a change makes come and go, both in the order of replies.
#[derive(Drop)]
pub struct Report {
    /// Each row as often as it stands more in the new rows than in the old.
    pub added: Vec<Row>,
    /// Each row as often as it stands less.
    pub removed: Vec<Row>,
}

/// What a change does to the rows that stand once.
#[derive(Drop)]
pub struct OnceStep {
    /// The rows that come.
    pub come: Vec<Row>,
    /// Room for those that go.
    pub go: Vec<Row>,
    /// Room for the list.
    pub rooms: Rooms,
}

/// What a change does to the rows of a watch.
#[derive(Drop)]
pub struct Step {
    /// The values that come.
    pub come: Vec<Row>,
    /// The values that go.
    pub go: Vec<Row>,
    /// Room for the list.
    pub rooms: Rooms,
    /// The rows that come, to be told.
    pub told: Vec<Row>,
    /// The same of the rows that stand once, where they do.
    pub once: Option<OnceStep>,
}

// What a row has for variables.
fn project_row(alloc: Global, variables: &[u16], row: &Row) -> Result<Row, AllocError>
    ensures { IfOk result (λ values. values ≡ project variables.now row.now) }
{
    let places = row.as_slice();
    let mut values = Vec::with_capacity(alloc, variables.len())?;
    for variable in variables {
        values.push(place_of(places, *variable as usize)?)?;
    }
    Ok(Row::from_vec(values))
}

// A copy of what stands at a place.
fn place_of(places: &[Option<Term>], place: usize) -> Result<Option<Term>, AllocError>
    ensures { IfOk result (λ copy. copy ≡ value_of place places.now) }
{
    match places.get(place) {
        Some(value) => share_place(value),
        None => Ok(None),
    }
}

/// What rows have for variables, sorted in the order of replies.
pub fn project_rows(alloc: Global, variables: &[u16], rows: &[Row]) -> Result<Vec<Row>, AllocError>
    ensures { IfOk result (λ values. IsSortingOf row_order (map (project variables.now) rows.now) values.items) }
{
    let mut values = Vec::with_capacity(alloc, rows.len())?;
    for row in rows {
        values.push(project_row(alloc, variables, row)?)?;
    }
    sort_rows(&mut values);
    Ok(values)
}

// What a change does to the rows that stand once, where these values come and so many go.
fn once_step(alloc: Global, once: &[Row], told: &[Row], gone: usize) -> Result<OnceStep, AllocError>
    requires { length once.now + length told.now < 2 ^ 64 }
    ensures { IfOk result (IsOnceReady once.now told.now gone) }
{
    Ok(OnceStep {
        come: copy_rows(alloc, told)?,
        go: Vec::with_capacity(alloc, gone)?,
        rooms: rooms_for(alloc, once.len(), told.len())?,
    })
}

// A step for values of which each counts.
fn repeated_step(
    alloc: Global,
    come: Vec<Row>,
    go: Vec<Row>,
    rooms: Rooms,
) -> Result<Step, AllocError>
    ensures parts { IfOk result (λ step. (step.come ≡ come) × (step.go ≡ go) × (step.rooms ≡ rooms)) }
    ensures own { IfOk result (λ step. IsOnceFor false [] step step.once) }
{
    let told = copy_rows(alloc, &come)?;
    Ok(Step {
        come,
        go,
        rooms,
        told,
        once: None,
    })
}

// A step for values of which each counts once.
fn single_step(
    alloc: Global,
    once: &[Row],
    come: Vec<Row>,
    go: Vec<Row>,
    rooms: Rooms,
) -> Result<Step, AllocError>
    requires rising { IsRising row_order once.now }
    requires fewer { length once.now ≤ solution_limit }
    requires come { IsRising row_order come.items }
    ensures parts { IfOk result (λ step. (step.come ≡ come) × (step.go ≡ go) × (step.rooms ≡ rooms)) }
    ensures own { IfOk result (λ step. IsOnceFor true once.now step step.once) }
{
    let told = unknown_among(alloc, once, &come)?;
    let own = once_step(alloc, once, &told, go.len())?;
    Ok(Step {
        come,
        go,
        rooms,
        told,
        once: Some(own),
    })
}

// What a change does to the rows of a watch with so many values, where these are lost and gained.
fn step_of(
    alloc: Global,
    distinct: bool,
    values: usize,
    once: &[Row],
    lost: &[Row],
    gained: &[Row],
) -> Result<Step, AllocError>
    requires values { values ≤ solution_limit }
    requires once { IsRising row_order once.now }
    requires fewer { length once.now ≤ solution_limit }
    requires lost { IsRising row_order lost.now }
    requires gained { IsRising row_order gained.now }
    ensures { IfOk result (λ step. AreBeyond gained.now lost.now step.come.items × AreBeyond lost.now gained.now step.go.items
        × HasRowRoom values (length step.come.items) step.rooms × IsOnceFor distinct once.now step step.once) }
{
    let come = beyond(alloc, gained, lost)?;
    let go = beyond(alloc, lost, gained)?;
    let rooms = rooms_for(alloc, values, come.len())?;
    if distinct {
        single_step(alloc, once, come, go, rooms)
    } else {
        repeated_step(alloc, come, go, rooms)
    }
}

/// What a change does to the rows of a watch, where these values are lost and gained. It is refused with `TooMany` where there are more
/// than 1,048,576 values then.
pub fn ready(
    alloc: Global,
    distinct: bool,
    values: &[Row],
    once: &[Row],
    lost: &[Row],
    gained: &[Row],
) -> Result<Step, LiveFault>
    requires values { length values.now ≤ solution_limit }
    requires once { IsRising row_order once.now }
    requires fewer { length once.now ≤ solution_limit }
    requires lost { IsRising row_order lost.now }
    requires gained { IsRising row_order gained.now }
    requires within { length lost.now ≤ length values.now }
    ensures step { IfOk result (IsStepFor distinct values.now once.now lost.now gained.now) }
    ensures few { IfOk result (λ step. (length values.now - length lost.now) + length gained.now ≤ solution_limit) }
    ensures too_many { IsErrOf result LiveFault.TooMany
        → solution_limit < (length values.now - length lost.now) + length gained.now }
    ensures never { ¬ IsErrOf result LiveFault.NotSelect }
{
    if SOLUTION_LIMIT - (values.len() - lost.len()) < gained.len() {
        return Err(LiveFault::TooMany);
    }
    let step = step_of(alloc, distinct, values.len(), once, lost, gained)?;
    Ok(step)
}

// What is told where each value counts once, and what becomes of the rows that stand once.
fn done_once(
    alloc: Global,
    values: &[Row],
    once: &mut Vec<Row>,
    told: Vec<Row>,
    gone: Vec<Row>,
    step: OnceStep,
) -> Report
    requires values { IsRising row_order values.now }
    requires once { IsRising row_order once.old.items }
    requires told { IsRising row_order told.items }
    requires gone { IsRising row_order gone.items }
    requires ready { IsOnceReady once.old.items told.items (length gone.items) step }
    ensures added { result.added ≡ told }
    ensures removed { AreRowsUnknown gone.items values.now result.removed.items }
    ensures moved { IsMoved once.old.items result.removed.items told.items once.new.items }
{
    let OnceStep { come, go, rooms } = step;
    let removed = unknown_of(gone, values, go);
    let rows = replace(once, Vec::new(alloc));
    *once = moved(rows, &removed, come, rooms);
    Report {
        added: told,
        removed,
    }
}

/// Does a step: the values and the rows that stand once are those behind it, and what comes and goes is told. It takes no memory.
pub fn done(
    alloc: Global,
    distinct: bool,
    values: &mut Vec<Row>,
    once: &mut Vec<Row>,
    step: Step,
) -> Report
    requires values { IsRising row_order values.old.items }
    requires once { IsRising row_order once.old.items }
    requires ready { IsStepReady distinct values.old.items once.old.items step }
    ensures { IsStepDone distinct step values.old.items once.old.items values.new.items once.new.items
        result.added.items result.removed.items }
{
    let Step {
        come,
        go,
        rooms,
        told,
        once: own,
    } = step;
    let rows = replace(values, Vec::new(alloc));
    *values = moved(rows, &go, come, rooms);
    match own {
        Some(own) => done_once(alloc, values, once, told, go, own),
        None => Report {
            added: told,
            removed: go,
        },
    }
}
