//! Which variables are bound behind patterns, and what is bound by them.
ghost use Rattle.std.specs.Prelude.{◌≡◌, false, length, replicate, IfOk};
ghost use Rattle.std.specs.List.{slice_index_or};
ghost use Rattle.jrql_ast.specs.InForm.{IsSlotWithin, IsPatternWithin};
ghost use Rattle.jrql_plans.specs.Planning.{is_bound_slot, is_closed, is_whole, places_bound, bound_with, bound_behind};

use jrql_ast::{Filter, PatternTriple, Slot};
use std::alloc::{AllocError, Global};

/// No variable of so many is bound.
pub(crate) fn none_bound(alloc: Global, variables: usize) -> Result<Vec<bool>, AllocError>
    ensures { IfOk result (λ bound. bound.items ≡ replicate variables false) }
{
    let mut bound = Vec::new(alloc);
    for _ in 0..variables {
        bound.push(false)?;
    }
    Ok(bound)
}

// Whether a variable is bound.
fn is_marked(variable: usize, bound: &[bool]) -> bool
    ensures { result ≡ slice_index_or bound.now variable false }
{
    if variable < bound.len() {
        bound[variable]
    } else {
        false
    }
}

// Whether a slot is bound, where these variables are.
fn is_bound(slot: &Slot, bound: &[bool]) -> bool
    ensures { result ≡ is_bound_slot bound.now slot.now }
{
    match slot {
        Slot::Term(_) => true,
        Slot::Var(variable) => is_marked(*variable as usize, bound),
        Slot::Fresh(_) => true,
    }
}

/// Whether both sides of a filter are bound.
pub(crate) fn is_closed(filter: &Filter, bound: &[bool]) -> bool
    ensures { result ≡ is_closed bound.now filter.now }
{
    is_bound(&filter.left, bound) && is_bound(&filter.right, bound)
}

/// Whether all places of a pattern are bound.
pub(crate) fn is_whole(pattern: &PatternTriple, bound: &[bool]) -> bool
    ensures { result ≡ is_whole bound.now pattern.now }
{
    is_bound(&pattern.s, bound) && is_bound(&pattern.p, bound) && is_bound(&pattern.o, bound)
}

/// How many places of a pattern are bound.
pub(crate) fn places_bound(pattern: &PatternTriple, bound: &[bool]) -> u8
    ensures { result ≡ places_bound bound.now pattern.now }
{
    let subject = u8::from(is_bound(&pattern.s, bound));
    let predicate = u8::from(is_bound(&pattern.p, bound));
    let object = u8::from(is_bound(&pattern.o, bound));
    subject + predicate + object
}

// The variable of a slot is bound.
fn mark_slot(slot: &Slot, bound: &mut Vec<bool>)
    requires { IsSlotWithin (length bound.old.items) 0 slot.now }
    ensures bound { bound.new.items ≡ bound_with slot.now bound.old.items }
    ensures places { length bound.new.items ≡ length bound.old.items }
{
    if let Slot::Var(variable) = slot {
        bound[*variable as usize] = true;
    }
}

/// The variables of a pattern are bound.
pub(crate) fn mark(pattern: &PatternTriple, bound: &mut Vec<bool>)
    requires { IsPatternWithin (length bound.old.items) 0 pattern.now }
    ensures bound { bound.new.items ≡ bound_behind pattern.now bound.old.items }
    ensures places { length bound.new.items ≡ length bound.old.items }
{
    mark_slot(&pattern.s, bound);
    mark_slot(&pattern.p, bound);
    mark_slot(&pattern.o, bound);
}
