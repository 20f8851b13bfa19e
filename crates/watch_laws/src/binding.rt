//! Rows in which a pattern's variables are a triple's parts, and what is left to find once they are bound.
ghost use Rattle.std.specs.Prelude.{◌≡◌, ◌++◌, ◌<◌, ◌≤◌, IfOk, OnOk, None, Some, length, map, replicate};
ghost use Rattle.std.specs.List.{slice_set};
ghost use Rattle.std.specs.Option.{option_copied, option_map, option_or};
ghost use Rattle.jrql_ast.specs.InForm.{variable_limit};
ghost use Rattle.jrql_ast.specs.Solutions.{agree, bind, bind_from, value_of};
ghost use Rattle.watch_laws.specs.Bound.{IsRowBinding, bound_filter, bound_group, bound_in, bound_pattern, laid_over, others_at, value_or};
ghost use Rattle.rdf_terms.specs.declared.terms.Term.TheVariants as terms;

use jrql_ast::{Filter, Group, PatternTriple, Row, Sequence, Slot};
use rdf_terms::{Iri, Term, Triple};
use reply_rows::share_place;
use std::alloc::{AllocError, Global};

// A row of so many places of which none is bound.
fn unbound(alloc: Global, variables: usize) -> Result<Vec<Option<Term>>, AllocError>
    ensures { IfOk result (λ row. row.items ≡ replicate variables None) }
{
    let mut row = Vec::with_capacity(alloc, variables)?;
    for _ in 0..variables {
        row.push(None)?;
    }
    Ok(row)
}

// What stands at a place of a row.
fn place_at(row: &[Option<Term>], place: usize) -> Option<&Term>
    ensures { option_copied result ≡ value_of place row.now }
{
    match row.get(place) {
        Some(Some(term)) => Some(term),
        Some(None) => None,
        None => None,
    }
}

// Puts a term at a place.
fn put_term(place: usize, term: Term, row: &mut Vec<Option<Term>>)
    ensures { row.new.items ≡ slice_set row.old.items place (Some term) }
{
    if place < row.len() {
        row[place] = Some(term);
    }
}

// Whether a variable may be a term. Where it was unbound, it is that term then.
fn bind_variable(
    variable: usize,
    term: &Term,
    row: &mut Vec<Option<Term>>,
) -> Result<bool, AllocError>
    ensures { IfOk result (λ agreed. IsRowBinding (bind_from (value_of variable row.old.items) variable term.now row.old.items)
        agreed row.new.items) }
{
    if let Some(bound) = place_at(row, variable) {
        return Ok(bound == term);
    }
    put_term(variable, term.share()?, row);
    Ok(true)
}

// Whether a slot may be a term. Where its variable was unbound, it is that term then.
fn bind_slot(slot: &Slot, term: &Term, row: &mut Vec<Option<Term>>) -> Result<bool, AllocError>
    ensures { IfOk result (λ agreed. IsRowBinding (bind slot.now term.now row.old.items) agreed row.new.items) }
{
    match slot {
        Slot::Term(given) => Ok(given == term),
        Slot::Var(variable) => bind_variable(*variable as usize, term, row),
        Slot::Fresh(_) => Ok(false),
    }
}

// The same of an IRI.
fn bind_iri(slot: &Slot, iri: &Iri, row: &mut Vec<Option<Term>>) -> Result<bool, AllocError>
    ensures { IfOk result (λ agreed. IsRowBinding (bind slot.now (terms.Iri iri.now) row.old.items) agreed row.new.items) }
{
    let term = Term::Iri(iri.share()?);
    bind_slot(slot, &term, row)
}

// Whether a pattern may be a triple. Its variables are the triple's parts then.
fn bind_triple(
    pattern: &PatternTriple,
    triple: &Triple,
    row: &mut Vec<Option<Term>>,
) -> Result<bool, AllocError>
    ensures { IfOk result (λ agreed. IsRowBinding (agree pattern.now triple.now row.old.items) agreed row.new.items) }
{
    let subject = bind_iri(&pattern.s, &triple.s, row)?;
    if !subject {
        return Ok(false);
    }
    let predicate = bind_iri(&pattern.p, &triple.p, row)?;
    if !predicate {
        return Ok(false);
    }
    bind_slot(&pattern.o, &triple.o, row)
}

/// The row of so many variables in which a pattern is a triple and no other variable is bound, if there is one.
pub fn row_with(
    alloc: Global,
    variables: usize,
    pattern: &PatternTriple,
    triple: &Triple,
) -> Result<Option<Vec<Option<Term>>>, AllocError>
    ensures { IfOk result (λ row. option_map (λ r. r.items) row ≡ agree pattern.now triple.now (replicate variables None)) }
{
    let mut row = unbound(alloc, variables)?;
    if bind_triple(pattern, triple, &mut row)? {
        Ok(Some(row))
    } else {
        Ok(None)
    }
}

// A variable's value in a row, or the variable.
fn value_or(row: &[Option<Term>], variable: u16) -> Result<Slot, AllocError>
    ensures { IfOk result (λ slot. slot ≡ value_or (value_of variable row.now) variable) }
{
    match place_at(row, variable as usize) {
        Some(term) => Ok(Slot::Term(term.share()?)),
        None => Ok(Slot::Var(variable)),
    }
}

// A slot once the variables of a row are bound.
fn bound_in(row: &[Option<Term>], slot: &Slot) -> Result<Slot, AllocError>
    ensures { IfOk result (λ bound. bound ≡ bound_in row.now slot.now) }
{
    match slot {
        Slot::Term(term) => Ok(Slot::Term(term.share()?)),
        Slot::Var(variable) => value_or(row, *variable),
        Slot::Fresh(subject) => Ok(Slot::Fresh(*subject)),
    }
}

// Adds patterns, once the variables of a row are bound.
fn add_patterns(
    row: &[Option<Term>],
    patterns: &[PatternTriple],
    bound: &mut Vec<PatternTriple>,
) -> Result<(), AllocError>
    ensures { OnOk result (bound.new.items ≡ bound.old.items ++ map (bound_pattern row.now) patterns.now) }
{
    for pattern in patterns {
        bound.push(PatternTriple {
            s: bound_in(row, &pattern.s)?,
            p: bound_in(row, &pattern.p)?,
            o: bound_in(row, &pattern.o)?,
        })?;
    }
    Ok(())
}

// Patterns but the one at a place, once the variables of a row are bound.
fn bound_others(
    alloc: Global,
    row: &[Option<Term>],
    patterns: &[PatternTriple],
    place: usize,
) -> Result<Vec<PatternTriple>, AllocError>
    requires { place < length patterns.now }
    ensures { IfOk result (λ bound. bound.items ≡ map (bound_pattern row.now) (others_at place patterns.now)) }
{
    let mut bound = Vec::with_capacity(alloc, patterns.len())?;
    add_patterns(row, &patterns[..place], &mut bound)?;
    add_patterns(row, &patterns[place + 1..], &mut bound)?;
    Ok(bound)
}

// Filters once the variables of a row are bound.
fn bound_filters(
    alloc: Global,
    row: &[Option<Term>],
    filters: &[Filter],
) -> Result<Vec<Filter>, AllocError>
    ensures { IfOk result (λ bound. bound.items ≡ map (bound_filter row.now) filters.now) }
{
    let mut bound = Vec::with_capacity(alloc, filters.len())?;
    for filter in filters {
        bound.push(Filter {
            op: filter.op,
            left: bound_in(row, &filter.left)?,
            right: bound_in(row, &filter.right)?,
        })?;
    }
    Ok(bound)
}

/// What is left to find of patterns and filters, once the pattern at a place is a triple, and a row's variables are bound.
pub fn group_behind(
    alloc: Global,
    row: &[Option<Term>],
    patterns: &[PatternTriple],
    place: usize,
    filters: &[Filter],
) -> Result<Group, AllocError>
    requires place { place < length patterns.now }
    requires few { length row.now ≤ variable_limit }
    ensures { IfOk result (λ group. group ≡ bound_group row.now (length row.now) (others_at place patterns.now) filters.now) }
{
    let others = bound_others(alloc, row, patterns, place)?;
    let filters = bound_filters(alloc, row, filters)?;
    Ok(Group {
        names: Sequence::new(alloc),
        hidden: row.len() as u16,
        patterns: Sequence::from_vec(others),
        branches: Sequence::new(alloc),
        filters: Sequence::from_vec(filters),
    })
}

// A copy of a place, or of another where nothing is bound at the first.
fn first_bound(place: &Option<Term>, other: &Option<Term>) -> Result<Option<Term>, AllocError>
    ensures { IfOk result (λ copy. copy ≡ option_or place.now other.now) }
{
    match place {
        Some(term) => Ok(Some(term.share()?)),
        None => share_place(other),
    }
}

// Adds what is bound in a row, and in another where it isn't in the first.
fn add_places(
    row: &[Option<Term>],
    others: &[Option<Term>],
    laid: &mut Vec<Option<Term>>,
) -> Result<(), AllocError>
    requires { length row.now ≡ length others.now }
    ensures { OnOk result (laid.new.items ≡ laid.old.items ++ laid_over row.now others.now) }
{
    if let (Some((place, rest)), Some((other, behind))) = (
        row.split_first(),
        others.split_first(),
    ) {
        laid.push(first_bound(place, other)?)?;
        add_places(rest, behind, laid)?;
    }
    Ok(())
}

/// What is bound in a row, and in another of as many places where it isn't in the first.
pub fn lay_over(alloc: Global, row: &[Option<Term>], other: &Row) -> Result<Row, AllocError>
    requires { length row.now ≡ length other.now }
    ensures { IfOk result (λ laid. laid ≡ laid_over row.now other.now) }
{
    let mut laid = Vec::with_capacity(alloc, row.len())?;
    add_places(row, other.as_slice(), &mut laid)?;
    Ok(Row::from_vec(laid))
}
