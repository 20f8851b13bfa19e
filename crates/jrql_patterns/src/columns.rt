//! Which variables stand in triples, and their order.
ghost use Rattle.std.specs.Prelude.{◌≡◌, ◌<◌, ◌≤◌, ◌++◌, ◌∷◌, [], take, drop, IfOk, OnOk, length, slice_index_or};
ghost use Rattle.std.specs.List.{filter};
ghost use Rattle.jrql_ast.specs.InForm.{variable_limit};
ghost use Rattle.jrql_patterns.specs.Marking.{is_marked, marked_slot, marked_triple, marked_triples, marked_branches, marks_of, numbers_marked};
ghost use Rattle.jrql_patterns.specs.QueryReading.{standing_variables, is_before, placed, each_placed};

use crate::open_groups::OpenGroup;
use jrql_ast::{PatternTriple, Sequence, Slot};
use jsonld_subjects::jsonld_values::Names;
use std::alloc::{AllocError, Global};

/// Marks the variable that a slot is, where it is one of those that are marked.
#[tactic(auto, using(crate::proofs::Marked::slot_past))]
fn mark_slot(marks: &mut [bool], slot: &Slot)
    ensures { marks.new ≡ marked_slot marks.old slot.now }
{
    let Slot::Var(number) = slot else {
        return;
    };
    let place = usize::from(*number);
    if place < marks.len() {
        marks[place] = true;
    }
}

/// Marks the variables of a triple.
fn mark_triple(marks: &mut [bool], triple: &PatternTriple)
    ensures { marks.new ≡ marked_triple marks.old triple.now }
{
    mark_slot(marks, &triple.s);
    mark_slot(marks, &triple.p);
    mark_slot(marks, &triple.o);
}

/// Marks the variables of triples.
fn mark_triples(marks: &mut [bool], triples: &[PatternTriple])
    ensures { marks.new ≡ marked_triples marks.old triples.now }
{
    for triple in triples {
        mark_triple(marks, triple);
    }
}

/// Marks the variables of branches.
fn mark_branches(marks: &mut [bool], branches: &[Sequence<PatternTriple>])
    ensures { marks.new ≡ marked_branches marks.old branches.now }
{
    for branch in branches {
        mark_triples(marks, branch.as_slice());
    }
}

/// Which named variables stand in a triple of a group, by their numbers.
fn marks_of(alloc: Global, group: &OpenGroup) -> Result<Vec<bool>, AllocError>
    ensures { IfOk result (λ marks. marks.items ≡ marks_of group.now) }
{
    let mut marks = vec![in alloc; false; usize::from(group.names().named())]?;
    mark_triples(marks.as_mut_slice(), group.patterns());
    mark_branches(marks.as_mut_slice(), group.branches());
    Ok(marks)
}

/// Puts a number behind others, where it is marked.
fn put_marked(numbers: &mut Vec<u16>, marks: &[bool], number: usize) -> Result<(), AllocError>
    requires within { number < length marks.now }
    requires few { length marks.now ≤ variable_limit }
    ensures { OnOk result (numbers.new.items ≡ numbers.old.items ++ filter (is_marked marks.now) (number ∷ [])) }
{
    if marks[number] {
        numbers.push(number as u16)?;
    }
    Ok(())
}

/// The numbers that are marked.
#[tactic(auto, using(crate::proofs::Marked::more_found))]
fn numbers_marked(alloc: Global, marks: &[bool]) -> Result<Vec<u16>, AllocError>
    requires { length marks.now ≤ variable_limit }
    ensures { IfOk result (λ numbers. numbers.items ≡ numbers_marked marks.now) }
{
    let mut numbers = Vec::new(alloc);
    for number in 0..marks.len() {
        put_marked(&mut numbers, marks, number)?;
    }
    Ok(numbers)
}

/// The numbers of the named variables that stand in a triple of a group.
#[tactic(auto, using(crate::proofs::Marked::size_marks, crate::proofs::Marked::marks_are_standing))]
pub(crate) fn standing(alloc: Global, group: &OpenGroup) -> Result<Vec<u16>, AllocError>
    ensures { IfOk result (λ numbers. numbers.items ≡ standing_variables group.now) }
{
    group.names().kept();
    let marks = marks_of(alloc, group)?;
    numbers_marked(alloc, marks.as_slice())
}

/// The name of a number.
#[tactic(auto, using(crate::proofs::Placing::unnamed))]
fn name_at(names: &Names, number: u16) -> &str
    ensures { result.now ≡ slice_index_or names.now.named number [] }
{
    match names.name(usize::from(number)) {
        Some(name) => name,
        None => "",
    }
}

/// Whether the name of a number is before that of another.
fn is_before(names: &Names, number: u16, other: u16) -> bool
    ensures { result ≡ is_before names.now.named number other }
{
    name_at(names, number).cmp(name_at(names, other)).is_lt()
}

/// Where a number is put among others.
fn place_for(names: &Names, number: u16, others: &[u16]) -> usize
    ensures within { result ≤ length others.now }
    ensures place { placed names.now.named number others.now ≡ take result others.now ++ number ∷ drop result others.now }
{
    for place in 0..others.len() {
        if is_before(names, number, others[place]) {
            return place;
        }
    }
    others.len()
}

/// Puts a number among others in the byte order of names.
fn put_in_place(names: &Names, number: u16, others: &mut Vec<u16>) -> Result<(), AllocError>
    ensures { OnOk result (others.new.items ≡ placed names.now.named number others.old.items) }
{
    let place = place_for(names, number, others.as_slice());
    others.insert(place, number)?;
    Ok(())
}

/// Every one of these variables, in the byte order of names.
pub(crate) fn every_column(
    alloc: Global,
    names: &Names,
    standing: &[u16],
) -> Result<Vec<u16>, AllocError>
    ensures { IfOk result (λ columns. columns.items ≡ each_placed names.now.named standing.now []) }
{
    let mut columns = Vec::new(alloc);
    for number in standing {
        put_in_place(names, *number, &mut columns)?;
    }
    Ok(columns)
}
