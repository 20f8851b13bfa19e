//! What templates make.
ghost use Rattle.std.specs.Prelude.{◌≡◌, ◌++◌, ◌≤◌, length, IfOk, IsTrue, OnOk};
ghost use Rattle.std.specs.List.{filter_map};
ghost use Rattle.std.specs.Option.{option_to_list};
ghost use Rattle.text_rules.specs.Domain.{is_domain};
ghost use Rattle.jrql_ast.specs.QueryAnswers.{solution_limit};
ghost use Rattle.jrql_ast.specs.Solutions.{value_of};
ghost use Rattle.jrql_ast.specs.Templates.{made_for, made_from, slot_for};
ghost use Rattle.jrql_ast.specs.FreshNames.{fresh_name};
ghost use Rattle.jrql_ast.specs.Naming.{CanName, iri_in, names_of};

use crate::answers::Row;
use crate::naming::{Solution, fresh_iri};
use crate::patterns::{PatternTriple, Slot};
use rdf_terms::{Iri, Term, Triple};
use std::alloc::{AllocError, Global};
use tree_clock::Dot;

// A copy of what a row has for a variable, where it is bound.
fn value_of(variable: usize, row: &[Option<Term>]) -> Result<Option<Term>, AllocError>
    ensures { IfOk result (λ value. value ≡ value_of variable row.now) }
{
    match row.get(variable) {
        Some(Some(term)) => Ok(Some(term.share()?)),
        Some(None) => Ok(None),
        None => Ok(None),
    }
}

// What a slot is for a solution, where it is bound.
fn slot_for(alloc: Global, solution: &Solution<'_>, slot: &Slot) -> Result<Option<Term>, AllocError>
    requires { CanName solution.now }
    ensures { IfOk result (λ term. term ≡ slot_for (names_of solution.now) solution.now.row.now slot.now) }
{
    match slot {
        Slot::Term(term) => Ok(Some(term.share()?)),
        Slot::Var(variable) => value_of(*variable as usize, solution.row),
        Slot::Fresh(subject) => {
            let dot = solution.dot;
            let number = solution.first + u64::from(*subject);
            let iri = fresh_iri(alloc, solution.domain, &dot.path, dot.tick, number)?;
            Ok(Some(Term::Iri(iri)))
        }
    }
}

// The IRI that a term is, where there is one and it is an IRI.
fn iri_in(term: Option<Term>) -> Option<Iri>
    ensures { result ≡ iri_in term }
{
    match term {
        Some(Term::Iri(iri)) => Some(iri),
        Some(Term::Literal(_)) => None,
        None => None,
    }
}

// The triple that a template makes for a solution, where it makes one.
fn made_for(
    alloc: Global,
    solution: &Solution<'_>,
    template: &PatternTriple,
) -> Result<Option<Triple>, AllocError>
    requires { CanName solution.now }
    ensures { IfOk result (λ triple. triple ≡ made_for (names_of solution.now) solution.now.row.now template.now) }
{
    let Some(s) = iri_in(slot_for(alloc, solution, &template.s)?) else {
        return Ok(None);
    };
    let Some(p) = iri_in(slot_for(alloc, solution, &template.p)?) else {
        return Ok(None);
    };
    let Some(o) = slot_for(alloc, solution, &template.o)? else {
        return Ok(None);
    };
    Ok(Some(Triple { s, p, o }))
}

// Adds a triple, where there is one.
fn add_made(triples: &mut Vec<Triple>, made: Option<Triple>) -> Result<(), AllocError>
    ensures { OnOk result (triples.new.items ≡ triples.old.items ++ option_to_list made) }
{
    if let Some(triple) = made {
        triples.push(triple)?;
    }
    Ok(())
}

// Adds the triples that templates make for a solution.
fn add_all_made(
    alloc: Global,
    solution: &Solution<'_>,
    templates: &[PatternTriple],
    triples: &mut Vec<Triple>,
) -> Result<(), AllocError>
    requires { CanName solution.now }
    ensures { OnOk result (triples.new.items ≡ triples.old.items
        ++ filter_map (made_for (names_of solution.now) solution.now.row.now) templates.now) }
{
    for template in templates {
        add_made(triples, made_for(alloc, solution, template)?)?;
    }
    Ok(())
}

/// The triples that templates make for solutions, in order: for each solution those of the templates in turn. A template makes none where
/// a variable is unbound, or where the subject or the predicate is a literal. Each solution has so many fresh subjects of its own, with
/// the names `http://DOMAIN/.well-known/genid/DOT.NUMBER`.
pub fn made_triples(
    alloc: Global,
    domain: &str,
    dot: &Dot,
    fresh: u32,
    templates: &[PatternTriple],
    rows: &[Row],
) -> Result<Vec<Triple>, AllocError>
    requires name { IsTrue (is_domain domain.now) }
    requires few { length rows.now ≤ solution_limit }
    ensures { IfOk result
        (λ triples. triples.items ≡ made_from (fresh_name domain.now dot.now fresh) templates.now 0 rows.now) }
{
    let mut triples = Vec::new(alloc);
    for (number, row) in rows.iter().enumerate() {
        let first = number as u64 * u64::from(fresh);
        let row = row.as_slice();
        let solution = Solution {
            domain,
            dot,
            first,
            row,
        };
        add_all_made(alloc, &solution, templates, &mut triples)?;
    }
    Ok(triples)
}
