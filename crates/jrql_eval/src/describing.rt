//! Describes.
ghost use Rattle.std.specs.Prelude.{◌≡◌, ◌<◌, ◌≤◌, ◌++◌, length, map, IfOk, OnOk, IsErrOf};
ghost use Rattle.std.specs.List.{flat_map};
ghost use Rattle.std.specs.Option.{option_copied, option_to_list};
ghost use Rattle.jrql_rows.specs.mld_ops.InOrder.{IsPutInOrder};
ghost use Rattle.jrql_rows.specs.mld_ops.Present.{present};
ghost use Rattle.jrql_rows.specs.mld_ops.Tagged.{tagged_cmp};
ghost use Rattle.jrql_rows.specs.rdf_terms.Order.{iri_cmp, triple_cmp};
ghost use Rattle.jrql_rows.specs.jrql_ast.InForm.{IsQueryInForm};
ghost use Rattle.jrql_rows.specs.jrql_ast.QueryAnswers.{IsAnswer, IsSortingOf, found, solution_limit};
ghost use Rattle.jrql_rows.specs.tree_clock.Lists.{IsAscending};
ghost use Rattle.jrql_eval.specs.Asked.{AsksSubjects, IsDescribedBy, all_targeted, bound_iris, described_by, described_where};

use crate::faults::EvalFault;
use crate::scanning::{iri_of, triples_with};
use crate::solving::{all_variables, find_rows};
use jrql_rows::KeptRows;
use jrql_rows::graph_index::Graph;
use jrql_rows::jrql_ast::{Answer, Described, Query, Sequence, Target, What};
use jrql_rows::rdf_terms::{Iri, Triple, cmp_iris, cmp_triples};
use std::alloc::{AllocError, Global};

// Adds an IRI, where there is one.
fn add_iri<'a>(iris: &mut Vec<&'a Iri>, iri: Option<&'a Iri>) -> Result<(), AllocError>
    ensures { OnOk result (map (λ x. x.now) iris.new.items
        ≡ map (λ x. x.now) iris.old.items ++ option_to_list (option_copied iri.entry)) }
{
    if let Some(iri) = iri {
        iris.push(iri)?;
    }
    Ok(())
}

// Adds the IRIs that rows have for a variable.
fn add_bound<'a>(
    iris: &mut Vec<&'a Iri>,
    variable: usize,
    kept: &KeptRows<'a>,
) -> Result<(), AllocError>
    ensures { OnOk result (map (λ x. x.now) iris.new.items
        ≡ map (λ x. x.now) iris.old.items ++ bound_iris variable kept.now.rows) }
{
    for row in 0..kept.len() {
        add_iri(iris, iri_of(kept.value(row, variable)))?;
    }
    Ok(())
}

// The IRIs that targets name or have in rows.
fn targeted<'a>(
    alloc: Global,
    targets: &'a [Target],
    kept: &KeptRows<'a>,
) -> Result<Vec<&'a Iri>, AllocError>
    ensures { IfOk result (λ iris. map (λ x. x.now) iris.items ≡ all_targeted kept.now.rows targets.now) }
{
    let mut iris = Vec::new(alloc);
    for target in targets {
        match target {
            Target::Iri(iri) => iris.push(iri)?,
            Target::Var(variable) => add_bound(&mut iris, *variable as usize, kept)?,
        }
    }
    Ok(iris)
}

// Puts IRIs in order, each once.
fn put_iris(iris: &mut Vec<&Iri>)
    ensures { IsPutInOrder iri_cmp (map (λ x. x.now) iris.old.items) (map (λ x. x.now) iris.new.items) }
{
    iris.sort_unstable_by(|iri, other| cmp_iris(*iri, *other));
    iris.dedup_by(|iri, other| cmp_iris(*iri, *other).is_eq());
}

// Sorts triples.
fn sort_triples(triples: &mut Vec<&Triple>)
    ensures { IsSortingOf triple_cmp (map (λ x. x.now) triples.old.items) (map (λ x. x.now) triples.new.items) }
{
    triples.sort_unstable_by(|triple, other| cmp_triples(*triple, *other));
}

// Copies of triples.
fn copy_triples(alloc: Global, triples: &[&Triple]) -> Result<Vec<Triple>, AllocError>
    ensures { IfOk result (λ copies. copies.items ≡ map (λ x. x.now) triples.now) }
{
    let mut copies = Vec::new(alloc);
    for triple in triples {
        copies.push(triple.share()?)?;
    }
    Ok(copies)
}

// Adds an IRI with these triples, where there are any.
fn add_subject(
    alloc: Global,
    iri: &Iri,
    triples: &[&Triple],
    subjects: &mut Vec<Described>,
) -> Result<(), AllocError>
    ensures { OnOk result
        (subjects.new.items ≡ subjects.old.items ++ described_by iri.now (map (λ x. x.now) triples.now)) }
{
    if triples.is_empty() {
        return Ok(());
    }
    let id = iri.share()?;
    let triples = Sequence::from_vec(copy_triples(alloc, triples)?);
    subjects.push(Described { id, triples })?;
    Ok(())
}

// Adds an IRI with its triples, where it is the subject of one.
fn add_described(
    alloc: Global,
    graph: &Graph,
    iri: &Iri,
    subjects: &mut Vec<Described>,
) -> Result<(), AllocError>
    ensures subjects { OnOk result
        (subjects.new.items ≡ subjects.old.items ++ described_where (present graph.now.pairs) iri.now) }
    ensures ascending { IsAscending tagged_cmp graph.now.pairs }
{
    let mut triples = triples_with(alloc, graph, Some(iri), None, None)?;
    sort_triples(&mut triples);
    add_subject(alloc, iri, &triples, subjects)
}

// The IRIs that are subjects, each with its triples.
fn describe_all(alloc: Global, graph: &Graph, iris: &[&Iri]) -> Result<Vec<Described>, AllocError>
    ensures subjects { IfOk result (λ subjects. subjects.items
        ≡ flat_map (described_where (present graph.now.pairs)) (map (λ x. x.now) iris.now)) }
    ensures ascending { 0 < length iris.now → IsAscending tagged_cmp graph.now.pairs }
{
    let mut subjects = Vec::new(alloc);
    for iri in iris {
        add_described(alloc, graph, iri, &mut subjects)?;
    }
    Ok(subjects)
}

// The subjects that targets name or have in rows, each with its triples.
fn describe_targets(
    alloc: Global,
    graph: &Graph,
    targets: &[Target],
    kept: &KeptRows<'_>,
) -> Result<Vec<Described>, AllocError>
    ensures { IfOk result (λ subjects. IsDescribedBy (present graph.now.pairs) kept.now.rows targets.now subjects.items) }
{
    let mut iris = targeted(alloc, targets, kept)?;
    put_iris(&mut iris);
    describe_all(alloc, graph, &iris)
}

/// The answer to a describe: the IRIs that it names, or has in a solution of its group for a variable that it names, and that are the
/// subject of a triple, ascending, each once with its triples (SPARQL 1.1 Query Language, section 16.4). It is refused with `TooMany`
/// where the group has more than 1,048,576 solutions.
pub fn describe(alloc: Global, graph: &Graph, query: &Query) -> Result<Answer, EvalFault>
    requires form { IsQueryInForm query.now }
    requires kind { AsksSubjects query.now.what }
    ensures answer { IfOk result (IsAnswer (present graph.now.pairs) query.now) }
    ensures few { IfOk result (λ answer. length (found (present graph.now.pairs) query.now.group) ≤ solution_limit) }
    ensures too_many { IsErrOf result EvalFault.TooMany
        → solution_limit < length (found (present graph.now.pairs) query.now.group) }
{
    let What::Describe(targets) = &query.what else {
        unreachable!()
    };
    let variables = all_variables(alloc, &query.group)?;
    let mut kept = KeptRows::new(alloc, graph, &variables, true);
    find_rows(alloc, &query.group, &mut kept)?;
    let subjects = describe_targets(alloc, graph, targets.as_slice(), &kept)?;
    Ok(Answer::Subjects(Sequence::from_vec(subjects)))
}
