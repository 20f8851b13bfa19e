//! Which triples of a graph a pattern may be.
ghost use Rattle.std.specs.Prelude.{◌≡◌, ◌∷◌, ◌++◌, [], ◌<◌, List, None, IfOk, IfSome, IfNone, IsSome, OnOk, map, if◌then◌else◌};
ghost use Rattle.std.specs.List.{All, dedup, filter, filter_map, slice_get};
ghost use Rattle.std.specs.List.Sorted.{IsPermutation};
ghost use Rattle.std.specs.Option.{option_copied, option_map, option_to_list};
ghost use Rattle.std.specs.Ordering.{eq_by_cmp};
ghost use Rattle.jrql_rows.specs.graph_index.Matching.{FindsEach, StandTogether, matches};
ghost use Rattle.jrql_rows.specs.mld_ops.Present.{present};
ghost use Rattle.jrql_rows.specs.mld_ops.Tagged.{tagged_cmp};
ghost use Rattle.jrql_rows.specs.tree_clock.Lists.{IsAscending};
ghost use Rattle.jrql_rows.specs.rdf_terms.Order.{triple_cmp};
ghost use Rattle.jrql_rows.specs.mld_ops.declared.tagged.Tagged.{Tagged};
ghost use Rattle.jrql_rows.specs.jrql_ast.declared.patterns.PatternTriple.{PatternTriple};
ghost use Rattle.jrql_rows.specs.jrql_ast.FilterMeaning.{side_value};
ghost use Rattle.jrql_rows.specs.jrql_ast.Solutions.{agree, matches_from};
ghost use Rattle.jrql_rows.specs.graph_index.Numbered.{iri_of_term, term_numbered, AreAllNumbered, FindsNumbered};
ghost use Rattle.jrql_eval.specs.FoundTriples.{FindsFor, IsPlaceOf};
ghost use Rattle.jrql_plans.specs.PlannedGroups.{IsBoundIn};
ghost use Rattle.jrql_eval.specs.Evaluating.{has_parts};

use jrql_rows::Bindings;
use jrql_rows::graph_index::{Graph, LentPairs, Places, Steps, TermNumbers};
use jrql_rows::jrql_ast::{PatternTriple, Slot};
use jrql_rows::rdf_terms::{Iri, Term, Triple, cmp_triples};
use std::alloc::{AllocError, Global};
use std::marker::Brand;
use std::sync::ledger::{Blank, Ledger};

// The pairs whose triples have these parts, with steps that are counted in a ledger of their own.
fn pairs_in<'a, L: Ledger>(
    alloc: Global,
    graph: &'a Graph,
    s: Option<&Iri>,
    p: Option<&Iri>,
    o: Option<&Term>,
    blank: Blank,
) -> Result<LentPairs<'a>, AllocError>
    requires name { blank.name ≡ L.name }
    requires parts { blank.parts ≡ L.parts }
    requires some { 0 < L.parts }
    ensures found { IfOk result (λ found. FindsEach (matches (option_copied s.entry) (option_copied p.entry)
        (option_copied o.entry)) graph.now.pairs found) }
    ensures together { IfOk result (λ found. StandTogether (λ (pair : Tagged). pair.triple) found) }
    ensures ascending { IsAscending tagged_cmp graph.now.pairs }
{
    let mut steps = Steps::<L>::new(blank);
    graph.scan(alloc, s, p, o, &mut steps)
}

// Adds the triple of the pair at a place, where one is there.
fn add_triple<'a>(
    triples: &mut Vec<&'a Triple>,
    pairs: &LentPairs<'a>,
    at: usize,
) -> Result<(), AllocError>
    ensures { OnOk result (map (λ x. x.now) triples.new.items ≡ map (λ x. x.now) triples.old.items
        ++ option_to_list (option_map (λ (pair : Tagged). pair.triple) (slice_get pairs.now at))) }
{
    if let Some(triple) = pairs.triple(at) {
        triples.push(triple)?;
    }
    Ok(())
}

// The triples of pairs.
fn triples_of<'a>(alloc: Global, pairs: &LentPairs<'a>) -> Result<Vec<&'a Triple>, AllocError>
    ensures { IfOk result (λ triples. map (λ x. x.now) triples.items ≡ map (λ (pair : Tagged). pair.triple) pairs.now) }
{
    let mut triples = Vec::with_capacity(alloc, pairs.len())?;
    for at in 0..pairs.len() {
        add_triple(&mut triples, pairs, at)?;
    }
    Ok(triples)
}

// Drops each triple that is the one in front of it.
fn drop_neighbours(triples: &mut Vec<&Triple>)
    ensures { map (λ x. x.now) triples.new.items ≡ dedup (eq_by_cmp triple_cmp) (map (λ x. x.now) triples.old.items) }
{
    triples.dedup_by(|triple, other| cmp_triples(*triple, *other).is_eq());
}

/// The triples that have these parts, each once, in whatever order.
pub(crate) fn triples_with<'a>(
    alloc: Global,
    graph: &'a Graph,
    s: Option<&Iri>,
    p: Option<&Iri>,
    o: Option<&Term>,
) -> Result<Vec<&'a Triple>, AllocError>
    ensures triples { IfOk result (λ triples. IsPermutation (filter (has_parts (option_copied s.entry)
        (option_copied p.entry) (option_copied o.entry)) (present graph.now.pairs)) (map (λ x. x.now) triples.items)) }
    ensures ascending { IsAscending tagged_cmp graph.now.pairs }
{
    let pairs = pairs_in::<Brand>(alloc, graph, s, p, o, Blank::new(1))?;
    let mut triples = triples_of(alloc, &pairs)?;
    drop_neighbours(&mut triples);
    Ok(triples)
}

// The number that is wanted of a place, where it is a term or bound; none at all, where it is a term without a number.
fn place_of(slot: &Slot, row: &Bindings<'_>) -> Option<Option<u32>>
    ensures place { IsPlaceOf row.now.graph (side_value slot.now row.now.row) result }
    ensures all { IfNone result (AreAllNumbered row.now.graph) }
{
    match slot {
        Slot::Term(term) => match row.graph().number(term) {
            Some(number) => Some(Some(number)),
            None => None,
        },
        Slot::Var(variable) => Some(row.number(*variable as usize)),
        Slot::Fresh(_) => Some(None),
    }
}

// A number as one that is wanted.
fn wanted(number: Option<u32>) -> Option<u64>
    ensures { result ≡ number }
{
    match number {
        Some(number) => Some(u64::from(number)),
        None => None,
    }
}

// The triples that have these numbers, with steps that are counted in a ledger of their own.
fn triples_in<L: Ledger>(
    alloc: Global,
    graph: &Graph,
    wanted: &Places,
    blank: Blank,
) -> Result<Vec<TermNumbers>, AllocError>
    requires name { blank.name ≡ L.name }
    requires parts { blank.parts ≡ L.parts }
    requires some { 0 < L.parts }
    ensures { IfOk result (λ found. FindsNumbered graph.now wanted.now found.items) }
{
    let mut steps = Steps::<L>::new(blank);
    graph.triples(alloc, wanted, &mut steps)
}

/// The triples that a pattern may be in a row, and maybe others, by the numbers of their terms, in whatever order.
pub(crate) fn triples_for(
    alloc: Global,
    pattern: &PatternTriple,
    row: &Bindings<'_>,
) -> Result<Vec<TermNumbers>, AllocError>
    ensures { IfOk result (λ found. FindsFor pattern.now row.now found.items) }
{
    let subject = place_of(&pattern.s, row);
    let Some(s) = subject else {
        return Ok(Vec::new(alloc));
    };
    let predicate = place_of(&pattern.p, row);
    let Some(p) = predicate else {
        return Ok(Vec::new(alloc));
    };
    let object = place_of(&pattern.o, row);
    let Some(o) = object else {
        return Ok(Vec::new(alloc));
    };
    let places = Places {
        s: wanted(s),
        p: wanted(p),
        o: wanted(o),
    };
    triples_in::<Brand>(alloc, row.graph(), &places, Blank::new(1))
}

/// The IRI that a place is, where it is one.
pub(crate) fn iri_of<'a>(known: Option<&'a Term>) -> Option<&'a Iri>
    ensures { option_copied result ≡ iri_of_term (option_copied known.entry) }
{
    match known {
        None => None,
        Some(Term::Iri(iri)) => Some(iri),
        Some(Term::Literal(_)) => None,
    }
}

// The number of the term that a place is, where it has one.
fn number_in(slot: &Slot, row: &Bindings<'_>) -> Option<u32>
    requires { IsSome (side_value slot.now row.now.row) }
    ensures some { IfSome result (λ number. term_numbered row.now.graph number ≡ side_value slot.now row.now.row) }
    ensures none { IfNone result (IsPlaceOf row.now.graph (side_value slot.now row.now.row) None) }
    ensures all { IfNone result (AreAllNumbered row.now.graph) }
{
    match place_of(slot, row) {
        Some(number) => number,
        None => None,
    }
}

// Whether a pattern of which all places are bound is a triple of the graph.
fn is_present(pattern: &PatternTriple, row: &Bindings<'_>) -> bool
    requires { IsBoundIn row.now.row pattern.now }
    ensures { filter_map (λ triple. agree pattern.now triple row.now.row) (present row.now.graph.pairs)
        ≡ (if result then row.now.row ∷ [] else []) }
{
    let subject = number_in(&pattern.s, row);
    let Some(s) = subject else {
        return false;
    };
    let predicate = number_in(&pattern.p, row);
    let Some(p) = predicate else {
        return false;
    };
    let object = number_in(&pattern.o, row);
    let Some(o) = object else {
        return false;
    };
    let numbers = TermNumbers { s, p, o };
    row.graph().has_numbers(&numbers)
}

/// Whether patterns of which all places are bound are all triples of the graph. It takes no memory.
pub(crate) fn are_present(patterns: &[&PatternTriple], row: &Bindings<'_>) -> bool
    requires { All (λ pattern. IsBoundIn row.now.row pattern.now) patterns.now }
    ensures { (rest : List PatternTriple)
        → matches_from (present row.now.graph.pairs) (map (λ x. x.now) patterns.now ++ rest) row.now.row
        ≡ (if result then matches_from (present row.now.graph.pairs) rest row.now.row else []) }
{
    for pattern in patterns {
        if !is_present(pattern, row) {
            return false;
        }
    }
    true
}
