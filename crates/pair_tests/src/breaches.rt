//! What effects on one graph break first.
use crate::made::{boxed, graph, pairs, push};
use graph_index::Graph;
use mld_ops::Effect;
use rdf_terms::{Iri, Triple, read_triple};
use single_value::breaks;
use std::alloc::Global;
use std::test::Fail;

const XA: &str = "<urn:x> <urn:p> <urn:a> .";

const XB: &str = "<urn:x> <urn:p> <urn:b> .";

const XQ: &str = "<urn:x> <urn:q> <urn:b> .";

const YA: &str = "<urn:y> <urn:p> <urn:a> .";

const YB: &str = "<urn:y> <urn:p> <urn:b> .";

const ZA: &str = "<urn:z> <urn:p> <urn:a> .";

const ZB: &str = "<urn:z> <urn:p> <urn:b> .";

// A subject with one value of `urn:p` in two pairs, and one that has two values of it already.
const BEGUN: &[(&str, u32)] = &[(XA, 1), (XA, 2), (XQ, 3), (YA, 4), (YB, 5)];

// What is deleted, what is inserted, and the subject that then has a second value of `urn:p`, if any. Each is worked by hand.
type Case = (
    &'static [(&'static str, u32)],
    &'static [&'static str],
    &'static str,
);

const CASES: &[Case] = &[
    (&[], &[], ""),
    (&[(YA, 4)], &[], ""),
    (&[], &[XA], ""),
    (&[], &[ZA, XQ], ""),
    (&[], &[XB], "urn:x"),
    (&[(XA, 1)], &[XB], "urn:x"),
    (&[(XA, 1), (XA, 2)], &[XB], ""),
    (&[(XA, 1), (XA, 2)], &[XB, XA], "urn:x"),
    (&[], &[YA], "urn:y"),
    (&[(YB, 5)], &[YA], ""),
    (&[], &[ZA, ZB], "urn:z"),
    (&[], &[ZA, ZB, YA, XA], "urn:y"),
];

// Puts the triples of lines behind these.
fn read(alloc: Global, triples: &mut Vec<Triple>, lines: &[&str]) -> Result<(), Fail> {
    for line in lines {
        push(triples, read_triple(alloc, line)?)?;
    }
    Ok(())
}

fn triples(alloc: Global, lines: &[&str]) -> Result<Vec<Triple>, Fail> {
    let mut triples = Vec::new(alloc);
    read(alloc, &mut triples, lines)?;
    Ok(triples)
}

fn effect_of(alloc: Global, case: Case) -> Result<Box<Effect>, Fail> {
    let deletes = pairs(alloc, case.0)?;
    let inserts = triples(alloc, case.1)?;
    Ok(boxed(alloc, Effect::new(deletes, inserts))?)
}

// Whether this subject is told with the property, or nothing where there is none.
fn is_place(told: &Option<(Iri, Iri)>, subject: &str) -> bool {
    match told {
        Some(place) => place.0.as_str() == subject && place.1.as_str() == "urn:p",
        None => subject.is_empty(),
    }
}

// Whether the subject of a case is what is told, or none where it has none, where a subject has one value of these properties.
fn is_told(alloc: Global, graph: &Graph, props: &[Iri], case: Case) -> Result<bool, Fail> {
    let effect = effect_of(alloc, case)?;
    let told = boxed(alloc, breaks(alloc, graph, &effect, props)?)?;
    Ok(is_place(&told, case.2))
}

// The property `urn:p` alone.
fn one_property(alloc: Global) -> Result<Box<Vec<Iri>>, Fail> {
    let mut props = boxed(alloc, Vec::new(alloc))?;
    push(&mut props, Iri::new(alloc, "urn:p")?)?;
    Ok(props)
}

#[test]
fn a_second_value_is_told(rt: HostRuntime) -> Result<(), Fail> {
    let graph = graph(rt.alloc(), BEGUN)?;
    let props = one_property(rt.alloc())?;
    for case in CASES {
        assert!(rt; is_told(rt.alloc(), &graph, &props, *case)?, "{case:?}");
    }
    Ok(())
}
