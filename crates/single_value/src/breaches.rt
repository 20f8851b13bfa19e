//! What an update breaks first.
ghost use Rattle.std.specs.Prelude.{◌≡◌, ◌∷◌, ◌↔◌, ◌⊎◌, IfOk, IfNone, IfSome, IsTrue};
ghost use Rattle.mld_ops.specs.Breaches.{BreaksNone, IsFirstBreach};
ghost use Rattle.rdf_terms.specs.Order.{triple_cmp};
ghost use Rattle.single_value.specs.OtherValues.{HasOtherValue, SparesOther};
ghost use Rattle.tree_clock.specs.Lists.{Has, IsAscending};

use crate::values::{has_other, spares_other};
use graph_index::Graph;
use mld_ops::Effect;
use rdf_terms::{Iri, Triple};
use std::alloc::{AllocError, Global};

/// The first subject and property, in the order of terms, that an effect breaks: the property is one of those that are given, the
/// effect inserts a value of it for the subject, and the subject then has two values of it or more. None where it breaks none.
pub fn breaks(
    alloc: Global,
    graph: &Graph,
    effect: &Effect,
    props: &[Iri],
) -> Result<Option<(Iri, Iri)>, AllocError>
    ensures none { IfOk result (λ found. IfNone found (BreaksNone props.now graph.now.pairs effect.now)) }
    ensures first { IfOk result
        (λ found. IfSome found (λ place. IsFirstBreach props.now graph.now.pairs effect.now place)) }
{
    let mut left = effect.inserts();
    while let Some((triple, rest)) = left.split_first() {
        if is_breach(alloc, graph, effect, props, triple, rest)? {
            return Ok(Some(place_of(triple)?));
        }
        left = rest;
    }
    Ok(None)
}

// Whether an IRI is one of these.
fn is_among(iris: &[Iri], iri: &Iri) -> bool
    ensures { IsTrue result ↔ Has iris.now iri.now }
{
    iris.contains(iri)
}

// Whether an inserted triple's property is one of those that are given, and another value of it for its subject stands behind the
// effect: one that is inserted behind the triple, or one that is spared.
fn is_breach(
    alloc: Global,
    graph: &Graph,
    effect: &Effect,
    props: &[Iri],
    triple: &Triple,
    rest: &[Triple],
) -> Result<bool, AllocError>
    requires { IsAscending triple_cmp (triple.now ∷ rest.now) }
    ensures { IfOk result (λ is. IsTrue is
        ↔ (Has props.now triple.now.p
        × (HasOtherValue rest.now triple.now ⊎ SparesOther graph.now.pairs effect.now triple.now))) }
{
    if !is_among(props, &triple.p) {
        return Ok(false);
    }
    if has_other(rest, triple) {
        return Ok(true);
    }
    spares_other(alloc, graph, effect, triple)
}

// The subject and the property of a triple.
fn place_of(triple: &Triple) -> Result<(Iri, Iri), AllocError>
    ensures subject { IfOk result (λ place. place.0 ≡ triple.now.s) }
    ensures property { IfOk result (λ place. place.1 ≡ triple.now.p) }
{
    let subject = triple.s.share()?;
    let property = triple.p.share()?;
    Ok((subject, property))
}
