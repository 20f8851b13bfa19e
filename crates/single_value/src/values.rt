//! Whether another value of a triple's subject and property stands behind an effect.
ghost use Rattle.std.specs.Prelude.{◌≡◌, ◌∷◌, ◌↔◌, ◌<◌, IfOk, IsTrue, None, Some};
ghost use Rattle.std.specs.List.{slice_get};
ghost use Rattle.graph_index.specs.Matching.{FindsEach, matches};
ghost use Rattle.mld_ops.specs.Breaches.{IsValueOf};
ghost use Rattle.mld_ops.specs.PairLists.{pair_lent};
ghost use Rattle.mld_ops.specs.Tagged.{tagged_cmp};
ghost use Rattle.mld_ops.specs.declared.tagged.Tagged.{Tagged};
ghost use Rattle.rdf_terms.specs.Order.{triple_cmp};
ghost use Rattle.single_value.specs.OtherValues.{HasOtherValue, SparesOther, IsSparedOther};
ghost use Rattle.tree_clock.specs.Lists.{Has, IsAscending};

use graph_index::{Graph, LentPairs, Steps};
use mld_ops::{Effect, PairRef, Tagged};
use rdf_terms::{Iri, Triple};
use std::alloc::{AllocError, Global};
use std::cmp::Ordering;
use std::marker::Brand;
use std::sync::ledger::{Blank, Ledger};

/// Whether one of the triples behind a triple is another value of its subject and property. Those that are stand first.
pub(crate) fn has_other(behind: &[Triple], triple: &Triple) -> bool
    requires { IsAscending triple_cmp (triple.now ∷ behind.now) }
    ensures { IsTrue result ↔ HasOtherValue behind.now triple.now }
{
    match behind.first() {
        Some(next) => is_value_beside(triple, next),
        None => false,
    }
}

// Whether another triple has the subject and the property of a triple.
fn is_value_beside(triple: &Triple, other: &Triple) -> bool
    ensures { IsTrue result ↔ IsValueOf triple.now.s triple.now.p other.now }
{
    other.s == triple.s && other.p == triple.p
}

// The pairs with a subject and a property, with steps that are counted in a ledger of their own.
fn pairs_in<'a, L: Ledger>(
    alloc: Global,
    graph: &'a Graph,
    subject: &Iri,
    property: &Iri,
    blank: Blank,
) -> Result<LentPairs<'a>, AllocError>
    requires name { blank.name ≡ L.name }
    requires parts { blank.parts ≡ L.parts }
    requires some { 0 < L.parts }
    ensures { IfOk result (λ found. FindsEach (matches (Some subject.now) (Some property.now) None) graph.now.pairs found) }
{
    let mut steps = Steps::<L>::new(blank);
    graph.scan(alloc, Some(subject), Some(property), None, &mut steps)
}

// Compares a pair with one that is lent.
fn cmp_lent(pair: &Tagged, lent: &PairRef<'_>) -> Ordering
    ensures { result ≡ tagged_cmp pair.now (pair_lent lent.now) }
{
    match pair.triple.cmp(lent.triple) {
        Ordering::Less => Ordering::Less,
        Ordering::Equal => pair.dot.cmp(&lent.dot),
        Ordering::Greater => Ordering::Greater,
    }
}

// Whether a pair that is lent is one of an ascending list.
fn has_lent(pairs: &[Tagged], lent: &PairRef<'_>) -> bool
    requires { IsAscending tagged_cmp pairs.now }
    ensures { IsTrue result ↔ Has pairs.now (pair_lent lent.now) }
{
    pairs.binary_search_by(|pair| cmp_lent(pair, lent)).is_ok()
}

// Whether a pair of a triple's subject and property has another object, and isn't deleted.
fn is_spared_other(effect: &Effect, triple: &Triple, pair: &PairRef<'_>) -> bool
    ensures { IsTrue result ↔ IsSparedOther effect.now triple.now (pair_lent pair.now) }
{
    pair.triple.o != triple.o && !has_lent(effect.deletes(), pair)
}

// The same of the pair at a place.
fn is_spared_at(effect: &Effect, triple: &Triple, pairs: &LentPairs<'_>, at: usize) -> bool
    ensures { (pair : Tagged) → slice_get pairs.now at ≡ Some pair → IsTrue result ↔ IsSparedOther effect.now triple.now pair }
{
    match pairs.get(at) {
        Some(pair) => is_spared_other(effect, triple, &pair),
        None => false,
    }
}

// Whether one of the pairs that are lent has another value that isn't deleted.
fn has_spared_other(effect: &Effect, triple: &Triple, pairs: &LentPairs<'_>) -> bool
    ensures some { IsTrue result
        → (pair : Tagged) × Has pairs.now pair × IsSparedOther effect.now triple.now pair }
    ensures none { ¬ IsTrue result
        → (pair : Tagged) → Has pairs.now pair → ¬ IsSparedOther effect.now triple.now pair }
{
    for at in 0..pairs.len() {
        if is_spared_at(effect, triple, pairs, at) {
            return true;
        }
    }
    false
}

/// Whether the effect spares another value of a triple's subject and property.
pub(crate) fn spares_other(
    alloc: Global,
    graph: &Graph,
    effect: &Effect,
    triple: &Triple,
) -> Result<bool, AllocError>
    ensures { IfOk result (λ is. IsTrue is ↔ SparesOther graph.now.pairs effect.now triple.now) }
{
    let pairs = pairs_in::<Brand>(alloc, graph, &triple.s, &triple.p, Blank::new(1))?;
    Ok(has_spared_other(effect, triple, &pairs))
}
