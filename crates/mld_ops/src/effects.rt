//! What an update does.
ghost use Rattle.std.specs.Prelude.{◌≡◌, ◌↔◌, IsTrue, IfOk};
ghost use Rattle.std.specs.Cmp.{partial_equiv_from_equiv};
ghost use Rattle.mld_ops.specs.EffectEquality.{same_effect, same_effect_equiv};
ghost use Rattle.mld_ops.specs.Effects.{ChangesNothing, IsEffectOf, IsInOrder, inserting, deleting};
ghost use Rattle.mld_ops.specs.Tagged.{tagged_cmp};
ghost use Rattle.tree_clock.specs.Lists.{IsAscending};

use crate::ordered::put_in_order;
use crate::pairs::copy_pairs;
use crate::tagged::Tagged;
use rdf_terms::Triple;
use std::alloc::{AllocError, Global};
use std::marker::Model;

/// What an update does: the pairs that it deletes and the triples that it inserts. Both lists ascend, and have each of
/// theirs once.
#[derive(Debug, Drop)]
pub struct Effect {
    deletes: Vec<Tagged>,
    inserts: Vec<Triple>,
}

impl Model for Effect {
    ghost use Rattle.mld_ops.specs.Effects.{EffectValue, IsInOrder};

    ghost Value = { EffectValue };

    ghost view = { λ e. record { deletes = e.deletes.items; inserts = e.inserts.items } };

    ghost invariant = { λ e. IsInOrder (record { deletes = e.deletes.items; inserts = e.inserts.items }) };
}

impl PartialEq for Effect {
    ghost eq = { same_effect };

    ghost laws = { partial_equiv_from_equiv same_effect_equiv };

    fn eq(&self, other: &Effect) -> bool {
        self.deletes == other.deletes && self.inserts == other.inserts
    }
}

impl Eq for Effect {
    ghost laws = { same_effect_equiv };
}

impl Effect {
    /// The effect of pairs and triples, whatever their order and however often each is given. It takes no memory.
    pub fn new(deletes: Vec<Tagged>, inserts: Vec<Triple>) -> Effect
        ensures { IsEffectOf deletes.items inserts.items result }
    {
        Effect {
            deletes: put_in_order(deletes),
            inserts: put_in_order(inserts),
        }
    }

    /// The effect that inserts one triple.
    pub fn insertion(alloc: Global, triple: Triple) -> Result<Effect, AllocError>
        ensures { IfOk result (λ effect. effect ≡ inserting triple) }
    {
        let mut inserts = Vec::with_capacity(alloc, 1)?;
        inserts.push(triple)?;
        Ok(Effect {
            deletes: Vec::new(alloc),
            inserts,
        })
    }

    /// The effect that deletes pairs, which ascend. It takes no memory.
    pub fn deletion(alloc: Global, pairs: Vec<Tagged>) -> Effect
        requires { IsAscending tagged_cmp pairs.items }
        ensures { result ≡ deleting pairs.items }
    {
        Effect {
            deletes: pairs,
            inserts: Vec::new(alloc),
        }
    }

    /// The pairs that are deleted, ascending.
    pub fn deletes(&self) -> &[Tagged]
        ensures value { result.now ≡ self.now.deletes }
        ensures order { IsInOrder self.now }
    {
        &self.deletes
    }

    /// The triples that are inserted, ascending.
    pub fn inserts(&self) -> &[Triple]
        ensures value { result.now ≡ self.now.inserts }
        ensures order { IsInOrder self.now }
    {
        &self.inserts
    }

    /// Whether nothing is deleted and nothing is inserted.
    pub fn is_empty(&self) -> bool
        ensures { IsTrue result ↔ ChangesNothing self.now }
    {
        self.deletes.is_empty() && self.inserts.is_empty()
    }

    /// A copy.
    pub fn copy_in(&self, alloc: Global) -> Result<Effect, AllocError>
        ensures { IfOk result (λ copy. copy ≡ self.now) }
    {
        let deletes = copy_pairs(alloc, &self.deletes)?;
        let inserts = copy_triples(alloc, &self.inserts)?;
        Ok(Effect { deletes, inserts })
    }
}

// A copy of a list of triples.
fn copy_triples(alloc: Global, triples: &[Triple]) -> Result<Vec<Triple>, AllocError>
    ensures { IfOk result (λ copy. copy.items ≡ triples.now) }
{
    let mut copy = Vec::with_capacity(alloc, triples.len())?;
    for triple in triples {
        copy.push(triple.share()?)?;
    }
    Ok(copy)
}
