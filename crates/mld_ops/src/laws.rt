//! Laws of meanings and of net effects, which hold for all histories. These functions do nothing: their clauses are the
//! laws.
ghost use Rattle.std.specs.Prelude.{◌≡◌, ℕ, ◌≤◌, ◌↔◌, ◌++◌, ◌∷◌, ◌⊎◌, [], List};
ghost use Rattle.mld_ops.specs.Effect.{IsAfter, IsEffect, range_of};
ghost use Rattle.mld_ops.specs.Effects.{EffectValue, IsEffectOf, IsInOrder, MayMake, inserting, deleting, effect_entry, operation_of};
ghost use Rattle.mld_ops.specs.Entry.{EntryValue, IsEntry};
ghost use Rattle.mld_ops.specs.History.{Operation as OperationValue, IsClosed, IsLawful};
ghost use Rattle.mld_ops.specs.Meaning.{IsMeaning, IsPresent};
ghost use Rattle.mld_ops.specs.Net.{IsNet};
ghost use Rattle.mld_ops.specs.Present.{present};
ghost use Rattle.mld_ops.specs.Tagged.{tagged_cmp, insert_cmp};
ghost use Rattle.mld_ops.specs.declared.tagged.Tagged.{Tagged};
ghost use Rattle.rdf_terms.specs.Order.{triple_cmp};
ghost use Rattle.rdf_terms.specs.declared.terms.Triple.{Triple};
ghost use Rattle.tree_clock.specs.Clock.{Covers, IsClock, RaisesTo};
ghost use Rattle.tree_clock.specs.Dot.{IsIn, Knows};
ghost use Rattle.tree_clock.specs.Lists.{Has, IsAscending};
ghost use Rattle.tree_clock.specs.declared.dots.Dot.{Dot};
ghost use Rattle.tree_clock.specs.declared.dots.Range.{Range};

/// A history has one meaning for one set of known dots: the same pairs, whichever ranges give the dots.
pub fn one_meaning()
    ensures one { (history : List OperationValue) (known : List Range) (p q : List Tagged)
        → IsMeaning history known p → IsMeaning history known q → p ≡ q }
    ensures of_the_dots { (history : List OperationValue) (known other : List Range) (pairs : List Tagged)
        → ((dot : Dot) → Knows known dot → Knows other dot) → ((dot : Dot) → Knows other dot → Knows known dot)
        → IsMeaning history known pairs → IsMeaning history other pairs }
{}

/// What the meaning is after a step. Where the history grows by an operation that isn't known, it is as before. Where
/// one more operation of a lawful history is known, it loses the pairs that the operation deletes, and gains those that
/// it inserts.
pub fn meaning_of_taken()
    ensures unknown { (history : List OperationValue) (known : List Range) (operation : OperationValue)
        (pairs : List Tagged)
        → IsMeaning history known pairs → ¬ Knows known operation.dot → IsMeaning (operation ∷ history) known pairs }
    ensures taken { (history : List OperationValue) (known : List Range) (operation : OperationValue)
        (before after : List Tagged)
        → IsLawful history → IsClosed history known → Has history operation → ¬ Knows known operation.dot
        → IsMeaning history known before → IsAscending tagged_cmp after → IsAfter operation before after
        → IsMeaning history (known ++ range_of operation.dot ∷ []) after }
{}

/// What entries of one operation are, that a later operation outside an entry's range leaves it what it is, and that a range
/// has one entry.
pub fn net_of_one()
    ensures one { (history : List OperationValue) (operation : OperationValue) (entry : EntryValue)
        → IsLawful history → Has history operation → entry.range ≡ range_of operation.dot
        → IsAscending tagged_cmp entry.deletes → IsAscending insert_cmp entry.inserts
        → IsNet history (range_of operation.dot) entry ↔ IsEffect operation entry }
    ensures unknown { (history : List OperationValue) (range : Range) (entry : EntryValue) (operation : OperationValue)
        → IsNet history range entry → ¬ IsIn range operation.dot → range.first ≤ range.last
        → IsNet (operation ∷ history) range entry }
    ensures alone { (history : List OperationValue) (range : Range) (entry other : EntryValue)
        → IsNet history range entry → IsNet history range other → IsClock entry.time → IsClock other.time
        → entry ≡ other }
{}

/// What effects are: two lists have one effect, those of the two cases are in order, and the entry of an effect is an entry that
/// carries the operation made by it.
pub fn made_by_effect()
    ensures one { (deletes : List Tagged) (inserts : List Triple) (effect other : EffectValue)
        → IsEffectOf deletes inserts effect → IsEffectOf deletes inserts other → effect ≡ other }
    ensures insertion { (triple : Triple) → IsInOrder (inserting triple) }
    ensures deletion { (pairs : List Tagged) → IsAscending tagged_cmp pairs → IsInOrder (deleting pairs) }
    ensures entry { (ticks time : List (List ℕ × ℕ)) (dot : Dot) (effect : EffectValue)
        → MayMake ticks dot effect → RaisesTo ticks time dot → IsClock time → IsEntry (effect_entry dot time effect) }
    ensures carried { (dot : Dot) (causes : List Range) (time : List (List ℕ × ℕ)) (effect : EffectValue)
        → ((other : Dot) → Covers time other ↔ (Knows causes other ⊎ (other ≡ dot)))
        → IsEffect (operation_of dot causes effect) (effect_entry dot time effect) }
{}

/// What the list of the present triples is: it has those that have a pair, it ascends where the pairs do, and no other list
/// does both.
pub fn present_triples()
    ensures members { (pairs : List Tagged) (triple : Triple) → Has (present pairs) triple ↔ IsPresent pairs triple }
    ensures ascending { (pairs : List Tagged) → IsAscending tagged_cmp pairs → IsAscending triple_cmp (present pairs) }
    ensures one { (pairs : List Tagged) (triples : List Triple) → IsAscending tagged_cmp pairs
        → IsAscending triple_cmp triples
        → ((triple : Triple) → Has triples triple ↔ IsPresent pairs triple) → triples ≡ present pairs }
{}
