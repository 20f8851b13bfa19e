//! Lists put in order.
ghost use Rattle.std.proofs.lemmas.Map.Lookups.{CmpEqualImpliesEq};
ghost use Rattle.mld_ops.specs.InOrder.{IsPutInOrder};

/// The items in order, each once, where items that compare alike are the same. Takes no memory.
pub(crate) fn put_in_order<T: Ord + Drop>(given: Vec<T>) -> Vec<T>
    ensures { CmpEqualImpliesEq T.cmp → IsPutInOrder T.cmp given.items result.items }
{
    let mut kept = given;
    kept.sort_unstable_by(|a, b| a.cmp(b));
    kept.dedup_by(|a, b| (*a).cmp(b).is_eq());
    kept
}
