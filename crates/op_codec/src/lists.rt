//! Lists that are read item by item.
ghost use Rattle.std.specs.Prelude.{◌≡◌, ◌++◌, ◌∷◌, [], OnOk};
ghost use Rattle.op_codec.specs.StoredLists.{is_above};

use std::alloc::AllocError;

/// Whether an item is above the last of those before it.
pub fn is_above<T: Ord>(items: &[T], item: &T) -> bool
    ensures { result ≡ is_above T.cmp items.now item.now }
{
    match items.last() {
        Some(last) => last.cmp(item).is_lt(),
        None => true,
    }
}

/// Adds an item at the end.
pub fn push_item<T: Drop>(items: &mut Vec<T>, item: T) -> Result<(), AllocError>
    ensures { OnOk result (items.new.items ≡ items.old.items ++ item ∷ []) }
{
    items.push(item)?;
    Ok(())
}
