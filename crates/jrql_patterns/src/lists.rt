//! Lists that grow, and objects with one member.
ghost use Rattle.std.specs.Prelude.{◌≡◌, ◌++◌, ◌∷◌, [], OnOk};
ghost use Rattle.serde_json.specs.View.{members_view};
ghost use Rattle.jrql_patterns.specs.OpenGroups.{has_one};

use serde_json::{Map, Value};
use std::alloc::AllocError;

/// Puts an item behind others.
pub(crate) fn push<T: Drop>(items: &mut Vec<T>, item: T) -> Result<(), AllocError>
    ensures { OnOk result (items.new.items ≡ items.old.items ++ item ∷ []) }
{
    items.push(item)?;
    Ok(())
}

/// Whether an object has one member alone. It takes no memory.
#[tactic(auto, using(crate::proofs::OneMember::one_by_length))]
pub(crate) fn has_one(members: &Map<String, Value>) -> bool
    ensures { result ≡ has_one (members_view members.now.entries) }
{
    members.len() == 1
}
