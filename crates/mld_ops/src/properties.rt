//! Single-valued properties.
ghost use Rattle.std.specs.Prelude.{◌≡◌, IfOk};
ghost use Rattle.mld_ops.specs.Properties.{AreKept};

use rdf_terms::{Iri, cmp_iris};
use std::alloc::{AllocError, Global};

/// The properties in the order in which they are kept: ascending as terms, each once. Takes no memory.
pub fn kept_properties(given: Vec<Iri>) -> Vec<Iri>
    ensures { AreKept given.items result.items }
{
    let mut kept = given;
    kept.sort_unstable_by(|a, b| cmp_iris(a, b));
    kept.dedup_by(|a, b| cmp_iris(a, b).is_eq());
    kept
}

/// A copy of properties.
pub fn copy_properties(alloc: Global, properties: &[Iri]) -> Result<Vec<Iri>, AllocError>
    ensures { IfOk result (λ copies. copies.items ≡ properties.now) }
{
    let mut copies = Vec::with_capacity(alloc, properties.len())?;
    for property in properties {
        copies.push(property.share()?)?;
    }
    Ok(copies)
}
