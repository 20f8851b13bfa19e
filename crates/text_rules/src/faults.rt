//! Why a reference is refused.
ghost use Rattle.std.specs.Prelude.{◌≡◌};
ghost use Rattle.text_rules.specs.declared.faults.IriFault.TheVariants as iri_faults;

use std::alloc::AllocError;
use thiserror::Error;

/// Why a reference isn't resolved.
#[derive(Clone, Copy, Debug, PartialEq, Eq, Error)]
pub enum IriFault {
    /// The result is no absolute IRI of at most 2,048 bytes.
    #[error("not an absolute IRI of at most 2,048 bytes")]
    NotIri,
    /// Memory ran out.
    #[error("out of memory")]
    NoMemory,
}

impl From<AllocError> for IriFault {
    ghost from_gives = { λ _ fault. fault ≡ iri_faults.NoMemory };

    fn from(_error: AllocError) -> IriFault {
        IriFault::NoMemory
    }
}
