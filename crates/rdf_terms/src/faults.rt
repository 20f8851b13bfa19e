//! Why a term or a triple is refused.
ghost use Rattle.std.specs.Prelude.{◌≡◌};
ghost use Rattle.rdf_terms.specs.declared.faults.TermFault.TheVariants as term_faults;
ghost use Rattle.rdf_terms.specs.declared.faults.TripleFault.TheVariants as triple_faults;

use std::alloc::AllocError;
use thiserror::Error;

/// Why an IRI or a literal is refused.
#[derive(Clone, Copy, Debug, PartialEq, Eq, Error)]
pub enum TermFault {
    /// The text is no absolute IRI of at most 2,048 bytes.
    #[error("not an absolute IRI of at most 2,048 bytes")]
    BadIri,
    /// The datatype is rdf:langString, which goes with a tag alone.
    #[error("rdf:langString without a language tag")]
    BadType,
    /// The text is no language tag.
    #[error("not a language tag")]
    BadTag,
    /// The lexical form has more than 1,048,576 bytes.
    #[error("a lexical form of more than 1,048,576 bytes")]
    TooLong,
    /// Memory ran out.
    #[error("out of memory")]
    NoMemory,
}

impl From<AllocError> for TermFault {
    ghost from_gives = { λ _ fault. fault ≡ term_faults.NoMemory };

    fn from(_error: AllocError) -> TermFault {
        TermFault::NoMemory
    }
}

/// Why a text is refused as a triple.
#[derive(Clone, Copy, Debug, PartialEq, Eq, Error)]
pub enum TripleFault {
    /// The text spells no triple; reading stopped at this byte.
    #[error("not a triple (at byte {place})")]
    NotTriple {
        /// The byte where reading stopped, from 0.
        place: usize,
    },
    /// The text spells a triple with an IRI of more than 2,048 bytes or a lexical form of more than 1,048,576.
    #[error("an IRI of more than 2,048 bytes, or a lexical form of more than 1,048,576 bytes")]
    TooLong,
    /// Memory ran out.
    #[error("out of memory")]
    NoMemory,
}

impl From<AllocError> for TripleFault {
    ghost from_gives = { λ _ fault. fault ≡ triple_faults.NoMemory };

    fn from(_error: AllocError) -> TripleFault {
        TripleFault::NoMemory
    }
}
