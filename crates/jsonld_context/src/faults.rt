//! Why JSON is refused.
ghost use Rattle.std.specs.Prelude.{◌≡◌};
ghost use Rattle.jsonld_context.specs.declared.faults.JsonFault.TheVariants as faults;

use std::alloc::AllocError;
use text_rules::Text;
use thiserror::Error;

/// Why a JSON text isn't a context, a subject, a query or an update: the first fault in reading order. Within an object `@context` is
/// read first, then the other keys in the order of their bytes.
#[derive(Debug, PartialEq, Eq, Drop, Error)]
pub enum JsonFault {
    /// The text is no JSON.
    #[error("not JSON")]
    NotJson,
    /// A context breaks its rules, at this key of it; the empty text where it is no object.
    #[error("bad context at \"{}\"", .0.as_str())]
    BadContext(Text),
    /// A context is named, and not given.
    #[error("a context that stands elsewhere")]
    Remote,
    /// A subject breaks its rules, at this key of it; the empty text where it is no object.
    #[error("bad subject at \"{}\"", .0.as_str())]
    BadSubject(Text),
    /// A number is no whole number of 64 bits.
    #[error("not a whole number of 64 bits")]
    Fraction,
    /// What is written so stands for no absolute IRI of at most 2,048 bytes.
    #[error("no absolute IRI: \"{}\"", .0.as_str())]
    BadIri(Text),
    /// This key is known in JSON-LD, and not here.
    #[error("not supported: \"{}\"", .0.as_str())]
    Unsupported(Text),
    /// A query or an update breaks its rules, at this key of it; the empty text where it is no object.
    #[error("bad query at \"{}\"", .0.as_str())]
    BadQuery(Text),
    /// Memory ran out.
    #[error("out of memory")]
    NoMemory,
}

impl From<AllocError> for JsonFault {
    ghost from_gives = { λ _ fault. fault ≡ faults.NoMemory };

    fn from(_error: AllocError) -> JsonFault {
        JsonFault::NoMemory
    }
}
