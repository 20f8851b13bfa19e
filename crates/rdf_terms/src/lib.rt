//! RDF terms and triples: their types, their written form, their order, and the reader of their text.
#![tactic(auto)]

mod bodies;
mod escapes;
mod faults;
mod hashes;
mod kept;
mod laws;
mod limits;
mod order;
mod read;
mod reply;
mod terms;
mod triples;
mod write;

pub use faults::{TermFault, TripleFault};
pub use laws::{one_place, one_triple, written_again};
pub use limits::LEXICAL_LIMIT;
pub use order::{cmp_iris, cmp_terms, cmp_triples, order_is_total};
pub use reply::cmp_reply;
pub use terms::{Iri, Literal, Term, Triple, known_iri, tagged_literal, typed_literal};
pub use triples::{read_iri, read_triple};
pub use write::write_triple;
