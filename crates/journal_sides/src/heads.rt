//! What a journal begins with.
use mld_ops::PairList;
use rdf_terms::Iri;
use text_rules::Text;
use tree_clock::{Clock, Path};
use uuid::Uuid;

/// What a journal begins with: whose it is, and what the clone had before the journal's entries.
#[derive(Drop)]
pub struct Head {
    /// The id of the clone.
    pub id: Uuid,
    /// The name of its domain.
    pub domain: Text,
    /// The single-valued properties, ascending as terms, each once.
    pub props: Vec<Iri>,
    /// The path of the clone.
    pub path: Path,
    /// The dots that the clone knew.
    pub base: Clock,
    /// The pairs that it had, ascending, each of a dot of the base.
    pub tagged: PairList,
}
