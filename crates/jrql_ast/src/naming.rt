//! Solutions, and the names of the fresh subjects that they have.
ghost use Rattle.std.specs.Prelude.{◌≡◌, IfOk, IsTrue};
ghost use Rattle.std.specs.String.{string_bytes};
ghost use Rattle.text_rules.specs.Domain.{is_domain};
ghost use Rattle.jrql_ast.specs.FreshNames.{fresh_iri};

use rdf_terms::{Iri, Term, known_iri};
use std::alloc::{AllocError, Global};
use tree_clock::{Dot, Path};

/// A solution of an update, with what its fresh subjects are named by.
#[derive(Clone, Copy)]
pub(crate) struct Solution<'a> {
    /// The domain.
    pub(crate) domain: &'a str,
    /// The dot of the update.
    pub(crate) dot: &'a Dot,
    /// The number that the name of its first fresh subject ends in.
    pub(crate) first: u64,
    /// What it has for the variables.
    pub(crate) row: &'a [Option<Term>],
}

// The text of the IRI of a fresh subject.
fn fresh_text(alloc: Global, domain: &str, dot: &Dot, number: u64) -> Result<String, AllocError>
    ensures { IfOk result (λ text. string_bytes text ≡ fresh_iri domain.now dot.now number) }
{
    format!(in alloc; "http://{domain}/.well-known/genid/{dot}.{number}")
}

/// The IRI of a fresh subject: in a domain, at the dot of a path and a tick, with a number (RDF 1.1 Concepts, section 3.5).
pub(crate) fn fresh_iri(
    alloc: Global,
    domain: &str,
    path: &Path,
    tick: u32,
    number: u64,
) -> Result<Iri, AllocError>
    requires { IsTrue (is_domain domain.now) }
    ensures { IfOk result (λ iri. iri ≡ fresh_iri domain.now (record { path = path.now; tick = tick }) number) }
{
    let _letters = path.len();
    let path = *path;
    let text = fresh_text(alloc, domain, &Dot { path, tick }, number)?;
    known_iri(alloc, text.as_str())
}
