//! Updates (SPARQL 1.1 Update, section 3.1.3).
ghost use Rattle.std.specs.Prelude.{◌≡◌, ◌∷◌, [], IfOk};
ghost use Rattle.jrql_ast.specs.Templates.{deletion_of, insertion_of, no_group, template_of};

use crate::patterns::{Group, PatternTriple, Slot};
use crate::sequences::Sequence;
use rdf_terms::{Term, Triple};
use std::alloc::{AllocError, Global};

/// What is deleted and inserted for each solution of a group.
#[derive(Debug, PartialEq, Eq, Drop)]
pub struct UpdatePlan {
    /// Which solutions there are.
    pub group: Group,
    /// The triples to delete.
    pub deletes: Sequence<PatternTriple>,
    /// The triples to insert.
    pub inserts: Sequence<PatternTriple>,
    /// The number of fresh subjects.
    pub fresh: u32,
}

impl UpdatePlan {
    /// The plan that inserts one triple.
    pub fn insertion(alloc: Global, triple: Triple) -> Result<UpdatePlan, AllocError>
        ensures { IfOk result (λ plan. plan ≡ insertion_of triple) }
    {
        Ok(UpdatePlan {
            group: no_group(alloc),
            deletes: Sequence::new(alloc),
            inserts: alone(alloc, template(triple))?,
            fresh: 0,
        })
    }

    /// The plan that deletes one triple.
    pub fn deletion(alloc: Global, triple: Triple) -> Result<UpdatePlan, AllocError>
        ensures { IfOk result (λ plan. plan ≡ deletion_of triple) }
    {
        Ok(UpdatePlan {
            group: no_group(alloc),
            deletes: alone(alloc, template(triple))?,
            inserts: Sequence::new(alloc),
            fresh: 0,
        })
    }
}

// The group of no pattern. It takes no memory.
fn no_group(alloc: Global) -> Group
    ensures { result ≡ no_group }
{
    Group {
        names: Sequence::new(alloc),
        hidden: 0,
        patterns: Sequence::new(alloc),
        branches: Sequence::new(alloc),
        filters: Sequence::new(alloc),
    }
}

// A triple as a template. It takes no memory.
fn template(triple: Triple) -> PatternTriple
    ensures { result ≡ template_of triple }
{
    let Triple { s, p, o } = triple;
    PatternTriple {
        s: Slot::Term(Term::Iri(s)),
        p: Slot::Term(Term::Iri(p)),
        o: Slot::Term(o),
    }
}

// A list of one template.
fn alone(alloc: Global, template: PatternTriple) -> Result<Sequence<PatternTriple>, AllocError>
    ensures { IfOk result (λ templates. templates ≡ template ∷ []) }
{
    let mut templates = Vec::with_capacity(alloc, 1)?;
    templates.push(template)?;
    Ok(Sequence::from_vec(templates))
}
