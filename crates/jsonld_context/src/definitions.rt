//! What a context says of a term.
ghost use Rattle.std.specs.Prelude.{◌≡◌, IfOk};
ghost use Rattle.std.specs.Cmp.{partial_equiv_from_equiv};
ghost use Rattle.jsonld_context.specs.ContextEquality.{same_type, same_type_equiv};

use crate::datatypes::Datatype;
use rdf_terms::Iri;
use std::alloc::{AllocError, Global};
use text_rules::Text;

/// The type of a term's values (JSON-LD 1.1, section 4.2.3).
#[derive(Debug, Drop)]
pub enum TermType {
    /// They are ids.
    Id,
    /// They are literals of this datatype.
    Datatype(Datatype),
}

impl PartialEq for TermType {
    ghost eq = { same_type };

    ghost laws = { partial_equiv_from_equiv same_type_equiv };

    fn eq(&self, other: &TermType) -> bool {
        match self {
            TermType::Id => match other {
                TermType::Id => true,
                TermType::Datatype(_) => false,
            },
            TermType::Datatype(datatype) => match other {
                TermType::Id => false,
                TermType::Datatype(other) => *datatype == *other,
            },
        }
    }
}

impl Eq for TermType {
    ghost laws = { same_type_equiv };
}

impl TermType {
    /// A copy of the type, which shares its text.
    fn share(&self) -> Result<TermType, AllocError>
        ensures { IfOk result (λ copy. copy ≡ self.now) }
    {
        match self {
            TermType::Id => Ok(TermType::Id),
            TermType::Datatype(datatype) => Ok(TermType::Datatype(datatype.share()?)),
        }
    }
}

/// A term with its IRI.
#[derive(Debug, PartialEq, Eq, Drop)]
pub(crate) struct Definition {
    /// The term.
    pub name: Text,
    /// The IRI that it stands for.
    pub iri: Iri,
    /// The type of its values.
    pub coercion: Option<TermType>,
    /// Whether it may stand in front of a compact IRI.
    pub is_prefix: bool,
}

impl Definition {
    /// A copy of the term, which shares its texts.
    pub fn share(&self) -> Result<Definition, AllocError>
        ensures { IfOk result (λ copy. copy ≡ self.now) }
    {
        let name = self.name.share()?;
        let iri = self.iri.share()?;
        let coercion = match &self.coercion {
            Some(kind) => Some(kind.share()?),
            None => None,
        };
        Ok(Definition {
            name,
            iri,
            coercion,
            is_prefix: self.is_prefix,
        })
    }
}

/// A copy of terms, which shares their texts.
pub(crate) fn share_all(alloc: Global, terms: &[Definition]) -> Result<Vec<Definition>, AllocError>
    ensures { IfOk result (λ copies. copies.items ≡ terms.now) }
{
    let mut copies = Vec::with_capacity(alloc, terms.len())?;
    for term in terms {
        copies.push(term.share()?)?;
    }
    Ok(copies)
}
