//! Datatypes of a context's terms.

use rdf_terms::Iri;
use std::alloc::AllocError;
use std::marker::Model;

/// The datatype of the values of a term. It isn't rdf:langString, which is the datatype of literals with a language tag (RDF 1.1
/// Concepts, section 3.3).
#[derive(Debug, Drop)]
pub struct Datatype {
    iri: Iri,
}

impl Model for Datatype {
    ghost use Rattle.std.specs.Prelude.{List, ℕ, IsTrue, not};
    ghost use Rattle.rdf_terms.specs.Literal.{is_same, rdf_lang_string};

    ghost Value = { List ℕ };

    ghost view = { λ d. d.iri };

    ghost invariant = { λ d. IsTrue (not (is_same d.iri rdf_lang_string)) };
}

impl Datatype {
    ghost use Rattle.std.specs.Prelude.{◌≡◌, IfOk, IsTrue, not};
    ghost use Rattle.rdf_terms.specs.Literal.{is_same, rdf_lang_string};

    /// The datatype of an IRI that is known not to be rdf:langString.
    pub(crate) fn from_iri(iri: Iri) -> Datatype
        requires { IsTrue (not (is_same iri rdf_lang_string)) }
        ensures { result ≡ iri }
    {
        Datatype { iri }
    }

    /// A copy of the datatype, which shares its text.
    pub fn share(&self) -> Result<Datatype, AllocError>
        ensures { IfOk result (λ copy. copy ≡ self.now) }
    {
        Ok(Datatype {
            iri: self.iri.share()?,
        })
    }

    /// Its IRI. It takes no memory.
    pub fn iri(&self) -> &Iri
        ensures iri { result.now ≡ self.now }
        ensures allowed { IsTrue (not (is_same self.now rdf_lang_string)) }
    {
        &self.iri
    }
}

impl PartialEq for Datatype {
    ghost use Rattle.std.specs.Prelude.{nat_eq};
    ghost use Rattle.std.specs.Cmp.{partial_equiv_from_equiv};
    ghost use Rattle.std.specs.Cmp.Lexicographic.{pointwise, nat_list_eq_equiv};

    ghost eq = { pointwise nat_eq };

    ghost laws = { partial_equiv_from_equiv nat_list_eq_equiv };

    fn eq(&self, other: &Datatype) -> bool {
        self.iri == other.iri
    }
}

impl Eq for Datatype {
    ghost use Rattle.std.specs.Cmp.Lexicographic.{nat_list_eq_equiv};

    ghost laws = { nat_list_eq_equiv };
}
