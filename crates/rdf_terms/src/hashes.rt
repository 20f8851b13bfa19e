//! Hashes of IRIs, literals and terms, which equal ones have alike.
ghost use Rattle.std.proofs.Common.{rules};
ghost use Rattle.std.specs.Cmp.Rules.{hashing};
ghost use Rattle.std.specs.Cmp.{partial_equiv_from_equiv, eq_by_cmp_equiv};
ghost use Rattle.std.specs.Hash as fed;
ghost use Rattle.std.specs.Ordering.{eq_by_cmp};
ghost use Rattle.rdf_terms.specs.Hashed.{literal_fed, literals_alike, term_fed, terms_alike};
ghost use Rattle.rdf_terms.specs.Order.{literal_cmp};
ghost use Rattle.rdf_terms.specs.OrderLaws.{literal_total};

use crate::order::cmp_literals;
use crate::terms::{Iri, Kind, Literal, Term, is_string_type};
use std::hash::{Hash, Hasher};

impl Hash for Iri {
    ghost hash_input = { λ iri. fed.str iri };

    ghost respects_eq = { Prim.search (hashing, rules) };

    fn hash<H: Hasher>(&self, state: &mut H) {
        self.as_str().hash(state);
    }
}

impl PartialEq for Literal {
    ghost eq = { eq_by_cmp literal_cmp };

    ghost laws = { partial_equiv_from_equiv (eq_by_cmp_equiv literal_total) };

    fn eq(&self, other: &Literal) -> bool {
        cmp_literals(self, other).is_eq()
    }
}

impl Eq for Literal {
    ghost laws = { eq_by_cmp_equiv literal_total };
}

impl Hash for Literal {
    ghost hash_input = { literal_fed };

    ghost respects_eq = { literals_alike };

    #[tactic(auto, using(crate::proofs::Hashing::fed_by_parts))]
    fn hash<H: Hasher>(&self, state: &mut H) {
        self.lexical.hash(state);
        match &self.kind {
            Kind::Datatype(datatype) if !is_string_type(datatype) => datatype.hash(state),
            Kind::Plain | Kind::Datatype(_) => {}
            Kind::Language(tag) => tag.hash(state),
        }
    }
}

impl Hash for Term {
    ghost hash_input = { term_fed };

    ghost respects_eq = { terms_alike };

    fn hash<H: Hasher>(&self, state: &mut H) {
        match self {
            Term::Iri(iri) => iri.hash(state),
            Term::Literal(literal) => literal.hash(state),
        }
    }
}
