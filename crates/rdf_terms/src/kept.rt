//! What terms and triples keep, told to a caller, who sees their values alone. These functions do nothing.
ghost use Rattle.std.specs.Prelude.{IsTrue};
ghost use Rattle.std.specs.Str.{IsUtf8};
ghost use Rattle.text_rules.specs.Iri.{is_absolute};
ghost use Rattle.rdf_terms.specs.Building.{IsSoundTerm};
ghost use Rattle.rdf_terms.specs.Literal.{IsLiteral};
ghost use Rattle.rdf_terms.specs.Written.{IsUtf8Literal, IsUtf8Term, IsWrittenSo};

use crate::terms::{Iri, Kind, Literal, Term, Triple};

impl Iri {
    /// What an IRI keeps.
    fn kept(&self)
        ensures absolute { IsTrue (is_absolute self.now) }
        ensures utf8 { IsUtf8 self.now }
    {
        let _text = self.as_str();
    }
}

impl Literal {
    /// What a literal keeps.
    fn kept(&self)
        ensures literal { IsLiteral self.now }
        ensures utf8 { IsUtf8Literal self.now }
    {
        let _lexical = self.lexical.as_str();
        match &self.kind {
            Kind::Plain => {}
            Kind::Datatype(iri) => iri.kept(),
            Kind::Language(tag) => {
                let _tag = tag.as_str();
            }
        }
    }
}

impl Term {
    /// What a term keeps.
    fn kept(&self)
        ensures sound { IsSoundTerm self.now }
        ensures utf8 { IsUtf8Term self.now }
    {
        match self {
            Term::Iri(iri) => iri.kept(),
            Term::Literal(literal) => literal.kept(),
        }
    }
}

impl Triple {
    /// What a triple keeps: what is written for it is a text that spells it. It takes no memory and does nothing.
    pub fn kept(&self)
        ensures { IsWrittenSo self.now }
    {
        self.s.kept();
        self.p.kept();
        self.o.kept();
    }
}
