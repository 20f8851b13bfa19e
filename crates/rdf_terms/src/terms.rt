//! IRIs, literals, terms and triples (RDF 1.1 Concepts, section 3).
ghost use Rattle.std.specs.Prelude.{◌≡◌, ◌≤◌, IfOk, IsTrue, nat_eq, not, length};
ghost use Rattle.std.specs.Cmp.{partial_equiv_from_equiv};
ghost use Rattle.std.specs.Cmp.Lexicographic.{pointwise, nat_list_eq_equiv};
ghost use Rattle.std.specs.Str.{str_to_ascii_lowercase};
ghost use Rattle.text_rules.specs.Iri.{is_absolute};
ghost use Rattle.text_rules.specs.Tags.{is_language_tag};
ghost use Rattle.rdf_terms.specs.Literal.{Typed, Tagged, is_same, lexical_limit, rdf_lang_string, xsd_string};

use crate::faults::TermFault;
use crate::limits::LEXICAL_LIMIT;
use std::alloc::{AllocError, Global};
use std::marker::Model;
use text_rules::{Text, is_absolute, is_language_tag, lower_tag};

/// An absolute IRI of at most 2,048 bytes.
#[derive(Debug, Drop)]
pub struct Iri {
    text: Text,
}

impl Model for Iri {
    ghost use Rattle.std.specs.Prelude.{List, ℕ, IsTrue};
    ghost use Rattle.text_rules.specs.Iri.{is_absolute};

    ghost Value = { List ℕ };

    ghost view = { λ i. i.text };

    ghost invariant = { λ i. IsTrue (is_absolute i.text) };
}

impl Iri {
    ghost use Rattle.std.specs.Prelude.{◌≡◌, ◌↔◌, IsTrue, IfOk, IfErr, IsErrOf, not};
    ghost use Rattle.rdf_terms.specs.TermFaults.{MayRefuseIri};

    /// The IRI of a text, refused with `BadIri` where the text is no absolute IRI of at most 2,048 bytes.
    pub fn new(alloc: Global, text: &str) -> Result<Iri, TermFault>
        ensures ok { IfOk result (λ iri. iri ≡ text.now) }
        ensures bad_iri { IsErrOf result TermFault.BadIri ↔ IsTrue (not (is_absolute text.now)) }
        ensures refusals { IfErr result MayRefuseIri }
    {
        if !is_absolute(text) {
            return Err(TermFault::BadIri);
        }
        Ok(known_iri(alloc, text)?)
    }

    /// The IRI of a text that is known to be one.
    pub(crate) fn from_absolute(text: Text) -> Iri
        requires { IsTrue (is_absolute text) }
        ensures { result ≡ text }
    {
        Iri { text }
    }

    /// A copy of the IRI, which shares its text.
    pub fn share(&self) -> Result<Iri, AllocError>
        ensures { IfOk result (λ copy. copy ≡ self.now) }
    {
        Ok(Iri {
            text: self.text.share()?,
        })
    }

    /// The text of the IRI, without angle brackets.
    pub fn as_str(&self) -> &str
        ensures text { result.now ≡ self.now }
        ensures absolute { IsTrue (is_absolute self.now) }
    {
        self.text.as_str()
    }
}

impl PartialEq for Iri {
    ghost eq = { pointwise nat_eq };

    ghost laws = { partial_equiv_from_equiv nat_list_eq_equiv };

    fn eq(&self, other: &Iri) -> bool {
        self.as_str() == other.as_str()
    }
}

impl Eq for Iri {
    ghost laws = { nat_list_eq_equiv };
}

/// xsd:string, the datatype of a literal that names none.
const XSD_STRING: &str = "http://www.w3.org/2001/XMLSchema#string";

/// rdf:langString, the datatype of literals with a language tag, which none names.
pub(crate) const RDF_LANG_STRING: &str = "http://www.w3.org/1999/02/22-rdf-syntax-ns#langString";

/// What a literal has beside its lexical form.
#[derive(Debug, Drop)]
pub(crate) enum Kind {
    /// xsd:string, which literals that name none have.
    Plain,
    /// A datatype other than rdf:langString.
    Datatype(Iri),
    /// A language tag in lower case.
    Language(Text),
}

impl Kind {
    /// A copy of the datatype or the tag, which shares its text.
    fn share(&self) -> Result<Kind, AllocError>
        ensures { IfOk result (λ copy. copy ≡ self.now) }
    {
        match self {
            Kind::Plain => Ok(Kind::Plain),
            Kind::Datatype(iri) => Ok(Kind::Datatype(iri.share()?)),
            Kind::Language(tag) => Ok(Kind::Language(tag.share()?)),
        }
    }
}

/// Whether a literal of this datatype is written without it.
#[tactic(auto, unfolding(crate::specs::Literal::xsd_string))]
pub(crate) fn is_string_type(datatype: &Iri) -> bool
    ensures { result ≡ is_same datatype.now xsd_string }
{
    datatype.as_str() == XSD_STRING
}

/// Whether a datatype is rdf:langString.
#[tactic(auto, unfolding(crate::specs::Literal::rdf_lang_string))]
pub(crate) fn is_lang_string(datatype: &str) -> bool
    ensures { result ≡ is_same datatype.now rdf_lang_string }
{
    datatype == RDF_LANG_STRING
}

/// A literal: a lexical form of at most 1,048,576 bytes with a datatype or a language tag.
#[derive(Debug, Drop)]
pub struct Literal {
    pub(crate) lexical: Text,
    pub(crate) kind: Kind,
}

impl Model for Literal {
    ghost use Rattle.rdf_terms.specs.Literal.{LiteralValue, IsLiteral};

    ghost Value = { LiteralValue };

    ghost use Rattle.rdf_terms.specs.LiteralView.{literal_of};

    ghost view = { λ l. literal_of l.lexical l.kind };

    ghost invariant = { λ l. IsLiteral (literal_of l.lexical l.kind) };
}

impl Literal {
    ghost use Rattle.std.specs.Prelude.{◌≡◌, ◌↔◌, ◌<◌, ◌≤◌, IsTrue, IfOk, IfErr, IsErrOf, not, length};
    ghost use Rattle.rdf_terms.specs.TermFaults.{MayRefuseTyped, MayRefuseTagged};
    ghost use Rattle.std.specs.Option.{option_copied};
    ghost use Rattle.rdf_terms.specs.Literal.{Typed, Tagged, IsLiteral, lexical_form, datatype_of, language_of, is_same, xsd_string, rdf_lang_string, lexical_limit};

    /// The literal of a lexical form and a datatype, refused with `BadType` where the datatype is rdf:langString,
    /// else with `TooLong` where the lexical form has more than 1,048,576 bytes.
    pub fn new(alloc: Global, lexical: &str, datatype: &Iri) -> Result<Literal, TermFault>
        ensures ok { IfOk result (λ literal. literal ≡ Typed lexical.now datatype.now) }
        ensures bad_type { IsErrOf result TermFault.BadType ↔ IsTrue (is_same datatype.now rdf_lang_string) }
        ensures too_long { IsErrOf result TermFault.TooLong
            ↔ (IsTrue (not (is_same datatype.now rdf_lang_string)) × (lexical_limit < length lexical.now)) }
        ensures refusals { IfErr result MayRefuseTyped }
    {
        if is_lang_string(datatype.as_str()) {
            return Err(TermFault::BadType);
        }
        if lexical.len() > LEXICAL_LIMIT {
            return Err(TermFault::TooLong);
        }
        Ok(typed_literal(alloc, lexical, datatype)?)
    }

    /// The literal of a lexical form and a language tag, which it keeps in lower case, refused with `BadTag`
    /// where the text is no language tag, else with `TooLong` where the lexical form has more than 1,048,576 bytes.
    pub fn tagged(alloc: Global, lexical: &str, tag: &str) -> Result<Literal, TermFault>
        ensures ok { IfOk result (λ literal. literal ≡ Tagged lexical.now (str_to_ascii_lowercase tag.now)) }
        ensures bad_tag { IsErrOf result TermFault.BadTag ↔ IsTrue (not (is_language_tag tag.now)) }
        ensures too_long { IsErrOf result TermFault.TooLong
            ↔ (IsTrue (is_language_tag tag.now) × (lexical_limit < length lexical.now)) }
        ensures refusals { IfErr result MayRefuseTagged }
    {
        if !is_language_tag(tag) {
            return Err(TermFault::BadTag);
        }
        if lexical.len() > LEXICAL_LIMIT {
            return Err(TermFault::TooLong);
        }
        Ok(tagged_literal(alloc, lexical, tag)?)
    }

    /// The literal of a lexical form that is not too long and the datatype xsd:string, which takes no memory for it.
    pub(crate) fn plain(lexical: Text) -> Literal
        requires { IsLiteral (Typed lexical xsd_string) }
        ensures { result ≡ Typed lexical xsd_string }
    {
        let kind = Kind::Plain;
        Literal { lexical, kind }
    }

    /// The literal of a lexical form that is not too long and a datatype that literals may have.
    pub(crate) fn from_typed(lexical: Text, datatype: Iri) -> Literal
        requires { IsLiteral (Typed lexical datatype) }
        ensures { result ≡ Typed lexical datatype }
    {
        let kind = Kind::Datatype(datatype);
        Literal { lexical, kind }
    }

    /// The literal of a lexical form that is not too long and a language tag in lower case.
    pub(crate) fn from_tagged(lexical: Text, tag: Text) -> Literal
        requires { IsLiteral (Tagged lexical tag) }
        ensures { result ≡ Tagged lexical tag }
    {
        let kind = Kind::Language(tag);
        Literal { lexical, kind }
    }

    /// The lexical form.
    #[tactic(auto, using(crate::proofs::LiteralParts::kept_form))]
    pub fn lexical(&self) -> &str
        ensures { result.now ≡ lexical_form self.now }
    {
        self.lexical.as_str()
    }

    /// The IRI of the datatype, where the literal has no language tag.
    #[tactic(auto, unfolding(crate::specs::Literal::xsd_string))]
    pub fn datatype(&self) -> Option<&str>
        ensures { option_copied result ≡ datatype_of self.now }
    {
        match &self.kind {
            Kind::Plain => Some(XSD_STRING),
            Kind::Datatype(iri) => Some(iri.as_str()),
            Kind::Language(_) => None,
        }
    }

    /// The language tag, in lower case, where the literal has one.
    pub fn language(&self) -> Option<&str>
        ensures { option_copied result ≡ language_of self.now }
    {
        match &self.kind {
            Kind::Language(tag) => Some(tag.as_str()),
            _ => None,
        }
    }

    /// A copy of the literal, which shares its texts.
    pub fn share(&self) -> Result<Literal, AllocError>
        ensures { IfOk result (λ copy. copy ≡ self.now) }
    {
        let lexical = self.lexical.share()?;
        let kind = self.kind.share()?;
        Ok(Literal { lexical, kind })
    }
}

/// A term that may be an object.
#[derive(Debug, Drop)]
pub enum Term {
    /// An IRI.
    Iri(Iri),
    /// A literal.
    Literal(Literal),
}

impl Term {
    /// A copy of the term, which shares its texts.
    pub fn share(&self) -> Result<Term, AllocError>
        ensures { IfOk result (λ copy. copy ≡ self.now) }
    {
        match self {
            Term::Iri(iri) => Ok(Term::Iri(iri.share()?)),
            Term::Literal(literal) => Ok(Term::Literal(literal.share()?)),
        }
    }
}

/// A triple: subject, predicate and object.
#[derive(Debug, Drop)]
pub struct Triple {
    /// The subject.
    pub s: Iri,
    /// The predicate.
    pub p: Iri,
    /// The object.
    pub o: Term,
}

impl Triple {
    /// A copy of the triple, which shares its texts.
    pub fn share(&self) -> Result<Triple, AllocError>
        ensures { IfOk result (λ copy. copy ≡ self.now) }
    {
        let s = self.s.share()?;
        let p = self.p.share()?;
        let o = self.o.share()?;
        Ok(Triple { s, p, o })
    }
}

/// The IRI of an absolute IRI's text.
pub fn known_iri(alloc: Global, text: &str) -> Result<Iri, AllocError>
    requires { IsTrue (is_absolute text.now) }
    ensures { IfOk result (λ iri. iri ≡ text.now) }
{
    Ok(Iri::from_absolute(Text::new(alloc, text)?))
}

/// The literal of a lexical form that isn't too long and of a datatype that literals may have.
#[tactic(auto, using(crate::proofs::Plain::is_xsd_string, crate::proofs::Plain::plain_literal))]
pub fn typed_literal(alloc: Global, lexical: &str, datatype: &Iri) -> Result<Literal, AllocError>
    requires short { length lexical.now ≤ lexical_limit }
    requires allowed { IsTrue (not (is_same datatype.now rdf_lang_string)) }
    ensures { IfOk result (λ literal. literal ≡ Typed lexical.now datatype.now) }
{
    let lexical = Text::new(alloc, lexical)?;
    if is_string_type(datatype) {
        return Ok(Literal::plain(lexical));
    }
    Ok(Literal::from_typed(lexical, datatype.share()?))
}

/// The literal of a lexical form that isn't too long and a language tag, which it keeps in lower case.
#[tactic(auto, using(text_rules::proofs::TagLemmas::lower_lower, text_rules::proofs::TagLemmas::lower_tag))]
pub fn tagged_literal(alloc: Global, lexical: &str, tag: &str) -> Result<Literal, AllocError>
    requires short { length lexical.now ≤ lexical_limit }
    requires tag { IsTrue (is_language_tag tag.now) }
    ensures { IfOk result (λ literal. literal ≡ Tagged lexical.now (str_to_ascii_lowercase tag.now)) }
{
    let tag = lower_tag(alloc, tag)?;
    Ok(Literal::from_tagged(Text::new(alloc, lexical)?, tag))
}
