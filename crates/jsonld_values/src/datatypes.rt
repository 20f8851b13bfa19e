//! The datatypes of literals that are made from JSON (XML Schema Part 2; JSON-LD 1.1 API, section 8.2.2).
ghost use Rattle.std.specs.Prelude.{◌≡◌, not, IsTrue, IfOk};
ghost use Rattle.std.specs.Option.{option_copied};
ghost use Rattle.rdf_terms.specs.Literal.{is_same, rdf_lang_string, xsd_string, xsd_integer};
ghost use Rattle.jsonld_values.specs.Literals.{IsDatatype, datatype_under, xsd_boolean, xsd_double};

use jsonld_context::TermType;
use rdf_terms::{Iri, known_iri};
use std::alloc::{AllocError, Global};

/// xsd:string, the datatype of strings.
pub(crate) const XSD_STRING: &str = "http://www.w3.org/2001/XMLSchema#string";

/// xsd:boolean, the datatype of booleans.
pub(crate) const XSD_BOOLEAN: &str = "http://www.w3.org/2001/XMLSchema#boolean";

/// xsd:integer, the datatype of whole numbers.
pub(crate) const XSD_INTEGER: &str = "http://www.w3.org/2001/XMLSchema#integer";

/// xsd:double, the datatype of floating point numbers.
const XSD_DOUBLE: &str = "http://www.w3.org/2001/XMLSchema#double";

/// rdf:langString, the datatype of literals with a language tag.
const RDF_LANG_STRING: &str = "http://www.w3.org/1999/02/22-rdf-syntax-ns#langString";

/// The text of xsd:string.
#[tactic(auto, unfolding(rdf_terms::specs::Literal::xsd_string))]
pub(crate) fn string_type() -> &'static str
    ensures text { result.now ≡ xsd_string }
    ensures datatype { IsDatatype result.now }
{
    XSD_STRING
}

/// The text of xsd:boolean.
#[tactic(auto, unfolding(crate::specs::Literals::xsd_boolean))]
pub(crate) fn boolean_type() -> &'static str
    ensures text { result.now ≡ xsd_boolean }
    ensures datatype { IsDatatype result.now }
{
    XSD_BOOLEAN
}

/// The text of xsd:integer.
#[tactic(auto, unfolding(rdf_terms::specs::Literal::xsd_integer))]
pub(crate) fn integer_type() -> &'static str
    ensures text { result.now ≡ xsd_integer }
    ensures datatype { IsDatatype result.now }
{
    XSD_INTEGER
}

/// Whether a datatype is xsd:double.
#[tactic(auto, unfolding(crate::specs::Literals::xsd_double))]
pub(crate) fn is_double_type(datatype: &str) -> bool
    ensures { result ≡ is_same datatype.now xsd_double }
{
    datatype == XSD_DOUBLE
}

/// Whether a datatype is rdf:langString.
#[tactic(auto, unfolding(rdf_terms::specs::Literal::rdf_lang_string))]
pub(crate) fn is_lang_string(datatype: &str) -> bool
    ensures { result ≡ is_same datatype.now rdf_lang_string }
{
    datatype == RDF_LANG_STRING
}

/// The datatype of the values of a term, where it has one that isn't `@id`, else another.
pub(crate) fn datatype_under(
    alloc: Global,
    kind: Option<&TermType>,
    other: &str,
) -> Result<Iri, AllocError>
    requires { IsDatatype other.now }
    ensures iri { IfOk result (λ iri. iri ≡ datatype_under (option_copied kind.entry) other.now) }
    ensures allowed { IfOk result (λ iri. IsTrue (not (is_same iri rdf_lang_string))) }
{
    match kind {
        Some(TermType::Datatype(datatype)) => datatype.iri().share(),
        Some(TermType::Id) => known_iri(alloc, other),
        None => known_iri(alloc, other),
    }
}
