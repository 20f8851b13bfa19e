//! The value that a text spells, for each value of the words.
ghost use Rattle.std.specs.Prelude.{◌≡◌, ℕ, IsTrue, MatchOption, [], map, option_map, unwrap_or};
ghost use Rattle.text_rules.specs.Iri.{is_absolute};
ghost use Rattle.node_run.specs.WordSpelling.{AreIris, AreTurns, IsGiven, IsPeer, SpellsDomain, SpellsId, SpellsName, SpellsRole, SpellsTurns};
ghost use Rattle.node_run.specs.Words.{ReadsBy};

use crate::faults::NodeWordsFault;
use rdf_terms::{Iri, known_iri};
use std::alloc::Global;
use text_rules::{Text, is_absolute, is_domain};
use uuid::Uuid;

/// The turns where no number of them is given.
const DEFAULT_TURNS: u64 = 4_294_967_295;

/// How many IRIs there are at most, repeats included.
const IRI_COUNT: usize = 16;

/// A UUID.
pub fn read_id(given: Option<&str>) -> Result<Uuid, NodeWordsFault>
    ensures { ReadsBy (IsGiven SpellsId (option_map (λ text. text.now) given.entry)) result }
{
    let Some(text) = given else {
        return Err(NodeWordsFault::Usage);
    };
    match Uuid::parse_str(text) {
        Ok(id) => Ok(id),
        Err(_) => Err(NodeWordsFault::Usage),
    }
}

/// Whether the role is `join`, and not `genesis`.
pub fn read_role(given: Option<&str>) -> Result<bool, NodeWordsFault>
    ensures { ReadsBy (IsGiven SpellsRole (option_map (λ text. text.now) given.entry)) result }
{
    let Some(text) = given else {
        return Err(NodeWordsFault::Usage);
    };
    match text {
        "genesis" => Ok(false),
        "join" => Ok(true),
        _ => Err(NodeWordsFault::Usage),
    }
}

/// A number of turns, or the default.
pub fn read_turns(given: Option<&str>) -> Result<u64, NodeWordsFault>
    ensures { ReadsBy (AreTurns (option_map (λ text. text.now) given.entry)) result }
{
    let Some(text) = given else {
        return Ok(DEFAULT_TURNS);
    };
    match read_number(text) {
        Some(turns) => Ok(turns),
        None => Err(NodeWordsFault::Usage),
    }
}

/// A number from 1 to 2^64 - 1 in decimal digits, with no sign and no zero in front.
fn read_number(text: &str) -> Option<u64>
    ensures { MatchOption result ((turns : ℕ) → ¬ SpellsTurns text.now turns) (λ turns. SpellsTurns text.now turns) }
{
    if text.is_empty() {
        return None;
    }
    let first = text.as_bytes()[0];
    if first == b'+' || first == b'0' {
        return None;
    }
    match text.parse::<u64>() {
        Ok(turns) => Some(turns),
        Err(_) => None,
    }
}

/// The name of a domain.
pub fn read_domain(alloc: Global, given: Option<&str>) -> Result<Text, NodeWordsFault>
    ensures { ReadsBy (IsGiven SpellsDomain (option_map (λ text. text.now) given.entry)) result }
{
    let Some(text) = given else {
        return Err(NodeWordsFault::Usage);
    };
    if !is_domain(text) {
        return Err(NodeWordsFault::Usage);
    }
    Ok(Text::new(alloc, text)?)
}

/// The name of a folder, or an address.
pub fn read_name(alloc: Global, given: Option<&str>) -> Result<Text, NodeWordsFault>
    ensures { ReadsBy (IsGiven SpellsName (option_map (λ text. text.now) given.entry)) result }
{
    let Some(text) = given else {
        return Err(NodeWordsFault::Usage);
    };
    if text.is_empty() {
        return Err(NodeWordsFault::Usage);
    }
    Ok(Text::new(alloc, text)?)
}

/// An address, where one is given.
pub fn read_peer(alloc: Global, given: Option<&str>) -> Result<Option<Text>, NodeWordsFault>
    ensures { ReadsBy (IsPeer (option_map (λ text. text.now) given.entry)) result }
{
    if given.is_none() {
        return Ok(None);
    }
    Ok(Some(read_name(alloc, given)?))
}

/// The IRIs, where these are not too many.
pub fn read_iris(alloc: Global, given: Option<&[&str]>) -> Result<Vec<Iri>, NodeWordsFault>
    ensures { ReadsBy (λ iris. AreIris
        (unwrap_or (option_map (λ texts. map (λ text. text.now) texts.now) given.entry) []) iris.items) result }
{
    let Some(texts) = given else {
        return Ok(Vec::new(alloc));
    };
    if texts.len() > IRI_COUNT {
        return Err(NodeWordsFault::Usage);
    }
    let mut iris = Vec::new(alloc);
    for text in texts {
        let iri = read_iri(alloc, text)?;
        if iris.push(iri).is_err() {
            return Err(NodeWordsFault::NoMemory);
        }
    }
    Ok(iris)
}

/// An absolute IRI.
fn read_iri(alloc: Global, text: &str) -> Result<Iri, NodeWordsFault>
    ensures { ReadsBy (λ iri. (iri ≡ text.now) × IsTrue (is_absolute text.now)) result }
{
    if !is_absolute(text) {
        return Err(NodeWordsFault::Usage);
    }
    Ok(known_iri(alloc, text)?)
}
