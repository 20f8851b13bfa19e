//! What follows `create`.
ghost use Rattle.std.specs.Prelude.{ℕ, ◌≤◌, List, length, IfOk, MatchOption, option_map};
ghost use Rattle.shell_session.specs.ReadShell.{IsCreationOf, tail_of};
ghost use Rattle.shell_session.specs.ShellLines.{IsCreation, SpellsIris, property_limit};

use crate::commands::ShellCommand;
use crate::words::{first_word, read_id, read_iri_word};
use rdf_terms::Iri;
use schedule_text::{read_domain, split_at_space};
use std::alloc::{AllocError, Global};

/// How many single-valued properties a line may give, repeats included.
const PROPERTY_LIMIT: usize = 16;

/// What follows `create` and a space: a UUID, the name of a domain, and IRIs, with a space between each two.
pub fn read_creation(alloc: Global, text: &[u8]) -> Result<Option<ShellCommand>, AllocError>
    ensures { IfOk result (λ found. MatchOption found
        ((id : List ℕ) (domain : List ℕ) (properties : List (List ℕ)) → ¬ IsCreation text.now id domain properties)
        (λ command. IsCreationOf text.now command)) }
{
    let Some((id, text)) = split_at_space(text) else {
        return Ok(None);
    };
    let Some(id) = read_id(id) else {
        return Ok(None);
    };
    let (name, rest) = first_word(text);
    let Some(domain) = read_domain(alloc, name)? else {
        return Ok(None);
    };
    let Some(properties) = read_iris(alloc, rest)? else {
        return Ok(None);
    };
    Ok(Some(ShellCommand::Create(id, domain, properties)))
}

/// IRIs up to the end of the line, with a space between each two, where these are not too many.
fn read_iris(alloc: Global, rest: Option<&[u8]>) -> Result<Option<Vec<Iri>>, AllocError>
    ensures { IfOk result (λ found. MatchOption found
        ((iris : List (List ℕ)) → length iris ≤ property_limit
        → ¬ SpellsIris (tail_of (option_map (λ text. text.now) rest.entry)) iris)
        (λ iris. SpellsIris (tail_of (option_map (λ text. text.now) rest.entry)) iris.items
        × (length iris.items ≤ property_limit))) }
{
    let mut iris = Vec::new(alloc);
    let mut left = rest;
    while let Some(text) = left {
        if iris.len() >= PROPERTY_LIMIT {
            return Ok(None);
        }
        let (word, behind) = first_word(text);
        let Some(iri) = read_iri_word(alloc, word)? else {
            return Ok(None);
        };
        iris.push(iri)?;
        left = behind;
    }
    Ok(Some(iris))
}
