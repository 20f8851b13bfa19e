//! Words of the shell's lines.
ghost use Rattle.std.specs.Prelude.{IsTrue, IfOk, ◌↔◌, option_map};
ghost use Rattle.schedule_text.specs.schedule_model.Characters.{space};
ghost use Rattle.schedule_text.specs.schedule_model.Lacking.{Lacks};
ghost use Rattle.schedule_text.specs.ReadLines.{Finds};
ghost use Rattle.shell_session.specs.ReadShell.{IsFirstWord};
ghost use Rattle.shell_session.specs.ShellLines.{IsIdWord, IsIriWord, HasFirstWord, AsksForClone};

use rdf_terms::{Iri, read_iri};
use schedule_text::{behind, split_at_space};
use std::alloc::{AllocError, Global};
use uuid::Uuid;

/// The first word of a text, and the rest behind its space, where there is one.
pub fn first_word(text: &[u8]) -> (&[u8], Option<&[u8]>)
    ensures { IsFirstWord text.now result.0.now (option_map (λ rest. rest.now) result.1) }
{
    match split_at_space(text) {
        Some((word, rest)) => (word, Some(rest)),
        None => (text, None),
    }
}

/// The id of a word that is a UUID.
pub fn read_id(word: &[u8]) -> Option<Uuid>
    requires { Lacks space word.now }
    ensures { Finds (IsIdWord word.now) result }
{
    match Uuid::try_parse_ascii(word) {
        Ok(id) => Some(id),
        Err(_) => None,
    }
}

/// The IRI of a word that spells one.
pub fn read_iri_word(alloc: Global, word: &[u8]) -> Result<Option<Iri>, AllocError>
    requires { Lacks space word.now }
    ensures { IfOk result (Finds (IsIriWord word.now)) }
{
    let Ok(text) = str::from_utf8(word) else {
        return Ok(None);
    };
    read_iri(alloc, text)
}

/// The first word is `add`, `remove`, `update` or `query`.
pub fn asks_for_clone(line: &[u8]) -> bool
    ensures { IsTrue result ↔ AsksForClone line.now }
{
    has_first_word(line, b"add")
        || has_first_word(line, b"remove")
        || has_first_word(line, b"update")
        || has_first_word(line, b"query")
}

/// The first word is this one.
fn has_first_word(line: &[u8], word: &[u8]) -> bool
    ensures { IsTrue result ↔ HasFirstWord word.now line.now }
{
    let Some(rest) = behind(line, word) else {
        return false;
    };
    if rest.is_empty() {
        return true;
    }
    rest[0] == b' '
}
