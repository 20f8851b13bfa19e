//! Compact IRIs (JSON-LD 1.1, section 4.1.5).
ghost use Rattle.std.specs.Prelude.{◌≡◌, ◌++◌, ◌&&◌, not, true, false, MatchOption, IfOk};
ghost use Rattle.std.specs.String.{string_bytes};
ghost use Rattle.text_rules.specs.References.{begins_authority};
ghost use Rattle.text_rules.specs.TextForms.{has_colon, before_colon, behind_colon};

use std::alloc::{AllocError, Global};
use text_rules::{begins_authority, cut_colon};

/// The parts of a text that may be a compact IRI: what stands before its first colon, and what behind it.
pub(crate) fn cut_prefix(text: &str) -> Option<(&str, &str)>
    ensures { MatchOption result ((has_colon text.now && not (begins_authority (behind_colon text.now))) ≡ false)
        (λ parts. ((has_colon text.now && not (begins_authority (behind_colon text.now))) ≡ true)
        × (parts.0.now ≡ before_colon text.now) × (parts.1.now ≡ behind_colon text.now)) }
{
    let (front, rest) = cut_colon(text)?;
    if begins_authority(rest) {
        None
    } else {
        Some((front, rest))
    }
}

/// Two texts, one behind the other.
pub(crate) fn joined(alloc: Global, front: &str, rest: &str) -> Result<String, AllocError>
    ensures { IfOk result (λ text. string_bytes text ≡ front.now ++ rest.now) }
{
    let mut text = String::from_str(alloc, front)?;
    text.push_str(rest)?;
    Ok(text)
}
