//! References as their parts (RFC 3986, section 3 and appendix B), and parts as text (section 5.3).
ghost use Rattle.std.specs.Prelude.{◌≡◌, ◌++◌, true, false, drop, MatchOption, IfOk, OnOk};
ghost use Rattle.std.specs.List.{before_first, position_or_len};
ghost use Rattle.std.specs.Option.{option_copied};
ghost use Rattle.std.specs.Str.{IsCharBoundary};
ghost use Rattle.std.specs.String.{string_bytes};
ghost use Rattle.text_rules.specs.References.{behind, is_hash, is_question_mark, is_slash, scheme_of, behind_scheme, begins_authority, authority_of, path_of, split, delimited, recomposed};
ghost use Rattle.text_rules.specs.Values.{parts_value};

use crate::absolute::has_scheme;
use std::alloc::{AllocError, Global};

/// The parts of a reference (RFC 3986, section 3).
#[derive(Clone, Copy, Debug)]
pub(crate) struct IriParts<'a> {
    /// What stands before the colon, if it is a scheme.
    pub scheme: Option<&'a str>,
    /// What stands behind `//`.
    pub authority: Option<&'a str>,
    /// The path, which may be empty.
    pub path: &'a str,
    /// What stands behind `?`.
    pub query: Option<&'a str>,
    /// What stands behind `#`.
    pub fragment: Option<&'a str>,
}

/// What stands before the first `#`, and what behind it.
fn cut_fragment(text: &str) -> (&str, Option<&str>)
    ensures front { result.0.now ≡ before_first is_hash text.now }
    ensures fragment { option_copied result.1 ≡ behind is_hash text.now }
{
    match text.split_once('#') {
        Some((front, fragment)) => (front, Some(fragment)),
        None => (text, None),
    }
}

/// What stands before the first `?`, and what behind it.
fn cut_query(text: &str) -> (&str, Option<&str>)
    ensures front { result.0.now ≡ before_first is_question_mark text.now }
    ensures query { option_copied result.1 ≡ behind is_question_mark text.now }
{
    match text.split_once('?') {
        Some((front, query)) => (front, Some(query)),
        None => (text, None),
    }
}

/// The scheme, and what stands behind its colon.
fn cut_scheme(text: &str) -> (Option<&str>, &str)
    ensures scheme { option_copied result.0 ≡ scheme_of text.now }
    ensures rest { result.1.now ≡ behind_scheme text.now }
{
    let Some((scheme, rest)) = text.split_once(':') else {
        return (None, text);
    };
    if has_scheme(text.as_bytes()) {
        (Some(scheme), rest)
    } else {
        (None, text)
    }
}

/// What stands behind `//`.
fn behind_slashes(text: &str) -> Option<&str>
    ensures { MatchOption result (begins_authority text.now ≡ false)
        (λ rest. (begins_authority text.now ≡ true) × (rest.now ≡ drop 2 text.now)) }
{
    text.strip_prefix("//")
}

/// How many bytes an authority has, which a slash or the end follows.
fn authority_len(text: &str) -> usize
    ensures len { result ≡ position_or_len is_slash text.now }
    ensures boundary { IsCharBoundary text.now result }
{
    text.find('/').unwrap_or(text.len())
}

/// The authority, and the path.
fn cut_authority(text: &str) -> (Option<&str>, &str)
    ensures authority { option_copied result.0 ≡ authority_of text.now }
    ensures path { result.1.now ≡ path_of text.now }
{
    let Some(rest) = behind_slashes(text) else {
        return (None, text);
    };
    let (authority, path) = rest.split_at(authority_len(rest));
    (Some(authority), path)
}

/// The parts of a reference (RFC 3986, appendix B).
#[tactic(auto, unfolding(crate::specs::References::split))]
pub(crate) fn split(text: &str) -> IriParts<'_>
    ensures { parts_value result ≡ split text.now }
{
    let (rest, fragment) = cut_fragment(text);
    let (rest, query) = cut_query(rest);
    let (scheme, rest) = cut_scheme(rest);
    let (authority, path) = cut_authority(rest);
    IriParts {
        scheme,
        authority,
        path,
        query,
        fragment,
    }
}

/// Adds a part between its delimiters, if there is one.
fn add_part(
    text: &mut String,
    front: &str,
    part: Option<&str>,
    back: &str,
) -> Result<(), AllocError>
    ensures { OnOk result
        (string_bytes text.new ≡ string_bytes text.old ++ delimited front.now (option_copied part.entry) back.now) }
{
    let Some(part) = part else {
        return Ok(());
    };
    text.push_str(front)?;
    text.push_str(part)?;
    text.push_str(back)
}

/// Parts as text (RFC 3986, section 5.3).
#[tactic(auto, unfolding(crate::specs::References::recomposed))]
pub(crate) fn recomposed(alloc: Global, parts: &IriParts<'_>) -> Result<String, AllocError>
    ensures { IfOk result (λ text. string_bytes text ≡ recomposed (parts_value parts.now)) }
{
    let mut text = String::new(alloc);
    add_part(&mut text, "", parts.scheme, ":")?;
    add_part(&mut text, "//", parts.authority, "")?;
    text.push_str(parts.path)?;
    add_part(&mut text, "?", parts.query, "")?;
    add_part(&mut text, "#", parts.fragment, "")?;
    Ok(text)
}
