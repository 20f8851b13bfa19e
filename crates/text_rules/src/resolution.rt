//! The resolution of references against a base (RFC 3986, section 5.2).
ghost use Rattle.std.specs.Prelude.{◌≡◌, IfOk, IfErr, IsTrue, not};
ghost use Rattle.std.specs.String.{string_bytes};
ghost use Rattle.text_rules.specs.Iri.{is_absolute};
ghost use Rattle.text_rules.specs.References.{split};
ghost use Rattle.text_rules.specs.Resolution.{is_rooted, directory, merged, transformed, resolved, folder_of};
ghost use Rattle.text_rules.specs.Values.{parts_value};
ghost use Rattle.text_rules.specs.declared.faults.IriFault.TheVariants as iri_faults;

use crate::absolute::is_absolute;
use crate::dots::remove_dot_segments;
use crate::faults::IriFault;
use crate::references::{IriParts, recomposed, split};
use crate::texts::Text;
use std::alloc::{AllocError, Global};

/// Whether a path begins with a slash.
fn is_rooted(path: &str) -> bool
    ensures { result ≡ is_rooted path.now }
{
    path.starts_with('/')
}

/// A path up to its last slash, with it.
fn directory(path: &str) -> &str
    ensures { result.now ≡ directory path.now }
{
    match path.rfind('/') {
        Some(place) => &path[..place + 1],
        None => "",
    }
}

/// A path in place of the last segment of the base's (RFC 3986, section 5.2.3).
fn merged(alloc: Global, base: &IriParts<'_>, path: &str) -> Result<String, AllocError>
    ensures { IfOk result (λ text. string_bytes text ≡ merged (parts_value base.now) path.now) }
{
    let front = if base.authority.is_some() && base.path.is_empty() {
        "/"
    } else {
        directory(base.path)
    };
    let mut text = String::from_str(alloc, front)?;
    text.push_str(path)?;
    Ok(text)
}

/// The path of the target (RFC 3986, section 5.2.2).
#[tactic(auto, unfolding(crate::specs::Resolution::transformed))]
fn target_path(
    alloc: Global,
    base: &IriParts<'_>,
    reference: &IriParts<'_>,
) -> Result<String, AllocError>
    ensures { IfOk result
        (λ text. string_bytes text ≡ (transformed (parts_value base.now) (parts_value reference.now)).path) }
{
    if reference.scheme.is_some() || reference.authority.is_some() || is_rooted(reference.path) {
        return remove_dot_segments(alloc, reference.path);
    }
    if reference.path.is_empty() {
        return String::from_str(alloc, base.path);
    }
    let path = merged(alloc, base, reference.path)?;
    remove_dot_segments(alloc, path.as_str())
}

/// The target's parts, of which the path is given (RFC 3986, section 5.2.2).
#[tactic(auto, unfolding(crate::specs::Resolution::transformed))]
fn target<'a>(base: &IriParts<'a>, reference: &IriParts<'a>, path: &'a str) -> IriParts<'a>
    ensures { parts_value result
        ≡ record (transformed (parts_value base.now) (parts_value reference.now)) { path = path.now } }
{
    if reference.scheme.is_some() {
        return IriParts { path, ..*reference };
    }
    if reference.authority.is_some() {
        return IriParts {
            scheme: base.scheme,
            path,
            ..*reference
        };
    }
    let query = if reference.path.is_empty() {
        reference.query.or(base.query)
    } else {
        reference.query
    };
    IriParts {
        path,
        query,
        fragment: reference.fragment,
        ..*base
    }
}

/// The text of the target.
fn target_text(alloc: Global, base: &str, reference: &str) -> Result<String, AllocError>
    ensures { IfOk result (λ text. string_bytes text ≡ resolved base.now reference.now) }
{
    let base = split(base);
    let reference = split(reference);
    let path = target_path(alloc, &base, &reference)?;
    recomposed(alloc, &target(&base, &reference, path.as_str()))
}

/// The target of a reference against a base, which is an absolute IRI (RFC 3986, section 5.2, strict).
///
/// `NotIri` says that the target is no absolute IRI of at most 2,048 bytes, and `NoMemory` that memory ran out.
pub fn resolve(alloc: Global, base: &str, reference: &str) -> Result<Text, IriFault>
    requires { IsTrue (is_absolute base.now) }
    ensures ok { IfOk result (λ iri. iri ≡ resolved base.now reference.now) }
    ensures absolute { IfOk result (λ iri. IsTrue (is_absolute iri)) }
    ensures not_iri { IfErr result (λ fault. fault ≡ iri_faults.NotIri
        → IsTrue (not (is_absolute (resolved base.now reference.now)))) }
{
    let text = target_text(alloc, base, reference)?;
    if !is_absolute(text.as_str()) {
        return Err(IriFault::NotIri);
    }
    Ok(Text::from_string(text)?)
}

/// The folder of a base: the text that `.` stands for against it. A plain text stands for the folder with that text behind it.
pub fn folder_of(alloc: Global, base: &str) -> Result<Text, AllocError>
    ensures { IfOk result (λ folder. folder ≡ folder_of base.now) }
{
    Text::from_string(target_text(alloc, base, ".")?)
}
