//! Where a subject begins.
ghost use Rattle.std.specs.Prelude.{◌≡◌, Ok, IfOk, IfErr};
ghost use Rattle.serde_json.specs.View.{members_view};
ghost use Rattle.jsonld_context.specs.Telling.{IsToldBy};
ghost use Rattle.jsonld_subjects.specs.SubjectReading.{begun, entered};

use crate::found::{Found, meet_subject};
use crate::open_subjects::OpenSubject;
use crate::places::Place;
use jsonld_context::JsonFault;
use jsonld_values::{has_member, unsupported};
use serde_json::{Map, Value};
use std::alloc::Global;

/// A subject with these members, of which nothing was read yet.
fn begun(
    alloc: Global,
    place: Place,
    members: &Map<String, Value>,
    found: Found,
) -> Result<OpenSubject, JsonFault>
    ensures ok { IfOk result (λ subject. begun place (members_view members.now.entries) found ≡ Ok subject) }
    ensures err { IfErr result (IsToldBy (begun place (members_view members.now.entries) found)) }
{
    if has_member(members, "@id") {
        return Ok(OpenSubject::begin(alloc, found, None));
    }
    let (names, triples) = found.into_parts();
    let mut names = names;
    let slot = meet_subject(alloc, place, &mut names)?;
    Ok(OpenSubject::begin(alloc, Found::new(names, triples), Some(slot)))
}

/// The same, which has no context of its own.
pub(crate) fn entered(
    alloc: Global,
    place: Place,
    members: &Map<String, Value>,
    found: Found,
) -> Result<OpenSubject, JsonFault>
    ensures ok { IfOk result (λ subject. entered place (members_view members.now.entries) found ≡ Ok subject) }
    ensures err { IfErr result (IsToldBy (entered place (members_view members.now.entries) found)) }
{
    let subject = begun(alloc, place, members, found)?;
    if has_member(members, "@context") {
        return Err(unsupported(alloc, "@context"));
    }
    Ok(subject)
}
