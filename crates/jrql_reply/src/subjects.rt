//! Subjects as an array of objects.
ghost use Rattle.std.specs.Prelude.{◌≡◌, OnOk};
ghost use Rattle.jrql_reply.specs.AnswerTokens.{WritesSubjects};

use jrql_ast::Described;
use jrql_patterns::jsonld_subjects::{PropertyKeys, write_subject};
use json::Writer;
use jsonld_context::Context;
use std::alloc::{AllocError, Global};

/// Writes subjects as an array of objects, each with its id and its triples.
pub(crate) fn write_subjects(
    alloc: Global,
    out: &mut Writer,
    subjects: &[Described],
    context: &Context,
) -> Result<(), AllocError>
    ensures ok { OnOk result (WritesSubjects context.now subjects.now out.old out.new) }
    ensures before { out.new.before ≡ out.old.before }
{
    let mut keys = PropertyKeys::under(alloc, context);
    write_under(alloc, out, subjects, &mut keys)
}

/// The same, with the keys that are made for these subjects.
fn write_under(
    alloc: Global,
    out: &mut Writer,
    subjects: &[Described],
    keys: &mut PropertyKeys<'_>,
) -> Result<(), AllocError>
    ensures ok { OnOk result (WritesSubjects keys.old subjects.now out.old out.new) }
    ensures before { out.new.before ≡ out.old.before }
{
    out.begin_array()?;
    for subject in subjects {
        write_subject(alloc, out, subject, keys)?;
    }
    out.end_array()
}
