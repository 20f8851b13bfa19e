//! The text of an answer.
ghost use Rattle.std.specs.Prelude.{◌≡◌, ◌++◌, ℕ, List, IfOk, OnOk, OnErr};
ghost use Rattle.jrql_ast.specs.InForm.{IsQueryInForm, IsAnswerTo};
ghost use Rattle.jrql_reply.specs.AnswerText.{SpellsAnswer};
ghost use Rattle.jrql_reply.specs.AnswerTokens.{WritesAnswer};

use crate::rows::write_rows;
use crate::subjects::write_subjects;
use jrql_ast::{Answer, Query, What};
use jrql_patterns::ReadQuery;
use json::Writer;
use jsonld_context::Context;
use std::alloc::{AllocError, Global};
use std::mem;

/// Adds the answer to a query to an output, as one line of compact JSON without its LF: an array with an object for each row, or for each
/// subject, whose keys are in byte order (JSON-LD 1.1 API, section 8.5). Where memory is wanting, the output is as it was.
pub fn reply(out: &mut Vec<u8>, answer: &Answer, read: &ReadQuery) -> Result<(), AllocError>
    requires form { IsQueryInForm read.now.query }
    requires kind { IsAnswerTo read.now.query.what answer.now }
    ensures ok { OnOk result ((text : List ℕ) × SpellsAnswer read.now.context read.now.query answer.now text
        × (out.new.items ≡ out.old.items ++ text)) }
    ensures err { OnErr result (out.new.items ≡ out.old.items) }
{
    let alloc = *out.allocator();
    let before = out.len();
    let mut writer = Writer::new(mem::replace(out, Vec::new(alloc)));
    match write_answer(alloc, &mut writer, answer, &read.query, &read.context) {
        Ok(()) => {
            *out = writer.into_inner();
            Ok(())
        }
        Err(fault) => {
            *out = writer.into_inner();
            out.truncate(before);
            Err(fault)
        }
    }
}

/// The text of the answer to a query, without its LF.
pub fn spell_answer(alloc: Global, answer: &Answer, read: &ReadQuery) -> Result<Vec<u8>, AllocError>
    requires form { IsQueryInForm read.now.query }
    requires kind { IsAnswerTo read.now.query.what answer.now }
    ensures { IfOk result (λ text. SpellsAnswer read.now.context read.now.query answer.now text.items) }
{
    let mut text = Vec::new(alloc);
    reply(&mut text, answer, read)?;
    Ok(text)
}

/// Writes the answer.
fn write_answer(
    alloc: Global,
    out: &mut Writer,
    answer: &Answer,
    query: &Query,
    context: &Context,
) -> Result<(), AllocError>
    requires { IsAnswerTo query.now.what answer.now }
    ensures ok { OnOk result (WritesAnswer context.now query.now answer.now out.old out.new) }
    ensures before { out.new.before ≡ out.old.before }
{
    match answer {
        Answer::Rows(rows) => match &query.what {
            What::Select(select) => write_rows(
                alloc,
                out,
                rows.as_slice(),
                query.group.names.as_slice(),
                select.vars.as_slice(),
                context,
            ),
            What::Describe(_) => unreachable!(),
        },
        Answer::Subjects(subjects) => write_subjects(alloc, out, subjects.as_slice(), context),
    }
}
