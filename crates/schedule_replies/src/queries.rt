//! The reply to a query.
ghost use Rattle.std.specs.Prelude.{◌≡◌, None, IfOk};
ghost use Rattle.jrql_ast.specs.InForm.{IsQueryInForm};
ghost use Rattle.mld_ops.specs.Present.{present};
ghost use Rattle.schedule_model.specs.Querying.{AnswersQuery};
ghost use Rattle.schedule_replies.specs.Replies.{reply_value};

use crate::replies::Reply;
use clone_core::{MldClone, QueryFault};
use jrql_patterns::ReadQuery;
use jrql_reply::spell_answer;
use mld_io::Banks;
use std::alloc::{AllocError, Global};
use std::thread::Threads;

/// The reply of an open clone to a query: the text of the answer over the triples that are present, or `too many`.
pub fn reply_to_query<R: Threads + Sync, B: Banks>(
    rt: &R,
    alloc: Global,
    clone: &MldClone<B>,
    read: &ReadQuery,
) -> Result<Reply<'static>, AllocError>
    requires opened { clone.now.closed ≡ None }
    requires form { IsQueryInForm read.now.query }
    ensures { IfOk result (λ reply. AnswersQuery (present clone.now.local.pairs) read.now (reply_value reply)) }
{
    match clone.query(rt, alloc, &read.query) {
        Ok(answer) => Ok(Reply::Tells(spell_answer(alloc, &answer, read)?)),
        Err(QueryFault::TooMany) => Ok(Reply::TooMany),
        Err(QueryFault::NoMemory) => Err(AllocError),
        Err(QueryFault::Closed { .. }) => unreachable!(),
    }
}
