//! Queries: what a clone answers over the triples that are present for it.
use crate::clones::MldClone;
use clone_parts::QueryFault;
use jrql_ast::{Answer, Query, What};
use jrql_eval::{describe, select};
use mld_io::Banks;
use std::alloc::Global;
use std::thread::Threads;

impl<B: Banks> MldClone<B> {
    ghost use Rattle.std.specs.Prelude.{◌≡◌, ◌↔◌, ◌<◌, ◌≤◌, Some, length, IfOk, IsErrOf};
    ghost use Rattle.journal_store.specs.declared.faults.Why.{Why};
    ghost use Rattle.jrql_ast.specs.InForm.{IsQueryInForm, IsAnswerTo};
    ghost use Rattle.jrql_ast.specs.QueryAnswers.{solution_limit, found, IsAnswer};
    ghost use Rattle.mld_ops.specs.Present.{present};

    /// The answer to a query over the triples that are present (SPARQL 1.1 Query Language, section 16): rows for a select, subjects for a
    /// describe. Nothing changes, and no device is called.
    ///
    /// # Errors
    ///
    /// In this order: `Closed` where an earlier call closed the clone; `TooMany` where the query's group has more than 1,048,576 solutions,
    /// whatever is asked of them; and `NoMemory`.
    pub fn query<R: Threads + Sync>(
        &self,
        _rt: &R,
        alloc: Global,
        query: &Query,
    ) -> Result<Answer, QueryFault>
        requires { IsQueryInForm query.now }
        ensures answer { IfOk result (IsAnswer (present self.now.local.pairs) query.now) }
        ensures kind { IfOk result (IsAnswerTo query.now.what) }
        ensures few { IfOk result (λ answer.
            length (found (present self.now.local.pairs) query.now.group) ≤ solution_limit) }
        ensures closed { (why : Why) → IsErrOf result (QueryFault.Closed why) ↔ (self.now.closed ≡ Some why) }
        ensures too_many { IsErrOf result QueryFault.TooMany
            → solution_limit < length (found (present self.now.local.pairs) query.now.group) }
    {
        if let Some(why) = self.is_closed() {
            return Err(QueryFault::Closed { why });
        }
        match &query.what {
            What::Select(_) => Ok(select(alloc, self.pairs(), query)?),
            What::Describe(_) => Ok(describe(alloc, self.pairs(), query)?),
        }
    }
}
