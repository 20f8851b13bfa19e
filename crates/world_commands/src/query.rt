//! The command `query`.
ghost use Rattle.std.specs.Prelude.{◌≡◌, ◌<◌, vec_len, None, IfOk, IfErr};
ghost use Rattle.jrql_ast.specs.InForm.{IsQueryInForm};
ghost use Rattle.mld_ops.specs.Present.{present};
ghost use Rattle.crash_laws.specs.schedule_model.Querying.{AnswersQuery};
ghost use Rattle.crash_laws.specs.schedule_model.declared.Command.TheVariants as commands;
ghost use Rattle.schedule_replies.specs.Replies.{reply_value};
ghost use Rattle.world_commands.specs.WorldParts.{HasStepLeft, HasFaultsOfParts, Does};

use crate::faults::WorldFault;
use crate::parts::Parts;
use crate::states::live_at;
use crash_laws::clone_core::MldClone;
use crash_laws::schedule_model::jrql_patterns::ReadQuery;
use mld_io::{Banks, CrashBanks};
use schedule_replies::{Reply, reply_to_query};
use std::alloc::Global;
use std::thread::Threads;

/// The answer of clone `number` to a query.
pub fn query<'a, R: Threads + Sync, B: CrashBanks>(
    rt: &R,
    alloc: Global,
    parts: &'a Parts<B>,
    number: u8,
    read: &ReadQuery,
) -> Result<Reply<'a>, WorldFault>
    requires left { HasStepLeft B.log parts.now }
    requires number { number < vec_len parts.now.clones }
    requires form { IsQueryInForm read.now.query }
    ensures done { IfOk result (Does B.log parts.now (commands.Query number read.now) parts.now) }
    ensures faults { HasFaultsOfParts B.meter number parts.now parts.now result }
    ensures cause { IfErr result (λ fault. fault ≡ WorldFault.NoMemory) }
{
    match live_at(parts.clones.as_slice(), number) {
        Ok(clone) => answer_live(rt, alloc, clone, read),
        Err(missing) => Ok(missing),
    }
}

/// The answer of a live clone, where want of memory is a fault of the world.
fn answer_live<R: Threads + Sync, B: CrashBanks>(
    rt: &R,
    alloc: Global,
    clone: &MldClone<B>,
    read: &ReadQuery,
) -> Result<Reply<'static>, WorldFault>
    requires opened { clone.now.closed ≡ None }
    requires form { IsQueryInForm read.now.query }
    ensures answers { IfOk result (λ reply. AnswersQuery (present clone.now.local.pairs) read.now (reply_value reply)) }
    ensures cause { IfErr result (λ fault. fault ≡ WorldFault.NoMemory) }
{
    Ok(reply_to_query(rt, alloc, clone, read)?)
}
