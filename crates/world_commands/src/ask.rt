//! The command `ask`.
ghost use Rattle.std.specs.Prelude.{◌<◌, vec_len, IfOk};
ghost use Rattle.std.specs.Result.{result_err};
ghost use Rattle.crash_laws.specs.schedule_model.declared.Command.TheVariants as commands;
ghost use Rattle.world_commands.specs.WorldParts.{KeepsDomain, HasFaultsOfParts, Does};
ghost use Rattle.world_commands.specs.LeftBanks.{LeavesAt};
ghost use Rattle.world_commands.specs.Doings.{doing_nothing};

use crate::faults::WorldFault;
use crate::join::send_question;
use crate::parts::Parts;
use crate::states::state_reply;
use mld_io::{Banks, CrashBanks};
use mld_model::CloneState;
use schedule_replies::Reply;
use std::alloc::Global;

/// Clone `number`, which is live, asks whoever gets its message for what it lacks.
pub fn ask<B: CrashBanks>(
    alloc: Global,
    parts: &mut Parts<B>,
    number: u8,
) -> Result<Reply<'static>, WorldFault>
    requires { number < vec_len parts.old.clones }
    ensures keeps { KeepsDomain B.meter number parts.old parts.new }
    ensures done { IfOk result (Does B.log parts.old (commands.Ask number) parts.new) }
    ensures faults { HasFaultsOfParts B.meter number parts.old parts.new result }
    ensures left { LeavesAt B.log B.meter doing_nothing (result_err result)
        number parts.old.clones.items parts.new.clones.items }
{
    match &parts.clones[usize::from(number)] {
        CloneState::Live(clone) => {
            let want = clone.want(alloc)?;
            send_question(&mut parts.messages, want)
        }
        missing => Ok(state_reply(missing)),
    }
}
