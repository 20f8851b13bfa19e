//! Commands: each has a function of its name in a file of its own, which gives its reply.
ghost use Rattle.std.specs.Prelude.{◌≡◌, map, vec_len, IfErr, OnOk, OnErr};
ghost use Rattle.std.specs.Result.{result_err};
ghost use Rattle.mld_model.specs.Local.{IsNamed};
ghost use Rattle.mld_model.specs.World.{clone_count};
ghost use Rattle.schedule_text.specs.schedule_model.Step.{HasCloneNumbers, IsCommandInForm, number_of_clone};
ghost use Rattle.net_world.specs.Commands.{Answered, TellsReply, FailsToTell, TellsCrash};
ghost use Rattle.net_world.specs.CrashedWorlds.{AreUnarmed};
ghost use Rattle.net_world.specs.LeftBehind.{LeavesBanksOf};
ghost use Rattle.net_world.specs.DeviceUses.{UsesDeviceAfter};
ghost use Rattle.schedule_text.specs.schedule_model.Tasks.{command_done};
ghost use Rattle.world_commands.specs.WorldBanks.{banks_of_state};
ghost use Rattle.world_commands.specs.WorldParts.{HasStepLeft, KeepsDomain, HasFaultsOfParts};

use crate::crash::{Crashed, crash};
use mld_io::{Banks, CrashBanks};
use schedule_text::schedule_model::Command;
use std::alloc::Global;
use std::thread::Threads;
use world_commands::ask::ask;
use world_commands::changes::{add, remove, update};
use world_commands::compare::compare;
use world_commands::deliver::deliver;
use world_commands::join::join;
use world_commands::keeping::{Keeping, keep};
use world_commands::opening::open;
use world_commands::query::query;
use world_commands::schedule_replies::{Reply, push_reply, push_then_crashed};
use world_commands::show::show;
use world_commands::stopping::stop;
use world_commands::{Parts, WorldFault};

/// Does a command, and adds the text of its reply to the output, which is as it was where the command is refused.
pub fn answer<R: Threads + Sync, B: CrashBanks>(
    rt: &R,
    alloc: Global,
    parts: &mut Parts<B>,
    command: &Command,
    out: &mut Vec<u8>,
) -> Result<(), WorldFault>
    requires left { HasStepLeft B.log parts.old }
    requires count { vec_len parts.old.clones ≡ clone_count }
    requires named { IsNamed parts.old.domain parts.old.properties.items }
    requires numbers { HasCloneNumbers command.now }
    requires form { IsCommandInForm command.now }
    requires unarmed { AreUnarmed B.meter (map banks_of_state parts.old.clones.items) }
    ensures keeps { KeepsDomain B.meter (number_of_clone command.now) parts.old parts.new }
    ensures left { LeavesBanksOf B.log parts.old (command_done command.now) (number_of_clone command.now) parts.new }
    ensures done { OnOk result (Answered B.log parts.old command.now parts.new out.old.items out.new.items) }
    ensures faults { HasFaultsOfParts B.meter (number_of_clone command.now) parts.old parts.new result }
    ensures device { UsesDeviceAfter B.log B.meter parts.old command.now parts.new (result_err result) }
    ensures out { OnErr result (out.new.items ≡ out.old.items) }
{
    match command {
        Command::Add(number, triple) => tell(out, add(alloc, parts, *number, triple)),
        Command::Remove(number, triple) => tell(out, remove(alloc, parts, *number, triple)),
        Command::Update(number, plan) => tell(out, update(alloc, parts, *number, plan)),
        Command::Deliver(message, number) => {
            tell(out, deliver(rt, alloc, parts, *message, *number))
        }
        Command::Join(number) => tell(out, join(alloc, parts, *number)),
        Command::Ask(number) => tell(out, ask(alloc, parts, *number)),
        Command::Compact(number) => { tell(out, keep(alloc, parts, *number, Keeping::Compacted)) }
        Command::Truncate(number, count) => {
            let last = Keeping::Last(*count);
            tell(out, keep(alloc, parts, *number, last))
        }
        Command::Stop(number) => tell(out, Ok(stop(parts, *number))),
        Command::Open(number) => tell(out, open(rt, alloc, parts, *number)),
        Command::Show(number) => tell(out, Ok(show(parts, *number))),
        Command::Query(number, read) => tell(out, query(rt, alloc, parts, *number, read)),
        Command::Compare(number, other) => tell(out, Ok(compare(parts, *number, *other))),
        Command::Crash(call, leave, task) => {
            tell_crash(out, crash(rt, alloc, parts, *call, *leave, task))
        }
    }
}

/// Adds the text of a reply that was found to an output, which is as it was where there is none.
fn tell(out: &mut Vec<u8>, reply: Result<Reply<'_>, WorldFault>) -> Result<(), WorldFault>
    ensures told { OnOk result (TellsReply reply.entry out.old.items out.new.items) }
    ensures cause { IfErr result (FailsToTell reply.entry) }
    ensures out { OnErr result (out.new.items ≡ out.old.items) }
{
    match reply {
        Ok(reply) => Ok(push_reply(out, &reply)?),
        Err(fault) => Err(fault),
    }
}

/// Adds the text of the end of a crash line to an output, which is as it was where there is none.
fn tell_crash(out: &mut Vec<u8>, ended: Result<Crashed, WorldFault>) -> Result<(), WorldFault>
    ensures told { OnOk result (TellsCrash ended out.old.items out.new.items) }
    ensures cause { IfErr result (FailsToTell ended) }
    ensures out { OnErr result (out.new.items ≡ out.old.items) }
{
    match ended {
        Ok(Crashed::Unarmed(reply)) => Ok(push_reply(out, &reply)?),
        Ok(Crashed::Caught) => Ok(push_reply(out, &Reply::Crashed)?),
        Ok(Crashed::Behind(reply)) => Ok(push_then_crashed(out, &reply)?),
        Err(fault) => Err(fault),
    }
}
