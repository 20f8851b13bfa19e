//! The command `open`.
ghost use Rattle.std.specs.Prelude.{◌<◌, vec_len, map, IsTrue, IfOk};
ghost use Rattle.std.specs.Result.{result_err};
ghost use Rattle.text_rules.specs.Domain.{is_domain};
ghost use Rattle.mld_model.specs.Local.{IsNamed};
ghost use Rattle.crash_laws.specs.schedule_model.declared.Command.TheVariants as commands;
ghost use Rattle.world_commands.specs.OpeningBanks.{IsWholeAt, IsUndamaged, IsOpenedAs, OpensBanks};
ghost use Rattle.world_commands.specs.WorldBanks.{banks_of_state, HasFaultsFor};
ghost use Rattle.world_commands.specs.OneCall.{UsesBanksOf};
ghost use Rattle.world_commands.specs.WorldParts.{HasStepLeft, KeepsDomain, HasFaultsOfParts, Does};
ghost use Rattle.world_commands.specs.LeftBanks.{LeavesAt, IsSilent};
ghost use Rattle.world_commands.specs.Doings.{doing_open};

use crate::faults::WorldFault;
use crate::parts::Parts;
use crate::states::{
    Named, RunningClone, copy_named, new_asker, put_state, state_reply, take_state,
};
use crash_laws::clone_core::{MldClone, Mounted};
use crash_laws::journal_store::MountFault;
use mld_io::{Banks, CrashBanks};
use mld_model::CloneState;
use schedule_replies::Reply;
use std::alloc::Global;
use std::thread::Threads;

/// Clone `number`, which is down, runs again with what its banks keep; where they keep nothing, it asks for a leaf.
pub fn open<R: Threads + Sync, B: CrashBanks>(
    rt: &R,
    alloc: Global,
    parts: &mut Parts<B>,
    number: u8,
) -> Result<Reply<'static>, WorldFault>
    requires left { HasStepLeft B.log parts.old }
    requires named { IsNamed parts.old.domain parts.old.properties.items }
    requires number { number < vec_len parts.old.clones }
    ensures keeps { KeepsDomain B.meter number parts.old parts.new }
    ensures done { IfOk result (Does B.log parts.old (commands.Open number) parts.new) }
    ensures faults { HasFaultsOfParts B.meter number parts.old parts.new result }
    ensures left { LeavesAt B.log B.meter doing_open (result_err result)
        number parts.old.clones.items parts.new.clones.items }
    ensures unsent { IsSilent result parts.old.messages.items parts.new.messages.items }
{
    match &parts.clones[usize::from(number)] {
        CloneState::Down(_) => {
            let named = copy_named(alloc, &parts.domain, parts.properties.as_slice())?;
            open_banks(rt, alloc, &mut parts.clones, number, named)
        }
        standing => Ok(state_reply(standing)),
    }
}

/// The banks of clone `number`, which is down, are mounted: they aren't damaged.
fn open_banks<R: Threads + Sync, B: CrashBanks>(
    rt: &R,
    alloc: Global,
    clones: &mut Vec<RunningClone<B>>,
    number: u8,
    named: Named,
) -> Result<Reply<'static>, WorldFault>
    requires name { IsTrue (is_domain named.domain) }
    requires whole { IsWholeAt B.log clones.old.items number }
    ensures ok { IfOk result
        (OpensBanks B.log named.domain named.properties.items clones.old.items clones.new.items number) }
    ensures banks { UsesBanksOf B.meter number
        (map banks_of_state clones.old.items) (map banks_of_state clones.new.items) }
    ensures faults { HasFaultsFor number B.meter
        (map banks_of_state clones.old.items) (map banks_of_state clones.new.items) result }
    ensures left { LeavesAt B.log B.meter doing_open (result_err result) number clones.old.items clones.new.items }
{
    let CloneState::Down(banks) = take_state(clones, number) else {
        unreachable!()
    };
    let (state, reply) = opened_as(named, number, MldClone::mount(rt, alloc, banks));
    put_state(clones, number, state);
    reply
}

/// What a clone is now whose banks were mounted, and its answer.
fn opened_as<B: CrashBanks>(
    named: Named,
    number: u8,
    mounted: Mounted<B>,
) -> (RunningClone<B>, Result<Reply<'static>, WorldFault>)
    requires name { IsTrue (is_domain named.domain) }
    requires whole { IsUndamaged mounted }
    ensures { IsOpenedAs named.domain named.properties.items number mounted result }
{
    match mounted {
        Mounted::Live(clone) => (CloneState::Live(clone), Ok(Reply::Opened)),
        Mounted::Empty(blank) => {
            let asker = new_asker(blank, named, number);
            (CloneState::Asking(asker), Ok(Reply::Asking))
        }
        Mounted::Refused(MountFault::Device, banks) => (
            CloneState::Down(banks),
            Err(WorldFault::Device { clone: number }),
        ),
        Mounted::Refused(MountFault::NoMemory, banks) => {
            (CloneState::Down(banks), Err(WorldFault::NoMemory))
        }
        Mounted::Refused(MountFault::Damaged { .. }, _) => unreachable!(),
    }
}
