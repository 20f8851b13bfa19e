//! Clones stop: the command `stop`, and the end of a world.
ghost use Rattle.std.specs.Prelude.{◌≡◌, ◌+◌, ◌<◌, ◌≤◌, ◌++◌, None, map, vec_len, vec_capacity};
ghost use Rattle.crash_laws.specs.clone_core.Banked.{BankedClone};
ghost use Rattle.mld_model.specs.declared.CloneState.TheVariants as kinds;
ghost use Rattle.crash_laws.specs.schedule_model.declared.Command.TheVariants as commands;
ghost use Rattle.world_commands.specs.States.{HasState};
ghost use Rattle.world_commands.specs.StoppedClones.{StopsOnBanks};
ghost use Rattle.world_commands.specs.WorldBanks.{banks_of_state, HadNoFaults};
ghost use Rattle.world_commands.specs.WorldEnds.{KeepsState, KeepAll};
ghost use Rattle.world_commands.specs.WorldParts.{KeepsDomain, Does};
ghost use Rattle.world_commands.specs.LeftBanks.{LeavesAt};
ghost use Rattle.world_commands.specs.Doings.{doing_nothing};

use crate::parts::Parts;
use crate::states::{RunningClone, put_state, state_reply, take_state};
use mld_io::{Banks, CrashBanks};
use mld_model::CloneState;
use schedule_replies::Reply;

/// Clone `number` stops: what its banks keep stays, and what it holds back is forgotten.
pub fn stop<B: CrashBanks>(parts: &mut Parts<B>, number: u8) -> Reply<'static>
    requires { number < vec_len parts.old.clones }
    ensures keeps { KeepsDomain B.meter number parts.old parts.new }
    ensures quiet { HadNoFaults B.meter
        (map banks_of_state parts.old.clones.items) (map banks_of_state parts.new.clones.items) }
    ensures done { Does B.log parts.old (commands.Stop number) parts.new result }
    ensures left { LeavesAt B.log B.meter doing_nothing None
        number parts.old.clones.items parts.new.clones.items }
{
    match &parts.clones[usize::from(number)] {
        CloneState::Live(_) => {
            stop_live(&mut parts.clones, number);
            Reply::Stopped
        }
        missing => state_reply(missing),
    }
}

/// The live clone `number` stops, and its banks are kept.
fn stop_live<B: CrashBanks>(clones: &mut Vec<RunningClone<B>>, number: u8)
    requires { (clone : BankedClone B) × HasState clones.old.items number (kinds.Live clone) }
    ensures { StopsOnBanks B.log clones.old.items clones.new.items number }
{
    let CloneState::Live(clone) = take_state(clones, number) else {
        unreachable!()
    };
    put_state(clones, number, CloneState::Down(clone.stop()));
}

/// Adds the banks of clones, by number, to a list that has room for them: live clones stop. It takes no memory.
pub fn stop_all<B: CrashBanks>(clones: Vec<RunningClone<B>>, banks: &mut Vec<B>)
    requires { vec_len banks.old + vec_len clones ≤ vec_capacity banks.old }
    ensures banks { banks.new.items ≡ banks.old.items ++ map banks_of_state clones.items }
    ensures kept { KeepAll B.log clones.items }
{
    for clone in clones {
        banks.push_reserved(banks_of_state(clone));
    }
}

/// The banks of a clone, which stops where it is live. It takes no memory.
pub fn banks_of_state<B: CrashBanks>(clone: RunningClone<B>) -> B
    ensures banks { result ≡ banks_of_state clone }
    ensures kept { KeepsState B.log clone }
{
    match clone {
        CloneState::Absent(blank) => blank.into_banks(),
        CloneState::Asking(asker) => asker.stop(),
        CloneState::Down(banks) => banks,
        CloneState::Live(clone) => clone.stop(),
    }
}
