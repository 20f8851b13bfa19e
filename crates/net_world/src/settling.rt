//! What live clones say of their banks between two commands.
ghost use Rattle.std.specs.Prelude.{◌≡◌, ◌<◌, ◌≤◌, ℕ, length};
ghost use Rattle.schedule_text.specs.schedule_model.Step.{number_of_clone};
ghost use Rattle.net_world.specs.SettledWorlds.{LiveKept};

use crate::crash::number_of as number_of_task;
use mld_io::{Banks, CrashBanks};
use mld_model::CloneState;
use schedule_text::schedule_model::Command;
use world_commands::RunningClone;

/// The number of the clone that a command is done at.
pub fn number_of(command: &Command) -> u8
    ensures { result ≡ number_of_clone command.now }
{
    match command {
        Command::Add(number, _) => *number,
        Command::Remove(number, _) => *number,
        Command::Update(number, _) => *number,
        Command::Deliver(_, number) => *number,
        Command::Show(number) => *number,
        Command::Query(number, _) => *number,
        Command::Compare(number, _) => *number,
        Command::Join(number) => *number,
        Command::Ask(number) => *number,
        Command::Compact(number) => *number,
        Command::Truncate(number, _) => *number,
        Command::Stop(number) => *number,
        Command::Open(number) => *number,
        Command::Crash(_, _, task) => number_of_task(task),
    }
}

/// The banks of clone `number` keep it, if it is live and open: it is asked whether it is, and no device is called.
pub fn ask_live<B: CrashBanks>(clones: &[RunningClone<B>], number: u8)
    requires { number < length clones.now }
    ensures { LiveKept B.log number clones.now }
{
    match &clones[usize::from(number)] {
        CloneState::Absent(_) => {}
        CloneState::Asking(_) => {}
        CloneState::Down(_) => {}
        CloneState::Live(clone) => {
            let _why = clone.is_closed();
        }
    }
}

/// So it is of so many clones.
pub fn ask_first<B: CrashBanks>(clones: &[RunningClone<B>], count: u8)
    requires { count ≤ length clones.now }
    ensures { (number : ℕ) → number < count → LiveKept B.log number clones.now }
{
    for number in 0..count {
        ask_live(clones, number);
    }
}
