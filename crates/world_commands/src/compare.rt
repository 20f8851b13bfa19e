//! The command `compare`.
ghost use Rattle.std.specs.Prelude.{◌<◌, vec_len};
ghost use Rattle.crash_laws.specs.schedule_model.declared.Command.TheVariants as commands;
ghost use Rattle.crash_laws.specs.schedule_model.WorldStep.{LocallyCompares};
ghost use Rattle.schedule_replies.specs.Replies.{reply_value};
ghost use Rattle.world_commands.specs.WorldParts.{Does};

use crate::parts::Parts;
use crate::states::live_at;
use crash_laws::clone_core::{Covering, MldClone};
use mld_io::{Banks, CrashBanks};
use schedule_replies::Reply;

/// How the dots compare that clones `number` and `other` know.
pub fn compare<'a, B: CrashBanks>(parts: &'a Parts<B>, number: u8, other: u8) -> Reply<'a>
    requires first { number < vec_len parts.now.clones }
    requires second { other < vec_len parts.now.clones }
    ensures { Does B.log parts.now (commands.Compare number other) parts.now result }
{
    let first = match live_at(parts.clones.as_slice(), number) {
        Ok(first) => first,
        Err(missing) => return missing,
    };
    match live_at(parts.clones.as_slice(), other) {
        Ok(second) => compared(first, second),
        Err(missing) => missing,
    }
}

/// How the dots compare that two live clones know.
fn compared<B: CrashBanks>(first: &MldClone<B>, second: &MldClone<B>) -> Reply<'static>
    ensures { LocallyCompares first.now.local second.now.local (reply_value result) }
{
    match first.compare(second) {
        Covering::Same => Reply::Same,
        Covering::Less => Reply::Less,
        Covering::More => Reply::More,
        Covering::Apart => Reply::Apart,
    }
}
