//! The command `show`.
ghost use Rattle.std.specs.Prelude.{◌<◌, vec_len};
ghost use Rattle.crash_laws.specs.schedule_model.declared.Command.TheVariants as commands;
ghost use Rattle.world_commands.specs.WorldParts.{Does};

use crate::parts::Parts;
use crate::states::live_at;
use mld_io::{Banks, CrashBanks};
use schedule_replies::Reply;

/// The pairs of clone `number`.
pub fn show<'a, B: CrashBanks>(parts: &'a Parts<B>, number: u8) -> Reply<'a>
    requires { number < vec_len parts.now.clones }
    ensures { Does B.log parts.now (commands.Show number) parts.now result }
{
    match live_at(parts.clones.as_slice(), number) {
        Ok(clone) => Reply::Shows(clone.pairs()),
        Err(missing) => missing,
    }
}
