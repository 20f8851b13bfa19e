//! The command `join`.
ghost use Rattle.std.specs.Prelude.{◌≡◌, ◌<◌, vec_len, map, IsTrue, IfOk, IfErr};
ghost use Rattle.std.specs.Result.{result_err};
ghost use Rattle.text_rules.specs.Domain.{is_domain};
ghost use Rattle.mld_ops.specs.Messages.{message_value};
ghost use Rattle.mld_model.specs.Local.{IsNamed};
ghost use Rattle.mld_model.specs.declared.CloneState.TheVariants as kinds;
ghost use Rattle.crash_laws.specs.schedule_model.declared.Command.TheVariants as commands;
ghost use Rattle.world_commands.specs.Asking.{AsksFirst, SendsQuestion};
ghost use Rattle.world_commands.specs.States.{HasState};
ghost use Rattle.world_commands.specs.declared.faults.WorldFault.TheVariants.{NoMemory};
ghost use Rattle.world_commands.specs.WorldParts.{KeepsDomain, HasFaultsOfParts, Does};
ghost use Rattle.world_commands.specs.LeftBanks.{LeavesAt};
ghost use Rattle.world_commands.specs.Doings.{doing_nothing};

use crate::faults::WorldFault;
use crate::parts::{Parts, send};
use crate::states::{
    Named, RunningClone, copy_named, new_asker, put_state, state_reply, take_state,
};
use mld_io::{Banks, CrashBanks};
use mld_model::CloneState;
use mld_ops::Message;
use schedule_replies::Reply;
use std::alloc::Global;

/// Clone `number`, which has no leaf yet, asks for one; it may ask again.
pub fn join<B: CrashBanks>(
    alloc: Global,
    parts: &mut Parts<B>,
    number: u8,
) -> Result<Reply<'static>, WorldFault>
    requires named { IsNamed parts.old.domain parts.old.properties.items }
    requires number { number < vec_len parts.old.clones }
    ensures keeps { KeepsDomain B.meter number parts.old parts.new }
    ensures done { IfOk result (Does B.log parts.old (commands.Join number) parts.new) }
    ensures faults { HasFaultsOfParts B.meter number parts.old parts.new result }
    ensures left { LeavesAt B.log B.meter doing_nothing (result_err result)
        number parts.old.clones.items parts.new.clones.items }
{
    match &parts.clones[usize::from(number)] {
        CloneState::Asking(asker) => send_question(&mut parts.messages, asker.ask()),
        CloneState::Absent(_) => {
            let named = copy_named(alloc, &parts.domain, parts.properties.as_slice())?;
            let question = begin_to_ask(&mut parts.clones, named, number);
            send_question(&mut parts.messages, question)
        }
        settled => Ok(state_reply(settled)),
    }
}

/// Clone `number`, which is absent, becomes one who asks for a leaf, and gives its question.
fn begin_to_ask<B: CrashBanks>(
    clones: &mut Vec<RunningClone<B>>,
    named: Named,
    number: u8,
) -> Message
    requires name { IsTrue (is_domain named.domain) }
    requires absent { (blank : B) × HasState clones.old.items number (kinds.Absent blank) }
    ensures { AsksFirst named.domain named.properties.items number clones.old.items clones.new.items result }
{
    let CloneState::Absent(blank) = take_state(clones, number) else {
        unreachable!()
    };
    let asker = new_asker(blank, named, number);
    let question = asker.ask();
    put_state(clones, number, CloneState::Asking(asker));
    question
}

/// Sends the question of one who asks.
pub fn send_question(
    messages: &mut Vec<Message>,
    question: Message,
) -> Result<Reply<'static>, WorldFault>
    ensures sent { IfOk result
        (SendsQuestion (map message_value messages.old.items) question (map message_value messages.new.items)) }
    ensures memory { IfErr result (λ fault. fault ≡ NoMemory) }
{
    let message = send(messages, question)?;
    Ok(Reply::Sent(message))
}
