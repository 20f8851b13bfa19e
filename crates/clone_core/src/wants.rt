//! Wants: what a clone asks others for, and what it answers to one who asks it.
use crate::clones::MldClone;
use clone_parts::{Got, ReceiveFault, unknown_by};
use mld_io::Banks;
use mld_ops::{Message, Messages};
use std::alloc::{AllocError, Global};
use tree_clock::Clock;

impl<B: Banks> MldClone<B> {
    ghost use Rattle.std.specs.Prelude.{◌≡◌, [], None, IfOk, IfErr, IsOk, OnOk, IsErrOf};
    ghost use Rattle.clone_core.specs.DurableCalls.{Changes};
    ghost use Rattle.mld_ops.specs.Messages.{CarriesWant, IsGoodMessage, message_value};
    ghost use Rattle.clone_core.specs.CloneClosing.{StaysOpen};
    ghost use Rattle.clone_core.specs.Joining.{AnswersGood};
    ghost use Rattle.clone_core.specs.CallParts.{StopsReceiving};
    ghost use Rattle.clone_core.specs.Wants.{AnswersWant, RefusesWant, SendsWhole};

    /// A question for what the clone lacks: it tells the dots that the clone knows.
    pub fn want(&self, alloc: Global) -> Result<Message, AllocError>
        ensures wants { IfOk result (λ message. message_value message ≡ CarriesWant self.now.local.ticks) }
        ensures good { IfOk result (λ message. IsGoodMessage (message_value message)) }
    {
        Ok(Message::Want(self.known().copy_in(alloc)?))
    }

    /// Answers a want of one who knows these dots: each entry of the journal that isn't known by them is sent, in a message of its own; or
    /// one snapshot of all that the clone knows and has, where a dot of its base is none of them. Nothing changes, and no device is called.
    pub(crate) fn answer_want(&self, alloc: Global, known: &Clock) -> Result<Got, ReceiveFault>
        requires { self.now.closed ≡ None }
        ensures ok { IfOk result (λ got. AnswersWant self.now.local known.now.ticks got self.now.local) }
        ensures good { IfOk result AnswersGood }
        ensures opened { OnOk result (StaysOpen self.now self.now) }
        ensures err { IfErr result RefusesWant }
        ensures left { IfErr result (StopsReceiving B.log B.meter ⊥ ⊥ self.now self.now) }
        ensures durable { Changes B.log B.meter [] self.now self.now.banks (IsOk result)
            (IsErrOf result ReceiveFault.Device) }
    {
        if !self.base().leq(known) {
            return self.answer_behind(alloc);
        }
        let messages = unknown_by(alloc, known, self.journal())?;
        if messages.is_empty() {
            return Ok(Got::Nothing);
        }
        Ok(Got::Answer(Messages::from_vec(messages)))
    }

    // The answer to one who lacks a dot of the base: one snapshot of all that the clone knows and has.
    fn answer_behind(&self, alloc: Global) -> Result<Got, ReceiveFault>
        ensures ok { IfOk result (SendsWhole self.now.local) }
        ensures good { IfOk result AnswersGood }
        ensures memory { IfErr result (λ fault. fault ≡ ReceiveFault.NoMemory) }
    {
        let mut messages = Vec::with_capacity(alloc, 1)?;
        messages.push_reserved(Message::Snapshot(self.snapshot(alloc)?));
        Ok(Got::Answer(Messages::from_vec(messages)))
    }
}
