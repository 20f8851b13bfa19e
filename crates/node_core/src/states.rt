//! What a node has on its banks.

use mld_io::Banks;
use mld_ops::Message;
use node_model::clone_core::{Asker, MldClone};
use std::alloc::{AllocError, Global};
use uuid::Uuid;

/// What a node has on its banks: a live clone, or one who asks for a leaf.
#[derive(Drop)]
pub enum NodeState<B: Banks> {
    /// The clone is live.
    Live(MldClone<B>),
    /// It asks its peers for a leaf.
    Asking(Asker<B>),
}

impl<B: Banks> NodeState<B> {
    ghost use Rattle.std.specs.Prelude.{◌≡◌, IsTrue, IfOk};
    ghost use Rattle.text_rules.specs.Domain.{is_domain};
    ghost use Rattle.mld_ops.specs.Messages.{message_value, IsGoodMessage};
    ghost use Rattle.node_model.specs.Keepers.{keeper_id, keeper_domain, question_of, keeper_found};
    ghost use Rattle.node_core.specs.NodeStates.{state_banks, keeper_of, FindsNow, IsOpen};

    /// Its id.
    pub fn id(&self) -> Uuid
        ensures { result ≡ keeper_id (keeper_of self.now) }
    {
        match self {
            NodeState::Live(clone) => clone.id(),
            NodeState::Asking(asker) => asker.id(),
        }
    }

    /// The name of its domain.
    pub fn domain(&self) -> &str
        ensures domain { result.now ≡ keeper_domain (keeper_of self.now) }
        ensures name { IsTrue (is_domain result.now) }
    {
        match self {
            NodeState::Live(clone) => clone.domain(),
            NodeState::Asking(asker) => asker.domain(),
        }
    }

    /// What it asks a peer for: what it lacks, or a leaf.
    pub fn question(&self, alloc: Global) -> Result<Message, AllocError>
        ensures asks { IfOk result (λ message. message_value message ≡ question_of (keeper_of self.now)) }
        ensures good { IfOk result (λ message. IsGoodMessage (message_value message)) }
    {
        match self {
            NodeState::Live(clone) => clone.want(alloc),
            NodeState::Asking(asker) => Ok(asker.ask()),
        }
    }

    /// Its banks, which keep what it has where it is open. A live clone stops. It takes no memory and calls no device.
    pub fn into_banks(self) -> B
        ensures banks { result ≡ state_banks self }
        ensures kept { IsOpen self → FindsNow (keeper_found (keeper_of self)) (B.log result) }
    {
        match self {
            NodeState::Live(clone) => clone.stop(),
            NodeState::Asking(asker) => asker.stop(),
        }
    }
}
