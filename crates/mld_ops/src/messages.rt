//! Messages between the leaves of the tree.
ghost use Rattle.std.specs.Prelude.{◌≡◌, ◌↔◌, ◌++◌, ◌∷◌, [], length, IsTrue, IfOk, OnOk, OnErr};
ghost use Rattle.mld_ops.specs.Messages.{snapshot_value, give_value, message_value};
ghost use Rattle.tree_clock.specs.Clock.{IsClock};

use crate::entries::Entry;
use crate::pair_lists::PairList;
use std::alloc::{AllocError, Global};
use std::marker::Model;
use tree_clock::{Clock, Path};
use uuid::Uuid;

/// What someone who knows a clock's dots has.
#[derive(Drop)]
pub struct Snapshot {
    /// The known dots.
    pub clock: Clock,
    /// The pairs.
    pub tagged: PairList,
}

impl Snapshot {
    /// A copy.
    pub fn copy_in(&self, alloc: Global) -> Result<Snapshot, AllocError>
        ensures copy { IfOk result (λ copy. snapshot_value copy ≡ snapshot_value self.now) }
        ensures clock { IfOk result (λ copy. IsClock copy.clock.ticks) }
    {
        Ok(Snapshot {
            clock: self.clock.copy_in(alloc)?,
            tagged: self.tagged.copy_in(alloc)?,
        })
    }
}

/// A leaf that is given to whoever asked with this id, with a snapshot.
#[derive(Drop)]
pub struct Give {
    /// The id of who asked.
    pub id: Uuid,
    /// The path of the leaf.
    pub path: Path,
    /// What the giver has.
    pub snapshot: Snapshot,
}

impl Give {
    /// A copy.
    pub fn copy_in(&self, alloc: Global) -> Result<Give, AllocError>
        ensures { IfOk result (λ copy. give_value copy ≡ give_value self.now) }
    {
        Ok(Give {
            id: self.id,
            path: self.path,
            snapshot: self.snapshot.copy_in(alloc)?,
        })
    }
}

/// A leaf that is given, in a box, so that a message takes no more room than an entry. Contracts see the `Give`.
#[derive(Drop)]
pub struct Given {
    give: Box<Give>,
}

impl Model for Given {
    ghost use Rattle.mld_ops.specs.declared.messages.Give.{Give};

    ghost Value = { Give };

    ghost view = { λ given. given.give.value };
}

impl Given {
    /// A leaf that is given, moved into a box.
    pub fn new(alloc: Global, give: Give) -> Result<Given, AllocError>
        ensures { IfOk result (λ given. given ≡ give) }
    {
        Ok(Given {
            give: Box::new(alloc, give)?,
        })
    }

    /// What the box has.
    pub fn give(&self) -> &Give
        ensures { result.now ≡ self.now }
    {
        &self.give
    }

    /// A copy.
    pub fn copy_in(&self, alloc: Global) -> Result<Given, AllocError>
        ensures { IfOk result (λ copy. give_value copy ≡ give_value self.now) }
    {
        let give = self.give.copy_in(alloc)?;
        Given::new(alloc, give)
    }
}

/// A message.
#[derive(Drop)]
pub enum Message {
    /// The net effect of a range of operations.
    Range(Entry),
    /// A question for what its sender lacks, who knows these dots.
    Want(Clock),
    /// What its sender has.
    Snapshot(Snapshot),
    /// A question for a leaf, by a new id.
    JoinAsk(Uuid),
    /// A leaf that is given.
    JoinGive(Given),
}

impl Message {
    /// A copy.
    pub fn copy_in(&self, alloc: Global) -> Result<Message, AllocError>
        ensures { IfOk result (λ copy. message_value copy ≡ message_value self.now) }
    {
        match self {
            Message::Range(entry) => Ok(Message::Range(entry.copy_in(alloc)?)),
            Message::Want(clock) => Ok(Message::Want(clock.copy_in(alloc)?)),
            Message::Snapshot(snapshot) => Ok(Message::Snapshot(snapshot.copy_in(alloc)?)),
            Message::JoinAsk(id) => Ok(Message::JoinAsk(*id)),
            Message::JoinGive(give) => Ok(Message::JoinGive(give.copy_in(alloc)?)),
        }
    }
}

/// A list of messages. Contracts see it as the list.
#[derive(Drop)]
pub struct Messages {
    items: Vec<Message>,
}

impl Model for Messages {
    ghost use Rattle.std.specs.Prelude.{List};
    ghost use Rattle.mld_ops.specs.declared.messages.Message.{Message};

    ghost Value = { List Message };

    ghost view = { λ messages. messages.items.items };
}

impl Messages {
    /// The list with no message.
    pub fn new(alloc: Global) -> Messages
        ensures { result ≡ [] }
    {
        Messages {
            items: Vec::new(alloc),
        }
    }

    /// The list of these messages.
    pub fn from_vec(items: Vec<Message>) -> Messages
        ensures { result ≡ items.items }
    {
        Messages { items }
    }

    /// The number of messages.
    pub fn len(&self) -> usize
        ensures { result ≡ length self.now }
    {
        self.items.len()
    }

    /// Whether there is no message.
    pub fn is_empty(&self) -> bool
        ensures { IsTrue result ↔ (self.now ≡ []) }
    {
        self.items.is_empty()
    }

    /// The messages as a slice.
    pub fn as_slice(&self) -> &[Message]
        ensures { result.now ≡ self.now }
    {
        self.items.as_slice()
    }

    /// Adds a message at the end.
    pub fn push(&mut self, message: Message) -> Result<(), AllocError>
        ensures ok { OnOk result (self.new ≡ self.old ++ message ∷ []) }
        ensures err { OnErr result (self.new ≡ self.old) }
    {
        self.items.push(message)?;
        Ok(())
    }

    /// The messages, to be moved on.
    pub fn into_vec(self) -> Vec<Message>
        ensures { result.items ≡ self }
    {
        let Messages { items } = self;
        items
    }
}
