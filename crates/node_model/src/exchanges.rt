//! What a node sends while it handles an event.
ghost use Rattle.std.specs.Prelude.{◌≡◌, [], None, Some, false, map, OnOk};
ghost use Rattle.mld_ops.specs.Messages.{CarriesEntry, message_value};
ghost use Rattle.node_model.specs.Exchanges.{saying, refusing, telling, telling_each, telling_peers, telling_peers_each, holding, halting};

use crate::connections::{Connection, Sent};
use crate::parts::{
    ExchangeParts, refuse_at_hand, tell_at_hand, tell_each_at_hand, tell_others, tell_others_each,
};
use crate::sending::say_on;
use mld_ops::{Entry, Message};
use std::alloc::{AllocError, Global};
use std::marker::Model;

/// What a node sends while it handles an event, in order, and its connections meanwhile: the one at hand, whose event it is, until it is
/// refused, and the others, in ascending number. Where memory runs out nothing is said of it.
#[derive(Drop)]
pub struct Exchange {
    parts: ExchangeParts,
}

impl Model for Exchange {
    ghost use Rattle.node_model.specs.Exchanges.{ExchangeValue};
    ghost use Rattle.node_model.specs.Sending.{exchange_of};

    ghost Value = { ExchangeValue };

    ghost view = { λ e. exchange_of e.parts };
}

impl Exchange {
    /// The exchange with this connection at hand, and these others.
    pub fn new(alloc: Global, one: Connection, others: Vec<Connection>) -> Exchange
        ensures { result ≡ record { sent = []; at_hand = Some one; others = others.items; halted = false } }
    {
        Exchange {
            parts: ExchangeParts {
                alloc,
                sent: Vec::new(alloc),
                at_hand: Some(one),
                others,
                halted: false,
            },
        }
    }

    /// Whether the node is to end.
    pub fn is_halted(&self) -> bool
        ensures { result ≡ self.now.halted }
    {
        self.parts.halted
    }

    /// Sends bytes on the connection of a number.
    pub fn say(&mut self, conn: u32, bytes: Vec<u8>) -> Result<(), AllocError>
        ensures { OnOk result (self.new ≡ saying conn bytes.items self.old) }
    {
        say_on(&mut self.parts.sent, conn, bytes)
    }

    /// Refuses the connection at hand by a code, where it is still there, and forgets it.
    pub fn refuse(&mut self, code: u8) -> Result<(), AllocError>
        ensures { OnOk result (self.new ≡ refusing code self.old) }
    {
        refuse_at_hand(&mut self.parts, code)
    }

    /// Sends a message to the connection at hand, where it is still there. One that is too long refuses it.
    pub fn tell(&mut self, message: &Message) -> Result<(), AllocError>
        ensures { OnOk result (self.new ≡ telling (message_value message.now) self.old) }
    {
        tell_at_hand(&mut self.parts, message)
    }

    /// Sends messages to the connection at hand, one after another.
    pub fn tell_each(&mut self, messages: &[Message]) -> Result<(), AllocError>
        ensures { OnOk result (self.new ≡ telling_each (map message_value messages.now) self.old) }
    {
        tell_each_at_hand(&mut self.parts, messages)
    }

    /// Sends a message to each peer but the one at hand. One that is too long refuses them.
    pub fn tell_peers(&mut self, message: &Message) -> Result<(), AllocError>
        ensures { OnOk result (self.new ≡ telling_peers (message_value message.now) self.old) }
    {
        tell_others(&mut self.parts, message)
    }

    /// Sends entries to each peer but the one at hand, one after another.
    pub fn tell_peers_each(&mut self, entries: &[Entry]) -> Result<(), AllocError>
        ensures { OnOk result (self.new ≡ telling_peers_each (map CarriesEntry entries.now) self.old) }
    {
        tell_others_each(&mut self.parts, entries)
    }

    /// Has this connection at hand from now on.
    pub fn hold(&mut self, one: Connection)
        ensures { self.new ≡ holding one self.old }
    {
        self.parts.at_hand = Some(one);
    }

    /// Takes the connection at hand out, where it is still there.
    pub fn take_at_hand(&mut self) -> Option<Connection>
        ensures taken { result ≡ self.old.at_hand }
        ensures left { self.new ≡ record self.old { at_hand = None } }
    {
        self.parts.at_hand.take()
    }

    /// Forgets the connection at hand.
    pub fn forget(&mut self)
        ensures { self.new ≡ record self.old { at_hand = None } }
    {
        self.parts.at_hand = None;
    }

    /// The node is to end.
    pub fn halt(&mut self)
        ensures { self.new ≡ halting self.old }
    {
        self.parts.halted = true;
    }

    /// What is to be sent, in order, the connection at hand, where it is still there, and the others.
    pub fn into_parts(self) -> (Vec<Sent>, Option<Connection>, Vec<Connection>)
        ensures sent { result.0.items ≡ self.sent }
        ensures at_hand { result.1 ≡ self.at_hand }
        ensures others { result.2.items ≡ self.others }
    {
        let Exchange { parts } = self;
        let ExchangeParts {
            sent,
            at_hand,
            others,
            ..
        } = parts;
        (sent, at_hand, others)
    }
}
