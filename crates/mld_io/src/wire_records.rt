//! A record of what was done over a wire.
ghost use Rattle.std.specs.Prelude.{◌≡◌, ℕ, ◌+◌, ◌<◌, ◌≤◌, [], ◌∷◌, ◌==◌, ◌&&◌, not, reverse, vec_len, IfOk, OnOk, OnErr, IsTrue};
ghost use Rattle.std.specs.List.{list_any};
ghost use Rattle.mld_io.specs.Wires.{after_shut, open_after, sent_after, sent_on, closed_after, was_closed};

use crate::events::{Event, WireCall};
use std::alloc::{AllocError, Global};
use std::marker::Model;

/// The calls, with room for one more for each open connection: so a connection is shut without
/// memory.
#[derive(Debug, Drop)]
pub struct WireRecord {
    calls: Vec<WireCall>,
    open_ones: Vec<u32>,
}

impl Model for WireRecord {
    ghost use Rattle.std.specs.Prelude.{reverse};
    ghost use Rattle.mld_io.specs.Wires.{WireLog};
    ghost use Rattle.mld_io.specs.Records.{IsRecord};

    ghost Value = { WireLog };

    ghost view = { λ r. reverse r.calls.items };

    ghost invariant = { IsRecord };
}

impl WireRecord {
    /// A record of no call, which takes no memory.
    pub fn new(alloc: Global) -> WireRecord
        ensures { result ≡ [] }
    {
        WireRecord {
            calls: Vec::new(alloc),
            open_ones: Vec::new(alloc),
        }
    }

    /// Records a call.
    pub fn add(&mut self, call: WireCall) -> Result<(), AllocError>
        ensures ok { OnOk result (self.new ≡ call ∷ self.old) }
        ensures err { OnErr result (self.new ≡ self.old) }
    {
        self.calls.reserve(self.open_ones.len().saturating_add(2))?;
        note(&mut self.open_ones, &call)?;
        self.calls.push_reserved(call);
        Ok(())
    }

    /// Records that a connection was shut from this end, where it is open. It takes no memory.
    pub fn shut(&mut self, conn: u32)
        ensures { self.new ≡ after_shut conn self.old }
    {
        if self.open_ones.contains(&conn) {
            remove(&mut self.open_ones, conn);
            self.calls.push_reserved(WireCall::Closed(conn));
        }
    }

    /// The bytes that were sent on a connection.
    pub fn sent(&self, alloc: Global, conn: u32) -> Result<Vec<u8>, AllocError>
        ensures { IfOk result (λ bytes. bytes.items ≡ sent_on conn self.now) }
    {
        sent_by(alloc, &self.calls, conn)
    }

    /// Whether a connection was shut from this end.
    pub fn is_shut(&self, conn: u32) -> bool
        ensures { result ≡ was_closed conn self.now }
    {
        is_shut_by(&self.calls, conn)
    }
}

/// The bytes that these calls sent on a connection.
fn sent_by(alloc: Global, calls: &[WireCall], conn: u32) -> Result<Vec<u8>, AllocError>
    ensures { IfOk result (λ bytes. bytes.items ≡ sent_on conn (reverse calls.now)) }
{
    let mut bytes = Vec::new(alloc);
    for call in calls {
        add_sent(&mut bytes, call, conn)?;
    }
    Ok(bytes)
}

/// Whether these calls shut a connection from this end.
fn is_shut_by(calls: &[WireCall], conn: u32) -> bool
    ensures { result ≡ was_closed conn (reverse calls.now) }
{
    let mut shut = false;
    for call in calls {
        shut = is_shut_after(call, conn, shut);
    }
    shut
}

/// Which connections are open once one call more was made.
fn note(listed: &mut Vec<u32>, call: &WireCall) -> Result<(), AllocError>
    ensures listed { (conn : ℕ) → OnOk result (list_any (λ c. c == conn) listed.new.items
        ≡ open_after conn call.now (list_any (λ c. c == conn) listed.old.items)) }
    ensures few { OnOk result (vec_len listed.new ≤ vec_len listed.old + 1) }
    ensures err { OnErr result (listed.new.items ≡ listed.old.items) }
{
    match call {
        WireCall::Took(Event::Opened(conn)) => listed.push(*conn)?,
        WireCall::Took(Event::Shut(conn)) => remove(listed, *conn),
        WireCall::Closed(conn) => remove(listed, *conn),
        WireCall::Took(Event::Bytes(..)) | WireCall::Took(Event::End) | WireCall::Sent(..) => {}
    }
    Ok(())
}

/// Takes a connection out of those that are open.
fn remove(listed: &mut Vec<u32>, on: u32)
    ensures listed { (conn : ℕ) → list_any (λ c. c == conn) listed.new.items
        ≡ not (on == conn) && list_any (λ c. c == conn) listed.old.items }
    ensures few { vec_len listed.new ≤ vec_len listed.old }
    ensures fewer { IsTrue (list_any (λ c. c == on) listed.old.items) → vec_len listed.new < vec_len listed.old }
{
    listed.retain(|conn| *conn != on);
}

/// Puts behind the bytes what a call sent on this connection.
fn add_sent(bytes: &mut Vec<u8>, call: &WireCall, conn: u32) -> Result<(), AllocError>
    ensures { OnOk result (bytes.new.items ≡ sent_after conn call.now bytes.old.items) }
{
    match call {
        WireCall::Sent(on, piece) if *on == conn => bytes.extend_from_slice(piece.as_slice()),
        _ => Ok(()),
    }
}

/// Whether a connection was shut from this end once one call more was made.
fn is_shut_after(call: &WireCall, conn: u32, before: bool) -> bool
    ensures { result ≡ closed_after conn call.now before }
{
    match call {
        WireCall::Closed(on) => *on == conn || before,
        WireCall::Took(_) | WireCall::Sent(..) => before,
    }
}
