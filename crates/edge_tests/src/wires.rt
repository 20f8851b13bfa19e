//! A wire in memory.
ghost use Rattle.std.specs.Prelude.{◌≡◌, ◌+◌, ◌-◌, ◌^◌, ◌<◌, ◌≤◌, [], length, IfOk};
ghost use Rattle.mld_io.specs.Wires.{taken_of};

use crate::made::{boxed, is_failed, push};
use mld_io::{Event, IoFault, MemoryWire, Piece, Wire};
use std::alloc::{AllocError, Global};
use std::test::Fail;

/// Puts bytes that come on a connection behind the events.
fn push_bytes(
    alloc: Global,
    events: &mut Vec<Event>,
    conn: u32,
    bytes: &[u8],
) -> Result<(), AllocError> {
    let piece = Piece::copy_in(alloc, bytes)?;
    push(events, Event::Bytes(conn, piece))
}

/// Puts the events of a connection that is opened, gives bytes and is shut behind these. Among them stand a piece without bytes and one
/// that is too long, which a wire leaves out.
fn push_events(alloc: Global, events: &mut Vec<Event>) -> Result<(), AllocError> {
    push(events, Event::Opened(3))?;
    push_bytes(alloc, events, 3, b"")?;
    push_bytes(alloc, events, 3, &[7u8; 65_537])?;
    push_bytes(alloc, events, 3, b"ask")?;
    push(events, Event::Opened(4))?;
    push(events, Event::Shut(4))
}

/// The wire with these events, of which calls 2 and 4 fail.
fn wire(alloc: Global) -> Result<Box<MemoryWire>, AllocError>
    ensures { IfOk result (λ wire. wire.value.log ≡ []) }
{
    let mut events = Vec::new(alloc);
    push_events(alloc, &mut events)?;
    boxed(alloc, MemoryWire::new(alloc, events, &[2, 4])?)
}

/// What the next event of a wire is to be.
#[derive(Clone, Copy)]
enum Wanted {
    Opened(u32),
    Bytes(u32, &'static [u8]),
    Shut(u32),
    End,
    Failed,
}

/// Whether a wire gave what is wanted.
fn is_wanted(next: &Result<Event, IoFault>, wanted: Wanted) -> bool {
    match wanted {
        Wanted::Opened(conn) => matches!(next, Ok(Event::Opened(on)) if *on == conn),
        Wanted::Bytes(conn, bytes) => {
            matches!(next, Ok(Event::Bytes(on, piece)) if *on == conn && piece.as_slice() == bytes)
        }
        Wanted::Shut(conn) => matches!(next, Ok(Event::Shut(on)) if *on == conn),
        Wanted::End => matches!(next, Ok(Event::End)),
        Wanted::Failed => matches!(next, Err(IoFault::Failed)),
    }
}

/// The next event, which is counted.
fn next_of(wire: &mut MemoryWire) -> Result<Event, IoFault>
    requires { length (taken_of wire.old.log) < 2 ^ 64 - 1 }
    ensures { length (taken_of wire.new.log) ≤ length (taken_of wire.old.log) + 1 }
{
    wire.next()
}

/// Whether the next event is what is wanted.
fn gives(wire: &mut MemoryWire, wanted: Wanted) -> bool
    requires { length (taken_of wire.old.log) < 2 ^ 64 - 1 }
    ensures { length (taken_of wire.new.log) ≤ length (taken_of wire.old.log) + 1 }
{
    is_wanted(&next_of(wire), wanted)
}

/// Whether calls 2 and 4 fail, the events come in order, and the end comes again and again.
fn answers(wire: &mut MemoryWire) -> bool
    requires { wire.old.log ≡ [] }
{
    let opened = gives(wire, Wanted::Opened(3));
    let sent = wire.send(3, b"he").is_ok();
    let failed = gives(wire, Wanted::Failed);
    let given = gives(wire, Wanted::Bytes(3, b"ask"));
    let refused = is_failed(wire.send(3, b"lost"));
    let rest = gives(wire, Wanted::Opened(4));
    let shut = gives(wire, Wanted::Shut(4));
    let end = gives(wire, Wanted::End);
    let still = gives(wire, Wanted::End);
    opened && sent && failed && given && refused && rest && shut && end && still
}

/// Whether it sends on each connection what it was given, and shuts the one that is open.
fn sends(wire: &mut MemoryWire) -> bool {
    let sent = wire.send(4, b"other").is_ok() && wire.send(3, b"llo").is_ok();
    wire.shut(4);
    let open = !wire.is_shut(3);
    wire.shut(3);
    sent && open && wire.is_shut(3) && !wire.is_shut(4)
}

/// Whether it has sent these bytes on a connection.
fn has_sent(alloc: Global, wire: &MemoryWire, conn: u32, bytes: &[u8]) -> Result<bool, AllocError> {
    Ok(wire.sent(alloc, conn)?.as_slice() == bytes)
}

/// Whether what was sent is told of each connection, and nothing of one that isn't there.
fn tells_sent(alloc: Global, wire: &MemoryWire) -> Result<bool, AllocError> {
    Ok(
        has_sent(alloc, wire, 3, b"hello")?
            && has_sent(alloc, wire, 4, b"other")?
            && has_sent(alloc, wire, 5, b"")?,
    )
}

/// Whether the wire gives its events, and takes bytes and tells them.
fn gives_and_takes(alloc: Global) -> Result<bool, AllocError> {
    let mut wire = wire(alloc)?;
    Ok(answers(&mut wire) && sends(&mut wire) && tells_sent(alloc, &wire)?)
}

#[test]
fn a_wire_gives_events_and_takes_bytes(rt: HostRuntime) -> Result<(), Fail> {
    assert!(rt; gives_and_takes(rt.alloc())?);
    Ok(())
}
