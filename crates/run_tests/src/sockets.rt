//! The wire over TCP, with clients and a peer in the same process. Its owners stand in boxes, and what is done with them is told in plain
//! words by helpers that they are lent to.
ghost use Rattle.std.specs.Prelude.{◌≡◌, ◌+◌, ◌-◌, ◌^◌, ◌<◌, ◌≤◌, IfOk};
ghost use Rattle.tcp_node.specs.TcpWires.{count_of_taken};

use mld_io::{Event, IoFault, Wire};
use std::alloc::Global;
use std::io::{self, Read, Write};
use std::net::{Shutdown, SocketAddr, TcpListener, TcpStream};
use std::test::Fail;
use tcp_node::TcpWire;

/// A wire over the sockets of the machine.
type TestWire = TcpWire<HostRuntime>;

/// What a wire gives, in plain words.
#[derive(Clone, Copy, PartialEq, Eq)]
enum Given {
    Opened(u32),
    /// So many bytes of a connection.
    Bytes(u32, usize),
    Shut(u32),
    Failed,
    /// Anything else.
    Other,
}

/// What a wire gives next.
fn next_of(wire: &mut TestWire) -> Given
    requires { count_of_taken wire.old < 2 ^ 64 - 1 }
    ensures { count_of_taken wire.new ≤ count_of_taken wire.old + 1 }
{
    match wire.next() {
        Ok(Event::Opened(conn)) => Given::Opened(conn),
        Ok(Event::Bytes(conn, piece)) => Given::Bytes(conn, piece.len()),
        Ok(Event::Shut(conn)) => Given::Shut(conn),
        Ok(Event::End) => Given::Other,
        Err(IoFault::Failed) => Given::Failed,
        Err(_fault) => Given::Other,
    }
}

/// Whether a wire gives these bytes of a connection next.
fn gives(wire: &mut TestWire, conn: u32, bytes: &[u8]) -> bool
    requires { count_of_taken wire.old < 2 ^ 64 - 1 }
    ensures { count_of_taken wire.new ≤ count_of_taken wire.old + 1 }
{
    match wire.next() {
        Ok(Event::Bytes(on, piece)) => on == conn && piece.as_slice() == bytes,
        _ => false,
    }
}

/// An address on loopback where nobody listens.
fn free_address(rt: &HostRuntime) -> io::Result<SocketAddr> {
    TcpListener::bind(rt, "127.0.0.1:0")?.local_addr()
}

/// A wire that is to listen on an address, and to call a peer where there is one.
fn wire_on(rt: &HostRuntime, listen: &str, peer: Option<&str>) -> Result<Box<TestWire>, Fail>
    ensures { IfOk result (λ wire. count_of_taken wire.value ≡ 0) }
{
    Ok(Box::new(
        rt.alloc(),
        TcpWire::new(rt.clone()?, rt.alloc(), listen, peer)?,
    )?)
}

/// A wire that listens on an address. What it sends on a connection that isn't there is dropped.
fn listening(rt: &HostRuntime, address: SocketAddr) -> Result<Box<TestWire>, Fail>
    ensures { IfOk result (λ wire. count_of_taken wire.value ≡ 0) }
{
    let text = format!(in rt.alloc(); "{address}")?;
    let mut wire = wire_on(rt, text.as_str(), None)?;
    wire.send(7, b"nobody")?;
    Ok(wire)
}

/// A wire that listens on an address, once it is asked for an event, and calls another one.
fn calling(rt: &HostRuntime, address: SocketAddr, peer: SocketAddr) -> Result<Box<TestWire>, Fail>
    ensures { IfOk result (λ wire. count_of_taken wire.value ≡ 0) }
{
    let text = format!(in rt.alloc(); "{address}")?;
    let peer = format!(in rt.alloc(); "{peer}")?;
    wire_on(rt, text.as_str(), Some(peer.as_str()))
}

/// Whether a client reads just four bytes, and these.
fn hears(client: &mut TcpStream, wanted: &[u8; 4]) -> bool {
    let mut answer = [0u8; 4];
    client.read_exact(&mut answer).is_ok() && answer == *wanted
}

/// Whether one read of a client gives so many bytes.
fn reads(client: &mut TcpStream, count: usize) -> bool {
    let mut answer = [0u8; 4];
    match client.read(&mut answer) {
        Ok(read) => read == count,
        Err(_) => false,
    }
}

/// Whether a wire serves one client until that shuts its side, and shuts another.
fn serves(wire: &mut TestWire, near: &mut TcpStream, far: &mut TcpStream) -> bool
    requires { count_of_taken wire.old < 2 ^ 63 }
    ensures { count_of_taken wire.new ≤ count_of_taken wire.old + 4 }
{
    let one = next_of(wire) == Given::Opened(1);
    let two = next_of(wire) == Given::Opened(2);
    let asked = near.write_all(b"abc").is_ok();
    let given = gives(wire, 1, b"abc");
    let sent = wire.send(2, b"xy").is_ok() && wire.send(1, b"defg").is_ok();
    let heard = hears(near, b"defg") && near.shutdown(Shutdown::Write).is_ok();
    let shut = next_of(wire) == Given::Shut(1);
    let left = reads(near, 0);
    wire.shut(2);
    let dropped = wire.send(2, b"dropped").is_ok();
    let ended = reads(far, 2) && reads(far, 0);
    one && two && asked && given && sent && heard && shut && left && dropped && ended
}

/// Whether a wire that has had two clients serves a third one.
fn serves_third(wire: &mut TestWire, third: &mut TcpStream) -> bool
    requires { count_of_taken wire.old < 2 ^ 63 }
{
    let asked = third.write_all(b"z").is_ok();
    let opened = next_of(wire) == Given::Opened(3);
    let given = next_of(wire) == Given::Bytes(3, 1);
    asked && opened && given
}

/// Whether a wire serves two clients, and then a third one.
fn serves_all(rt: &HostRuntime, wire: &mut TestWire, address: SocketAddr) -> io::Result<bool>
    requires { count_of_taken wire.old ≡ 0 }
{
    let mut near = TcpStream::connect(rt, address)?;
    let mut far = TcpStream::connect(rt, address)?;
    if !serves(wire, &mut near, &mut far) {
        return Ok(false);
    }
    let mut third = TcpStream::connect(rt, address)?;
    Ok(serves_third(wire, &mut third))
}

/// A client sends in pieces and shuts its side, is answered, and is told of to its end.
#[test]
fn serves_clients(rt: HostRuntime) -> Result<(), Fail> {
    let address = free_address(&rt)?;
    let mut wire = listening(&rt, address)?;
    assert!(rt; serves_all(&rt, &mut wire, address)?);
    Ok(())
}

/// Whether what two clients send one behind the other is given in pieces, each of which ends where a frame's head or its payload does.
fn gives_pieces(wire: &mut TestWire, one: &mut TcpStream, other: &mut TcpStream) -> bool
    requires { count_of_taken wire.old < 2 ^ 63 }
{
    let alone = other.write_all(b"\x03\0\0\0\0").is_ok();
    let whole = next_of(wire) == Given::Bytes(2, 5);
    let more = one.write_all(b"\x03\0\0\0\x02ab\x03").is_ok();
    let head = next_of(wire) == Given::Bytes(1, 5);
    let payload = next_of(wire) == Given::Bytes(1, 2);
    let behind = next_of(wire) == Given::Bytes(1, 1);
    alone && whole && more && head && payload && behind
}

/// Whether a wire gives the frames of two clients in pieces.
fn gives_all_pieces(rt: &HostRuntime, wire: &mut TestWire, address: SocketAddr) -> io::Result<bool>
    requires { count_of_taken wire.old ≡ 0 }
{
    let mut one = TcpStream::connect(rt, address)?;
    if next_of(wire) != Given::Opened(1) {
        return Ok(false);
    }
    let mut other = TcpStream::connect(rt, address)?;
    Ok(next_of(wire) == Given::Opened(2) && gives_pieces(wire, &mut one, &mut other))
}

/// No piece goes behind the end of a frame's head or of its payload.
#[test]
fn gives_frames_in_pieces(rt: HostRuntime) -> Result<(), Fail> {
    let address = free_address(&rt)?;
    let mut wire = listening(&rt, address)?;
    assert!(rt; gives_all_pieces(&rt, &mut wire, address)?);
    Ok(())
}

/// Whether a wire is connected with its peer, again once the peer shut that, and sends on the second connection.
fn calls(near: &mut TestWire, far: &mut TestWire) -> bool
    requires near { count_of_taken near.old ≡ 0 }
    requires far { count_of_taken far.old ≡ 0 }
{
    let called = next_of(near) == Given::Opened(1);
    let accepted = next_of(far) == Given::Opened(1);
    far.shut(1);
    let ended = next_of(near) == Given::Shut(1);
    let again = next_of(near) == Given::Opened(2);
    let once_more = next_of(far) == Given::Opened(2);
    let sent = near.send(2, b"hello").is_ok();
    let given = gives(far, 2, b"hello");
    called && accepted && ended && again && once_more && sent && given
}

/// A peer is called, and again once its connection ended.
#[test]
fn calls_its_peer(rt: HostRuntime) -> Result<(), Fail> {
    let address = free_address(&rt)?;
    let mut far = listening(&rt, address)?;
    let mut near = calling(&rt, free_address(&rt)?, address)?;
    assert!(rt; calls(&mut near, &mut far));
    Ok(())
}

/// Whether a wire gives what one client sent, and leaves unread what another one sent that reads nothing.
fn leaves_unread(
    wire: &mut TestWire,
    one: &mut TcpStream,
    other: &mut TcpStream,
    piece: &[u8],
) -> bool
    requires { count_of_taken wire.old < 2 ^ 63 }
{
    let waits = wire.send(1, piece).is_ok() && wire.send(1, piece).is_ok();
    let sent = one.write_all(b"a").is_ok() && other.write_all(b"b").is_ok();
    waits && sent && next_of(wire) == Given::Bytes(2, 1)
}

/// Whether a wire on which much waits for one client serves another one.
fn serves_readers(rt: &HostRuntime, wire: &mut TestWire, address: SocketAddr) -> Result<bool, Fail>
    requires { count_of_taken wire.old ≡ 0 }
{
    let mut one = TcpStream::connect(rt, address)?;
    let opened = next_of(wire) == Given::Opened(1);
    let mut other = TcpStream::connect(rt, address)?;
    let piece = sevens(rt.alloc(), 10_000_000)?;
    Ok(
        opened
            && next_of(wire) == Given::Opened(2)
            && leaves_unread(wire, &mut one, &mut other, &piece),
    )
}

/// A client that doesn't read what waits for it isn't read, though it sent first.
#[test]
fn reads_no_client_that_reads_nothing(rt: HostRuntime) -> Result<(), Fail> {
    let address = free_address(&rt)?;
    let mut wire = listening(&rt, address)?;
    assert!(rt; serves_readers(&rt, &mut wire, address)?);
    Ok(())
}

/// Whether a wire answers a client that sent more than was taken, and shut its side then.
fn answers_first(wire: &mut TestWire, client: &mut TcpStream) -> bool
    requires { count_of_taken wire.old < 2 ^ 63 }
{
    let opened = next_of(wire) == Given::Opened(1);
    let asked = client
        .write_all(b"\x03\0\0\0\0\x03\0\0\0\0\x03\0\0\0\0")
        .is_ok();
    let given = next_of(wire) == Given::Bytes(1, 5);
    let ended = client.shutdown(Shutdown::Write).is_ok();
    opened && asked && given && ended && wire.send(1, b"last").is_ok()
}

/// What was answered comes, whatever was sent behind it that nobody takes any more.
#[test]
fn ends_behind_its_answers(rt: HostRuntime) -> Result<(), Fail> {
    let address = free_address(&rt)?;
    let mut wire = listening(&rt, address)?;
    let mut client = TcpStream::connect(&rt, address)?;
    assert!(rt; answers_first(&mut wire, &mut client));
    wire.finish();
    drop(wire);
    assert!(rt; hears(&mut client, b"last") && reads(&mut client, 0));
    Ok(())
}

/// How many bytes a client reads where its wire is asked to send on after each read.
fn read_slowly(
    wire: &mut TestWire,
    client: &mut TcpStream,
    part: &mut [u8],
) -> Result<usize, Fail> {
    let mut read = 0usize;
    for _ in 0..10_000 {
        if read == 5_000_000 {
            break;
        }
        read = read.saturating_add(client.read(part)?);
        wire.send(1, b"")?;
    }
    Ok(read)
}

/// So many bytes 7.
fn sevens(alloc: Global, count: usize) -> Result<Box<Vec<u8>>, Fail> {
    Ok(Box::new(alloc, Vec::from_elem(alloc, 7, count)?)?)
}

/// Sends a long piece.
fn send_long(alloc: Global, wire: &mut TestWire) -> Result<(), Fail> {
    let piece = sevens(alloc, 5_000_000)?;
    Ok(wire.send(1, &piece)?)
}

/// Whether a client gets all of a piece that is longer than what it reads at once.
fn keeps(rt: &HostRuntime, wire: &mut TestWire, address: SocketAddr) -> Result<bool, Fail>
    requires { count_of_taken wire.old ≡ 0 }
{
    let mut client = TcpStream::connect(rt, address)?;
    if next_of(wire) != Given::Opened(1) {
        return Ok(false);
    }
    send_long(rt.alloc(), wire)?;
    let mut part = sevens(rt.alloc(), 500_000)?;
    Ok(read_slowly(wire, &mut client, &mut part)? == 5_000_000)
}

/// What a client doesn't read at once waits.
#[test]
fn keeps_what_waits(rt: HostRuntime) -> Result<(), Fail> {
    let address = free_address(&rt)?;
    let mut wire = listening(&rt, address)?;
    assert!(rt; keeps(&rt, &mut wire, address)?);
    wire.finish();
    Ok(())
}

/// Whether a wire serves a client, while nobody knows the name of its peer.
fn serves_alone(rt: &HostRuntime, wire: &mut TestWire, address: SocketAddr) -> io::Result<bool>
    requires { count_of_taken wire.old ≡ 0 }
{
    let opened = wire.send(7, b"nobody").is_ok();
    let mut client = TcpStream::connect(rt, address)?;
    let asked = client.write_all(b"abc").is_ok();
    Ok(opened && asked && next_of(wire) == Given::Opened(1) && gives(wire, 1, b"abc"))
}

/// A peer's name that can't be looked up is no fault.
#[test]
fn serves_without_its_peer(rt: HostRuntime) -> Result<(), Fail> {
    let address = free_address(&rt)?;
    let text = format!(in rt.alloc(); "{address}")?;
    let mut wire = wire_on(&rt, text.as_str(), Some("no..name:7"))?;
    assert!(rt; serves_alone(&rt, &mut wire, address)?);
    Ok(())
}

/// Whether a wire on these texts has no event.
fn fails(rt: &HostRuntime, listen: &str, peer: Option<&str>) -> Result<bool, Fail> {
    let mut wire = wire_on(rt, listen, peer)?;
    Ok(next_of(&mut wire) == Given::Failed && wire.send(1, b"x") == Err(IoFault::Failed))
}

/// A text that names no address is a fault.
#[test]
fn counts_faults(rt: HostRuntime) -> Result<(), Fail> {
    assert!(rt; fails(&rt, "nowhere", None)?);
    assert!(rt; fails(&rt, "127.0.0.1:0", Some("127.0.0.1"))?);
    Ok(())
}
