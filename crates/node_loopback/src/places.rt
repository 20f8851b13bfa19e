//! What a node has by its id, which is random: the port that it listens on, and its folder.

use std::alloc::{Alloc, AllocError, Global};
use std::env::{self, Env, VarError};
use std::fmt::Write;
use std::io;
use std::random::RandomSource;

/// The first port that a node may listen on. The system gives none of those to connections by itself.
const FIRST_PORT: u16 = 10_000;

/// How many ports there are.
const PORTS: u128 = 20_000;

/// A number that no other run has.
pub fn random_number<R: RandomSource>(rt: &R) -> io::Result<u128> {
    let mut bytes = [0u8; 16];
    rt.fill_bytes(&mut bytes)?;
    Ok(u128::from_be_bytes(bytes))
}

/// The port of loopback that the node with this id listens on.
pub fn port_of(id: u128) -> u16 {
    FIRST_PORT.saturating_add((id % PORTS) as u16)
}

/// Puts the address that the node with this id listens on.
pub fn put_address(text: &mut String, id: u128) -> Result<(), AllocError> {
    write!(text, "127.0.0.1:{}", port_of(id))
}

/// Puts a number as digits.
pub fn put_number(text: &mut String, number: u128) -> Result<(), AllocError> {
    write!(text, "{number:032x}")
}

/// Puts the name of the folder of the node with this id. Nothing is there before it is started.
pub fn put_folder<R: Alloc<A = Global> + Env>(
    rt: &R,
    text: &mut String,
    id: u128,
) -> Result<(), AllocError> {
    put_room(text, &env::var(rt, "TMPDIR"))?;
    text.push_str("/node_loopback.")?;
    put_number(text, id)
}

/// Puts the name of the folder for what is kept for a while.
fn put_room(text: &mut String, found: &Result<String, VarError>) -> Result<(), AllocError> {
    let room = match found {
        Ok(room) if !room.is_empty() => room.as_str(),
        _ => "/tmp",
    };
    text.push_str(room)?;
    Ok(())
}
