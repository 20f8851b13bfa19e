//! A client that writes and reads frames byte by byte. A frame is a byte for its kind, the length
//! of its payload in four bytes, the highest first, and the payload.

use std::io::{self, ErrorKind, Read, Write};
use std::net::TcpStream;

/// What a node sends first. Its payload is the format's number, the id, and the domain's text.
const HELLO: u8 = 1;

/// A line that is asked.
const REQUEST: u8 = 3;

/// A part of a reply, behind which more follows.
const PART: u8 = 4;

/// The last part of a reply.
const LAST: u8 = 5;

/// The most bytes of a payload that is read.
const PAYLOAD_LIMIT: usize = 1_048_588;

/// The most parts of a reply that are read.
const PART_LIMIT: usize = 1_024;

/// Whether the node with this id says hello. What it says is put into the frame.
pub fn is_greeted(stream: &mut TcpStream, frame: &mut Vec<u8>, id: u128) -> io::Result<bool> {
    frame.clear();
    let kind = read_frame(stream, frame)?;
    Ok(kind == HELLO && frame.get(1..17) == Some(id.to_be_bytes().as_slice()))
}

/// Asks a line, and puts the bytes of the reply.
pub fn ask(stream: &mut TcpStream, reply: &mut Vec<u8>, line: &str) -> io::Result<()> {
    reply.clear();
    put_frame(reply, REQUEST, line)?;
    stream.write_all(reply)?;
    reply.clear();
    for _ in 0..PART_LIMIT {
        match read_frame(stream, reply)? {
            PART => {}
            LAST => return Ok(()),
            _ => return Err(ErrorKind::InvalidData.into()),
        }
    }
    Err(ErrorKind::InvalidData.into())
}

/// Puts a frame behind these bytes.
fn put_frame(bytes: &mut Vec<u8>, kind: u8, payload: &str) -> io::Result<()> {
    let Ok(length) = u32::try_from(payload.len()) else {
        return Err(ErrorKind::InvalidData.into());
    };
    bytes.push(kind)?;
    bytes.extend_from_slice(&length.to_be_bytes())?;
    bytes.extend_from_slice(payload.as_bytes())?;
    Ok(())
}

/// Puts the payload of the next frame behind these bytes, and gives its kind.
fn read_frame(stream: &mut TcpStream, bytes: &mut Vec<u8>) -> io::Result<u8> {
    let mut kind = [0u8];
    stream.read_exact(&mut kind)?;
    let mut length = [0u8; 4];
    stream.read_exact(&mut length)?;
    let length = u32::from_be_bytes(length) as usize;
    if length > PAYLOAD_LIMIT {
        return Err(ErrorKind::InvalidData.into());
    }
    let begun = bytes.len();
    bytes.resize(begun.saturating_add(length), 0)?;
    stream.read_exact(&mut bytes[begun..])?;
    Ok(kind[0])
}
