//! The bytes of both sides of a device, as far as lines tell them: `side a BYTES` and `side b BYTES`, in hexadecimal digits.
use crate::hexadecimal::{is_hexadecimal, put_hexadecimal};
use crate::marks::parted;
use std::alloc::{Alloc, AllocError, Global};
use std::io::{self, Print};

/// Whether a line tells the bytes of a side.
pub fn is_side(line: &str) -> bool {
    let (word, rest) = parted(line);
    let (letter, told) = parted(rest);
    word == "side" && (letter == "a" || letter == "b") && is_hexadecimal(told)
}

/// What the last of some lines that tells of a side says of it, as digits.
fn told_of<'a>(lines: &'a str, side: &str) -> Option<&'a str> {
    let mut found = None;
    for line in lines.split('\n') {
        let (word, rest) = parted(line);
        let (letter, told) = parted(rest);
        if word == "side" && letter == side {
            found = Some(told);
        }
    }
    found
}

/// The bytes of a side that lines tell; none where they don't tell of it.
pub fn side_bytes(alloc: Global, lines: &str, side: &str) -> Result<Vec<u8>, AllocError> {
    let mut bytes = Vec::new(alloc);
    put_hexadecimal(&mut bytes, told_of(lines, side).unwrap_or(""))?;
    Ok(bytes)
}

/// Whether a side has the bytes that lines tell, where they tell of it. That it doesn't is written.
pub fn has_side<R: Print + Alloc<A = Global>>(
    rt: &R,
    name: &str,
    lines: &str,
    side: &str,
    got: &[u8],
) -> io::Result<bool> {
    if told_of(lines, side).is_none() || has_bytes(rt.alloc(), lines, side, got)? {
        return Ok(true);
    }
    println!(rt; "{name}: side {side} has other bytes")?;
    Ok(false)
}

/// Whether these are the bytes of a side that lines tell.
fn has_bytes(alloc: Global, lines: &str, side: &str, got: &[u8]) -> Result<bool, AllocError> {
    let wanted = side_bytes(alloc, lines, side)?;
    Ok(wanted.as_slice() == got)
}
