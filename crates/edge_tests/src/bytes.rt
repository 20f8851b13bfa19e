//! Numbers and pieces of bytes.
use crate::made::boxed;
use mld_bytes::{
    put_bytes, put_number, put_u8, put_u32, put_u64, take_bytes, take_number, take_u8, take_u32,
    take_u64,
};
use std::alloc::{AllocError, Global};
use std::test::Fail;

// A number of one byte, of four, of eight, of three and of none, with the highest byte first; and a piece behind its length.
const BYTES: &[u8] =
    b"\xfe\x01\x02\x03\x04\x05\x06\x07\x08\x09\x0a\x0b\x0c\x0d\x0e\x0f\x00\x00\x00\x02ab";

fn put_all(out: &mut Vec<u8>) -> Result<(), AllocError> {
    put_u8(out, 0xfe)?;
    put_u32(out, 0x0102_0304)?;
    put_u64(out, 0x0506_0708_090a_0b0c)?;
    put_number(out, 0x0d_0e0f, 3)?;
    put_number(out, 0, 0)?;
    put_bytes(out, b"ab")
}

/// Whether the numbers and the piece are put as these bytes.
fn are_put(alloc: Global) -> Result<bool, AllocError> {
    let mut out = boxed(alloc, Vec::new(alloc))?;
    put_all(&mut out)?;
    Ok(out.as_slice() == BYTES)
}

#[test]
fn numbers_and_pieces_are_put_as_bytes(rt: HostRuntime) -> Result<(), Fail> {
    assert!(rt; are_put(rt.alloc())?);
    Ok(())
}

#[test]
fn numbers_and_pieces_are_taken_from_their_places(rt: HostRuntime) {
    assert!(rt; matches!(take_u8(BYTES, 0), Ok((0xfe, 1))));
    assert!(rt; matches!(take_u32(BYTES, 1), Ok((0x0102_0304, 5))));
    assert!(rt; matches!(take_u64(BYTES, 5), Ok((0x0506_0708_090a_0b0c, 13))));
    assert!(rt; matches!(take_number(BYTES, 13, 3), Ok((0x0d_0e0f, 16))));
    assert!(rt; matches!(take_number(BYTES, 16, 0), Ok((0, 16))));
    assert!(rt; matches!(take_bytes(BYTES, 16), Ok((20, 22))));
}
