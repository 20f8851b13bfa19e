//! Numbers and pieces of bytes, put at the end of a buffer. Where memory runs out the buffer is as before.
ghost use Rattle.std.specs.Prelude.{◌≡◌, ◌≤◌, ◌<◌, ◌^◌, ◌++◌, length, OnOk, OnErr};
ghost use Rattle.mld_bytes.specs.Bytes.{u8_bytes, u32_bytes, u64_bytes, number_bytes, piece_bytes};

use byteorder::{BigEndian, ByteOrder};
use std::alloc::AllocError;

/// Puts a byte at the end.
pub fn put_u8(out: &mut Vec<u8>, n: u8) -> Result<(), AllocError>
    ensures ok { OnOk result (out.new.items ≡ out.old.items ++ u8_bytes n) }
    ensures err { OnErr result (out.new.items ≡ out.old.items) }
{
    out.extend_from_slice(&[n])
}

/// Puts the four bytes of a number at the end.
#[tactic(auto, unfolding(crate::specs::Bytes::u32_bytes))]
pub fn put_u32(out: &mut Vec<u8>, n: u32) -> Result<(), AllocError>
    ensures ok { OnOk result (out.new.items ≡ out.old.items ++ u32_bytes n) }
    ensures err { OnErr result (out.new.items ≡ out.old.items) }
{
    let mut bytes = [0; 4];
    BigEndian::write_u32(&mut bytes, n);
    out.extend_from_slice(&bytes)
}

/// Puts the eight bytes of a number at the end.
#[tactic(auto, unfolding(crate::specs::Bytes::u64_bytes))]
pub fn put_u64(out: &mut Vec<u8>, n: u64) -> Result<(), AllocError>
    ensures ok { OnOk result (out.new.items ≡ out.old.items ++ u64_bytes n) }
    ensures err { OnErr result (out.new.items ≡ out.old.items) }
{
    let mut bytes = [0; 8];
    BigEndian::write_u64(&mut bytes, n);
    out.extend_from_slice(&bytes)
}

/// Puts the lowest bytes of a number at the end, as many as are asked for, from 0 to 8. The number fits them.
pub fn put_number(out: &mut Vec<u8>, n: u64, size: usize) -> Result<(), AllocError>
    requires size { size ≤ 8 }
    requires fits { n < 256 ^ size }
    ensures ok { OnOk result (out.new.items ≡ out.old.items ++ number_bytes size n) }
    ensures err { OnErr result (out.new.items ≡ out.old.items) }
{
    if size == 0 {
        return Ok(());
    }
    let mut bytes = [0; 8];
    BigEndian::write_uint(&mut bytes, n, size);
    out.extend_from_slice(&bytes[..size])
}

/// Puts the length of a piece, in four bytes, and the piece at the end.
pub fn put_bytes(out: &mut Vec<u8>, piece: &[u8]) -> Result<(), AllocError>
    requires { length piece.now < 2 ^ 32 }
    ensures ok { OnOk result (out.new.items ≡ out.old.items ++ piece_bytes piece.now) }
    ensures err { OnErr result (out.new.items ≡ out.old.items) }
{
    let start = out.len();
    put_u32(out, piece.len() as u32)?;
    let put = out.extend_from_slice(piece);
    if put.is_err() {
        out.truncate(start);
    }
    put
}
