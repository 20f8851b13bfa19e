//! Numbers and pieces of bytes, taken from a place of an input. Nothing here takes memory.
ghost use Rattle.std.specs.Prelude.{◌+◌, ◌-◌, ◌<◌, ◌≤◌, ◌^◌, ◌↔◌, length, drop, IfOk, IfErr, IsErr};
ghost use Rattle.mld_bytes.specs.Bytes.{u8_bytes, u32_bytes, u64_bytes, number_bytes, IsAt, HasNoNumber, IsPieceAt, HasNoPiece};

use byteorder::{BigEndian, ByteOrder};
use thiserror::Error;

/// Too few bytes are left.
#[derive(Clone, Copy, Debug, PartialEq, Eq, Error)]
#[error("too few bytes are left")]
pub struct Short;

/// The byte at a place, and the place behind it.
pub fn take_u8(input: &[u8], at: usize) -> Result<(u8, usize), Short>
    requires { at ≤ length input.now }
    ensures number { IfOk result (λ taken. IsAt (u8_bytes taken.0) input.now at taken.1) }
    ensures fits { IfOk result (λ taken. taken.0 < 2 ^ 8) }
    ensures short { IsErr result ↔ (length input.now < at + 1) }
    ensures none { IfErr result (λ _. HasNoNumber u8_bytes (drop at input.now)) }
{
    if input.len() == at {
        return Err(Short);
    }
    Ok((input[at], at + 1))
}

/// The number whose four bytes are at a place, and the place behind them.
pub fn take_u32(input: &[u8], at: usize) -> Result<(u32, usize), Short>
    requires { at ≤ length input.now }
    ensures number { IfOk result (λ taken. IsAt (u32_bytes taken.0) input.now at taken.1) }
    ensures fits { IfOk result (λ taken. taken.0 < 2 ^ 32) }
    ensures short { IsErr result ↔ (length input.now < at + 4) }
    ensures none { IfErr result (λ _. HasNoNumber u32_bytes (drop at input.now)) }
{
    if input.len() - at < 4 {
        return Err(Short);
    }
    Ok((BigEndian::read_u32(&input[at..]), at + 4))
}

/// The number whose eight bytes are at a place, and the place behind them.
pub fn take_u64(input: &[u8], at: usize) -> Result<(u64, usize), Short>
    requires { at ≤ length input.now }
    ensures number { IfOk result (λ taken. IsAt (u64_bytes taken.0) input.now at taken.1) }
    ensures fits { IfOk result (λ taken. taken.0 < 2 ^ 64) }
    ensures short { IsErr result ↔ (length input.now < at + 8) }
    ensures none { IfErr result (λ _. HasNoNumber u64_bytes (drop at input.now)) }
{
    if input.len() - at < 8 {
        return Err(Short);
    }
    Ok((BigEndian::read_u64(&input[at..]), at + 8))
}

/// The number whose bytes are at a place, as many as are asked for, from 0 to 8, and the place behind them.
pub fn take_number(input: &[u8], at: usize, size: usize) -> Result<(u64, usize), Short>
    requires at { at ≤ length input.now }
    requires size { size ≤ 8 }
    ensures number { IfOk result (λ taken. IsAt (number_bytes size taken.0) input.now at taken.1) }
    ensures fits { IfOk result (λ taken. taken.0 < 256 ^ size) }
    ensures short { IsErr result ↔ (length input.now < at + size) }
    ensures none { IfErr result (λ _. HasNoNumber (number_bytes size) (drop at input.now)) }
{
    if input.len() - at < size {
        return Err(Short);
    }
    if size == 0 {
        return Ok((0, at));
    }
    Ok((BigEndian::read_uint(&input[at..], size), at + size))
}

/// Where the piece begins and ends whose length, in four bytes, is at a place.
pub fn take_bytes(input: &[u8], at: usize) -> Result<(usize, usize), Short>
    requires { at ≤ length input.now }
    ensures piece { IfOk result (λ taken. IsPieceAt input.now at taken.0 taken.1) }
    ensures none { IfErr result (λ _. HasNoPiece (drop at input.now)) }
{
    let (size, start) = take_u32(input, at)?;
    if input.len() - start < size as usize {
        return Err(Short);
    }
    Ok((start, start + size as usize))
}
