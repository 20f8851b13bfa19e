//! Fields of fixed size: bytes, numbers and pieces.
ghost use Rattle.std.specs.Prelude.{◌≡◌, ◌≤◌, ◌<◌, ◌+◌, ◌^◌, length, drop, take, MatchResult, IfOk};
ghost use Rattle.op_codec.specs.Agreement.{IsRead, IsRefused};
ghost use Rattle.op_codec.specs.Reading.{read_u8, read_u32, read_piece};

use crate::faults::CodecFault;
use mld_bytes::{take_u8, take_u32};

/// Reads a byte.
pub fn read_u8(input: &[u8], at: usize) -> Result<(u8, usize), CodecFault>
    requires { at ≤ length input.now }
    ensures { MatchResult result
        (λ read. IsRead (read_u8 at (drop at input.now)) input.now read.0 read.1)
        (IsRefused (read_u8 at (drop at input.now))) }
{
    match take_u8(input, at) {
        Ok(read) => Ok(read),
        Err(_) => Err(CodecFault::NotInGrammar { place: at }),
    }
}

/// Reads a number of four bytes.
pub fn read_u32(input: &[u8], at: usize) -> Result<(u32, usize), CodecFault>
    requires { at ≤ length input.now }
    ensures agrees { MatchResult result
        (λ read. IsRead (read_u32 at (drop at input.now)) input.now read.0 read.1)
        (IsRefused (read_u32 at (drop at input.now))) }
    ensures fits { IfOk result (λ read. read.0 < 2 ^ 32) }
{
    match take_u32(input, at) {
        Ok(read) => Ok(read),
        Err(_) => Err(CodecFault::NotInGrammar { place: at }),
    }
}

/// The place behind so many bytes.
#[tactic(auto, using(crate::proofs::FieldLaws::piece_read, crate::proofs::FieldLaws::piece_refused))]
pub fn pass_piece(input: &[u8], at: usize, size: usize) -> Result<usize, CodecFault>
    requires { at ≤ length input.now }
    ensures piece { MatchResult result
        (λ next. IsRead (read_piece size at (drop at input.now)) input.now (take size (drop at input.now)) next)
        (IsRefused (read_piece size at (drop at input.now))) }
    ensures next { IfOk result (λ next. next ≡ at + size) }
{
    if input.len() - at < size {
        return Err(CodecFault::NotInGrammar { place: at });
    }
    Ok(at + size)
}
