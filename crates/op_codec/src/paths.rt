//! Paths as bytes.
ghost use Rattle.std.specs.Prelude.{◌≡◌, ◌↔◌, ◌%◌, IsTrue, ◌≤◌, ◌<◌, ◌-◌, ◌*◌, ◌/◌, ◌^◌, ◌++◌, length, drop, OnOk, OnErr, MatchResult, if◌then◌else◌};
ghost use Rattle.op_codec.specs.Agreement.{IsRead, IsRefused};
ghost use Rattle.rdf_terms.specs.Kept.{KeepsStart};
ghost use Rattle.op_codec.specs.Paths.{letter_bytes, spare_bits, path_bytes, read_path};
ghost use Rattle.tree_clock.specs.Letters.{number_of};
ghost use Rattle.tree_clock.specs.Limits.{path_limit};
ghost use Rattle.tree_clock.specs.Path.{letters};

use crate::faults::CodecFault;
use mld_bytes::{put_number, put_u8, take_number, take_u8};
use std::alloc::AllocError;
use tree_clock::{PATH_LIMIT, Path};

/// How many bytes so many letters take.
fn letter_bytes(count: u8) -> usize
    requires { count ≤ path_limit }
    ensures value { result ≡ letter_bytes count }
    ensures at_most { result ≤ 8 }
{
    (usize::from(count) + 7) / 8
}

/// What the letters are worth beside the bits behind them: a power of 2.
fn spare_worth(count: u8) -> u64
    requires { count ≤ path_limit }
    ensures value { result ≡ 2 ^ spare_bits count }
    ensures positive { 0 < result }
{
    let spare = 8 * letter_bytes(count) - usize::from(count);
    1 << spare
}

/// Whether the bits behind the letters are 0: the number is a multiple of what the letters are worth.
fn are_clear(number: u64, worth: u64) -> bool
    requires { 0 < worth }
    ensures { IsTrue result ↔ (number % worth ≡ 0) }
{
    number % worth == 0
}

/// The path of the letters that the lowest bits of a number spell.
fn path_of(bits: u64, count: u8) -> Path
    requires { count ≤ path_limit }
    ensures { result ≡ letters count bits }
{
    let mut path = Path::root();
    for i in 0..count {
        path = path.child(bits >> (count - 1 - i) & 1 == 1);
    }
    path
}

/// The bit of a letter.
fn bit_of(one: bool) -> u64
    ensures { result ≡ (if one then 1 else 0) }
{
    u64::from(one)
}

/// The number whose lowest bits spell the letters of a path.
fn number_of(path: &Path) -> u64
    ensures value { result ≡ number_of path.now }
    ensures fits { result < 2 ^ length path.now }
{
    let mut bits = 0;
    for i in 0..path.len() {
        bits = 2 * bits + bit_of(path.letter(i));
    }
    bits
}

/// Appends a path.
pub fn append_path(out: &mut Vec<u8>, path: &Path) -> Result<(), AllocError>
    ensures ok { OnOk result (out.new.items ≡ out.old.items ++ path_bytes path.now) }
    ensures err { OnErr result (KeepsStart out.old.items out.new.items) }
{
    let count = path.len();
    put_u8(out, count)?;
    put_number(
        out,
        number_of(path) * spare_worth(count),
        letter_bytes(count),
    )
}

/// Reads a path. What is wrong with it is wrong where it begins.
pub fn read_path(input: &[u8], at: usize) -> Result<(Path, usize), CodecFault>
    requires { at ≤ length input.now }
    ensures { MatchResult result
        (λ read. IsRead (read_path at (drop at input.now)) input.now read.0 read.1)
        (IsRefused (read_path at (drop at input.now))) }
{
    let fault = CodecFault::NotInGrammar { place: at };
    let Ok((count, start)) = take_u8(input, at) else {
        return Err(fault);
    };
    if count > PATH_LIMIT {
        return Err(fault);
    }
    let Ok((number, next)) = take_number(input, start, letter_bytes(count)) else {
        return Err(fault);
    };
    let worth = spare_worth(count);
    if !are_clear(number, worth) {
        return Err(fault);
    }
    Ok((path_of(number / worth, count), next))
}
