//! Triples as bytes.
ghost use Rattle.std.specs.Prelude.{◌≡◌, ◌≤◌, ◌++◌, length, drop, OnOk, OnErr, IfOk, MatchResult};
ghost use Rattle.op_codec.specs.Agreement.{IsRead, IsRefused, IsWrittenForm};
ghost use Rattle.op_codec.specs.Stored.{IsShortTriple};
ghost use Rattle.op_codec.specs.Triples.{stored_triple, read_stored};
ghost use Rattle.rdf_terms.specs.Literal.{is_same};
ghost use Rattle.rdf_terms.specs.Spelling.{triple_text};
ghost use Rattle.rdf_terms.specs.Written.{IsWrittenSo};

use crate::faults::CodecFault;
use crate::fields::{pass_piece, read_u32};
use mld_bytes::put_bytes;
use rdf_terms::{Triple, TripleFault, read_triple, write_triple};
use std::alloc::{AllocError, Global};

/// Appends a triple: the length of its written form, and that form. Where memory runs out the buffer is as before. What
/// every triple keeps is told beside it.
pub fn append_stored(out: &mut Vec<u8>, triple: &Triple) -> Result<(), AllocError>
    requires { IsShortTriple triple.now }
    ensures ok { OnOk result (out.new.items ≡ out.old.items ++ stored_triple triple.now) }
    ensures err { OnErr result (out.new.items ≡ out.old.items) }
    ensures written { IsWrittenSo triple.now }
{
    triple.kept();
    let mut text = Vec::new(*out.allocator());
    write_triple(&mut text, triple)?;
    put_bytes(out, &text)
}

/// Whether a text is a triple's written form.
fn is_written_so(alloc: Global, triple: &Triple, text: &[u8]) -> Result<bool, AllocError>
    ensures { IfOk result (λ same. same ≡ is_same (triple_text triple.now) text.now) }
{
    let mut written = Vec::new(alloc);
    write_triple(&mut written, triple)?;
    Ok(written.as_slice() == text)
}

/// The triple whose written form a text is. The place is that of the text.
fn triple_of(alloc: Global, text: &[u8], place: usize) -> Result<Triple, CodecFault>
    ensures { IsWrittenForm text.now place result }
{
    let fault = CodecFault::NotInGrammar { place };
    let Ok(spelling) = str::from_utf8(text) else {
        return Err(fault);
    };
    let triple = match read_triple(alloc, spelling) {
        Ok(triple) => triple,
        Err(TripleFault::NotTriple { .. }) => return Err(fault),
        Err(TripleFault::TooLong) => return Err(fault),
        Err(TripleFault::NoMemory) => return Err(CodecFault::NoMemory),
    };
    if !is_written_so(alloc, &triple, text)? {
        return Err(fault);
    }
    Ok(triple)
}

/// Reads a triple.
#[tactic(auto, unfolding(crate::specs::Triples::read_stored))]
pub fn read_stored(alloc: Global, input: &[u8], at: usize) -> Result<(Triple, usize), CodecFault>
    requires { at ≤ length input.now }
    ensures { MatchResult result
        (λ read. IsRead (read_stored at (drop at input.now)) input.now read.0 read.1)
        (IsRefused (read_stored at (drop at input.now))) }
{
    let (size, start) = read_u32(input, at)?;
    let end = pass_piece(input, start, size as usize)?;
    let triple = triple_of(alloc, &input[start..end], start)?;
    Ok((triple, end))
}
