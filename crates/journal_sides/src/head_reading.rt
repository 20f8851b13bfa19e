//! The reading of heads.
ghost use Rattle.std.specs.Prelude.{◌≡◌, ◌≤◌, ◌++◌, ◌∷◌, [], length, drop, OnOk, MatchResult};
ghost use Rattle.text_rules.specs.Domain.{is_domain};
ghost use Rattle.text_rules.specs.Iri.{is_absolute};
ghost use Rattle.op_codec.specs.Agreement.{IsRead, IsRefused, TakesItem, MissesItem};
ghost use Rattle.op_codec.specs.StoredLists.{is_above};
ghost use Rattle.rdf_terms.specs.Order.{iri_cmp};
ghost use Rattle.journal_sides.specs.RecordsRead.{HasText, MissesText};
ghost use Rattle.journal_sides.specs.Format.{head_mark};
ghost use Rattle.journal_sides.specs.Heads.{read_mark, read_generation, read_text, read_props, read_head};
ghost use Rattle.journal_sides.specs.Openings.{opening_value};

use crate::heads::Head;
use mld_bytes::take_u64;
use mld_ops::Snapshot;
use op_codec::{CodecFault, pass_piece, read_id, read_path, read_snapshot, read_u32};
use rdf_terms::{Iri, TermFault, cmp_iris};
use std::alloc::{AllocError, Global};
use text_rules::{Text, is_domain};

/// The first bytes of a head.
pub(crate) const HEAD_MARK: &[u8; 4] = b"mld1";

/// Reads the mark, and gives the place behind it.
#[tactic(auto, unfolding(crate::specs::Heads::read_mark))]
fn read_mark(input: &[u8], at: usize) -> Result<usize, CodecFault>
    requires { at ≤ length input.now }
    ensures { MatchResult result
        (λ next. IsRead (read_mark at (drop at input.now)) input.now head_mark next)
        (IsRefused (read_mark at (drop at input.now))) }
{
    let next = pass_piece(input, at, 4)?;
    if input[at..next] != HEAD_MARK[..] {
        return Err(CodecFault::NotInGrammar { place: at });
    }
    Ok(next)
}

/// Reads a generation.
fn read_generation(input: &[u8], at: usize) -> Result<(u64, usize), CodecFault>
    requires { at ≤ length input.now }
    ensures { MatchResult result
        (λ read. IsRead (read_generation at (drop at input.now)) input.now read.0 read.1)
        (IsRefused (read_generation at (drop at input.now))) }
{
    match take_u64(input, at) {
        Ok(read) => Ok(read),
        Err(_) => Err(CodecFault::NotInGrammar { place: at }),
    }
}

/// Where the bytes of a text begin and end, behind its length.
#[tactic(auto, unfolding(crate::specs::Heads::read_text))]
fn pass_text(input: &[u8], at: usize) -> Result<(usize, usize), CodecFault>
    requires { at ≤ length input.now }
    ensures { MatchResult result
        (λ read. HasText input.now at read.0 read.1)
        (MissesText input.now at) }
{
    let (size, start) = read_u32(input, at)?;
    let stop = pass_piece(input, start, size as usize)?;
    Ok((start, stop))
}

/// Reads the name of a domain.
fn read_domain(alloc: Global, input: &[u8], at: usize) -> Result<(Text, usize), CodecFault>
    requires { at ≤ length input.now }
    ensures { MatchResult result
        (λ read. IsRead (read_text is_domain at (drop at input.now)) input.now read.0 read.1)
        (IsRefused (read_text is_domain at (drop at input.now))) }
{
    let (start, stop) = pass_text(input, at)?;
    let fault = CodecFault::NotInGrammar { place: start };
    let Ok(text) = str::from_utf8(&input[start..stop]) else {
        return Err(fault);
    };
    if !is_domain(text) {
        return Err(fault);
    }
    Ok((Text::new(alloc, text)?, stop))
}

/// Reads an IRI.
fn read_iri(alloc: Global, input: &[u8], at: usize) -> Result<(Iri, usize), CodecFault>
    requires { at ≤ length input.now }
    ensures { MatchResult result
        (λ read. IsRead (read_text is_absolute at (drop at input.now)) input.now read.0 read.1)
        (IsRefused (read_text is_absolute at (drop at input.now))) }
{
    let (start, stop) = pass_text(input, at)?;
    let fault = CodecFault::NotInGrammar { place: start };
    let Ok(text) = str::from_utf8(&input[start..stop]) else {
        return Err(fault);
    };
    match Iri::new(alloc, text) {
        Ok(iri) => Ok((iri, stop)),
        Err(TermFault::NoMemory) => Err(CodecFault::NoMemory),
        Err(_) => Err(fault),
    }
}

/// Whether a property is above the last of those before it.
fn is_above(props: &[Iri], prop: &Iri) -> bool
    ensures { result ≡ is_above iri_cmp props.now prop.now }
{
    match props.last() {
        Some(last) => cmp_iris(last, prop).is_lt(),
        None => true,
    }
}

/// Reads a property behind others, and gives the place behind it.
fn read_next_prop(
    alloc: Global,
    input: &[u8],
    place: usize,
    props: &mut Vec<Iri>,
) -> Result<usize, CodecFault>
    requires { place ≤ length input.now }
    ensures { MatchResult result
        (TakesItem (read_text is_absolute) (is_above iri_cmp) input.now props.old.items place props.new.items)
        (MissesItem (read_text is_absolute) (is_above iri_cmp) input.now props.old.items place) }
{
    let (prop, next) = read_iri(alloc, input, place)?;
    if !is_above(props, &prop) {
        return Err(CodecFault::NotInGrammar { place });
    }
    push_prop(props, prop)?;
    Ok(next)
}

/// Adds a property at the end.
fn push_prop(props: &mut Vec<Iri>, prop: Iri) -> Result<(), AllocError>
    ensures { OnOk result (props.new.items ≡ props.old.items ++ prop ∷ []) }
{
    props.push(prop)?;
    Ok(())
}

/// Reads single-valued properties.
fn read_props(alloc: Global, input: &[u8], at: usize) -> Result<(Vec<Iri>, usize), CodecFault>
    requires { at ≤ length input.now }
    ensures { MatchResult result
        (λ read. IsRead (read_props at (drop at input.now)) input.now (read.0).items read.1)
        (IsRefused (read_props at (drop at input.now))) }
{
    let (count, mut place) = read_u32(input, at)?;
    // Properties are read one by one, so that a count by itself asks for no memory.
    let mut props = Vec::new(alloc);
    for _done in 0..count {
        place = read_next_prop(alloc, input, place, &mut props)?;
    }
    Ok((props, place))
}

/// A generation and its head.
#[derive(Drop)]
pub(crate) struct Opening {
    pub generation: u64,
    pub head: Head,
}

/// Reads a head with its generation.
#[tactic(auto, unfolding(crate::specs::Heads::read_head))]
pub(crate) fn read_head(
    alloc: Global,
    input: &[u8],
    at: usize,
) -> Result<(Opening, usize), CodecFault>
    requires { at ≤ length input.now }
    ensures { MatchResult result
        (λ read. IsRead (read_head at (drop at input.now)) input.now (opening_value read.0) read.1)
        (IsRefused (read_head at (drop at input.now))) }
{
    let next = read_mark(input, at)?;
    let (generation, next) = read_generation(input, next)?;
    let (id, next) = read_id(input, next)?;
    let (domain, next) = read_domain(alloc, input, next)?;
    let (props, next) = read_props(alloc, input, next)?;
    let (path, next) = read_path(input, next)?;
    let (Snapshot { clock, tagged }, end) = read_snapshot(alloc, input, next)?;
    let head = Head {
        id,
        domain,
        props,
        path,
        base: clock,
        tagged,
    };
    Ok((Opening { generation, head }, end))
}
