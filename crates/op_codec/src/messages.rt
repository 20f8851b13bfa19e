//! Messages as bytes.
ghost use Rattle.std.specs.Prelude.{◌≡◌, ◌≤◌, ◌++◌, length, drop, OnOk, OnErr, IfOk, MatchResult};
ghost use Rattle.op_codec.specs.Agreement.{IsRead, IsRefused};
ghost use Rattle.rdf_terms.specs.Kept.{KeepsStart};
ghost use Rattle.op_codec.specs.CodecLaws.{IsWrittenIn};
ghost use Rattle.op_codec.specs.MessageBytes.{id_size, snapshot_bytes, read_snapshot, give_bytes, read_give, message_bytes, read_carried, read_message};
ghost use Rattle.op_codec.specs.Reading.{read_piece};
ghost use Rattle.op_codec.specs.Stored.{IsShortSnapshot, IsShortMessage, IsMessage};
ghost use Rattle.mld_ops.specs.Messages.{snapshot_value, give_value, message_value};

use crate::clocks::{append_clock, read_clock};
use crate::entries::{append_entry, read_entry};
use crate::faults::CodecFault;
use crate::fields::{pass_piece, read_u8};
use crate::pairs::{append_list, read_pairs};
use crate::paths::{append_path, read_path};
use mld_bytes::put_u8;
use mld_ops::{Give, Given, Message, PairList, Snapshot};
use std::alloc::{AllocError, Global};
use uuid::Uuid;

const ENTRY_KIND: u8 = 1;

const WANT_KIND: u8 = 2;

const SNAPSHOT_KIND: u8 = 3;

const ASK_KIND: u8 = 4;

const GIVE_KIND: u8 = 5;

/// Appends an id.
pub fn append_id(out: &mut Vec<u8>, id: &Uuid) -> Result<(), AllocError>
    ensures ok { OnOk result (out.new.items ≡ out.old.items ++ id.now) }
    ensures err { OnErr result (out.new.items ≡ out.old.items) }
{
    out.extend_from_slice(id.as_bytes())
}

/// Reads an id.
pub fn read_id(input: &[u8], at: usize) -> Result<(Uuid, usize), CodecFault>
    requires { at ≤ length input.now }
    ensures { MatchResult result
        (λ read. IsRead (read_piece id_size at (drop at input.now)) input.now read.0 read.1)
        (IsRefused (read_piece id_size at (drop at input.now))) }
{
    let end = pass_piece(input, at, 16)?;
    let mut bytes = [0; 16];
    bytes.copy_from_slice(&input[at..end]);
    Ok((Uuid::from_bytes(bytes), end))
}

/// Appends a snapshot.
pub fn append_snapshot(out: &mut Vec<u8>, snapshot: &Snapshot) -> Result<(), AllocError>
    requires { IsShortSnapshot (snapshot_value snapshot.now) }
    ensures ok { OnOk result (out.new.items ≡ out.old.items ++ snapshot_bytes (snapshot_value snapshot.now)) }
    ensures err { OnErr result (KeepsStart out.old.items out.new.items) }
{
    append_clock(out, &snapshot.clock)?;
    append_list(out, &snapshot.tagged)
}

/// Reads a snapshot, whose clock covers its pairs.
#[tactic(auto, unfolding(crate::specs::MessageBytes::read_snapshot))]
pub fn read_snapshot(
    alloc: Global,
    input: &[u8],
    at: usize,
) -> Result<(Snapshot, usize), CodecFault>
    requires { at ≤ length input.now }
    ensures { MatchResult result
        (λ read. IsRead (read_snapshot at (drop at input.now)) input.now (snapshot_value read.0) read.1)
        (IsRefused (read_snapshot at (drop at input.now))) }
{
    let (clock, next) = read_clock(alloc, input, at)?;
    let (list, end) = read_pairs(alloc, input, next, Some(&clock))?;
    let tagged = PairList::from_list(alloc, &clock, list)?;
    Ok((Snapshot { clock, tagged }, end))
}

/// Appends a leaf that is given.
fn append_give(out: &mut Vec<u8>, give: &Give) -> Result<(), AllocError>
    requires { IsShortSnapshot (snapshot_value give.now.snapshot) }
    ensures ok { OnOk result (out.new.items ≡ out.old.items ++ give_bytes (give_value give.now)) }
    ensures err { OnErr result (KeepsStart out.old.items out.new.items) }
{
    append_id(out, &give.id)?;
    append_path(out, &give.path)?;
    append_snapshot(out, &give.snapshot)
}

/// Reads a leaf that is given.
#[tactic(auto, unfolding(crate::specs::MessageBytes::read_give))]
fn read_give(alloc: Global, input: &[u8], at: usize) -> Result<(Give, usize), CodecFault>
    requires { at ≤ length input.now }
    ensures { MatchResult result
        (λ read. IsRead (read_give at (drop at input.now)) input.now (give_value read.0) read.1)
        (IsRefused (read_give at (drop at input.now))) }
{
    let (id, next) = read_id(input, at)?;
    let (path, more) = read_path(input, next)?;
    let (snapshot, end) = read_snapshot(alloc, input, more)?;
    Ok((Give { id, path, snapshot }, end))
}

/// Appends a message.
#[tactic(auto, unfolding(crate::specs::MessageBytes::message_bytes))]
fn append_message(out: &mut Vec<u8>, message: &Message) -> Result<(), AllocError>
    requires { IsShortMessage (message_value message.now) }
    ensures ok { OnOk result (out.new.items ≡ out.old.items ++ message_bytes (message_value message.now)) }
    ensures err { OnErr result (KeepsStart out.old.items out.new.items) }
{
    match message {
        Message::Range(entry) => {
            put_u8(out, ENTRY_KIND)?;
            append_entry(out, entry)
        }
        Message::Want(clock) => {
            put_u8(out, WANT_KIND)?;
            append_clock(out, clock)
        }
        Message::Snapshot(snapshot) => {
            put_u8(out, SNAPSHOT_KIND)?;
            append_snapshot(out, snapshot)
        }
        Message::JoinAsk(id) => {
            put_u8(out, ASK_KIND)?;
            append_id(out, id)
        }
        Message::JoinGive(give) => {
            put_u8(out, GIVE_KIND)?;
            append_give(out, give.give())
        }
    }
}

/// Appends a message in bytes: its kind and what it carries. Where memory runs out the buffer is as before.
///
/// Each of its lists has fewer than 2^32 items, and the written form of each triple fewer than 2^32 bytes.
pub fn write_message(out: &mut Vec<u8>, message: &Message) -> Result<(), AllocError>
    requires { IsShortMessage (message_value message.now) }
    ensures ok { OnOk result (out.new.items ≡ out.old.items ++ message_bytes (message_value message.now)) }
    ensures err { OnErr result (out.new.items ≡ out.old.items) }
{
    let start = out.len();
    let written = append_message(out, message);
    if written.is_err() {
        out.truncate(start);
    }
    written
}

/// Reads what a message of a kind carries. The message begins at a place before it.
#[tactic(auto, unfolding(crate::specs::MessageBytes::read_carried))]
fn read_carried(
    alloc: Global,
    input: &[u8],
    place: usize,
    kind: u8,
    next: usize,
) -> Result<(Message, usize), CodecFault>
    requires { next ≤ length input.now }
    ensures { MatchResult result
        (λ read. IsRead (read_carried place kind next (drop next input.now)) input.now (message_value read.0) read.1)
        (IsRefused (read_carried place kind next (drop next input.now))) }
{
    match kind {
        ENTRY_KIND => {
            let (entry, end) = read_entry(alloc, input, next)?;
            Ok((Message::Range(entry), end))
        }
        WANT_KIND => {
            let (clock, end) = read_clock(alloc, input, next)?;
            Ok((Message::Want(clock), end))
        }
        SNAPSHOT_KIND => {
            let (snapshot, end) = read_snapshot(alloc, input, next)?;
            Ok((Message::Snapshot(snapshot), end))
        }
        ASK_KIND => {
            let (id, end) = read_id(input, next)?;
            Ok((Message::JoinAsk(id), end))
        }
        GIVE_KIND => {
            let (give, end) = read_give(alloc, input, next)?;
            Ok((Message::JoinGive(Given::new(alloc, give)?), end))
        }
        _ => Err(CodecFault::NotInGrammar { place }),
    }
}

/// Reads a message from a place of an input, in bytes from its start and at most its length, and the place behind the
/// message. Refused with `NotInGrammar` where no message is spelled there, with the place of what is wrong in the input.
#[tactic(auto, unfolding(crate::specs::MessageBytes::read_message))]
pub fn read_message(alloc: Global, input: &[u8], at: usize) -> Result<(Message, usize), CodecFault>
    requires { at ≤ length input.now }
    ensures agrees { MatchResult result
        (λ read. IsRead (read_message at (drop at input.now)) input.now (message_value read.0) read.1)
        (IsRefused (read_message at (drop at input.now))) }
    ensures written { IfOk result
        (λ read. IsWrittenIn IsMessage message_bytes at input.now (message_value read.0) read.1) }
{
    let (kind, next) = read_u8(input, at)?;
    read_carried(alloc, input, at, kind, next)
}
