//! Messages that come in parts.
ghost use Rattle.std.specs.Prelude.{◌≡◌, ◌+◌, ◌<◌, ◌↔◌, IsTrue};
ghost use Rattle.wire_frames.specs.Assemblies.{state_value, GivesMessage};
ghost use Rattle.wire_frames.specs.MessageParts.{IsNextPart, IsSizedPart, Assembles, next_number};

use crate::faults::AssemblyFault;
use crate::kinds::PART_SIZE;
use mld_io::Piece;
use mld_ops::Message;
use op_codec::{CodecFault, read_message};
use std::alloc::Global;
use std::marker::Model;

/// The most parts of a message.
const PART_LIMIT: u32 = 1_024;

/// What an assembly gives for a part.
#[derive(Drop)]
pub enum Assembled {
    /// So many parts are left.
    Waiting(u32),
    /// It was the last part of this message.
    Whole(Message),
}

/// Puts the messages of a connection together, whose parts come in order. It keeps the bytes of the
/// parts that came of the message that is under way.
#[derive(Drop)]
pub struct Assembly {
    state: AssemblyState,
}

/// The number of the message that is due or under way, how many parts that has, the index of its
/// next part, and the bytes that came.
#[derive(Drop)]
pub struct AssemblyState {
    pub alloc: Global,
    pub number: u32,
    pub count: u32,
    pub index: u32,
    pub bytes: Vec<u8>,
    pub good: bool,
}

impl Model for Assembly {
    ghost use Rattle.wire_frames.specs.Assemblies.{state_value};
    ghost use Rattle.wire_frames.specs.MessageParts.{AssemblyValue};

    ghost Value = { AssemblyValue };

    ghost view = { λ a. state_value a.state };
}

impl Assembly {
    ghost use Rattle.wire_frames.specs.MessageParts.{fresh_assembly};

    /// An assembly that waits for the message of number 0.
    pub fn new(alloc: Global) -> Assembly
        ensures { result ≡ fresh_assembly }
    {
        Assembly {
            state: AssemblyState {
                alloc,
                number: 0,
                count: 0,
                index: 0,
                bytes: Vec::new(alloc),
                good: true,
            },
        }
    }

    /// Whether each part so far was the next one, and there was memory.
    pub fn is_good(&self) -> bool
        ensures { result ≡ self.now.good }
    {
        self.state.good
    }

    /// Takes a part: the message's number, the part's index, how many parts there are, and its bytes.
    pub fn add(
        &mut self,
        number: u32,
        index: u32,
        count: u32,
        piece: Piece,
    ) -> Result<Assembled, AssemblyFault>
        requires { IsTrue self.old.good }
        ensures { Assembles self.old number index count piece result self.new }
    {
        add_part(&mut self.state, number, index, count, piece.as_slice())
    }
}

/// Whether a part may be the next one.
fn is_next_part(state: &AssemblyState, number: u32, index: u32, count: u32, piece: &[u8]) -> bool
    ensures { IsTrue result ↔ IsNextPart (state_value state.now) number index count piece.now }
{
    let begun = state.count > 0;
    number == state.number
        && index == state.index
        && (!begun || count == state.count)
        && count <= PART_LIMIT
        && index < count
        && is_sized(index, count, piece)
}

/// Whether a part of this index has as many bytes as it should.
fn is_sized(index: u32, count: u32, piece: &[u8]) -> bool
    requires { index < count }
    ensures { IsTrue result ↔ IsSizedPart index count piece.now }
{
    if index + 1 < count {
        piece.len() == PART_SIZE
    } else {
        1 <= piece.len() && piece.len() <= PART_SIZE
    }
}

/// The number of the message behind the one of this number.
fn next_number(number: u32) -> u32
    ensures { result ≡ next_number number }
{
    if number == u32::MAX { 0 } else { number + 1 }
}

/// The message of these bytes.
fn whole_message(alloc: Global, bytes: &[u8]) -> Result<Message, AssemblyFault>
    ensures { GivesMessage bytes.now result }
{
    match read_message(alloc, bytes, 0) {
        Ok((message, end)) => {
            if end < bytes.len() {
                return Err(AssemblyFault::BadPart);
            }
            Ok(message)
        }
        Err(CodecFault::NotInGrammar { .. }) => Err(AssemblyFault::BadPart),
        Err(CodecFault::NoMemory) => Err(AssemblyFault::NoMemory),
    }
}

/// Takes a part. The assembly is good where that was taken.
fn add_part(
    state: &mut AssemblyState,
    number: u32,
    index: u32,
    count: u32,
    piece: &[u8],
) -> Result<Assembled, AssemblyFault>
    ensures { Assembles (state_value state.old) number index count piece.now result (state_value state.new) }
{
    let is_next = is_next_part(state, number, index, count, piece);
    state.good = false;
    if !is_next {
        return Err(AssemblyFault::BadPart);
    }
    state.bytes.extend_from_slice(piece)?;
    if index + 1 < count {
        state.count = count;
        state.index = index + 1;
        state.good = true;
        return Ok(Assembled::Waiting(count - (index + 1)));
    }
    let message = whole_message(state.alloc, state.bytes.as_slice())?;
    *state = AssemblyState {
        alloc: state.alloc,
        number: next_number(number),
        count: 0,
        index: 0,
        bytes: Vec::new(state.alloc),
        good: true,
    };
    Ok(Assembled::Whole(message))
}
