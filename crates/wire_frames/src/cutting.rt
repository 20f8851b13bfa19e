//! How the bytes of a stream are cut in frames.
ghost use Rattle.std.specs.Prelude.{◌≤◌, ◌<◌, length, IfOk};
ghost use Rattle.wire_frames.specs.Frames.{payload_limit, reply_kind};
ghost use Rattle.wire_frames.specs.FrameReading.{IsOnlyFrameOf, StandsNext, IsCut};

use crate::faults::FrameFault;
use crate::kinds::{
    Frame, HELLO_KIND, LAST_KIND, MORE_KIND, PART_KIND, PART_SIZE, PAYLOAD_LIMIT, REFUSE_KIND,
    REQUEST_KIND,
};
use mld_bytes::{take_bytes, take_u8, take_u32};
use mld_io::Piece;
use std::alloc::{AllocError, Global};
use text_rules::Text;
use uuid::Uuid;

/// How many bytes of a Hello's payload come before its domain.
const ID_END: usize = 17;

/// What the rest of an input begins with.
#[derive(Drop)]
pub enum Next {
    /// A frame, and the place behind it.
    Frame(Frame, usize),
    /// No whole frame so far.
    Waiting,
    /// A whole payload of no frame.
    Bad,
    /// A header that announces too much.
    Long,
}

/// The frames of an input, the place behind them, and the fault there, if there is one.
#[derive(Drop)]
pub struct CutFrames {
    pub frames: Vec<Frame>,
    pub end: usize,
    pub fault: Option<FrameFault>,
}

/// The Hello of a payload.
fn hello_of(alloc: Global, payload: &[u8]) -> Result<Option<Frame>, AllocError>
    requires { length payload.now ≤ payload_limit }
    ensures { IfOk result (λ found. IsOnlyFrameOf 1 payload.now found) }
{
    if payload.len() < ID_END {
        return Ok(None);
    }
    let Ok((start, stop)) = take_bytes(payload, ID_END) else {
        return Ok(None);
    };
    if stop < payload.len() {
        return Ok(None);
    }
    let Ok(domain) = str::from_utf8(&payload[start..stop]) else {
        return Ok(None);
    };
    let mut id = [0; 16];
    id.copy_from_slice(&payload[1..ID_END]);
    let domain = Text::new(alloc, domain)?;
    Ok(Some(Frame::Hello(payload[0], Uuid::from_bytes(id), domain)))
}

/// The part of a payload.
fn part_of(alloc: Global, payload: &[u8]) -> Result<Option<Frame>, AllocError>
    requires { length payload.now ≤ payload_limit }
    ensures { IfOk result (λ found. IsOnlyFrameOf 2 payload.now found) }
{
    let Ok((number, at)) = take_u32(payload, 0) else {
        return Ok(None);
    };
    let Ok((index, next)) = take_u32(payload, at) else {
        return Ok(None);
    };
    let Ok((count, start)) = take_u32(payload, next) else {
        return Ok(None);
    };
    if start == payload.len() {
        return Ok(None);
    }
    let piece = Piece::copy_in(alloc, &payload[start..])?;
    Ok(Some(Frame::Part(number, index, count, piece)))
}

/// The part of a reply of a payload.
fn reply_of(alloc: Global, payload: &[u8], more: bool) -> Result<Option<Frame>, AllocError>
    ensures { IfOk result (λ found. IsOnlyFrameOf (reply_kind more) payload.now found) }
{
    if payload.len() > PART_SIZE {
        return Ok(None);
    }
    Ok(Some(Frame::Reply(Piece::copy_in(alloc, payload)?, more)))
}

/// The refusal of a payload.
fn refuse_of(payload: &[u8]) -> Option<Frame>
    ensures { IsOnlyFrameOf 6 payload.now result }
{
    match payload {
        [code] => Some(Frame::Refuse(*code)),
        _ => None,
    }
}

/// The frame of a kind and a payload.
fn frame_of(alloc: Global, kind: u8, payload: &[u8]) -> Result<Option<Frame>, AllocError>
    requires { length payload.now ≤ payload_limit }
    ensures { IfOk result (λ found. IsOnlyFrameOf kind payload.now found) }
{
    match kind {
        HELLO_KIND => hello_of(alloc, payload),
        PART_KIND => part_of(alloc, payload),
        REQUEST_KIND => Ok(Some(Frame::Request(Piece::copy_in(alloc, payload)?))),
        MORE_KIND => reply_of(alloc, payload, true),
        LAST_KIND => reply_of(alloc, payload, false),
        REFUSE_KIND => Ok(refuse_of(payload)),
        _ => Ok(None),
    }
}

/// What an input begins with at a place. Of a frame that isn't whole the header alone is looked at.
fn next_frame(alloc: Global, input: &[u8], at: usize) -> Result<Next, AllocError>
    requires { at ≤ length input.now }
    ensures { IfOk result (λ next. StandsNext input.now at next) }
{
    let Ok((kind, next)) = take_u8(input, at) else {
        return Ok(Next::Waiting);
    };
    let Ok((announced, start)) = take_u32(input, next) else {
        return Ok(Next::Waiting);
    };
    let size = announced as usize;
    if size > PAYLOAD_LIMIT {
        return Ok(Next::Long);
    }
    if input.len() - start < size {
        return Ok(Next::Waiting);
    }
    let end = start + size;
    match frame_of(alloc, kind, &input[start..end])? {
        Some(frame) => Ok(Next::Frame(frame, end)),
        None => Ok(Next::Bad),
    }
}

/// The frames of an input, whose first byte has this place in its stream.
pub fn cut_frames(alloc: Global, input: &[u8], place: u64) -> Result<CutFrames, AllocError>
    ensures { IfOk result (λ cut. IsCut input.now place cut) }
{
    let mut frames = Vec::new(alloc);
    let mut end = 0;
    loop {
        match next_frame(alloc, input, end)? {
            Next::Frame(frame, next) => {
                frames.push(frame)?;
                end = next;
            }
            Next::Waiting => {
                let fault = None;
                return Ok(CutFrames { frames, end, fault });
            }
            Next::Bad => {
                let place = place.saturating_add(end as u64);
                let fault = Some(FrameFault::BadFrame { place });
                return Ok(CutFrames { frames, end, fault });
            }
            Next::Long => {
                let place = place.saturating_add(end as u64);
                let fault = Some(FrameFault::TooLong { place });
                return Ok(CutFrames { frames, end, fault });
            }
        }
    }
}
