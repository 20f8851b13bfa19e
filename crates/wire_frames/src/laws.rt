//! Laws of frames and parts, which hold for all streams and all messages. These functions do nothing: their clauses are
//! the laws.
ghost use Rattle.wire_frames.specs.FrameLaws.{OneStream, AnyCutting, WrittenRead};
ghost use Rattle.wire_frames.specs.PartLaws.{PartsGiveBack};

/// A stream has one list of frames and at most one first fault.
pub fn one_stream()
    ensures { OneStream }
{}

/// Frames don't depend on how their stream is cut in pieces.
pub fn any_cutting()
    ensures { AnyCutting }
{}

/// What is written for frames is read as them, whatever follows.
pub fn written_read()
    ensures { WrittenRead }
{}

/// The parts of a message give it back.
pub fn parts_give_back()
    ensures { PartsGiveBack }
{}
