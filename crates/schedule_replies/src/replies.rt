//! Replies, and their text: lines that end with LF, added at the end of an output.
ghost use Rattle.std.specs.Prelude.{◌≡◌, ◌++◌, ◌∷◌, [], OnOk, OnErr};
ghost use Rattle.std.specs.List.{flat_map, slice_get};
ghost use Rattle.std.specs.Option.{option_to_list};
ghost use Rattle.rdf_terms.specs.Kept.{KeepsStart};
ghost use Rattle.mld_model.specs.Reply.{Ready, PropertySet, Did, Single, Answer, Joined, Shows, ThenCrashed};
ghost use Rattle.schedule_model.specs.Characters.{line_end};
ghost use Rattle.schedule_model.specs.ReplyText.{reply_text, pair_line, spaced_range};
ghost use Rattle.schedule_replies.specs.Replies.{reply_value, numbers_between};

use crate::pieces::{push_count, push_dot, push_numbered, push_path, push_range};
use graph_index::{Graph, LentPairs};
use rdf_terms::{Iri, Term, Triple, write_triple};
use std::alloc::AllocError;
use tree_clock::{Dot, Path, Range, Ranges};

/// Room for the lines of so many pairs is made at once.
const AHEAD: usize = 32;

/// About as many bytes as a dot, the marks and spaces of a line, and its end have.
const REST: usize = 32;

/// What a step answers.
#[derive(Drop)]
pub enum Reply<'a> {
    /// `ready N`: so many clones are ready.
    Ready(u8),
    /// `did DOT mM`: the operation of the dot was made, and sent in the message of the number.
    Did {
        /// The dot.
        dot: Dot,
        /// The number of the message.
        message: usize,
    },
    /// `ok`: a single-valued property is set.
    PropertySet,
    /// `none`: there was nothing to do, and no operation was made.
    NoOperation,
    /// `single`, then both: the update would give the subject a second value of the single-valued property, and no operation was made.
    Single(Iri, Iri),
    /// `took`, then each range: the ranges were taken, in this order.
    Took(Ranges),
    /// `merged`, then each range: a snapshot was merged, and these ranges were taken then that had been held back, in this order.
    Merged(Ranges),
    /// `held`: the range is held back.
    Held,
    /// `held full`: the range would be held back, and too many are.
    HeldFull,
    /// `known`: the range was known, or all that the snapshot has.
    Known,
    /// `has K`, then a line of dot and triple for each pair: these are the pairs of the clone.
    Shows(&'a Graph),
    /// A line of JSON: this is the answer to a query, without its LF.
    Tells(Vec<u8>),
    /// `too many`: the query or the update has more solutions than it may have.
    TooMany,
    /// `same`: two clones know the same dots.
    Same,
    /// `less`: the first clone's dots are a proper part of the second's.
    Less,
    /// `more`: the second clone's dots are a proper part of the first's.
    More,
    /// `apart`: each clone knows a dot that the other lacks.
    Apart,
    /// `sent mM`: what was asked for, a leaf or what a clone lacks, was asked for in the message of the number.
    Sent(usize),
    /// `answer`, then each number: what was asked for was sent in the messages of these numbers.
    Answer {
        /// The number of the first message.
        first: usize,
        /// The number after that of the last one.
        end: usize,
    },
    /// `nothing`: who asked lacks nothing of what the clone keeps in its journal.
    Nothing,
    /// `kept K`: the journal was compacted or truncated, and so many ranges are kept in it.
    Kept(u64),
    /// `joined P`: the clone is live at the path.
    Joined(Path),
    /// `deep`: the leaf is too deep to be forked.
    Deep,
    /// `no message`: no message has the number.
    NoMessage,
    /// `ignored`: the clone takes no message of this kind.
    Ignored,
    /// `absent`: the clone is absent.
    Absent,
    /// `asking`: the clone asks for a leaf.
    Asking,
    /// `down`: the clone is stopped.
    Down,
    /// `live`: the clone is live.
    Live,
    /// `stopped`: the live clone was stopped.
    Stopped,
    /// `opened`: the clone that was down is live.
    Opened,
    /// `crashed`: the device of the clone crashed before the command was done.
    Crashed,
}

/// Adds the text of a reply to an output. Where memory is wanting, the output is as it was.
pub fn push_reply(out: &mut Vec<u8>, reply: &Reply<'_>) -> Result<(), AllocError>
    ensures ok { OnOk result (out.new.items ≡ out.old.items ++ reply_text (reply_value reply.now)) }
    ensures err { OnErr result (out.new.items ≡ out.old.items) }
{
    let before = out.len();
    let done = push_text(out, reply);
    if done.is_err() {
        out.truncate(before);
    }
    done
}

/// Adds the text of a reply to an output, and then `crashed`: the command was done, and then the device of its clone crashed. Where memory
/// is wanting, the output is as it was.
pub fn push_then_crashed(out: &mut Vec<u8>, reply: &Reply<'_>) -> Result<(), AllocError>
    ensures ok { OnOk result (out.new.items ≡ out.old.items ++ reply_text (ThenCrashed (reply_value reply.now))) }
    ensures err { OnErr result (out.new.items ≡ out.old.items) }
{
    let before = out.len();
    let done = push_both(out, reply);
    if done.is_err() {
        out.truncate(before);
    }
    done
}

/// Adds `ready N` to an output. Where memory is wanting, the output is as it was.
pub fn push_ready(out: &mut Vec<u8>, count: u8) -> Result<(), AllocError>
    ensures ok { OnOk result (out.new.items ≡ out.old.items ++ reply_text (Ready count)) }
    ensures err { OnErr result (out.new.items ≡ out.old.items) }
{
    push_reply(out, &Reply::Ready(count))
}

/// Adds `ok` to an output. Where memory is wanting, the output is as it was.
pub fn push_property_set(out: &mut Vec<u8>) -> Result<(), AllocError>
    ensures ok { OnOk result (out.new.items ≡ out.old.items ++ reply_text PropertySet) }
    ensures err { OnErr result (out.new.items ≡ out.old.items) }
{
    push_reply(out, &Reply::PropertySet)
}

/// Adds the text of a reply to an output, and then `crashed`. Where memory is wanting, what stood there still stands in front.
fn push_both(out: &mut Vec<u8>, reply: &Reply<'_>) -> Result<(), AllocError>
    ensures ok { OnOk result (out.new.items ≡ out.old.items ++ reply_text (ThenCrashed (reply_value reply.now))) }
    ensures err { OnErr result (KeepsStart out.old.items out.new.items) }
{
    push_text(out, reply)?;
    out.extend_from_slice(b"crashed\n")
}

/// Adds the text of a reply to an output. Where memory is wanting, what stood there still stands in front.
fn push_text(out: &mut Vec<u8>, reply: &Reply<'_>) -> Result<(), AllocError>
    ensures ok { OnOk result (out.new.items ≡ out.old.items ++ reply_text (reply_value reply.now)) }
    ensures err { OnErr result (KeepsStart out.old.items out.new.items) }
{
    match reply {
        Reply::Ready(count) => push_count(out, b"ready ", u64::from(*count)),
        Reply::Did { dot, message } => push_did(out, dot, *message),
        Reply::PropertySet => out.extend_from_slice(b"ok\n"),
        Reply::NoOperation => out.extend_from_slice(b"none\n"),
        Reply::Single(subject, property) => push_single(out, subject, property),
        Reply::Took(ranges) => push_ranges(out, b"took", ranges.as_slice()),
        Reply::Merged(ranges) => push_ranges(out, b"merged", ranges.as_slice()),
        Reply::Held => out.extend_from_slice(b"held\n"),
        Reply::HeldFull => out.extend_from_slice(b"held full\n"),
        Reply::Known => out.extend_from_slice(b"known\n"),
        Reply::Shows(pairs) => push_pairs(out, pairs),
        Reply::Tells(text) => push_line(out, text.as_slice()),
        Reply::TooMany => out.extend_from_slice(b"too many\n"),
        Reply::Same => out.extend_from_slice(b"same\n"),
        Reply::Less => out.extend_from_slice(b"less\n"),
        Reply::More => out.extend_from_slice(b"more\n"),
        Reply::Apart => out.extend_from_slice(b"apart\n"),
        Reply::Sent(message) => push_count(out, b"sent m", *message as u64),
        Reply::Answer { first, end } => push_answered(out, *first, *end),
        Reply::Nothing => out.extend_from_slice(b"nothing\n"),
        Reply::Kept(count) => push_count(out, b"kept ", *count),
        Reply::Joined(path) => push_joined(out, path),
        Reply::Deep => out.extend_from_slice(b"deep\n"),
        Reply::NoMessage => out.extend_from_slice(b"no message\n"),
        Reply::Ignored => out.extend_from_slice(b"ignored\n"),
        Reply::Absent => out.extend_from_slice(b"absent\n"),
        Reply::Asking => out.extend_from_slice(b"asking\n"),
        Reply::Down => out.extend_from_slice(b"down\n"),
        Reply::Live => out.extend_from_slice(b"live\n"),
        Reply::Stopped => out.extend_from_slice(b"stopped\n"),
        Reply::Opened => out.extend_from_slice(b"opened\n"),
        Reply::Crashed => out.extend_from_slice(b"crashed\n"),
    }
}

/// `did DOT mM`.
fn push_did(out: &mut Vec<u8>, dot: &Dot, message: usize) -> Result<(), AllocError>
    ensures ok { OnOk result (out.new.items ≡ out.old.items ++ reply_text (Did dot.now message)) }
    ensures err { OnErr result (KeepsStart out.old.items out.new.items) }
{
    out.extend_from_slice(b"did ")?;
    push_dot(out, dot)?;
    push_count(out, b" m", message as u64)
}

/// `single <S> <P>`.
fn push_single(out: &mut Vec<u8>, subject: &Iri, property: &Iri) -> Result<(), AllocError>
    ensures ok { OnOk result (out.new.items ≡ out.old.items ++ reply_text (Single subject.now property.now)) }
    ensures err { OnErr result (KeepsStart out.old.items out.new.items) }
{
    out.extend_from_slice(b"single <")?;
    out.extend_from_slice(subject.as_str().as_bytes())?;
    out.extend_from_slice(b"> <")?;
    out.extend_from_slice(property.as_str().as_bytes())?;
    out.extend_from_slice(b">\n")
}

/// `joined P`.
fn push_joined(out: &mut Vec<u8>, path: &Path) -> Result<(), AllocError>
    ensures ok { OnOk result (out.new.items ≡ out.old.items ++ reply_text (Joined path.now)) }
    ensures err { OnErr result (KeepsStart out.old.items out.new.items) }
{
    out.extend_from_slice(b"joined ")?;
    push_path(out, path)?;
    Ok(out.push(b'\n')?)
}

/// `answer`, then each number, from the first on and before the end.
fn push_answered(out: &mut Vec<u8>, first: usize, end: usize) -> Result<(), AllocError>
    ensures ok { OnOk result (out.new.items ≡ out.old.items ++ reply_text (Answer (numbers_between first end))) }
    ensures err { OnErr result (KeepsStart out.old.items out.new.items) }
{
    out.extend_from_slice(b"answer")?;
    for number in first..end {
        push_numbered(out, b" m", number as u64)?;
    }
    out.push(b'\n')?;
    Ok(())
}

/// A word, then each range.
fn push_ranges(out: &mut Vec<u8>, word: &[u8], ranges: &[Range]) -> Result<(), AllocError>
    ensures ok { OnOk result
        (out.new.items ≡ out.old.items ++ (word.now ++ (flat_map spaced_range ranges.now ++ line_end ∷ []))) }
    ensures err { OnErr result (KeepsStart out.old.items out.new.items) }
{
    out.extend_from_slice(word)?;
    for range in ranges {
        push_range(out, range)?;
    }
    out.push(b'\n')?;
    Ok(())
}

/// `has K`, then a line of dot and triple for each pair.
fn push_pairs(out: &mut Vec<u8>, pairs: &Graph) -> Result<(), AllocError>
    ensures ok { OnOk result (out.new.items ≡ out.old.items ++ reply_text (Shows pairs.now.pairs)) }
    ensures err { OnErr result (KeepsStart out.old.items out.new.items) }
{
    let list = pairs.in_order(*out.allocator())?;
    push_count(out, b"has ", pairs.count() as u64)?;
    push_lines(out, &list)?;
    Ok(())
}

/// A line of dot and triple for each pair.
fn push_lines(out: &mut Vec<u8>, pairs: &LentPairs<'_>) -> Result<(), AllocError>
    ensures ok { OnOk result (out.new.items ≡ out.old.items ++ flat_map pair_line pairs.now) }
    ensures err { OnErr result (KeepsStart out.old.items out.new.items) }
{
    for place in 0..pairs.len() {
        push_at(out, pairs, place)?;
    }
    Ok(())
}

/// The line of the pair at a place, where one is there.
#[tactic(auto, using(rdf_terms::proofs::Appending::keeps_same))]
fn push_at(out: &mut Vec<u8>, pairs: &LentPairs<'_>, place: usize) -> Result<(), AllocError>
    ensures ok { OnOk result
        (out.new.items ≡ out.old.items ++ flat_map pair_line (option_to_list (slice_get pairs.now place))) }
    ensures err { OnErr result (KeepsStart out.old.items out.new.items) }
{
    make_room(out, pairs, place)?;
    match pairs.get(place) {
        Some(pair) => push_pair(out, &pair.dot, pair.triple),
        None => Ok(()),
    }
}

/// Makes room for the lines of the pairs from a place on, at each 32nd place. Their texts are looked at here one right after another, so
/// that the waits for what lies apart in memory overlap.
fn make_room(out: &mut Vec<u8>, pairs: &LentPairs<'_>, place: usize) -> Result<(), AllocError>
    ensures { out.new.items ≡ out.old.items }
{
    if place % AHEAD != 0 {
        return Ok(());
    }
    out.reserve(bytes_from(pairs, place))
}

/// About as many bytes as the lines of the pairs from a place on have.
fn bytes_from(pairs: &LentPairs<'_>, place: usize) -> usize {
    let mut bytes: usize = 0;
    for at in place..place.saturating_add(AHEAD) {
        if let Some(triple) = pairs.triple(at) {
            bytes = bytes.saturating_add(bytes_of(triple));
        }
    }
    bytes
}

/// About as many bytes as the line of a triple has.
fn bytes_of(triple: &Triple) -> usize {
    let front = triple
        .s
        .as_str()
        .len()
        .saturating_add(triple.p.as_str().len());
    front
        .saturating_add(object_bytes(&triple.o))
        .saturating_add(REST)
}

/// How many bytes the text of an object has, without its datatype and its escapes.
fn object_bytes(object: &Term) -> usize {
    match object {
        Term::Iri(iri) => iri.as_str().len(),
        Term::Literal(literal) => literal.lexical().len(),
    }
}

/// The line of a text.
fn push_line(out: &mut Vec<u8>, text: &[u8]) -> Result<(), AllocError>
    ensures ok { OnOk result (out.new.items ≡ out.old.items ++ (text.now ++ line_end ∷ [])) }
    ensures err { OnErr result (KeepsStart out.old.items out.new.items) }
{
    out.extend_from_slice(text)?;
    out.push(b'\n')?;
    Ok(())
}

/// The line of a pair.
fn push_pair(out: &mut Vec<u8>, dot: &Dot, triple: &Triple) -> Result<(), AllocError>
    ensures ok { OnOk result
        (out.new.items ≡ out.old.items ++ pair_line (record { triple = triple.now; dot = dot.now })) }
    ensures err { OnErr result (KeepsStart out.old.items out.new.items) }
{
    push_dot(out, dot)?;
    out.push(b' ')?;
    write_triple(out, triple)?;
    Ok(out.push(b'\n')?)
}
