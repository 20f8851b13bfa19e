//! Lines that are commands, each in its form.
ghost use Rattle.std.specs.Prelude.{ℕ, IsTrue, IfOk, IsErrOf, MatchOption};
ghost use Rattle.text_rules.specs.Domain.{is_domain};
ghost use Rattle.rdf_terms.specs.declared.terms.Triple.{Triple};
ghost use Rattle.schedule_model.specs.Schedule.{SpellsAnywhere, SpellsPlain, SpellsCommand};
ghost use Rattle.schedule_model.specs.declared.Command.{Command};
ghost use Rattle.schedule_text.specs.ReadLines.{Finds, CommandIs, IsBadCommand, IsTripleText, IsCloneAndTriple, IsAddRest, IsRemoveRest, IsDeliverRest, IsShowRest, IsCompareRest, IsJoinRest, IsAskRest, IsCompactRest, IsTruncateRest, IsStopRest, IsOpenRest, IsFoundInForm};

use crate::crashes::read_crash_command;
use crate::numbers::{read_clone, read_number};
use crate::queries::read_query_command;
use crate::refusals::LineRefusal;
use crate::updates::read_update_command;
use crate::words::{behind, is_nothing, split_at_space};
use rdf_terms::{Triple, TripleFault, read_triple};
use schedule_model::Command;
use std::alloc::{AllocError, Global};

/// Reads a line, without its LF, once the domain of this name is set up: a command, or `None` for an empty line or a comment.
pub fn read_command(
    alloc: Global,
    line: &[u8],
    domain: &str,
) -> Result<Option<Command>, LineRefusal>
    requires { IsTrue (is_domain domain.now) }
    ensures ok { IfOk result (CommandIs domain.now line.now) }
    ensures bad { IsErrOf result LineRefusal.BadLine → IsBadCommand domain.now line.now }
    ensures in_form { IfOk result IsFoundInForm }
{
    if is_nothing(line) {
        return Ok(None);
    }
    match command_in(alloc, line, domain)? {
        Some(command) => Ok(Some(command)),
        None => Err(LineRefusal::BadLine),
    }
}

/// The command of a line, where the line spells one in the domain of this name.
fn command_in(alloc: Global, line: &[u8], domain: &str) -> Result<Option<Command>, AllocError>
    requires { IsTrue (is_domain domain.now) }
    ensures found { IfOk result (Finds (SpellsCommand domain.now line.now)) }
    ensures in_form { IfOk result IsFoundInForm }
{
    if let Some(rest) = behind(line, b"crash ") {
        return read_crash_command(alloc, rest, domain);
    }
    plain_command(alloc, line, domain)
}

/// The command of a line that is no crash line, where the line spells one in the domain of this name.
pub fn plain_command(
    alloc: Global,
    line: &[u8],
    domain: &str,
) -> Result<Option<Command>, AllocError>
    requires { IsTrue (is_domain domain.now) }
    ensures found { IfOk result (Finds (SpellsPlain domain.now line.now)) }
    ensures in_form { IfOk result IsFoundInForm }
{
    if let Some(rest) = behind(line, b"query ") {
        return read_query_command(alloc, rest, domain);
    }
    if let Some(rest) = behind(line, b"update ") {
        return read_update_command(alloc, rest, domain);
    }
    command_of(alloc, line)
}

/// The command of a line whose command is spelled alike in all domains, where the line spells one.
fn command_of(alloc: Global, line: &[u8]) -> Result<Option<Command>, AllocError>
    ensures { IfOk result (Finds (SpellsAnywhere line.now)) }
{
    if let Some(rest) = behind(line, b"add ") {
        return read_add(alloc, rest);
    }
    if let Some(rest) = behind(line, b"remove ") {
        return read_remove(alloc, rest);
    }
    if let Some(rest) = behind(line, b"deliver ") {
        return Ok(read_deliver(rest));
    }
    if let Some(rest) = behind(line, b"show ") {
        return Ok(read_show(rest));
    }
    if let Some(rest) = behind(line, b"compare ") {
        return Ok(read_compare(rest));
    }
    if let Some(rest) = behind(line, b"join ") {
        return Ok(read_join(rest));
    }
    if let Some(rest) = behind(line, b"ask ") {
        return Ok(read_ask(rest));
    }
    if let Some(rest) = behind(line, b"compact ") {
        return Ok(read_compact(rest));
    }
    if let Some(rest) = behind(line, b"truncate ") {
        return Ok(read_truncate(rest));
    }
    if let Some(rest) = behind(line, b"stop ") {
        return Ok(read_stop(rest));
    }
    if let Some(rest) = behind(line, b"open ") {
        return Ok(read_open(rest));
    }
    Ok(None)
}

/// What follows `add` and a space: a clone's number, a space, and a triple.
fn read_add(alloc: Global, rest: &[u8]) -> Result<Option<Command>, AllocError>
    ensures { IfOk result (Finds (IsAddRest rest.now)) }
{
    let Some((number, triple)) = read_clone_and_triple(alloc, rest)? else {
        return Ok(None);
    };
    Ok(Some(Command::Add(number, triple)))
}

/// What follows `remove` and a space: a clone's number, a space, and a triple.
fn read_remove(alloc: Global, rest: &[u8]) -> Result<Option<Command>, AllocError>
    ensures { IfOk result (Finds (IsRemoveRest rest.now)) }
{
    let Some((number, triple)) = read_clone_and_triple(alloc, rest)? else {
        return Ok(None);
    };
    Ok(Some(Command::Remove(number, triple)))
}

/// A clone's number, a space, and a triple.
fn read_clone_and_triple(alloc: Global, rest: &[u8]) -> Result<Option<(u8, Triple)>, AllocError>
    ensures { IfOk result
        (λ found. MatchOption found ((number : ℕ) (triple : Triple) → ¬ IsCloneAndTriple rest.now number triple)
        (λ parts. IsCloneAndTriple rest.now parts.0 parts.1)) }
{
    let Some((number, text)) = split_at_space(rest) else {
        return Ok(None);
    };
    let Some(number) = read_clone(number) else {
        return Ok(None);
    };
    let Some(triple) = read_triple_bytes(alloc, text)? else {
        return Ok(None);
    };
    Ok(Some((number, triple)))
}

/// The triple of a text, where the text is UTF-8 and spells one within the limits.
pub fn read_triple_bytes(alloc: Global, text: &[u8]) -> Result<Option<Triple>, AllocError>
    ensures { IfOk result (Finds (IsTripleText text.now)) }
{
    let Ok(text) = str::from_utf8(text) else {
        return Ok(None);
    };
    match read_triple(alloc, text) {
        Ok(triple) => Ok(Some(triple)),
        Err(TripleFault::NotTriple { .. }) => Ok(None),
        Err(TripleFault::TooLong) => Ok(None),
        Err(TripleFault::NoMemory) => Err(AllocError),
    }
}

/// What follows `deliver` and a space: a message's number, a space, and a clone's number.
fn read_deliver(rest: &[u8]) -> Option<Command>
    ensures { Finds (IsDeliverRest rest.now) result }
{
    let (message, number) = split_at_space(rest)?;
    let message = read_number(message)?;
    let number = read_clone(number)?;
    Some(Command::Deliver(message, number))
}

/// What follows `show` and a space: a clone's number.
fn read_show(rest: &[u8]) -> Option<Command>
    ensures { Finds (IsShowRest rest.now) result }
{
    Some(Command::Show(read_clone(rest)?))
}

/// What follows `join` and a space: a clone's number.
fn read_join(rest: &[u8]) -> Option<Command>
    ensures { Finds (IsJoinRest rest.now) result }
{
    Some(Command::Join(read_clone(rest)?))
}

/// What follows `ask` and a space: a clone's number.
fn read_ask(rest: &[u8]) -> Option<Command>
    ensures { Finds (IsAskRest rest.now) result }
{
    Some(Command::Ask(read_clone(rest)?))
}

/// What follows `compact` and a space: a clone's number.
fn read_compact(rest: &[u8]) -> Option<Command>
    ensures { Finds (IsCompactRest rest.now) result }
{
    Some(Command::Compact(read_clone(rest)?))
}

/// What follows `truncate` and a space: a clone's number, a space, and how many ranges its journal keeps.
fn read_truncate(rest: &[u8]) -> Option<Command>
    ensures { Finds (IsTruncateRest rest.now) result }
{
    let (number, keep) = split_at_space(rest)?;
    let number = read_clone(number)?;
    let keep = read_number(keep)?;
    Some(Command::Truncate(number, keep))
}

/// What follows `stop` and a space: a clone's number.
fn read_stop(rest: &[u8]) -> Option<Command>
    ensures { Finds (IsStopRest rest.now) result }
{
    Some(Command::Stop(read_clone(rest)?))
}

/// What follows `open` and a space: a clone's number.
fn read_open(rest: &[u8]) -> Option<Command>
    ensures { Finds (IsOpenRest rest.now) result }
{
    Some(Command::Open(read_clone(rest)?))
}

/// What follows `compare` and a space: two clones' numbers with a space between.
fn read_compare(rest: &[u8]) -> Option<Command>
    ensures { Finds (IsCompareRest rest.now) result }
{
    let (number, other) = split_at_space(rest)?;
    let number = read_clone(number)?;
    let other = read_clone(other)?;
    Some(Command::Compare(number, other))
}
