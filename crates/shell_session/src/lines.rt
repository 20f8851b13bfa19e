//! Lines that are commands, each in its form.
ghost use Rattle.std.specs.Prelude.{IsTrue, IfOk, IsErrOf, MatchOption, option_map};
ghost use Rattle.text_rules.specs.Domain.{is_domain};
ghost use Rattle.schedule_text.specs.ReadLines.{Finds};
ghost use Rattle.shell_session.specs.ReadShell.{ShellIs, IsBadShell, IsReadInForm, SpellsBare};
ghost use Rattle.shell_session.specs.ShellLines.{SpellsShell, SpellsLive, SpellsDown, SpellsAlike};

use crate::commands::ShellCommand;
use crate::creations::read_creation;
use crate::words::asks_for_clone;
use schedule_text::{
    LineRefusal, behind, is_nothing, read_number, read_query_text, read_triple_bytes,
    read_update_text,
};
use std::alloc::{AllocError, Global};

/// Reads a line, without its LF, with the name of the live clone's domain, or none while no clone is live: a command, or `None` for an
/// empty line or a comment. While no clone is live the first word alone decides `Skipped`.
///
/// # Errors
/// `BadLine` where the line is outside the grammar, and `NoMemory`.
pub fn read_shell(
    alloc: Global,
    line: &[u8],
    domain: Option<&str>,
) -> Result<Option<ShellCommand>, LineRefusal>
    requires { MatchOption domain (Unit {0}) (λ name. IsTrue (is_domain name.now)) }
    ensures ok { IfOk result (ShellIs (option_map (λ name. name.now) domain.entry) line.now) }
    ensures bad { IsErrOf result LineRefusal.BadLine
        → IsBadShell (option_map (λ name. name.now) domain.entry) line.now }
    ensures in_form { IfOk result IsReadInForm }
{
    if is_nothing(line) {
        return Ok(None);
    }
    match command_in(alloc, line, domain)? {
        Some(command) => Ok(Some(command)),
        None => Err(LineRefusal::BadLine),
    }
}

/// The command of a line, where the line spells one, with the domain of the live clone.
fn command_in(
    alloc: Global,
    line: &[u8],
    domain: Option<&str>,
) -> Result<Option<ShellCommand>, AllocError>
    requires { MatchOption domain (Unit {0}) (λ name. IsTrue (is_domain name.now)) }
    ensures found { IfOk result (Finds (SpellsShell (option_map (λ name. name.now) domain.entry) line.now)) }
    ensures in_form { IfOk result IsReadInForm }
{
    match domain {
        Some(name) => live_command(alloc, line, name),
        None => down_command(alloc, line),
    }
}

/// The command of a line while a clone in the domain of this name is live, where the line spells one.
fn live_command(
    alloc: Global,
    line: &[u8],
    domain: &str,
) -> Result<Option<ShellCommand>, AllocError>
    requires { IsTrue (is_domain domain.now) }
    ensures found { IfOk result (Finds (SpellsLive domain.now line.now)) }
    ensures in_form { IfOk result IsReadInForm }
{
    if let Some(text) = behind(line, b"add ") {
        let Some(triple) = read_triple_bytes(alloc, text)? else {
            return Ok(None);
        };
        return Ok(Some(ShellCommand::Add(triple)));
    }
    if let Some(text) = behind(line, b"remove ") {
        let Some(triple) = read_triple_bytes(alloc, text)? else {
            return Ok(None);
        };
        return Ok(Some(ShellCommand::Remove(triple)));
    }
    if let Some(text) = behind(line, b"update ") {
        let Some(plan) = read_update_text(alloc, text, domain)? else {
            return Ok(None);
        };
        return Ok(Some(ShellCommand::Update(plan)));
    }
    if let Some(text) = behind(line, b"query ") {
        let Some(read) = read_query_text(alloc, text, domain)? else {
            return Ok(None);
        };
        return Ok(Some(ShellCommand::Query(read)));
    }
    alike_command(alloc, line)
}

/// The command of a line while no clone is live, where the line spells one.
fn down_command(alloc: Global, line: &[u8]) -> Result<Option<ShellCommand>, AllocError>
    ensures found { IfOk result (Finds (SpellsDown line.now)) }
    ensures in_form { IfOk result IsReadInForm }
{
    if asks_for_clone(line) {
        return Ok(Some(ShellCommand::Skipped));
    }
    alike_command(alloc, line)
}

/// The command of a line that is spelled alike whether a clone is live or not, where the line spells one.
fn alike_command(alloc: Global, line: &[u8]) -> Result<Option<ShellCommand>, AllocError>
    ensures { IfOk result (Finds (SpellsAlike line.now)) }
{
    if let Some(text) = behind(line, b"create ") {
        return read_creation(alloc, text);
    }
    if let Some(text) = behind(line, b"truncate ") {
        let Some(keep) = read_number(text) else {
            return Ok(None);
        };
        return Ok(Some(ShellCommand::Truncate(keep)));
    }
    Ok(bare_command(line))
}

/// The command of a line that is one word.
fn bare_command(line: &[u8]) -> Option<ShellCommand>
    ensures { Finds (SpellsBare line.now) result }
{
    if line == b"open".as_slice() {
        return Some(ShellCommand::Open);
    }
    if line == b"show".as_slice() {
        return Some(ShellCommand::Show);
    }
    if line == b"compact".as_slice() {
        return Some(ShellCommand::Compact);
    }
    if line == b"stop".as_slice() {
        return Some(ShellCommand::Stop);
    }
    None
}
