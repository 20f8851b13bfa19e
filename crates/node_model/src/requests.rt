//! What a request asks of a node, and how it is read.
ghost use Rattle.std.specs.Prelude.{◌≡◌, IsTrue, IfOk};
ghost use Rattle.text_rules.specs.Domain.{is_domain};
ghost use Rattle.node_model.specs.RequestLines.{SpellsRequest, IsRequestInForm, asked_by};

use shell_session::{LineRefusal, ShellCommand, one_shell_command, read_shell};
use std::alloc::{AllocError, Global};

/// What a request asks of a node.
#[derive(Debug, Drop)]
pub enum Request {
    /// A command of the shell, for the node's clone: none that founds, opens or stops it.
    Command(ShellCommand),
    /// `ask`: the node asks each peer for what it lacks.
    Ask,
    /// `halt`: the node ends.
    Halt,
    /// A line outside the grammar, or one that says nothing.
    Bad,
}

/// Reads a request, which is a line without its LF, with the name of the node's domain.
///
/// # Errors
/// `AllocError` where no memory was found.
pub fn read_request(alloc: Global, line: &[u8], domain: &str) -> Result<Request, AllocError>
    requires { IsTrue (is_domain domain.now) }
    ensures ok { IfOk result (SpellsRequest domain.now line.now) }
    ensures in_form { IfOk result IsRequestInForm }
{
    if line == b"ask".as_slice() {
        return Ok(Request::Ask);
    }
    if line == b"halt".as_slice() {
        return Ok(Request::Halt);
    }
    one_shell_command();
    match read_shell(alloc, line, Some(domain)) {
        Ok(Some(command)) => Ok(request_of(command)),
        Ok(None) => Ok(Request::Bad),
        Err(LineRefusal::BadLine) => Ok(Request::Bad),
        Err(LineRefusal::NoMemory) => Err(AllocError),
    }
}

/// What a line asks of a node that spells this command of the shell.
fn request_of(command: ShellCommand) -> Request
    ensures { result ≡ asked_by command }
{
    match command {
        ShellCommand::Open
        | ShellCommand::Create(..)
        | ShellCommand::Stop
        | ShellCommand::Skipped => Request::Bad,
        other => Request::Command(other),
    }
}
