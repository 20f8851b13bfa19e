//! A request is read in one way. The function does nothing but to call the law of the shell's lines, and its contract is that of requests.
ghost use Rattle.node_model.specs.RequestLines.{OneRequest};

use shell_session::one_shell_command;

/// A line asks for one thing, with the same domain.
pub fn one_request()
    ensures { OneRequest }
{
    one_shell_command();
}
