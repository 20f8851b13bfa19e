//! The laws of the shell's lines. The functions have no code, and their contracts are the laws.
ghost use Rattle.shell_session.specs.LineCompleteness.{LinesAreAnswered};
ghost use Rattle.shell_session.specs.ShellLaws.{NothingIsNoCommand, OneShellCommand};

use mld_io::Banks;

/// A line that says nothing is no command, and a line spells one command, with the same domain of the live clone or none.
pub fn one_shell_command()
    ensures nothing { NothingIsNoCommand }
    ensures once { OneShellCommand }
{}

/// A session whose device had no fault answers a line as the model's shell does, or memory was wanting: what the clauses of
/// `Session::line` say together.
pub fn lines_are_answered<B: Banks>()
    ensures { LinesAreAnswered B.log B.meter }
{}
