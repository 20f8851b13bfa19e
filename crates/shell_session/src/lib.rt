//! The shell of one clone: its lines and what they spell, the model of its steps and runs, and a session on banks that does one line after another.
#![tactic(auto)]

mod commands;
mod creations;
mod faults;
mod laws;
mod lines;
mod live;
mod replies;
mod runs;
mod sessions;
mod shut;
mod words;

pub use commands::ShellCommand;
pub use crash_laws::{clone_core, clone_parts, journal_sides, journal_store};
pub use faults::SessionFault;
pub use laws::{lines_are_answered, one_shell_command};
pub use lines::read_shell;
pub use live::do_live;
pub use runs::steps_lead;
pub use schedule_text::{LineRefusal, schedule_model};
pub use sessions::Session;
