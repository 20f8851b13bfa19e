//! The run of the shell over the words, the source, the sink and the banks that it is handed.
#![tactic(auto)]

mod faults;
mod folder;
mod laws;
pub mod run;

pub use faults::FolderFault;
pub use folder::read_folder;
pub use laws::{all_lines_are_done, few_bytes_are_read};
