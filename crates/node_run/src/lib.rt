//! The service of a node: the words of its command line, its begin, its turns, and how it ends.
#![tactic(auto)]

mod begins;
mod faults;
mod given;
mod node;
mod serving;
mod spelled;
mod stops;
mod turns;

pub use faults::NodeWordsFault;
pub use node::{NodeWords, read_words};
pub use serving::serve;
pub use stops::{NodeRan, NodeStop};
