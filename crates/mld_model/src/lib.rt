//! The model of clones and of the world that they are in: what they keep and know, what they do, and what every world keeps.
//! Another program can stand on it: it knows no lines and no commands. Its function has no code, and carries laws as its contract.
#![tactic(auto)]

mod founding;
mod limits;
mod steps;

pub use founding::founding_steps_lead;
pub use limits::CLONE_COUNT;
pub use steps::local_steps_follow;

/// The state of a clone of a world that runs, with what the clone has in it.
#[derive(Drop)]
pub enum CloneState<B, A, D, L> {
    /// It was never founded and never asked to join: its device is blank.
    Absent(B),
    /// It asked for a leaf and waits for one.
    Asking(A),
    /// It is stopped, and what it keeps is on its device.
    Down(D),
    /// It runs.
    Live(L),
}
