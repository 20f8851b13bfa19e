//! Clones that know the same dots have the same pairs.
use mld_replay::net_world::{CloneSummary, State, Summary};

/// Two clones aren't both live, know different dots, or have the same pairs.
fn agree(one: &CloneSummary, other: &CloneSummary) -> bool {
    one.state != State::Live
        || other.state != State::Live
        || one.known.as_slice() != other.known.as_slice()
        || one.tagged.as_slice() == other.tagged.as_slice()
}

/// The live clones that know the same dots have the same pairs.
pub fn clones_agree(summary: &Summary) -> bool {
    summary
        .clones
        .iter()
        .all(|one| summary.clones.iter().all(|other| agree(one, other)))
}
