//! Tests of journals, of clones, and of those who ask for a leaf, through public calls: what a mount answers to given bytes, a device that
//! fails or crashes at each call, and what no schedule reaches. They stand in a crate of their own, so that what they test isn't proved a
//! second time with them.
#![tactic(auto)]

#[cfg(test)]
mod askers;
#[cfg(test)]
mod clones;
#[cfg(test)]
mod journal_calls;
#[cfg(test)]
mod journal_mounts;
#[cfg(test)]
mod journals;
#[cfg(test)]
mod made;
