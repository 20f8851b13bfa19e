//! Tests of past states and of what an undo makes, through public calls, on banks in memory. They stand in a crate of their own, so that what they
//! test isn't proved a second time with them.
#![tactic(auto)]

#[cfg(test)]
mod made;
#[cfg(test)]
mod others;
#[cfg(test)]
mod scripts;
