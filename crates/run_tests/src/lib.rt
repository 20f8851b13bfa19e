//! Tests of runs, through public calls: what ends them, what they tell of their world, and what they leave on banks; and of the wire
//! over sockets. They stand in a crate of their own, so that what they test isn't proved a second time with them.
#![tactic(auto)]

#[cfg(test)]
mod banks;
#[cfg(test)]
mod generated;
#[cfg(test)]
mod replays;
#[cfg(test)]
mod runs;
#[cfg(test)]
mod sockets;
#[cfg(test)]
mod summaries;
