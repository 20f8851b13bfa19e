//! Tests of what holds pairs, through public calls: entries that are held back, fused and cut, lists in chunks, graphs, and what effects
//! break. They stand in a crate of their own, so that what they test isn't proved a second time with them.
#![tactic(auto)]

#[cfg(test)]
mod breaches;
#[cfg(test)]
mod entries;
#[cfg(test)]
mod fusion;
#[cfg(test)]
mod graphs;
#[cfg(test)]
mod held;
#[cfg(test)]
mod lists;
#[cfg(test)]
mod made;
#[cfg(test)]
mod numbers;
#[cfg(test)]
mod sorting;
