//! Tests of data, through public calls: clocks, paths and dots; IRIs, texts and terms; operations, messages and their bytes; sets of pairs
//! and snapshots; and comparisons with transcripts. They stand in a crate of their own, so that what they test isn't proved a second time with them.
#![tactic(auto)]

#[cfg(test)]
mod clocks;
#[cfg(test)]
mod codec;
#[cfg(test)]
mod compared;
#[cfg(test)]
mod made;
#[cfg(test)]
mod operations;
#[cfg(test)]
mod pair_lists;
#[cfg(test)]
mod paths;
#[cfg(test)]
mod sets;
#[cfg(test)]
mod snapshots;
#[cfg(test)]
mod term_copies;
#[cfg(test)]
mod term_refusals;
#[cfg(test)]
mod text_limits;
#[cfg(test)]
mod texts;
