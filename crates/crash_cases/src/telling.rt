//! What a clone has, as a text: its path, what it knows, its base, the ranges of its journal, and its pairs.
use crate::steps::TestClone;
use mld_ops::{Entry, PairList, PairRef};
use rdf_terms::write_triple;
use std::alloc::{AllocError, Global};
use std::fmt::{Display, Write};
use tree_clock::{Clock, Path};

/// A text that is put together piece by piece. That a piece found no memory is noted, and told at the end.
#[derive(Drop)]
pub struct Told {
    /// What takes memory.
    alloc: Global,
    /// What was put.
    text: String,
    /// Whether each piece found memory.
    is_whole: bool,
}

impl Told {
    /// Nothing yet.
    pub fn new(alloc: Global) -> Told {
        Told {
            alloc,
            text: String::new(alloc),
            is_whole: true,
        }
    }

    /// Puts a text.
    pub fn push_str(&mut self, text: &str) {
        self.is_whole &= self.text.push_str(text).is_ok();
    }

    /// Puts what is printed of a value.
    pub fn push_printed<T: Display>(&mut self, value: &T) {
        self.is_whole &= write!(self.text, "{value}").is_ok();
    }

    /// What was put, where each piece found memory.
    pub fn text(&self) -> Result<&str, AllocError> {
        if self.is_whole {
            Ok(self.text.as_str())
        } else {
            Err(AllocError)
        }
    }
}

/// Puts what a clone has.
pub fn put_clone(told: &mut Told, clone: &TestClone) {
    told.push_printed(&clone.path());
    put_clock(told, " known", clone.known());
    put_clock(told, "; base", clone.base());
    put_pairs(told, clone.base_pairs());
    put_journal(told, clone.journal());
    put_tagged(told, clone);
}

/// Puts the pairs that a clone has.
fn put_tagged(told: &mut Told, clone: &TestClone) {
    told.push_str("; has");
    match clone.pairs().to_pairs(told.alloc) {
        Ok(pairs) => put_pairs(told, &pairs),
        Err(_) => told.is_whole = false,
    }
}

/// Puts the ticks of a clock.
fn put_clock(told: &mut Told, title: &str, clock: &Clock) {
    told.push_str(title);
    match clock.to_list(told.alloc) {
        Ok(ticks) => put_ticks(told, ticks.as_slice()),
        Err(_) => told.is_whole = false,
    }
}

/// Puts the ticks of paths.
fn put_ticks(told: &mut Told, ticks: &[(Path, u32)]) {
    for (path, tick) in ticks {
        told.push_str(" ");
        told.push_printed(path);
        told.push_str(".");
        told.push_printed(tick);
    }
}

/// Puts the ranges of entries.
fn put_journal(told: &mut Told, entries: &[Entry]) {
    told.push_str("; journal");
    for entry in entries {
        told.push_str(" ");
        told.push_printed(&entry.range());
    }
}

/// Puts pairs.
fn put_pairs(told: &mut Told, pairs: &PairList) {
    for place in 0..pairs.len() {
        if let Some(pair) = pairs.get(place) {
            put_pair(told, &pair);
        }
    }
}

/// Puts a pair.
fn put_pair(told: &mut Told, pair: &PairRef<'_>) {
    let mut bytes = Vec::new(told.alloc);
    told.is_whole &= write_triple(&mut bytes, pair.triple).is_ok();
    told.push_str(" ");
    told.push_printed(&pair.dot);
    told.push_str(" ");
    told.push_str(str::from_utf8(bytes.as_slice()).unwrap_or("no text"));
}
