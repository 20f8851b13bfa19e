//! Pairs by numbers, which are drawn.
use crate::lists::{push, put_in_order};
use mld_ops::Tagged;
use rdf_terms::{Triple, TripleFault, read_triple};
use std::alloc::Global;
use tree_clock::{Dot, Path};

/// A pair by its numbers.
#[derive(Clone, Copy)]
pub struct Row {
    /// The subject is the IRI `urn:tN`.
    pub s: u32,
    /// So is the predicate.
    pub p: u32,
    /// A quarter of it is the N of the object, and the rest by 4 its kind: an IRI, or a literal that is plain, has a language or a datatype.
    pub o: u32,
    /// The path.
    pub path: u32,
    /// The tick.
    pub tick: u32,
}

/// How many numbers there are of subjects, predicates, objects, paths and ticks.
pub type Bounds = (u32, u32, u32, u32, u32);

/// The draws from a seed, by the generator in Knuth's MMIX.
#[derive(Drop)]
pub struct Draws {
    /// The state: at first the seed.
    pub state: u64,
    /// What is drawn.
    pub bounds: Bounds,
}

impl Draws {
    /// A number below `count`, or else 0.
    fn draw(&mut self, count: u32) -> u32 {
        let product = self.state.wrapping_mul(6_364_136_223_846_793_005);
        self.state = product.wrapping_add(1_442_695_040_888_963_407);
        ((self.state >> 33) % u64::from(count.max(1))) as u32
    }

    /// A row. Subjects begin at 10, so that some IRIs are none, and ticks at 1.
    pub fn row(&mut self) -> Row {
        let (s, p, o, paths, ticks) = self.bounds;
        Row {
            s: self.draw(s).saturating_add(10),
            p: self.draw(p),
            o: self.draw(o),
            path: self.draw(paths),
            tick: self.draw(ticks).saturating_add(1),
        }
    }

    /// The pairs of so many rows, in order: one with the row's tick, and one with an earlier tick.
    pub fn pairs(&mut self, alloc: Global, count: u32) -> Result<Vec<Tagged>, TripleFault> {
        let mut pairs = Vec::new(alloc);
        for _number in 0..count {
            let mut row = self.row();
            push(&mut pairs, pair_of(alloc, &row)?)?;
            row.tick = row.tick / 2 + 1;
            push(&mut pairs, pair_of(alloc, &row)?)?;
        }
        put_in_order(&mut pairs);
        Ok(pairs)
    }
}

/// The triple of a row.
fn triple_of(alloc: Global, row: &Row) -> Result<Triple, TripleFault> {
    let (front, back) = match row.o % 4 {
        0 => ("<", ">"),
        1 => ("\"", "\""),
        2 => ("\"", "\"@en"),
        _ => ("\"", "\"^^<urn:t0>"),
    };
    let Row { s, p, o, .. } = *row;
    let line = format!(in alloc; "<urn:t{s}> <urn:t{p}> {front}urn:t{}{back} .", o / 4)?;
    read_triple(alloc, line.as_str())
}

/// A path with one to three letters.
fn path_of(number: u32) -> Path {
    let first = Path::root().child(number % 2 == 1);
    match number / 2 {
        0 => first,
        1 => first.child(false),
        2 => first.child(true),
        _ => first.child(true).child(true),
    }
}

/// The pair of a row.
pub fn pair_of(alloc: Global, row: &Row) -> Result<Tagged, TripleFault> {
    let triple = triple_of(alloc, row)?;
    let path = path_of(row.path);
    let tick = row.tick;
    let dot = Dot { path, tick };
    Ok(Tagged { triple, dot })
}
