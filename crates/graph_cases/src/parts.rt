//! The parts of the run: many pairs, many pairs of one triple, and many changes.
use crate::answers::{Answers, NO_ANSWER, NO_ANSWERS, add};
use crate::asking::{ask, ask_all};
use crate::lists::{Both, both_of, boxed, cut_both, push};
use crate::rows::{Bounds, Draws, Row, pair_of};
use mld_ops::Cut;
use rdf_terms::TripleFault;
use std::alloc::{AllocError, Global};

/// Many triples.
const MANY: Bounds = (1_000, 20, 1_200, 6, 5_000);

/// One triple.
const ONE: Bounds = (1, 1, 1, 6, 2_000_000_000);

/// Few pairs, so that what is drawn is often there.
const FEW: Bounds = (6, 3, 8, 4, 8);

/// How many changes there are.
const CUTS: u32 = 400;

/// The draws of a part.
fn draws(bounds: Bounds) -> Draws {
    Draws { state: 1, bounds }
}

/// A row to ask for: as it was drawn, or with a part that is in no pair, one that stands in other places alone, or one of others.
fn asked(row: Row, number: u32) -> Row {
    match number {
        1 => Row { tick: 0, ..row },
        2 => Row { path: 6, ..row },
        3 => Row { s: 9_999, ..row },
        4 => Row { o: 39_996, ..row },
        5 => Row { s: 1, ..row },
        6 => Row { p: 200, ..row },
        7 => Row { s: 12, ..row },
        8 => Row { p: 3, ..row },
        9 => Row { o: 42, ..row },
        _ => row,
    }
}

/// What each call answers to so many rows that are drawn. All pairs are asked for once.
fn ask_rows(
    alloc: Global,
    both: &Both,
    draws: &mut Draws,
    count: u32,
) -> Result<Answers, TripleFault> {
    let mut sums = NO_ANSWERS;
    let mut all = ask_all(alloc, both)?;
    for number in 0..count {
        let pair = boxed(alloc, pair_of(alloc, &asked(draws.row(), number))?)?;
        add(&mut sums, &ask(alloc, both, &pair, all)?);
        all = NO_ANSWER;
    }
    Ok(sums)
}

/// Many pairs, with the rows of some of them.
pub fn many(alloc: Global) -> Result<Answers, TripleFault> {
    let both = both_of(alloc, draws(MANY).pairs(alloc, 50_000)?)?;
    ask_rows(alloc, &both, &mut draws(MANY), 13)
}

/// Many pairs of one triple, or what is left of them without those whose ticks are even.
pub fn tags(alloc: Global, halves: bool) -> Result<Answers, TripleFault> {
    let mut both = both_of(alloc, draws(ONE).pairs(alloc, 25_000)?)?;
    if halves {
        let cut = even_ticks(alloc, &both)?;
        cut_both(alloc, &mut both, cut)?;
    }
    ask_rows(alloc, &both, &mut draws(ONE), 3)
}

/// The cut that drops each pair with an even tick.
fn even_ticks(alloc: Global, both: &Both) -> Result<Box<Cut>, AllocError> {
    let mut drops = Vec::new(alloc);
    for pair in &both.list {
        if pair.dot.tick % 2 == 0 {
            push(&mut drops, pair.share()?)?;
        }
    }
    let adds = Vec::new(alloc);
    boxed(alloc, Cut { drops, adds })
}

/// A cut of drops and adds that are drawn. Fifty that mostly add are followed by fifty that mostly drop.
fn drawn_cut(alloc: Global, draws: &mut Draws, number: u32) -> Result<Box<Cut>, TripleFault> {
    let adds_more = number / 50 % 2 == 0;
    let drops = draws.pairs(alloc, if adds_more { 5 } else { 30 })?;
    let adds = draws.pairs(alloc, if adds_more { 30 } else { 5 })?;
    Ok(boxed(alloc, Cut { drops, adds })?)
}

/// Many changes of few pairs, with a row that is drawn behind each.
pub fn cuts(alloc: Global) -> Result<Answers, TripleFault> {
    let mut both = both_of(alloc, Vec::new(alloc))?;
    let mut draws = draws(FEW);
    let mut sums = NO_ANSWERS;
    for number in 0..CUTS {
        let cut = drawn_cut(alloc, &mut draws, number)?;
        cut_both(alloc, &mut both, cut)?;
        add(&mut sums, &ask_rows(alloc, &both, &mut draws, 1)?);
    }
    Ok(sums)
}
