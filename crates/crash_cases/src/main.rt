//! Stops calls of clones at each call of their device, and writes each crash that leaves something else than it has to leave.
#![tactic(auto)]

mod crashes;
mod faults;
mod lines;
mod making;
mod messages;
mod steps;
mod telling;

use crashes::put_crash;
use lines::{Line, Row, line_of};
use making::put_made;
use std::alloc::{Alloc, Global};
use std::fs;
use std::io::{self, Print};
use std::process::ExitCode;
use std::thread::Threads;
use telling::Told;

/// The table that rows belong to.
#[derive(Drop)]
struct Table<'a> {
    /// The steps before the call.
    made: &'a str,
    /// The call.
    call: &'a str,
    /// The steps that make what stands after no durable step of the call, after one, and so on.
    left: Vec<&'a str>,
}

/// How many crashes there were, and how many of them, or of the lines that are none, differ.
#[derive(Clone, Copy)]
struct Count {
    crashes: u64,
    differ: u64,
}

fn main(rt: HostRuntime) -> io::Result<ExitCode> {
    let text = fs::read_to_string(&rt, "crashes.txt")?;
    let count = run_lines(&rt, text.as_str())?;
    println!(rt; "{} crashes, {} differ", count.crashes, count.differ)?;
    Ok(ExitCode::from(if count.differ == 0 { 0 } else { 1 }))
}

/// Runs the rows of a text.
fn run_lines<R: Print + Threads + Sync + Alloc<A = Global>>(
    rt: &R,
    text: &str,
) -> io::Result<Count> {
    let mut table = Table {
        made: "",
        call: "",
        left: Vec::new(rt.alloc()),
    };
    run_in(rt, &mut table, text)
}

/// The same, with a table for the rows to belong to.
fn run_in<'a, R: Print + Threads + Sync + Alloc<A = Global>>(
    rt: &R,
    table: &mut Table<'a>,
    text: &'a str,
) -> io::Result<Count> {
    let mut count = Count {
        crashes: 0,
        differ: 0,
    };
    let mut place = 0u64;
    for line in text.lines() {
        place = place.saturating_add(1);
        if !run_line(rt, place, table, &mut count, line)? {
            count.differ = count.differ.saturating_add(1);
        }
    }
    Ok(count)
}

/// Runs a line; whether it is no row, or its crash leaves what it wants. What differs is written.
fn run_line<'a, R: Print + Threads + Sync + Alloc<A = Global>>(
    rt: &R,
    place: u64,
    table: &mut Table<'a>,
    count: &mut Count,
    line: &'a str,
) -> io::Result<bool> {
    match line_of(line) {
        Line::Nothing => {}
        Line::Made(steps) => {
            table.made = steps;
            table.left.clear();
        }
        Line::Call(step) => table.call = step,
        Line::Left(steps) => table.left.push(steps)?,
        Line::Row(row) => {
            count.crashes = count.crashes.saturating_add(1);
            return leaves_what_is_wanted(rt, place, table, row);
        }
        Line::Amiss => {
            println!(rt; "{place}: no such line")?;
            return Ok(false);
        }
    }
    Ok(true)
}

/// Whether a crash leaves what its row wants. What differs is written.
fn leaves_what_is_wanted<R: Print + Threads + Sync + Alloc<A = Global>>(
    rt: &R,
    place: u64,
    table: &Table<'_>,
    row: Row<'_>,
) -> io::Result<bool> {
    let mut wanted = Told::new(rt.alloc());
    put_wanted(rt, rt.alloc(), &mut wanted, table, row);
    let mut got = Told::new(rt.alloc());
    put_crash(rt, rt.alloc(), &mut got, table.made, table.call, row);
    is_same(rt, place, &wanted, &got)
}

/// Puts what a row wants.
fn put_wanted<R: Threads + Sync>(
    rt: &R,
    alloc: Global,
    wanted: &mut Told,
    table: &Table<'_>,
    row: Row<'_>,
) {
    wanted.push_str(row.ended);
    wanted.push_str(", ");
    if let Some(steps) = table.left.get(row.steps) {
        put_made(rt, alloc, wanted, steps);
    }
}

/// Whether what came is what was wanted. What differs is written.
fn is_same<R: Print>(rt: &R, place: u64, wanted: &Told, got: &Told) -> io::Result<bool> {
    let wanted = wanted.text()?;
    let got = got.text()?;
    if wanted == got {
        return Ok(true);
    }
    println!(rt; "{place}: wanted `{wanted}`, got `{got}`")?;
    Ok(false)
}
