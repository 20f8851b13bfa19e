//! Lists of rows in order: rows that come in and go out. What moves is moved once, and the places are found by halves.
ghost use Rattle.std.specs.Prelude.{◌≡◌, ◌+◌, ◌-◌, ◌≤◌, ◌↔◌, ◌++◌, ◌⊎◌, ◌∷◌, [], ℕ, List, IsTrue, Option, length, drop, min, take, vec_len, vec_capacity};
ghost use Rattle.std.specs.VecDeque.{deque_items, deque_len};
ghost use Rattle.reply_rows.specs.Times.{times};
ghost use Rattle.reply_rows.specs.Rising.{IsRowPlace, IsRising, LeavesOut, SkipsTo, row_order};
ghost use Rattle.rdf_terms.specs.declared.terms.Term.{Term};
ghost use Rattle.tree_clock.specs.Lists.{Has};

use crate::row_orders::{cmp_rows, has_row};
use jrql_ast::Row;
use std::collections::VecDeque;

// How many of the rows are below a row.
fn place_of(rows: &VecDeque<Row>, row: &Row) -> usize
    requires { IsRising row_order rows.now.items }
    ensures { IsRowPlace row_order row.now rows.now.items result }
{
    rows.partition_point(|other| cmp_rows(other, row).is_lt())
}

// Moves so many rows from the front of a list behind others, for which there is room.
fn move_rows(count: usize, rest: &mut VecDeque<Row>, kept: &mut Vec<Row>)
    requires count { count ≤ length rest.old.items }
    requires room { vec_len kept.old + count ≤ vec_capacity kept.old }
    ensures rest { rest.new.items ≡ drop count rest.old.items }
    ensures kept { kept.new.items ≡ kept.old.items ++ take count rest.old.items }
    ensures len { vec_len kept.new ≡ vec_len kept.old + count }
    ensures capacity { vec_capacity kept.new ≡ vec_capacity kept.old }
{
    for _ in 0..count {
        if let Some(row) = rest.pop_front() {
            kept.push_reserved(row);
        }
    }
}

// Moves the rows that are below a row.
fn skip_to(row: &Row, rest: &mut VecDeque<Row>, kept: &mut Vec<Row>)
    requires rising { IsRising row_order rest.old.items }
    requires room { vec_len kept.old + length rest.old.items ≤ vec_capacity kept.old }
    ensures skips { SkipsTo row_order row.now rest.old.items kept.old.items rest.new.items kept.new.items }
    ensures len { vec_len kept.new + length rest.new.items ≡ vec_len kept.old + length rest.old.items }
    ensures capacity { vec_capacity kept.new ≡ vec_capacity kept.old }
{
    let count = place_of(rest, row);
    move_rows(count, rest, kept);
}

// Whether a row is the first of a list.
fn is_first(rows: &VecDeque<Row>, row: &Row) -> bool
    ensures first { (first : List (Option Term)) (others : List (List (Option Term))) → rows.now.items ≡ first ∷ others
        → IsTrue result ↔ (first ≡ row.now) }
    ensures none { rows.now.items ≡ [] → ¬ IsTrue result }
{
    match rows.front() {
        Some(first) => cmp_rows(first, row).is_eq(),
        None => false,
    }
}

// Leaves out the first row of a list, where it is this one.
fn leave_out(row: &Row, rows: &mut VecDeque<Row>)
    ensures leaves { LeavesOut row.now rows.old.items rows.new.items }
    ensures len { length rows.new.items ≤ length rows.old.items }
{
    if is_first(rows, row) {
        rows.pop_front();
    }
}

/// The rows without those that go, each as often as it goes. Both are in order, and there is room for all rows.
pub fn without(rows: Vec<Row>, removed: &[Row], room: Vec<Row>) -> Vec<Row>
    requires rising { IsRising row_order rows.items }
    requires removed { IsRising row_order removed.now }
    requires none { room.items ≡ [] }
    requires room { vec_len rows ≤ vec_capacity room }
    ensures rising { IsRising row_order result.items }
    ensures often { (row : List (Option Term)) → times row result.items ≡ times row rows.items - times row removed.now }
    ensures len { vec_len result ≤ vec_len rows }
{
    if removed.is_empty() {
        return rows;
    }
    let mut rest = VecDeque::from_vec(rows);
    let mut kept = room;
    let mut left = removed;
    while let Some((row, others)) = left.split_first() {
        skip_to(row, &mut rest, &mut kept);
        leave_out(row, &mut rest);
        left = others;
    }
    let count = rest.len();
    move_rows(count, &mut rest, &mut kept);
    kept
}

/// The rows with those that come. Both are in order, and there is room for all.
pub fn with(rows: Vec<Row>, added: Vec<Row>, room: Vec<Row>) -> Vec<Row>
    requires rising { IsRising row_order rows.items }
    requires added { IsRising row_order added.items }
    requires none { room.items ≡ [] }
    requires room { vec_len rows + vec_len added ≤ vec_capacity room }
    ensures rising { IsRising row_order result.items }
    ensures often { (row : List (Option Term)) → times row result.items ≡ times row rows.items + times row added.items }
{
    if added.is_empty() {
        return rows;
    }
    let mut rest = VecDeque::from_vec(rows);
    let mut left = VecDeque::from_vec(added);
    let mut kept = room;
    while let Some(row) = left.pop_front() {
        skip_to(&row, &mut rest, &mut kept);
        kept.push_reserved(row);
    }
    let count = rest.len();
    move_rows(count, &mut rest, &mut kept);
    kept
}

// Whether a row is the last of a list.
fn is_last(rows: &[Row], row: &Row) -> bool
    ensures last { (front : List (List (Option Term))) (last : List (Option Term)) → rows.now ≡ front ++ last ∷ []
        → IsTrue result ↔ (last ≡ row.now) }
    ensures none { rows.now ≡ [] → ¬ IsTrue result }
{
    match rows.last() {
        Some(last) => cmp_rows(last, row).is_eq(),
        None => false,
    }
}

/// Those of the rows that aren't known, each once. Both are in order, and there is room for all rows.
pub fn unknown_of(rows: Vec<Row>, known: &[Row], room: Vec<Row>) -> Vec<Row>
    requires rising { IsRising row_order rows.items }
    requires known { IsRising row_order known.now }
    requires none { room.items ≡ [] }
    requires room { vec_len rows ≤ vec_capacity room }
    ensures rising { IsRising row_order result.items }
    ensures often { (row : List (Option Term)) → times row result.items ≡ min 1 (times row rows.items) - times row known.now }
    ensures len { vec_len result ≤ vec_len rows }
{
    let mut left = VecDeque::from_vec(rows);
    let mut kept = room;
    while let Some(row) = left.pop_front() {
        if is_last(&kept, &row) || has_row(known, &row) {
            continue;
        }
        kept.push_reserved(row);
    }
    kept
}
