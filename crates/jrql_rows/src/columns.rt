//! The variables in the order by which solutions are sorted.
ghost use Rattle.std.specs.Prelude.{◌≡◌, ◌+◌, ◌<◌, ◌≤◌, ◌++◌, [], IfOk, OnOk, length, map};
ghost use Rattle.std.specs.Cmp.Lexicographic.{slice_cmp};
ghost use Rattle.std.specs.List.{All, range_with_len, slice_index_or};
ghost use Rattle.std.specs.List.Sorted.{IsPermutation, IsSortedBy};
ghost use Rattle.std.specs.Ordering.{is_lt, nat_cmp};
ghost use Rattle.jrql_rows.specs.ColumnOrder.{AreColumnsOf};

use std::alloc::{AllocError, Global};
use text_rules::Text;

// A named variable, with its name in front.
fn one_named<'a>(names: &'a [Text], number: usize) -> (&'a str, u16)
    requires there { number < length names.now }
    requires few { length names.now ≤ 65535 }
    ensures name { result.0.now ≡ slice_index_or names.now number [] }
    ensures number { result.1 ≡ number }
{
    (names[number].as_str(), number as u16)
}

// The named variables, with their names in front.
fn named<'a>(alloc: Global, names: &'a [Text]) -> Result<Vec<(&'a str, u16)>, AllocError>
    requires { length names.now ≤ 65535 }
    ensures numbers { IfOk result (λ list. map (λ pair. pair.1) list.items ≡ range_with_len 0 (length names.now)) }
    ensures names { IfOk result (λ list. All (λ pair. pair.0.now ≡ slice_index_or names.now pair.1 []) list.items) }
{
    let mut list = Vec::new(alloc);
    for number in 0..names.len() {
        list.push(one_named(names, number))?;
    }
    Ok(list)
}

// Sorts variables by their names.
fn sort_names(list: &mut Vec<(&str, u16)>)
    ensures same { IsPermutation list.old.items list.new.items }
    ensures by_name { IsSortedBy (λ pair other. is_lt (slice_cmp nat_cmp pair.0.now other.0.now)) list.new.items }
{
    list.sort_unstable_by(|pair, other| pair.0.cmp(&other.0));
}

// The numbers of variables.
fn numbers_of(alloc: Global, list: &[(&str, u16)]) -> Result<Vec<u16>, AllocError>
    ensures { IfOk result (λ numbers. numbers.items ≡ map (λ pair. pair.1) list.now) }
{
    let mut numbers = Vec::new(alloc);
    for pair in list {
        numbers.push(pair.1)?;
    }
    Ok(numbers)
}

// Adds so many hidden variables, from the first one on.
fn add_hidden(numbers: &mut Vec<u16>, first: u16, hidden: u16) -> Result<(), AllocError>
    requires { first + hidden ≤ 65535 }
    ensures { OnOk result (numbers.new.items ≡ numbers.old.items ++ range_with_len first hidden) }
{
    for number in 0..hidden {
        numbers.push(first + number)?;
    }
    Ok(())
}

/// The named variables by their names, and behind them the hidden ones.
pub fn columns_of(alloc: Global, names: &[Text], hidden: u16) -> Result<Vec<u16>, AllocError>
    requires { length names.now + hidden ≤ 65535 }
    ensures { IfOk result (λ columns. AreColumnsOf names.now hidden columns.items) }
{
    let mut by_name = named(alloc, names)?;
    sort_names(&mut by_name);
    let mut numbers = numbers_of(alloc, &by_name)?;
    add_hidden(&mut numbers, names.len() as u16, hidden)?;
    Ok(numbers)
}
