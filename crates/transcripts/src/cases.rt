//! Cases: lines of files, each with its kind, what is given, and what that has to give.
use crate::counts::Count;
use crate::files::names_of_files;
use crate::marks::parted;
use std::alloc::{Alloc, AllocError, Global};
use std::fs::{self, Files};
use std::io::{self, Print};

/// What stands before the part that says what is wanted.
const ARROW: &str = " => ";

/// A case.
#[derive(Clone, Copy)]
pub struct Case<'a> {
    /// Its first word, which says the kind.
    pub word: &'a str,
    /// What is given.
    pub input: &'a str,
    /// What it has to give; empty where nothing is said of it.
    pub wanted: &'a str,
}

/// Who tries cases, one after another.
pub trait Tries {
    /// Forgets what the cases so far have left.
    fn forget(&mut self);

    /// Puts what a case gives at the end of a text; whether it is one that can be read.
    fn put(&mut self, out: &mut String, case: &Case<'_>) -> Result<bool, AllocError>;
}

/// The cases of a kind.
#[derive(Drop)]
struct Tally {
    /// The first word of its lines.
    word: String,
    /// How many there were, and how many of them gave something else than they had to.
    cases: Count,
}

/// Where a case stands.
#[derive(Clone, Copy)]
struct Spot<'a> {
    /// The name of its file.
    name: &'a str,
    /// The number of its line.
    place: u64,
}

/// The case of a line; `None` where it is empty or a comment.
fn case_of(line: &str) -> Option<Case<'_>> {
    if line.is_empty() || line.starts_with('#') {
        return None;
    }
    let (front, wanted) = line.rsplit_once(ARROW).unwrap_or((line, ""));
    let (word, input) = parted(front);
    Some(Case {
        word,
        input,
        wanted,
    })
}

/// Tries the cases of each file here that ends with `.txt`, with nothing left of the file before; whether each has a case, and none differs.
/// Then those of each file that ends with `.changed`, in each of which something is changed; whether all of these differ. What differs is
/// written, and at the end a line that counts the changed cases, one for each kind that counts its cases, and one that counts the files.
pub fn try_cases<R: Files + Print + Alloc<A = Global> + Clone + Drop, T: Tries>(
    rt: &R,
    tries: &mut T,
) -> io::Result<bool> {
    let changed = Box::new(rt.alloc(), names_of_files(rt, ".changed")?)?;
    let are_found = try_changed(rt, tries, changed.as_slice())?;
    let names = Box::new(rt.alloc(), names_of_files(rt, ".txt")?)?;
    Ok(try_files(rt, tries, names.as_slice())? && are_found)
}

/// Tries the cases of these files, in each of which something is changed; whether all of them differ. How many there are, and how many
/// differ, is written.
fn try_changed<R: Files + Print + Alloc<A = Global>, T: Tries>(
    rt: &R,
    tries: &mut T,
    names: &[String],
) -> io::Result<bool> {
    let mut tallies = Box::new(rt.alloc(), Vec::new(rt.alloc()))?;
    for name in names {
        try_file(rt, tries, name.as_str(), &mut tallies)?;
    }
    let all = sum_of(tallies.as_slice());
    println!(rt; "{} changed cases, {} differ", all.runs, all.differ)?;
    Ok(all.runs == all.differ)
}

/// The cases of all words together.
fn sum_of(tallies: &[Tally]) -> Count {
    let mut all = Count::new();
    for tally in tallies {
        all.runs = all.runs.saturating_add(tally.cases.runs);
        all.differ = all.differ.saturating_add(tally.cases.differ);
    }
    all
}

/// Tries the cases of these files.
fn try_files<R: Files + Print + Alloc<A = Global>, T: Tries>(
    rt: &R,
    tries: &mut T,
    names: &[String],
) -> io::Result<bool> {
    let mut tallies = Box::new(rt.alloc(), Vec::new(rt.alloc()))?;
    let mut empty = 0u64;
    for name in names {
        if !try_file(rt, tries, name.as_str(), &mut tallies)? {
            empty = empty.saturating_add(1);
        }
    }
    let is_so = tell_tallies(rt, tallies.as_slice())?;
    println!(rt; "{} files, {empty} without a case", names.len())?;
    Ok(is_so && empty == 0)
}

/// Tries the cases of a file; whether it has any. That it has none is written.
fn try_file<R: Files + Print + Alloc<A = Global>, T: Tries>(
    rt: &R,
    tries: &mut T,
    name: &str,
    tallies: &mut Vec<Tally>,
) -> io::Result<bool> {
    let text = fs::read_to_string(rt, name)?;
    tries.forget();
    let has_cases = try_lines(rt, tries, name, text.as_str(), tallies)?;
    if !has_cases {
        println!(rt; "{name}: no case")?;
    }
    Ok(has_cases)
}

/// Tries the cases among the lines of a text; whether there are any.
fn try_lines<R: Print + Alloc<A = Global>, T: Tries>(
    rt: &R,
    tries: &mut T,
    name: &str,
    text: &str,
    tallies: &mut Vec<Tally>,
) -> io::Result<bool> {
    let mut place = 0u64;
    let mut has_cases = false;
    for line in text.lines() {
        place = place.saturating_add(1);
        if let Some(case) = case_of(line) {
            has_cases = true;
            let is_so = is_as_wanted(rt, tries, Spot { name, place }, &case)?;
            count(rt.alloc(), tallies, case.word, is_so)?;
        }
    }
    Ok(has_cases)
}

/// Whether a case gives what it has to give. What differs is written.
fn is_as_wanted<R: Print + Alloc<A = Global>, T: Tries>(
    rt: &R,
    tries: &mut T,
    spot: Spot<'_>,
    case: &Case<'_>,
) -> io::Result<bool> {
    let mut given = String::new(rt.alloc());
    let is_read = tries.put(&mut given, case)?;
    compare(rt, spot, is_read, case.wanted, given.as_str())
}

/// Whether a case could be read, and this is what it has to give. What differs is written.
fn compare<R: Print>(
    rt: &R,
    spot: Spot<'_>,
    is_read: bool,
    wanted: &str,
    given: &str,
) -> io::Result<bool> {
    let name = spot.name;
    let place = spot.place;
    if !is_read {
        println!(rt; "{name}:{place}: no such line")?;
        return Ok(false);
    }
    if given == wanted {
        return Ok(true);
    }
    println!(rt; "{name}:{place}: wanted `{wanted}`, got `{given}`")?;
    Ok(false)
}

/// Counts a case of a word.
fn count(
    alloc: Global,
    tallies: &mut Vec<Tally>,
    word: &str,
    is_so: bool,
) -> Result<(), AllocError> {
    for tally in tallies.iter_mut() {
        if tally.word.as_str() == word {
            tally.cases.add(is_so);
            return Ok(());
        }
    }
    let mut cases = Count::new();
    cases.add(is_so);
    push_tally(alloc, tallies, word, cases)
}

/// Puts the count of a word behind those of the others.
fn push_tally(
    alloc: Global,
    tallies: &mut Vec<Tally>,
    word: &str,
    cases: Count,
) -> Result<(), AllocError> {
    let word = String::from_str(alloc, word)?;
    tallies.push(Tally { word, cases })?;
    Ok(())
}

/// Whether no case differs. How many there were of each word, and how many of them differ, is written.
fn tell_tallies<R: Print>(rt: &R, tallies: &[Tally]) -> io::Result<bool> {
    let mut is_so = true;
    for tally in tallies {
        let word = tally.word.as_str();
        let cases = tally.cases;
        println!(rt; "{word}: {} cases, {} differ", cases.runs, cases.differ)?;
        is_so &= cases.is_well();
    }
    Ok(is_so)
}
