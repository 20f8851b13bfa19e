//! Lists of pairs that name each path once.
ghost use Rattle.std.specs.Prelude.{◌≡◌, ◌≤◌, ◌↔◌, ℕ, List, [], Some, length, map, IsTrue, IfOk, IfSome};
ghost use Rattle.std.specs.List.{slice_get};
ghost use Rattle.std.specs.Option.{option_map};
ghost use Rattle.mld_ops.specs.PairLists.{path_numbered, row_pair, rows_pairs, pair_lent, IsNumberedIn, IsRowIn};

use crate::tagged::Tagged;
use rdf_terms::Triple;
use std::alloc::{AllocError, Global};
use std::marker::Model;
use tree_clock::{Clock, Dot, Path};

/// A row of a list of pairs: a pair whose path is a number among the list's paths. A number that no path has stands for the
/// root.
#[derive(Debug, Drop)]
pub struct PairRow {
    /// The triple.
    pub triple: Triple,
    /// The number of the path, from 0.
    pub path: u32,
    /// The tick.
    pub tick: u32,
}

impl PairRow {
    /// A copy of the row, which shares its texts.
    pub fn share(&self) -> Result<PairRow, AllocError>
        ensures { IfOk result (λ copy. copy ≡ self.now) }
    {
        Ok(PairRow {
            triple: self.triple.share()?,
            path: self.path,
            tick: self.tick,
        })
    }
}

/// A pair that is lent.
#[derive(Clone, Copy)]
pub struct PairRef<'a> {
    /// The triple.
    pub triple: &'a Triple,
    /// The dot of its operation.
    pub dot: Dot,
}

impl<'a> PairRef<'a> {
    /// A copy of the pair, which shares its texts.
    pub fn share(&self) -> Result<Tagged, AllocError>
        ensures { IfOk result (λ pair. pair ≡ pair_lent self.now) }
    {
        Ok(Tagged {
            triple: self.triple.share()?,
            dot: self.dot,
        })
    }
}

/// A list of pairs that names each path once. Contracts see the list of pairs.
#[derive(Drop)]
pub struct PairList {
    paths: Vec<Path>,
    rows: Vec<PairRow>,
}

impl Model for PairList {
    ghost use Rattle.std.specs.Prelude.{List};
    ghost use Rattle.mld_ops.specs.PairLists.{rows_pairs};
    ghost use Rattle.mld_ops.specs.declared.tagged.Tagged.{Tagged};

    ghost Value = { List Tagged };

    ghost view = { λ pairs. rows_pairs pairs.paths.items pairs.rows.items };
}

impl PairList {
    /// The list with no pair.
    pub fn new(alloc: Global) -> PairList
        ensures { result ≡ [] }
    {
        PairList {
            paths: Vec::new(alloc),
            rows: Vec::new(alloc),
        }
    }

    /// The list of the pairs of rows, whose paths have their numbers among these. It takes no memory.
    pub fn from_rows(paths: Vec<Path>, rows: Vec<PairRow>) -> PairList
        ensures { result ≡ rows_pairs paths.items rows.items }
    {
        PairList { paths, rows }
    }

    /// The list of these pairs, whose triples are moved. Its paths are those of a clock, and behind them those of pairs that
    /// the clock lacks.
    pub fn from_list(
        alloc: Global,
        clock: &Clock,
        list: Vec<Tagged>,
    ) -> Result<PairList, AllocError>
        ensures { IfOk result (λ pairs. pairs ≡ list.items) }
    {
        let mut paths = paths_of(alloc, clock)?;
        let rows = rows_of(alloc, &mut paths, list)?;
        Ok(PairList { paths, rows })
    }

    /// The number of pairs.
    pub fn len(&self) -> usize
        ensures { result ≡ length self.now }
    {
        self.rows.len()
    }

    /// Whether there is no pair.
    pub fn is_empty(&self) -> bool
        ensures { IsTrue result ↔ (self.now ≡ []) }
    {
        self.rows.is_empty()
    }

    /// The pair at a place, counted from 0.
    pub fn get(&self, at: usize) -> Option<PairRef<'_>>
        ensures { option_map pair_lent result ≡ slice_get self.now at }
    {
        pair_at(&self.paths, &self.rows, at)
    }

    /// The paths, and the rows with the numbers of their paths.
    pub fn parts(&self) -> (&[Path], &[PairRow])
        ensures { rows_pairs result.0.now result.1.now ≡ self.now }
    {
        (&self.paths, &self.rows)
    }

    /// A copy, which shares its texts.
    pub fn copy_in(&self, alloc: Global) -> Result<PairList, AllocError>
        ensures { IfOk result (λ copy. copy ≡ self.now) }
    {
        let paths = Vec::from_slice(alloc, &self.paths)?;
        let rows = copy_rows(alloc, &self.rows)?;
        Ok(PairList { paths, rows })
    }

    /// The pairs, which share their texts.
    pub fn to_list(&self, alloc: Global) -> Result<Vec<Tagged>, AllocError>
        ensures { IfOk result (λ list. list.items ≡ self.now) }
    {
        list_of(alloc, &self.paths, &self.rows)
    }
}

/// The pair of a row, whose path has its number among these.
pub fn row_ref<'a>(paths: &[Path], row: &'a PairRow) -> PairRef<'a>
    ensures { pair_lent result ≡ row_pair paths.now row.now }
{
    PairRef {
        triple: &row.triple,
        dot: Dot {
            path: path_numbered(paths, row.path),
            tick: row.tick,
        },
    }
}

// The path that has a number among these; the root, where none has.
fn path_numbered(paths: &[Path], number: u32) -> Path
    ensures { result ≡ path_numbered paths.now number }
{
    match paths.get(number as usize) {
        Some(path) => *path,
        None => Path::root(),
    }
}

// The pair of the row at a place.
fn pair_at<'a>(paths: &[Path], rows: &'a [PairRow], at: usize) -> Option<PairRef<'a>>
    ensures { option_map pair_lent result ≡ slice_get (rows_pairs paths.now rows.now) at }
{
    match rows.get(at) {
        Some(row) => Some(row_ref(paths, row)),
        None => None,
    }
}

// A copy of rows.
fn copy_rows(alloc: Global, rows: &[PairRow]) -> Result<Vec<PairRow>, AllocError>
    ensures { IfOk result (λ copy. copy.items ≡ rows.now) }
{
    let mut copy = Vec::with_capacity(alloc, rows.len())?;
    for row in rows {
        copy.push(row.share()?)?;
    }
    Ok(copy)
}

// The pairs of rows.
fn list_of(alloc: Global, paths: &[Path], rows: &[PairRow]) -> Result<Vec<Tagged>, AllocError>
    ensures { IfOk result (λ list. list.items ≡ rows_pairs paths.now rows.now) }
{
    let mut list = Vec::with_capacity(alloc, rows.len())?;
    for row in rows {
        list.push(row_ref(paths, row).share()?)?;
    }
    Ok(list)
}

// The paths of a clock, ascending.
fn paths_of(alloc: Global, clock: &Clock) -> Result<Vec<Path>, AllocError>
    ensures { IfOk result (λ paths. paths.items ≡ map (λ (ticks : List ℕ × ℕ). ticks.0) clock.now.ticks) }
{
    let ticks = clock.to_list(alloc)?;
    front_paths(alloc, &ticks)
}

// The paths of paths with their ticks.
fn front_paths(alloc: Global, list: &[(Path, u32)]) -> Result<Vec<Path>, AllocError>
    ensures { IfOk result (λ paths. paths.items ≡ map (λ (ticks : List ℕ × ℕ). ticks.0) list.now) }
{
    let mut paths = Vec::with_capacity(alloc, list.len())?;
    for (path, _) in list {
        paths.push(*path)?;
    }
    Ok(paths)
}

// The rows of pairs, whose triples are moved. The paths ascend; those that aren't among them are put behind them.
fn rows_of(
    alloc: Global,
    paths: &mut Vec<Path>,
    list: Vec<Tagged>,
) -> Result<Vec<PairRow>, AllocError>
    ensures { IfOk result (λ rows. rows_pairs paths.new.items rows.items ≡ list.items) }
{
    let ordered = paths.len();
    let mut last = 0;
    let mut rows = Vec::with_capacity(alloc, list.len())?;
    for pair in list {
        let row = row_of(paths, ordered, last, pair)?;
        last = row.path;
        rows.push(row)?;
    }
    Ok(rows)
}

// The row of a pair, whose triple is moved.
fn row_of(
    paths: &mut Vec<Path>,
    ordered: usize,
    last: u32,
    pair: Tagged,
) -> Result<PairRow, AllocError>
    requires { ordered ≤ length paths.old.items }
    ensures { IfOk result (IsRowIn paths.old.items paths.new.items pair) }
{
    let path = number_of(paths, ordered, last, &pair.dot.path)?;
    Ok(PairRow {
        triple: pair.triple,
        path,
        tick: pair.dot.tick,
    })
}

// The number of a path among these, the first of which ascend. The last number that was found is looked at first. A path that
// isn't there is put behind the others.
fn number_of(
    paths: &mut Vec<Path>,
    ordered: usize,
    last: u32,
    path: &Path,
) -> Result<u32, AllocError>
    requires { ordered ≤ length paths.old.items }
    ensures { IfOk result (IsNumberedIn paths.old.items paths.new.items path.now) }
{
    if has_number(paths, last, path) {
        return Ok(last);
    }
    match number_among(paths, ordered, path) {
        Some(number) => Ok(number),
        None => put_behind(paths, path),
    }
}

// Whether a path has a number among these.
fn has_number(paths: &[Path], number: u32, path: &Path) -> bool
    ensures { IsTrue result → slice_get paths.now number ≡ Some path.now }
{
    match paths.get(number as usize) {
        Some(other) => *other == *path,
        None => false,
    }
}

// The number of a path among the first of these, which ascend.
fn number_among(paths: &[Path], ordered: usize, path: &Path) -> Option<u32>
    requires { ordered ≤ length paths.now }
    ensures { IfSome result (λ number. slice_get paths.now number ≡ Some path.now) }
{
    match paths[..ordered].binary_search(path) {
        Ok(place) => number_of_place(place),
        Err(_) => None,
    }
}

// A place as a number, where it is one of four bytes.
fn number_of_place(place: usize) -> Option<u32>
    ensures { IfSome result (λ number. number ≡ place) }
{
    match u32::try_from(place) {
        Ok(number) => Some(number),
        Err(_) => None,
    }
}

// Puts a path behind these, and answers its number.
fn put_behind(paths: &mut Vec<Path>, path: &Path) -> Result<u32, AllocError>
    ensures { IfOk result (IsNumberedIn paths.old.items paths.new.items path.now) }
{
    let Ok(number) = u32::try_from(paths.len()) else {
        return Err(AllocError);
    };
    paths.push(*path)?;
    Ok(number)
}
