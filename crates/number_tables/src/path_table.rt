//! A table of paths in which strangers can't slow a look-up down.
ghost use Rattle.std.specs.Prelude.{◌≡◌, ◌++◌, ◌∷◌, [], None, Some, nat_eq, IfOk, OnOk, OnErr};
ghost use Rattle.std.specs.Cmp.Lexicographic.{pointwise};
ghost use Rattle.std.specs.List.{IsDistinct, slice_get};
ghost use Rattle.std.specs.Option.{option_copied};
ghost use Rattle.number_tables.specs.NumberedPaths.{IsPathTable};
ghost use Rattle.number_tables.specs.TableNumbers.{number_of_path, with_new_value};

use chunked_list::{Bound, Chunked, Keyed, Order};
use std::alloc::{AllocError, Global};
use std::cmp::Ordering;
use std::marker::Model;
use tree_clock::Path;

// So many paths have numbers at most.
const PATHS_LIMIT: usize = 4_294_967_295;

/// A path with its number.
#[derive(Clone, Copy)]
pub(crate) struct NumberedPath {
    pub(crate) path: Path,
    pub(crate) number: u32,
}

// Paths stand in the list itself, so hints would tell nothing more.
impl Keyed for NumberedPath {
    ghost use Rattle.std.specs.Prelude.{[]};

    ghost key = { λ _. [] };

    fn shared(&self, _other: &NumberedPath) -> usize {
        0
    }

    fn hint(&self, _place: usize) -> u64 {
        0
    }
}

/// By path, then by number.
struct ByPath;

impl Order<NumberedPath> for ByPath {
    ghost use Rattle.number_tables.specs.NumberedPaths.{no_text_tells};
    ghost use Rattle.number_tables.specs.NumberedPaths.{numbered_path_cmp, numbered_path_total, numbered_path_exact};

    ghost order = { λ _. numbered_path_cmp };

    ghost total = { λ _. numbered_path_total };

    ghost exact = { λ _. numbered_path_exact };

    ghost by_key = { λ _ a b r differs e. no_text_tells r differs e };

    fn compare(&self, a: &NumberedPath, b: &NumberedPath) -> Ordering {
        match a.path.cmp(&b.path) {
            Ordering::Less => Ordering::Less,
            Ordering::Greater => Ordering::Greater,
            Ordering::Equal => a.number.cmp(&b.number),
        }
    }
}

/// The place of a path.
#[derive(Drop)]
struct SoughtPath<'a> {
    path: &'a Path,
}

impl<'a> Bound<NumberedPath> for SoughtPath<'a> {
    ghost use Rattle.std.specs.Prelude.{[]};
    ghost use Rattle.number_tables.specs.NumberedPaths.{no_text_below, no_text_above};
    ghost use Rattle.number_tables.specs.NumberedPaths.{is_before_path};

    ghost before = { λ place. is_before_path place.path.now };

    ghost key = { λ _. [] };

    fn is_before(&self, element: &NumberedPath) -> bool {
        element.path.cmp(self.path).is_lt()
    }

    fn shared(&self, _element: &NumberedPath) -> usize {
        0
    }

    fn hint(&self, _place: usize) -> u64 {
        0
    }

    ghost below = { λ place element less. no_text_below less };

    ghost above = { λ place element more. no_text_above more };
}

/// Paths, each once; a number is a path's place, and stays what it is. Contracts see the list of the paths.
///
/// Beside them they stand in order, with their numbers, so that a look-up goes by halves.
#[derive(Drop)]
pub struct PathTable {
    paths: Vec<Path>,
    places: Chunked<NumberedPath>,
}

impl Model for PathTable {
    ghost use Rattle.std.specs.Prelude.{List, ℕ};
    ghost use Rattle.number_tables.specs.NumberedPaths.{IsPathTable};

    ghost Value = { List (List ℕ) };

    ghost view = { λ table. table.paths.items };

    ghost invariant = { λ table. IsPathTable table.paths.items table.places.elements };
}

impl PathTable {
    /// No path.
    pub fn new(alloc: Global) -> PathTable
        ensures { result ≡ [] }
    {
        PathTable {
            paths: Vec::new(alloc),
            places: Chunked::new(alloc),
        }
    }

    /// The paths, in the order of their numbers.
    pub fn paths(&self) -> &[Path]
        ensures { result.now ≡ self.now }
    {
        &self.paths
    }

    /// The paths alone, in the order of their numbers.
    pub fn into_paths(self) -> Vec<Path>
        ensures { result.items ≡ self }
    {
        let PathTable { paths, places: _ } = self;
        paths
    }

    /// The path that has a number, where one has.
    pub fn get(&self, number: u32) -> Option<&Path>
        ensures value { option_copied result ≡ slice_get self.now number }
        ensures apart { IsDistinct (pointwise nat_eq) self.now }
    {
        self.paths.get(number as usize)
    }

    /// The number of a path, where it has one.
    pub fn number(&self, path: &Path) -> Option<u32>
        ensures { result ≡ number_of_path self.now path.now }
    {
        find(&self.paths, &self.places, path)
    }

    /// The number of a path, which gets one where it has none. Where memory is wanting, or there are 2^32 - 1 paths, no path
    /// gets one.
    pub fn give(&mut self, path: &Path) -> Result<u32, AllocError>
        ensures number { IfOk result (λ number. number_of_path self.new path.now ≡ Some number) }
        ensures ok { OnOk result (self.new ≡ with_new_value (pointwise nat_eq) self.old path.now) }
        ensures err { OnErr result (self.new ≡ self.old) }
        ensures apart { IsDistinct (pointwise nat_eq) self.new }
    {
        match find(&self.paths, &self.places, path) {
            Some(number) => Ok(number),
            None => add(&mut self.paths, &mut self.places, path),
        }
    }
}

// The number of a path, where it has one.
fn find(paths: &[Path], places: &Chunked<NumberedPath>, path: &Path) -> Option<u32>
    requires { IsPathTable paths.now places.now.elements }
    ensures { result ≡ number_of_path paths.now path.now }
{
    let place = places.first_from(&SoughtPath { path })?;
    if place.path == *path {
        return Some(place.number);
    }
    None
}

// The number of a path that has none yet: the next one.
fn add(
    paths: &mut Vec<Path>,
    places: &mut Chunked<NumberedPath>,
    path: &Path,
) -> Result<u32, AllocError>
    requires is { IsPathTable paths.old.items places.old.elements }
    requires absent { number_of_path paths.old.items path.now ≡ None }
    ensures is { IsPathTable paths.new.items places.new.elements }
    ensures number { IfOk result (λ number. number_of_path paths.new.items path.now ≡ Some number) }
    ensures ok { OnOk result (paths.new.items ≡ paths.old.items ++ path.now ∷ []) }
    ensures err { OnErr result (paths.new.items ≡ paths.old.items) }
{
    let count = paths.len();
    if count >= PATHS_LIMIT {
        return Err(AllocError);
    }
    let alloc = *paths.allocator();
    paths.reserve(1)?;
    places.prepare(alloc, 1)?;
    let number = count as u32;
    paths.push_reserved(*path);
    places.insert(
        &ByPath,
        NumberedPath {
            path: *path,
            number,
        },
    );
    Ok(number)
}
