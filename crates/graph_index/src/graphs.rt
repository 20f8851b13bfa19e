//! The pairs of a clone.
ghost use Rattle.std.specs.Prelude.{◌≡◌, ◌<◌, ◌≤◌, ◌+◌, ◌*◌, ◌↔◌, ℕ, [], length, map, Some, IsTrue, IfOk, IfSome, IfNone, OnOk};
ghost use Rattle.std.specs.List.{filter};
ghost use Rattle.std.specs.Option.{option_copied};
ghost use Rattle.graph_index.specs.GraphParts.{graph_parts};
ghost use Rattle.graph_index.specs.Graphs.{Fits};
ghost use Rattle.graph_index.specs.Matching.{is_of, is_within_range, matches, dots_of, FindsEach, HasTriple, StandTogether};
ghost use Rattle.graph_index.specs.Numbered.{term_numbered, triple_numbered, has_wanted, StandForOwn, AreAllNumbered, FindsNumbered};
ghost use Rattle.graph_index.specs.TermNumbers.{HaveOwnNumbers, StandApart};
ghost use Rattle.mld_ops.specs.Applies.{Applies};
ghost use Rattle.mld_ops.specs.Tagged.{tagged_cmp};
ghost use Rattle.mld_ops.specs.declared.cuts.Cut.{Cut};
ghost use Rattle.mld_ops.specs.declared.tagged.Tagged.{Tagged};
ghost use Rattle.pair_orders.specs.Orders.{binary_digits};
ghost use Rattle.rdf_terms.specs.declared.terms.Triple.{Triple};
ghost use Rattle.tree_clock.specs.Lists.{IsAscending};

use crate::copies::into_pairs;
use crate::found::sort_rows;
use crate::lent_pairs::LentPairs;
use crate::list_rows::with_table_numbers;
use crate::numbered::{gain_all, lose_all, with_numbers};
use crate::parts::Parts;
use crate::tables::Tables;
use mld_ops::{Cut, PairList, Tagged, Tags};
use pair_orders::{NumberedPairs, Numbers, Places, Steps, TermNumbers};
use rdf_terms::{Iri, Term, Triple};
use std::alloc::{AllocError, Global};
use std::marker::{Brand, Model};
use std::mem::replace;
use std::sync::ledger::{Blank, Ledger};
use tree_clock::{Dot, Range};

/// The pairs of a clone: a set. Contracts see them as an ascending list, and whether there is room for a cut.
#[derive(Drop)]
pub struct Graph {
    // An array of one, so that whoever owns a graph lets it go by one call.
    parts: [Parts; 1],
}

impl Model for Graph {
    ghost use Rattle.graph_index.specs.GraphParts.{AreParts, graph_value};
    ghost use Rattle.graph_index.specs.Graphs.{GraphValue};

    ghost Value = { GraphValue };

    ghost view = { λ graph. graph_value graph.parts };

    ghost invariant = { λ graph. AreParts graph.parts };
}

impl Graph {
    /// No pair.
    pub fn empty(alloc: Global) -> Graph
        ensures { result.pairs ≡ [] }
    {
        Graph {
            parts: [no_parts(alloc)],
        }
    }

    /// The graph of these pairs, which ascend.
    pub fn from_list(alloc: Global, list: Vec<Tagged>) -> Result<Graph, AllocError>
        requires { IsAscending tagged_cmp list.items }
        ensures { IfOk result (λ graph. graph.pairs ≡ list.items) }
    {
        let mut tables = Tables::new(alloc);
        let mut numbers = Vec::with_capacity(alloc, list.len())?;
        tables.give_all(&list, &mut numbers)?;
        let entries = with_numbers(alloc, &tables, &mut numbers, list)?;
        let numbered = NumberedPairs::build(alloc, entries)?;
        Ok(graph_of(tables, numbered, Vec::new(alloc)))
    }

    /// The graph of these pairs, which ascend. Of the paths that the list names, those that a pair has get numbers, each once.
    pub fn from_pairs(alloc: Global, pairs: &PairList) -> Result<Graph, AllocError>
        requires { IsAscending tagged_cmp pairs.now }
        ensures { IfOk result (λ graph. graph.pairs ≡ pairs.now) }
    {
        let (paths, rows) = pairs.parts();
        let mut tables = Tables::new(alloc);
        let entries = with_table_numbers(alloc, &mut tables, paths, rows)?;
        let numbered = NumberedPairs::build(alloc, entries)?;
        Ok(graph_of(tables, numbered, Vec::new(alloc)))
    }

    /// Its pairs, ascending.
    pub fn to_list(&self, alloc: Global) -> Result<Vec<Tagged>, AllocError>
        ensures pairs { IfOk result (λ list. list.items ≡ self.now.pairs) }
        ensures ascending { IsAscending tagged_cmp self.now.pairs }
    {
        let pairs = self.sorted(alloc)?;
        pairs.to_list(alloc)
    }

    /// Its pairs, ascending, as a list that names each path once.
    pub fn to_pairs(&self, alloc: Global) -> Result<PairList, AllocError>
        ensures pairs { IfOk result (λ pairs. pairs ≡ self.now.pairs) }
        ensures ascending { IsAscending tagged_cmp self.now.pairs }
    {
        let pairs = self.sorted(alloc)?;
        pairs.to_pairs(alloc)
    }

    /// Its pairs, ascending, whose triples move to the list. What the list doesn't need is let go before it is made, so at most the
    /// list stands beside what was in the slots.
    pub fn into_list(self, alloc: Global) -> Result<Vec<Tagged>, AllocError>
        ensures pairs { IfOk result (λ list. list.items ≡ self.pairs) }
        ensures ascending { IsAscending tagged_cmp self.pairs }
    {
        let Graph { mut parts } = self;
        let own = replace(&mut parts[0], no_parts(alloc));
        list_of(alloc, own)
    }

    /// Its pairs, ascending, where they stand.
    pub fn in_order(&self, alloc: Global) -> Result<LentPairs<'_>, AllocError>
        ensures { IfOk result (λ list. list ≡ self.now.pairs) }
    {
        self.sorted(alloc)
    }

    // What it is made of.
    fn parts(&self) -> &Parts
        ensures value { graph_parts result.now ≡ self.now }
        ensures own { HaveOwnNumbers result.now.tables result.now.numbered.pairs }
        ensures apart { StandApart result.now.tables.terms result.now.tables.paths }
    {
        let parts = &self.parts[0];
        // It tells that no term has two numbers, and no path has.
        let _ = parts.tables.count_terms();
        parts
    }

    // Its pairs, sorted where they are lent.
    fn sorted(&self, alloc: Global) -> Result<LentPairs<'_>, AllocError>
        ensures pairs { IfOk result (λ list. list ≡ self.now.pairs) }
        ensures ascending { IsAscending tagged_cmp self.now.pairs }
    {
        let parts = self.parts();
        let rows = parts.numbered.lend_all(alloc)?;
        LentPairs::new(parts.tables.paths(), rows).sorted(alloc)
    }

    /// The same pairs in a graph of their own, which keeps no text that none of them has.
    pub fn renewed(&self, alloc: Global) -> Result<Graph, AllocError>
        ensures { IfOk result (λ graph. graph.pairs ≡ self.now.pairs) }
    {
        let pairs = self.to_pairs(alloc)?;
        Graph::from_pairs(alloc, &pairs)
    }

    /// The number of pairs. It takes no memory.
    pub fn count(&self) -> usize
        ensures { result ≡ length self.now.pairs }
    {
        self.parts().numbered.len()
    }

    /// Makes room for the pairs that a cut adds.
    pub fn prepare(&mut self, alloc: Global, cut: &Cut) -> Result<(), AllocError>
        ensures pairs { self.new.pairs ≡ self.old.pairs }
        ensures ok { OnOk result (Fits cut.now self.new) }
        ensures kept { (other : Cut) → Fits other self.old → Fits other self.new }
    {
        prepare_parts(alloc, &mut self.parts[0], cut)
    }

    /// Loses the pairs that a cut drops, and then gains those that it adds. It takes no memory.
    pub fn apply(&mut self, cut: Cut)
        requires { Fits cut self.old }
        ensures { Applies cut.drops.items cut.adds.items self.old.pairs self.new.pairs }
    {
        apply_to_parts(&mut self.parts[0], cut);
    }

    /// The pairs whose triple has the given parts, each once, in whatever order, but those of one triple together. It makes as many comparisons at most as two searches by
    /// halves and one for each pair that is found take.
    pub fn scan<L: Ledger>(
        &self,
        alloc: Global,
        s: Option<&Iri>,
        p: Option<&Iri>,
        o: Option<&Term>,
        steps: &mut Steps<L>,
    ) -> Result<LentPairs<'_>, AllocError>
        ensures found { IfOk result (λ found. FindsEach (matches (option_copied s.entry) (option_copied p.entry)
            (option_copied o.entry)) self.now.pairs found) }
        ensures together { IfOk result (λ found. StandTogether (λ (pair : Tagged). pair.triple) found) }
        ensures ascending { IsAscending tagged_cmp self.now.pairs }
        ensures bound { steps.new ≤ steps.old + 2 * binary_digits (length self.now.pairs) + length (filter (matches
            (option_copied s.entry) (option_copied p.entry) (option_copied o.entry)) self.now.pairs) + 2 }
    {
        let parts = self.parts();
        let paths = parts.tables.paths();
        let Some(wanted) = parts.tables.places(s, p, o) else {
            return Ok(LentPairs::new(paths, Vec::new(alloc)));
        };
        let rows = parts.numbered.search(alloc, &wanted, steps)?;
        Ok(LentPairs::new(paths, rows))
    }

    /// Whether some pair has the triple. It takes no memory.
    pub fn has_triple(&self, triple: &Triple) -> bool
        ensures found { IsTrue result ↔ HasTriple self.now.pairs triple.now }
        ensures ascending { IsAscending tagged_cmp self.now.pairs }
    {
        let parts = self.parts();
        match parts.tables.triple(triple) {
            Some((s, p, o)) => parts.numbered.has_triple(s, p, o),
            None => false,
        }
    }

    /// The term that has a number, where one has.
    pub fn term(&self, number: u32) -> Option<&Term>
        ensures value { option_copied result ≡ term_numbered self.now number }
        ensures own { StandForOwn self.now }
    {
        self.parts().tables.term_at(number)
    }

    /// The number of a term, where it has one.
    pub fn number(&self, term: &Term) -> Option<u32>
        ensures some { IfSome result (λ number. term_numbered self.now number ≡ Some term.now) }
        ensures none { IfNone result ((number : ℕ) → ¬ (term_numbered self.now number ≡ Some term.now)) }
        ensures own { StandForOwn self.now }
        ensures all { AreAllNumbered self.now }
    {
        self.parts().tables.term(term)
    }

    /// The triples whose terms have the wanted numbers, by the numbers of their terms, each once, in whatever order. It makes as many comparisons at most as two searches
    /// by halves and one for each pair of such a triple take.
    pub fn triples<L: Ledger>(
        &self,
        alloc: Global,
        wanted: &Places,
        steps: &mut Steps<L>,
    ) -> Result<Vec<TermNumbers>, AllocError>
        ensures found { IfOk result (λ found. FindsNumbered self.now wanted.now found.items) }
        ensures ascending { IsAscending tagged_cmp self.now.pairs }
        ensures bound { steps.new ≤ steps.old + 2 * binary_digits (length self.now.pairs)
            + length (filter (λ (pair : Tagged). has_wanted self.now wanted.now pair.triple) self.now.pairs) + 2 }
    {
        self.parts().numbered.triples(alloc, wanted, steps)
    }

    /// Whether some pair has the triple of these numbers. It takes no memory.
    pub fn has_numbers(&self, terms: &TermNumbers) -> bool
        ensures found { IsTrue result ↔ ((triple : Triple) × (triple_numbered self.now terms.now ≡ Some triple)
            × HasTriple self.now.pairs triple) }
        ensures ascending { IsAscending tagged_cmp self.now.pairs }
    {
        self.parts().numbered.has_triple(terms.s, terms.p, terms.o)
    }

    /// The pairs with the triple, ascending.
    pub fn of_triple(&self, alloc: Global, triple: &Triple) -> Result<Vec<Tagged>, AllocError>
        ensures { IfOk result (λ list. list.items ≡ filter (is_of triple.now) self.now.pairs) }
    {
        let pairs = self.with_triple(alloc, triple)?;
        pairs.to_list(alloc)
    }

    /// The dots of the pairs with the triple, ascending.
    pub fn tags_of(&self, alloc: Global, triple: &Triple) -> Result<Vec<Dot>, AllocError>
        ensures { IfOk result (λ dots. dots.items ≡ dots_of triple.now self.now.pairs) }
    {
        let pairs = self.with_triple(alloc, triple)?;
        pairs.dots(alloc)
    }

    // The pairs with the triple, ascending.
    fn with_triple(&self, alloc: Global, triple: &Triple) -> Result<LentPairs<'_>, AllocError>
        ensures { IfOk result (λ found. found ≡ filter (is_of triple.now) self.now.pairs) }
    {
        let found = self.found_with::<Brand>(alloc, triple, Blank::new(1))?;
        Ok(found.in_order())
    }

    // The pairs of a range.
    fn of_dots(&self, alloc: Global, range: &Range) -> Result<LentPairs<'_>, AllocError>
        ensures found { IfOk result (λ found. FindsEach (λ pair. is_within_range range.now pair.dot) self.now.pairs found) }
        ensures ascending { IsAscending tagged_cmp self.now.pairs }
    {
        let parts = self.parts();
        let paths = parts.tables.paths();
        let Some(path) = parts.tables.path(&range.path) else {
            return Ok(LentPairs::new(paths, Vec::new(alloc)));
        };
        let rows = parts
            .numbered
            .of_dots(alloc, path, range.first, range.last)?;
        Ok(LentPairs::new(paths, rows))
    }

    // The pairs with the triple, with steps that are counted in a ledger of their own.
    fn found_with<L: Ledger>(
        &self,
        alloc: Global,
        triple: &Triple,
        blank: Blank,
    ) -> Result<LentPairs<'_>, AllocError>
        requires name { blank.name ≡ L.name }
        requires parts { blank.parts ≡ L.parts }
        requires some { 0 < L.parts }
        ensures found { IfOk result (λ found. FindsEach (is_of triple.now) self.now.pairs found) }
        ensures ascending { IsAscending tagged_cmp self.now.pairs }
    {
        let mut steps = Steps::<L>::new(blank);
        self.scan(
            alloc,
            Some(&triple.s),
            Some(&triple.p),
            Some(&triple.o),
            &mut steps,
        )
    }
}

impl Tags for Graph {
    ghost pairs = { λ graph. graph.pairs };

    fn has(&self, pair: &Tagged) -> bool {
        let parts = self.parts();
        match parts.tables.numbers(pair) {
            Some(numbers) => parts.numbered.has(&numbers),
            None => false,
        }
    }

    fn of_range(&self, alloc: Global, range: &Range) -> Result<Vec<Tagged>, AllocError> {
        let found = self.of_dots(alloc, range)?;
        found.in_order().to_list(alloc)
    }
}

// What a graph without a pair is made of.
fn no_parts(alloc: Global) -> Parts
    ensures own { HaveOwnNumbers result.tables result.numbered.pairs }
    ensures none { (graph_parts result).pairs ≡ [] }
{
    Parts {
        tables: Tables::new(alloc),
        numbered: NumberedPairs::new(alloc),
        given: Vec::new(alloc),
    }
}

// The graph of these parts.
fn graph_of(tables: Tables, numbered: NumberedPairs, given: Vec<Numbers>) -> Graph
    requires { HaveOwnNumbers tables numbered.pairs }
    ensures { result ≡ graph_parts (record { tables = tables; numbered = numbered; given = given }) }
{
    let parts = Parts {
        tables,
        numbered,
        given,
    };
    Graph { parts: [parts] }
}

// The pairs of parts, ascending, whose triples move to the list.
fn list_of(alloc: Global, parts: Parts) -> Result<Vec<Tagged>, AllocError>
    requires { HaveOwnNumbers parts.tables parts.numbered.pairs }
    ensures { IfOk result (λ list. list.items ≡ (graph_parts parts).pairs) }
{
    let Parts {
        tables,
        numbered,
        given: _,
    } = parts;
    let paths = tables.into_paths();
    let mut rows = numbered.into_rows(alloc)?;
    sort_rows(alloc, &paths, &mut rows)?;
    into_pairs(alloc, &paths, rows)
}

// Makes room for the pairs that a cut adds, and gives numbers to what has none.
fn prepare_parts(alloc: Global, parts: &mut Parts, cut: &Cut) -> Result<(), AllocError>
    requires { HaveOwnNumbers parts.old.tables parts.old.numbered.pairs }
    ensures own { HaveOwnNumbers parts.new.tables parts.new.numbered.pairs }
    ensures pairs { (graph_parts parts.new).pairs ≡ (graph_parts parts.old).pairs }
    ensures ok { OnOk result (Fits cut.now (graph_parts parts.new)) }
    ensures kept { (other : Cut) → Fits other (graph_parts parts.old) → Fits other (graph_parts parts.new) }
{
    parts.given.clear();
    parts.tables.give_all(&cut.adds, &mut parts.given)?;
    parts.numbered.prepare(alloc, cut.adds.len())
}

// Loses the pairs that a cut drops, and then gains those that it adds.
fn apply_to_parts(parts: &mut Parts, cut: Cut)
    requires own { HaveOwnNumbers parts.old.tables parts.old.numbered.pairs }
    requires fits { Fits cut (graph_parts parts.old) }
    ensures own { HaveOwnNumbers parts.new.tables parts.new.numbered.pairs }
    ensures pairs { Applies cut.drops.items cut.adds.items (graph_parts parts.old).pairs (graph_parts parts.new).pairs }
{
    let Cut { drops, adds } = cut;
    lose_all(&parts.tables, &mut parts.numbered, &drops);
    gain_all(&parts.tables, &mut parts.numbered, &mut parts.given, adds);
}
