//! The numbers of terms and paths.
ghost use Rattle.std.specs.Prelude.{◌≡◌, Some, IfSome, IfNone, IfOk, IsTrue, OnOk};
ghost use Rattle.std.specs.List.{slice_get};
ghost use Rattle.std.specs.Option.{option_copied};
ghost use Rattle.rdf_terms.specs.declared.terms.Term.TheVariants as terms;
ghost use Rattle.tree_clock.specs.Lists.{Has};
ghost use Rattle.mld_ops.specs.declared.tagged.Tagged.{Tagged};
ghost use Rattle.graph_index.specs.TermNumbers.{iri_number, number_given, StandApart, AreTermsOf, AreNumbersOf, IsNumbered, KeepsNumbers, ArePlaces, LackNumber};
ghost use Rattle.number_tables.specs.TableNumbers.{number_of_term, number_of_path};

use mld_ops::Tagged;
use number_tables::{PathTable, TermTable};
use pair_orders::{Numbers, Places};
use rdf_terms::{Iri, Term, Triple};
use std::alloc::{AllocError, Global};
use std::marker::Model;
use tree_clock::Path;

/// The terms and the paths that have numbers. A number stays what it is.
#[derive(Drop)]
pub(crate) struct Tables {
    terms: TermTable,
    paths: PathTable,
}

impl Model for Tables {
    ghost use Rattle.graph_index.specs.TermNumbers.{TablesValue, StandApart};

    ghost Value = { TablesValue };

    ghost view = { λ tables. record { terms = tables.terms; paths = tables.paths } };

    ghost invariant = { λ tables. StandApart tables.terms tables.paths };
}

impl Tables {
    /// No numbers.
    pub(crate) fn new(alloc: Global) -> Tables {
        Tables {
            terms: TermTable::new(alloc),
            paths: PathTable::new(alloc),
        }
    }

    // The number of an IRI as a term.
    fn iri(&self, iri: &Iri) -> Option<u32>
        ensures { result ≡ iri_number self.now iri.now }
    {
        self.terms.iri_number(iri)
    }

    /// How many terms have numbers, of which no two are the same.
    pub(crate) fn count_terms(&self) -> usize
        ensures { StandApart self.now.terms self.now.paths }
    {
        self.terms.len()
    }

    /// The paths, by their numbers.
    pub(crate) fn paths(&self) -> &[Path]
        ensures { result.now ≡ self.now.paths }
    {
        self.paths.paths()
    }

    /// The paths, by their numbers. All else goes.
    pub(crate) fn into_paths(self) -> Vec<Path>
        ensures { result.items ≡ self.paths }
    {
        let Tables { terms: _, paths } = self;
        paths.into_paths()
    }

    /// The term that has a number, where one has.
    pub(crate) fn term_at(&self, number: u32) -> Option<&Term>
        ensures { option_copied result ≡ slice_get self.now.terms number }
    {
        self.terms.get(number)
    }

    /// The number of a term.
    pub(crate) fn term(&self, term: &Term) -> Option<u32>
        ensures { result ≡ number_of_term self.now.terms term.now }
    {
        self.terms.number(term)
    }

    /// The number of a path.
    pub(crate) fn path(&self, path: &Path) -> Option<u32>
        ensures { result ≡ number_of_path self.now.paths path.now }
    {
        self.paths.number(path)
    }

    /// The numbers of a triple's terms, where all have one. It takes no memory.
    pub(crate) fn triple(&self, triple: &Triple) -> Option<(u32, u32, u32)>
        ensures some { IfSome result (λ numbers. AreTermsOf self.now triple.now numbers) }
        ensures none { IfNone result (LackNumber self.now (Some triple.now.s) (Some triple.now.p) (Some triple.now.o)) }
    {
        let s = self.iri(&triple.s)?;
        let p = self.iri(&triple.p)?;
        let o = self.term(&triple.o)?;
        Some((s, p, o))
    }

    /// The numbers of a pair, where all of it has one. It takes no memory.
    pub(crate) fn numbers(&self, pair: &Tagged) -> Option<Numbers>
        ensures some { IfSome result (AreNumbersOf self.now pair.now) }
        ensures none { IfNone result (¬ IsNumbered self.now pair.now) }
    {
        Some(Numbers {
            s: self.iri(&pair.triple.s)?,
            p: self.iri(&pair.triple.p)?,
            o: self.term(&pair.triple.o)?,
            path: self.path(&pair.dot.path)?,
            tick: pair.dot.tick,
        })
    }

    // The number that is wanted of an IRI, where one is given.
    fn wanted_iri(&self, iri: Option<&Iri>) -> Option<Option<u64>>
        ensures { result ≡ number_given (iri_number self.now) (option_copied iri.entry) }
    {
        match iri {
            None => Some(None),
            Some(iri) => Some(Some(u64::from(self.iri(iri)?))),
        }
    }

    // The number that is wanted of a term, where one is given.
    fn wanted_term(&self, term: Option<&Term>) -> Option<Option<u64>>
        ensures { result ≡ number_given (number_of_term self.now.terms) (option_copied term.entry) }
    {
        match term {
            None => Some(None),
            Some(term) => Some(Some(u64::from(self.term(term)?))),
        }
    }

    /// The numbers that are wanted of the parts of a triple that are given; none, where one of them has no number.
    pub(crate) fn places(
        &self,
        s: Option<&Iri>,
        p: Option<&Iri>,
        o: Option<&Term>,
    ) -> Option<Places>
        ensures some { IfSome result (ArePlaces self.now (option_copied s.entry) (option_copied p.entry) (option_copied o.entry)) }
        ensures none { IfNone result (LackNumber self.now (option_copied s.entry) (option_copied p.entry) (option_copied o.entry)) }
    {
        Some(Places {
            s: self.wanted_iri(s)?,
            p: self.wanted_iri(p)?,
            o: self.wanted_term(o)?,
        })
    }

    // Whether a term has this number.
    fn is_term_at(&self, number: u32, term: &Term) -> bool
        ensures { IsTrue result → number_of_term self.now.terms term.now ≡ Some number }
    {
        match self.terms.get(number) {
            Some(own) => term == own,
            None => false,
        }
    }

    // Whether an IRI has this number.
    fn is_iri_at(&self, number: u32, iri: &Iri) -> bool
        ensures { IsTrue result → iri_number self.now iri.now ≡ Some number }
    {
        match self.terms.get(number) {
            Some(Term::Iri(own)) => own == iri,
            _ => false,
        }
    }

    // Whether a path has this number.
    fn is_path_at(&self, number: u32, path: &Path) -> bool
        ensures { IsTrue result → number_of_path self.now.paths path.now ≡ Some number }
    {
        match self.paths.get(number) {
            Some(own) => path == own,
            None => false,
        }
    }

    // Whether these are the numbers of a pair. Nothing is looked up by its hash.
    fn are_numbers(&self, numbers: &Numbers, pair: &Tagged) -> bool
        ensures { IsTrue result → AreNumbersOf self.now pair.now numbers.now }
    {
        numbers.tick == pair.dot.tick
            && self.is_path_at(numbers.path, &pair.dot.path)
            && self.is_iri_at(numbers.s, &pair.triple.s)
            && self.is_iri_at(numbers.p, &pair.triple.p)
            && self.is_term_at(numbers.o, &pair.triple.o)
    }

    /// The numbers of a pair, where all of it has one. Where the given ones are its numbers, none is looked up. It takes no memory.
    pub(crate) fn numbers_by(&self, given: Option<Numbers>, pair: &Tagged) -> Option<Numbers>
        ensures some { IfSome result (AreNumbersOf self.now pair.now) }
        ensures none { IfNone result (¬ IsNumbered self.now pair.now) }
    {
        if let Some(numbers) = given {
            if self.are_numbers(&numbers, pair) {
                return Some(numbers);
            }
        }
        self.numbers(pair)
    }

    /// Gives numbers to what has none of pairs, and adds those of each pair to a list.
    pub(crate) fn give_all(
        &mut self,
        pairs: &[Tagged],
        given: &mut Vec<Numbers>,
    ) -> Result<(), AllocError>
        ensures grown { KeepsNumbers self.old self.new }
        ensures ok { OnOk result ((pair : Tagged) → Has pairs.now pair → IsNumbered self.new pair) }
    {
        for pair in pairs {
            let numbers = self.give(pair)?;
            given.push(numbers)?;
        }
        Ok(())
    }

    // The numbers of a pair, of which what has none gets one.
    fn give(&mut self, pair: &Tagged) -> Result<Numbers, AllocError>
        ensures grown { KeepsNumbers self.old self.new }
        ensures ok { IfOk result (AreNumbersOf self.new pair.now) }
    {
        let path = self.give_path(&pair.dot.path)?;
        let terms = self.give_terms(&pair.triple)?;
        let tick = pair.dot.tick;
        Ok(Numbers {
            s: terms.0,
            p: terms.1,
            o: terms.2,
            path,
            tick,
        })
    }

    /// The numbers of a triple's terms, of which each that has none gets one.
    pub(crate) fn give_terms(&mut self, triple: &Triple) -> Result<(u32, u32, u32), AllocError>
        ensures grown { KeepsNumbers self.old self.new }
        ensures ok { IfOk result (AreTermsOf self.new triple.now) }
    {
        let s = self.give_iri(&triple.s)?;
        let p = self.give_iri(&triple.p)?;
        let o = self.give_term(&triple.o)?;
        Ok((s, p, o))
    }

    // The number of an IRI, which gets one where it has none.
    fn give_iri(&mut self, iri: &Iri) -> Result<u32, AllocError>
        ensures grown { KeepsNumbers self.old self.new }
        ensures ok { IfOk result (λ number. iri_number self.new iri.now ≡ Some number) }
    {
        self.terms.give_iri(iri)
    }

    // The number of a term, which gets one where it has none.
    fn give_term(&mut self, term: &Term) -> Result<u32, AllocError>
        ensures grown { KeepsNumbers self.old self.new }
        ensures ok { IfOk result (λ number. number_of_term self.new.terms term.now ≡ Some number) }
    {
        self.terms.give(term)
    }

    /// The number of a path, which gets one where it has none.
    pub(crate) fn give_path(&mut self, path: &Path) -> Result<u32, AllocError>
        ensures grown { KeepsNumbers self.old self.new }
        ensures ok { IfOk result (λ number. number_of_path self.new.paths path.now ≡ Some number) }
    {
        self.paths.give(path)
    }
}
