//! What is bound while a group is solved.
ghost use Rattle.std.specs.Prelude.{◌≡◌, None, Some, IfOk, IfSome, IsSome, length, replicate};
ghost use Rattle.std.specs.List.{slice_index_or, slice_set};
ghost use Rattle.std.specs.Option.{option_and_then};
ghost use Rattle.rdf_terms.specs.declared.terms.Term.{Term};
ghost use Rattle.graph_index.specs.Numbered.{term_numbered};
ghost use Rattle.jrql_ast.specs.Solutions.{value_of, bind_from};
ghost use Rattle.jrql_rows.specs.Bindings.{BindsNumber, IsBinding};
ghost use Rattle.jrql_rows.specs.Unbinding.{BindsFree, cleared, if_free};

use graph_index::Graph;
use jrql_filters::Values;
use rdf_terms::Term;
use std::alloc::{AllocError, Global};
use std::marker::Model;

// So many places without a number.
fn no_numbers(alloc: Global, places: usize) -> Result<Vec<Option<u32>>, AllocError>
    ensures { IfOk result (λ numbers. numbers.items ≡ replicate places None) }
{
    let mut numbers = Vec::with_capacity(alloc, places)?;
    for _ in 0..places {
        numbers.push(None)?;
    }
    Ok(numbers)
}

/// The number at a place, where one stands there.
pub(crate) fn number_at(place: usize, numbers: &[Option<u32>]) -> Option<u32>
    ensures { result ≡ slice_index_or numbers.now place None }
{
    if place < numbers.len() {
        numbers[place]
    } else {
        None
    }
}

// Puts a number at a place, or none.
fn put_number(place: usize, number: Option<u32>, numbers: &mut Vec<Option<u32>>)
    ensures { numbers.new.items ≡ slice_set numbers.old.items place number }
{
    if place < numbers.len() {
        numbers[place] = number;
    }
}

// Leaves a place without a number, where one is named.
fn clear_number(place: Option<u16>, numbers: &mut Vec<Option<u32>>)
    ensures { numbers.new.items ≡ cleared place numbers.old.items }
{
    if let Some(place) = place {
        put_number(place as usize, None, numbers);
    }
}

// Puts a number at a place where none stands. Where one does, whether it is this one.
fn bind_number(place: usize, number: u32, numbers: &mut Vec<Option<u32>>) -> bool
    ensures { BindsNumber (slice_index_or numbers.old.items place None) place number numbers.old.items result
        numbers.new.items }
{
    match number_at(place, numbers) {
        Some(bound) => bound == number,
        None => {
            put_number(place, Some(number), numbers);
            true
        }
    }
}

/// What is bound while a group is solved: for each variable the number of its term in a graph.
#[derive(Drop)]
pub struct Bindings<'a> {
    graph: &'a Graph,
    numbers: Vec<Option<u32>>,
}

impl<'a> Model for Bindings<'a> {
    ghost use Rattle.jrql_rows.specs.Bindings.{BindingsValue, AreOwnNumbers, row_numbered};

    ghost Value = { BindingsValue };

    ghost view = { λ bindings. record {
      graph = bindings.graph.now;
      row = row_numbered bindings.graph.now bindings.numbers.items;
    } };

    ghost invariant = { λ bindings. AreOwnNumbers bindings.graph.now bindings.numbers.items };
}

impl<'a> Bindings<'a> {
    /// So many variables, of which none is bound.
    pub fn unbound(
        alloc: Global,
        graph: &'a Graph,
        variables: usize,
    ) -> Result<Bindings<'a>, AllocError>
        ensures { IfOk result (λ bindings. bindings ≡ record { graph = graph.now; row = replicate variables None }) }
    {
        let numbers = no_numbers(alloc, variables)?;
        // Any look at a term tells that no two numbers are of one.
        let _first = graph.term(0);
        Ok(Bindings { graph, numbers })
    }

    /// The graph that has the numbers.
    pub fn graph(&self) -> &'a Graph
        ensures { result.now ≡ self.now.graph }
    {
        self.graph
    }

    /// How many variables there are.
    pub fn len(&self) -> usize
        ensures { result ≡ length self.now.row }
    {
        self.numbers.len()
    }

    /// The number of the term that a variable is, where it is bound.
    pub fn number(&self, variable: usize) -> Option<u32>
        ensures value { option_and_then (term_numbered self.now.graph) result ≡ value_of variable self.now.row }
        ensures some { IfSome result (λ number. IsSome (value_of variable self.now.row)) }
    {
        number_at(variable, &self.numbers)
    }

    /// Whether a variable may be the term of a number. Where it was unbound, it is that term then.
    pub fn bind(&mut self, variable: usize, number: u32) -> bool
        requires { IsSome (term_numbered self.old.graph number) }
        ensures graph { self.new.graph ≡ self.old.graph }
        ensures places { length self.new.row ≡ length self.old.row }
        ensures bound { (term : Term) → term_numbered self.old.graph number ≡ Some term
            → IsBinding (bind_from (value_of variable self.old.row) variable term self.old.row) result self.new.row }
        ensures free { BindsFree (if_free variable (value_of variable self.old.row)) self.old.row self.new.row }
    {
        bind_number(variable, number, &mut self.numbers)
    }

    /// Unbinds a variable, where one is given.
    pub fn unbind(&mut self, variable: Option<u16>)
        ensures graph { self.new.graph ≡ self.old.graph }
        ensures unbound { self.new.row ≡ cleared variable self.old.row }
    {
        clear_number(variable, &mut self.numbers);
    }
}

impl<'a> Values for Bindings<'a> {
    ghost values = { λ bindings. bindings.row };

    fn value(&self, variable: usize) -> Option<&Term> {
        match self.number(variable) {
            Some(number) => self.graph.term(number),
            None => None,
        }
    }
}
