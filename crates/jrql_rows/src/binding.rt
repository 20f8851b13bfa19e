//! What a pattern's variables become where it is a triple, and how they are unbound again.
ghost use Rattle.std.specs.Prelude.{◌≡◌, Some, IsSome, length};
ghost use Rattle.rdf_terms.specs.declared.terms.Term.{Term};
ghost use Rattle.rdf_terms.specs.declared.terms.Triple.{Triple};
ghost use Rattle.graph_index.specs.Numbered.{term_numbered, triple_numbered};
ghost use Rattle.jrql_ast.specs.Solutions.{bind, agree, is_same_term, value_of};
ghost use Rattle.jrql_rows.specs.Bindings.{IsBinding};
ghost use Rattle.jrql_rows.specs.Unbinding.{BindsFree, all_cleared, free_variable, free_variables, if_free};

use crate::bindings::Bindings;
use graph_index::{Graph, TermNumbers};
use jrql_ast::{PatternTriple, Slot};
use rdf_terms::Term;

// Whether a term is the one that has a number.
fn is_numbered(graph: &Graph, number: u32, given: &Term) -> bool
    ensures { (term : Term) → term_numbered graph.now number ≡ Some term → result ≡ is_same_term given.now term }
{
    match graph.term(number) {
        Some(term) => given == term,
        None => false,
    }
}

// Whether a slot may be the term of a number in a row. Where its variable was unbound, it is that term then.
fn bind_slot(slot: &Slot, number: u32, row: &mut Bindings<'_>) -> bool
    requires { IsSome (term_numbered row.old.graph number) }
    ensures graph { row.new.graph ≡ row.old.graph }
    ensures places { length row.new.row ≡ length row.old.row }
    ensures bound { (term : Term) → term_numbered row.old.graph number ≡ Some term
        → IsBinding (bind slot.now term row.old.row) result row.new.row }
    ensures free { BindsFree (free_variable row.old.row slot.now) row.old.row row.new.row }
{
    match slot {
        Slot::Term(given) => is_numbered(row.graph(), number, given),
        Slot::Var(variable) => row.bind(*variable as usize, number),
        Slot::Fresh(_) => false,
    }
}

/// Whether a pattern may be the triple of these numbers in a row. Its variables have their values then. Whether or not, the row is as it
/// was once those that were free are unbound.
pub fn bind_pattern(pattern: &PatternTriple, numbers: &TermNumbers, row: &mut Bindings<'_>) -> bool
    requires { IsSome (triple_numbered row.old.graph numbers.now) }
    ensures graph { row.new.graph ≡ row.old.graph }
    ensures places { length row.new.row ≡ length row.old.row }
    ensures bound { (triple : Triple) → triple_numbered row.old.graph numbers.now ≡ Some triple
        → IsBinding (agree pattern.now triple row.old.row) result row.new.row }
    ensures back { all_cleared (free_variables pattern.now row.old.row) row.new.row ≡ row.old.row }
{
    let subject = bind_slot(&pattern.s, numbers.s, row);
    if !subject {
        return false;
    }
    let predicate = bind_slot(&pattern.p, numbers.p, row);
    if !predicate {
        return false;
    }
    bind_slot(&pattern.o, numbers.o, row)
}

/// The variables of a pattern that a row hasn't bound, by the places where they stand.
#[derive(Clone, Copy)]
pub struct FreeVariables {
    pub s: Option<u16>,
    pub p: Option<u16>,
    pub o: Option<u16>,
}

// A variable, where a row hasn't bound it.
fn if_free(variable: u16, row: &Bindings<'_>) -> Option<u16>
    ensures { result ≡ if_free variable (value_of variable row.now.row) }
{
    match row.number(variable as usize) {
        Some(_) => None,
        None => Some(variable),
    }
}

// The variable of a slot, where a row hasn't bound it.
fn free_variable(slot: &Slot, row: &Bindings<'_>) -> Option<u16>
    ensures { result ≡ free_variable row.now.row slot.now }
{
    match slot {
        Slot::Term(_) => None,
        Slot::Var(variable) => if_free(*variable, row),
        Slot::Fresh(_) => None,
    }
}

/// The variables of a pattern that a row hasn't bound.
pub fn free_variables(pattern: &PatternTriple, row: &Bindings<'_>) -> FreeVariables
    ensures { result ≡ free_variables pattern.now row.now.row }
{
    FreeVariables {
        s: free_variable(&pattern.s, row),
        p: free_variable(&pattern.p, row),
        o: free_variable(&pattern.o, row),
    }
}

/// Unbinds these variables. It takes no memory.
pub fn unbind_all(free: &FreeVariables, row: &mut Bindings<'_>)
    ensures graph { row.new.graph ≡ row.old.graph }
    ensures unbound { row.new.row ≡ all_cleared free.now row.old.row }
{
    row.unbind(free.o);
    row.unbind(free.p);
    row.unbind(free.s);
}
