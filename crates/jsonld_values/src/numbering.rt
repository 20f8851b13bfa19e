//! The variables of a text that was read whole.
ghost use Rattle.std.specs.Prelude.{◌≡◌, ◌≤◌, map};
ghost use Rattle.jrql_ast.specs.InForm.{variable_limit};
ghost use Rattle.jsonld_values.specs.Numbering.{numbered_variable, numbered_slot, numbered_triple, numbered_filter};

use jrql_ast::{Filter, PatternTriple, Slot, VARIABLE_LIMIT};

/// The number of a variable, where there are so many named ones.
fn numbered_variable(variable: u16, named: u16) -> u16
    requires { named ≤ variable_limit }
    ensures { result ≡ numbered_variable named variable }
{
    let limit = VARIABLE_LIMIT as u16;
    if variable < limit {
        return variable;
    }
    variable - limit + named
}

/// Numbers the variable of a slot of a text that was read whole, of which so many variables are named: a hidden one comes behind them.
/// It takes no memory.
pub fn number_slot(slot: &mut Slot, named: u16)
    requires { named ≤ variable_limit }
    ensures { slot.new ≡ numbered_slot named slot.old }
{
    if let Slot::Var(variable) = slot {
        *variable = numbered_variable(*variable, named);
    }
}

/// Numbers the variables of a triple in the same way.
fn number_triple(triple: &mut PatternTriple, named: u16)
    requires { named ≤ variable_limit }
    ensures { triple.new ≡ numbered_triple named triple.old }
{
    number_slot(&mut triple.s, named);
    number_slot(&mut triple.p, named);
    number_slot(&mut triple.o, named);
}

/// Numbers the variables of the triples of a text in the same way. It takes no memory.
pub fn number_triples(triples: &mut [PatternTriple], named: u16)
    requires { named ≤ variable_limit }
    ensures { triples.new ≡ map (numbered_triple named) triples.old }
{
    for triple in triples.iter_mut() {
        number_triple(triple, named);
    }
}

/// Numbers the variables of a filter in the same way. It takes no memory.
pub fn number_filter(filter: &mut Filter, named: u16)
    requires { named ≤ variable_limit }
    ensures { filter.new ≡ numbered_filter named filter.old }
{
    number_slot(&mut filter.left, named);
    number_slot(&mut filter.right, named);
}
