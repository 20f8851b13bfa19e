//! What is bound to variables, and what slots are then.
ghost use Rattle.std.specs.Prelude.{◌≡◌, List, Option};
ghost use Rattle.std.specs.Option.{option_copied};
ghost use Rattle.rdf_terms.specs.declared.terms.Term.{Term};
ghost use Rattle.jrql_ast.specs.FilterMeaning.{side_value};
ghost use Rattle.jrql_ast.specs.Solutions.{value_of};

use jrql_ast::Slot;
use rdf_terms::Term;

/// What has a value for each variable that is bound.
pub trait Values {
    /// The row of its values.
    ghost values: { Self → List (Option Term) };

    /// What it has for a variable, where it is bound.
    fn value(&self, variable: usize) -> Option<&Term>
        ensures { option_copied result ≡ value_of variable (values self.now) };
}

/// The term that a slot is in a row, where it is one.
pub fn term_at<'a, V: Values>(slot: &'a Slot, row: &'a V) -> Option<&'a Term>
    ensures { option_copied result ≡ side_value slot.now (V.values row.now) }
{
    match slot {
        Slot::Term(term) => Some(term),
        Slot::Var(variable) => row.value(*variable as usize),
        Slot::Fresh(_) => None,
    }
}
