//! The variables that a text has met, and its subjects without an id.
ghost use Rattle.std.specs.Prelude.{◌≡◌, ◌<◌, ◌++◌, ◌∷◌, [], length, false, true, map, MatchOption, OnOk, OnErr, Ok, IfOk, IfErr, slice_get};
ghost use Rattle.std.specs.List.{list_any, position_or_len};
ghost use Rattle.std.specs.Option.{option_copied};
ghost use Rattle.std.specs.String.{string_bytes};
ghost use Rattle.rdf_terms.specs.Literal.{is_same};
ghost use Rattle.jsonld_context.specs.Telling.{IsToldBy};
ghost use Rattle.jsonld_context.specs.declared.faults.JsonFault.TheVariants as faults;
ghost use Rattle.jsonld_values.specs.VariableNames.{no_names, meet_variable, meet_hidden, meet_fresh, marked, was_met};

use crate::faults::bad_query;
use indexmap::IndexSet;
use jrql_ast::{Slot, VARIABLE_LIMIT};
use jsonld_context::JsonFault;
use std::alloc::{AllocError, Global};
use std::marker::Model;
use text_rules::Text;

/// The place of a name among others.
fn place_of(named: &IndexSet<String>, name: &str) -> Option<usize>
    ensures { MatchOption result
        ((list_any (is_same name.now) (map string_bytes named.now.keys) ≡ false)
        × (position_or_len (is_same name.now) (map string_bytes named.now.keys) ≡ length named.now.keys))
        (λ place. (list_any (is_same name.now) (map string_bytes named.now.keys) ≡ true)
        × (position_or_len (is_same name.now) (map string_bytes named.now.keys) ≡ place)
        × (place < length named.now.keys)) }
{
    named.get_index_of(name)
}

/// Puts a name behind others. Where memory is wanting, they are unchanged.
fn put(alloc: Global, named: &mut IndexSet<String>, name: &str) -> Result<(), AllocError>
    requires { list_any (is_same name.now) (map string_bytes named.old.keys) ≡ false }
    ensures ok { OnOk result (map string_bytes named.new.keys ≡ map string_bytes named.old.keys ++ name.now ∷ []) }
    ensures err { OnErr result (map string_bytes named.new.keys ≡ map string_bytes named.old.keys) }
{
    named.insert(String::from_str(alloc, name)?)?;
    Ok(())
}

/// The texts of names, in their order.
fn texts_of(alloc: Global, named: &IndexSet<String>) -> Result<Vec<Text>, AllocError>
    ensures { IfOk result (λ texts. texts.items ≡ map string_bytes named.now.keys) }
{
    let mut texts = Vec::with_capacity(alloc, named.len())?;
    for name in named.iter() {
        texts.push(Text::new(alloc, name.as_str())?)?;
    }
    Ok(texts)
}

/// The variables that a text has met, numbered in the order in which they came, and how many subjects without an id it has.
#[derive(Debug, Drop)]
pub struct Names {
    named: IndexSet<String>,
    hidden: u16,
    fresh: u32,
    since: Vec<bool>,
}

impl Model for Names {
    ghost use Rattle.std.specs.Prelude.{map};
    ghost use Rattle.std.specs.String.{string_bytes};
    ghost use Rattle.jsonld_values.specs.VariableNames.{NamesValue, IsNames};

    ghost Value = { NamesValue };

    ghost view = { λ n. record { named = map string_bytes n.named.keys; hidden = n.hidden; fresh = n.fresh; since = n.since.items } };

    ghost invariant = { λ n. IsNames (record { named = map string_bytes n.named.keys; hidden = n.hidden; fresh = n.fresh; since = n.since.items }) };
}

impl Names {
    /// The names of a text that has met nothing.
    pub fn empty(alloc: Global) -> Names
        ensures { result ≡ no_names }
    {
        Names {
            named: IndexSet::new(alloc),
            hidden: 0,
            fresh: 0,
            since: Vec::new(alloc),
        }
    }

    /// How many fresh subjects were met. It takes no memory.
    pub fn fresh(&self) -> u32
        ensures { result ≡ self.now.fresh }
    {
        self.fresh
    }

    /// How many named variables were met. It takes no memory.
    pub fn named(&self) -> u16
        ensures { result ≡ length self.now.named }
    {
        self.named.len() as u16
    }

    /// How many hidden variables were met. It takes no memory.
    pub fn hidden(&self) -> u16
        ensures { result ≡ self.now.hidden }
    {
        self.hidden
    }

    /// The name of the named variable of a number, with its question mark. It takes no memory.
    pub fn name(&self, number: usize) -> Option<&str>
        ensures { option_copied result ≡ slice_get self.now.named number }
    {
        match self.named.get_index(number) {
            Some(name) => Some(name.as_str()),
            None => None,
        }
    }

    /// The names of the named variables, by number, each with its question mark.
    pub fn texts(&self, alloc: Global) -> Result<Vec<Text>, AllocError>
        ensures { IfOk result (λ texts. texts.items ≡ self.now.named) }
    {
        texts_of(alloc, &self.named)
    }

    /// Sets a mark: no variable was met since. It takes no memory.
    pub fn mark(&mut self)
        ensures { self.new ≡ marked self.old }
    {
        self.since.fill(false);
    }

    /// Whether the named variable of a number was met since the last mark, or the beginning. It takes no memory.
    pub fn was_met(&self, number: usize) -> bool
        ensures { result ≡ was_met self.now number }
    {
        match self.since.get(number) {
            Some(met) => *met,
            None => false,
        }
    }

    /// Meets a variable by its name with the question mark. `BadQuery` says that it is one too many, and carries its name.
    pub fn meet_variable(&mut self, alloc: Global, name: &str) -> Result<Slot, JsonFault>
        ensures ok { IfOk result (λ slot. meet_variable self.old name.now ≡ Ok (self.new, slot)) }
        ensures err { IfErr result (IsToldBy (meet_variable self.old name.now)) }
    {
        if let Some(place) = place_of(&self.named, name) {
            self.since[place] = true;
            return Ok(Slot::Var(place as u16));
        }
        let number = self.named.len();
        if number + usize::from(self.hidden) >= VARIABLE_LIMIT {
            return Err(bad_query(alloc, name));
        }
        self.since.reserve(1)?;
        put(alloc, &mut self.named, name)?;
        self.since.push_reserved(true);
        Ok(Slot::Var(number as u16))
    }

    /// Meets a subject without an id in a pattern. `BadQuery` says that its variable is one too many, and carries `@id`.
    pub fn meet_hidden(&mut self, alloc: Global) -> Result<Slot, JsonFault>
        ensures ok { IfOk result (λ slot. meet_hidden self.old ≡ Ok (self.new, slot)) }
        ensures err { IfErr result (IsToldBy (meet_hidden self.old)) }
    {
        if self.named.len() + usize::from(self.hidden) >= VARIABLE_LIMIT {
            return Err(bad_query(alloc, "@id"));
        }
        let number = VARIABLE_LIMIT as u16 + self.hidden;
        self.hidden += 1;
        Ok(Slot::Var(number))
    }

    /// Meets a subject without an id in an insert. Only memory may be wanting, also for its number.
    pub fn meet_fresh(&mut self) -> Result<Slot, JsonFault>
        ensures ok { IfOk result (λ slot. meet_fresh self.old ≡ (self.new, slot)) }
        ensures err { IfErr result (λ fault. fault ≡ faults.NoMemory) }
    {
        let number = self.fresh;
        let Some(next) = number.checked_add(1) else {
            return Err(JsonFault::NoMemory);
        };
        self.fresh = next;
        Ok(Slot::Fresh(number))
    }
}

impl Names {
    ghost use Rattle.jsonld_values.specs.VariableNames.{IsNames};

    /// What names keep. It takes no memory and does nothing.
    pub fn kept(&self)
        ensures { IsNames self.now }
    {
        let _hidden = self.hidden;
    }
}
