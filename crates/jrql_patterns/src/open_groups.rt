//! A group that is being read.
ghost use Rattle.std.specs.Prelude.{◌≡◌, ◌≤◌, ◌++◌, true, map, Some, Ok, OnOk, IfOk, IfErr};
ghost use Rattle.jrql_ast.specs.InForm.{variable_limit};
ghost use Rattle.serde_json.specs.View.{view};
ghost use Rattle.jsonld_context.specs.Telling.{IsToldBy};
ghost use Rattle.jsonld_subjects.specs.jsonld_values.Numbering.{numbered_triple, numbered_filter};
ghost use Rattle.jsonld_subjects.specs.jsonld_values.VariableNames.{marked};
ghost use Rattle.jsonld_subjects.specs.SubjectReading.{subjects_read};
ghost use Rattle.jrql_patterns.specs.OpenGroups.{empty_group, with_group_names, meet_number, group_of};
ghost use Rattle.jrql_patterns.specs.FilterReading.{read_comparison};
ghost use Rattle.jrql_patterns.specs.WhereReading.{read_branch};

use crate::filters::read_sides;
use crate::lists::push;
use jrql_ast::{Compare, Filter, Group, PatternTriple, Sequence, Slot};
use jsonld_context::{Context, JsonFault};
use jsonld_subjects::jsonld_values::{Names, number_filter, number_triples};
use jsonld_subjects::{Place, read_subjects};
use serde_json::Value;
use std::alloc::{AllocError, Global};
use std::marker::Model;

/// What was read of a group so far: the names that its text has met, its patterns, the branches of its union, and its filters.
#[derive(Debug, Drop)]
pub struct OpenGroup {
    names: Names,
    patterns: Vec<PatternTriple>,
    is_united: bool,
    branches: Vec<Sequence<PatternTriple>>,
    filters: Vec<Filter>,
}

impl Model for OpenGroup {
    ghost use Rattle.jrql_patterns.specs.OpenGroups.{OpenGroup as OpenGroupValue};

    ghost Value = { OpenGroupValue };

    ghost view = { λ g. record {
      names = g.names;
      patterns = g.patterns.items;
      is_united = g.is_united;
      branches = g.branches.items;
      filters = g.filters.items;
    } };
}

impl OpenGroup {
    /// The group of which nothing was read, in a text that has met these names.
    pub fn new(alloc: Global, names: Names) -> OpenGroup
        ensures { result ≡ empty_group names }
    {
        OpenGroup {
            names,
            patterns: Vec::new(alloc),
            is_united: false,
            branches: Vec::new(alloc),
            filters: Vec::new(alloc),
        }
    }

    /// The names that the text has met.
    pub fn names(&self) -> &Names
        ensures { result.now ≡ self.now.names }
    {
        &self.names
    }

    /// The patterns, in which hidden variables aren't numbered yet.
    pub(crate) fn patterns(&self) -> &[PatternTriple]
        ensures { result.now ≡ self.now.patterns }
    {
        self.patterns.as_slice()
    }

    /// The branches, likewise.
    pub(crate) fn branches(&self) -> &[Sequence<PatternTriple>]
        ensures { result.now ≡ self.now.branches }
    {
        self.branches.as_slice()
    }

    /// Whether a union was read.
    pub(crate) fn is_united(&self) -> bool
        ensures { result ≡ self.now.is_united }
    {
        self.is_united
    }

    /// Says that one was read.
    pub(crate) fn unite(&mut self)
        ensures { self.new ≡ record self.old { is_united = true } }
    {
        self.is_united = true;
    }

    /// Sets a mark: no variable was met since.
    pub(crate) fn mark(&mut self)
        ensures { self.new ≡ with_group_names self.old (marked self.old.names) }
    {
        self.names.mark();
    }

    /// Meets a variable: its number.
    #[tactic(auto, using(crate::proofs::MetNumbers::number_met, crate::proofs::MetNumbers::no_term_met, crate::proofs::MetNumbers::no_fresh_met))]
    pub(crate) fn meet_number(&mut self, alloc: Global, name: &str) -> Result<u16, JsonFault>
        ensures ok { IfOk result (λ number. meet_number self.old.names name.now ≡ Ok (self.new.names, number)) }
        ensures err { IfErr result (IsToldBy (meet_number self.old.names name.now)) }
        ensures kept { self.new ≡ with_group_names self.old self.new.names }
    {
        match self.names.meet_variable(alloc, name)? {
            Slot::Var(number) => Ok(number),
            Slot::Term(_) => unreachable!(),
            Slot::Fresh(_) => unreachable!(),
        }
    }

    /// Reads subjects beside the group, with the names of its text. After a fault it isn't to be used again.
    pub fn read_apart(
        &mut self,
        alloc: Global,
        context: &Context,
        place: Place,
        value: &Value,
    ) -> Result<Vec<PatternTriple>, JsonFault>
        ensures ok { IfOk result (λ triples. subjects_read context.now place self.old.names (view value.now)
            ≡ Ok (record { names = self.new.names; triples = triples.items })) }
        ensures err { IfErr result (IsToldBy (subjects_read context.now place self.old.names (view value.now))) }
        ensures kept { OnOk result (self.new ≡ with_group_names self.old self.new.names) }
    {
        read_subjects(alloc, value, context, place, &mut self.names)
    }

    /// Reads a branch: a subject, or an array of subjects.
    pub(crate) fn read_branch(
        &mut self,
        alloc: Global,
        context: &Context,
        value: &Value,
    ) -> Result<(), JsonFault>
        ensures ok { IfOk result (λ _. read_branch context.now (view value.now) self.old ≡ Ok self.new) }
        ensures err { IfErr result (IsToldBy (read_branch context.now (view value.now) self.old)) }
    {
        let triples = read_subjects(alloc, value, context, Place::Pattern, &mut self.names)?;
        push(&mut self.branches, Sequence::from_vec(triples))?;
        Ok(())
    }

    /// Puts triples behind the patterns.
    pub fn put_patterns(&mut self, triples: Vec<PatternTriple>) -> Result<(), AllocError>
        ensures { OnOk result (self.new ≡ record self.old { patterns = self.old.patterns ++ triples.items }) }
    {
        put_behind(&mut self.patterns, triples)
    }

    /// Reads the sides of a filter.
    pub(crate) fn read_filter(
        &mut self,
        alloc: Global,
        context: &Context,
        compare: Compare,
        value: &Value,
    ) -> Result<(), JsonFault>
        ensures ok { IfOk result (λ _. read_comparison context.now (Some compare) (view value.now) self.old ≡ Ok self.new) }
        ensures err { IfErr result (IsToldBy (read_comparison context.now (Some compare) (view value.now) self.old)) }
    {
        let filter = read_sides(alloc, context, compare, value, &mut self.names)?;
        push(&mut self.filters, filter)?;
        Ok(())
    }

    /// The group, once its text is read whole.
    pub fn into_group(self, alloc: Global) -> Result<Group, AllocError>
        ensures { IfOk result (λ group. group ≡ group_of self) }
    {
        let OpenGroup {
            names,
            patterns,
            is_united: _,
            branches,
            filters,
        } = self;
        names.kept();
        let named = names.named();
        let mut patterns = patterns;
        let mut filters = filters;
        number_triples(patterns.as_mut_slice(), named);
        number_filters(filters.as_mut_slice(), named);
        let branches = numbered_branches(alloc, branches, named)?;
        Ok(Group {
            names: Sequence::from_vec(names.texts(alloc)?),
            hidden: names.hidden(),
            patterns: Sequence::from_vec(patterns),
            branches: Sequence::from_vec(branches),
            filters: Sequence::from_vec(filters),
        })
    }
}

/// Numbers the variables of filters.
fn number_filters(filters: &mut [Filter], named: u16)
    requires { named ≤ variable_limit }
    ensures { filters.new ≡ map (numbered_filter named) filters.old }
{
    for filter in filters.iter_mut() {
        number_filter(filter, named);
    }
}

/// A branch with its variables numbered.
fn numbered_branch(branch: Sequence<PatternTriple>, named: u16) -> Sequence<PatternTriple>
    requires { named ≤ variable_limit }
    ensures { result ≡ map (numbered_triple named) branch }
{
    let mut triples = branch.into_vec();
    number_triples(triples.as_mut_slice(), named);
    Sequence::from_vec(triples)
}

/// Branches with their variables numbered.
fn numbered_branches(
    alloc: Global,
    branches: Vec<Sequence<PatternTriple>>,
    named: u16,
) -> Result<Vec<Sequence<PatternTriple>>, AllocError>
    requires { named ≤ variable_limit }
    ensures { IfOk result (λ all. all.items ≡ map (map (numbered_triple named)) branches.items) }
{
    let mut all = Vec::with_capacity(alloc, branches.len())?;
    for branch in branches {
        all.push(numbered_branch(branch, named))?;
    }
    Ok(all)
}

/// Puts triples behind others.
fn put_behind(triples: &mut Vec<PatternTriple>, more: Vec<PatternTriple>) -> Result<(), AllocError>
    ensures { OnOk result (triples.new.items ≡ triples.old.items ++ more.items) }
{
    for triple in more {
        triples.push(triple)?;
    }
    Ok(())
}
