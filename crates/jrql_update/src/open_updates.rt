//! An update that is being read.
ghost use Rattle.std.specs.Prelude.{◌≡◌, ◌≤◌, nat_lt, map, Ok, IfOk, IfErr};
ghost use Rattle.serde_json.specs.View.{view};
ghost use Rattle.jrql_ast.specs.InForm.{variable_limit};
ghost use Rattle.jsonld_context.specs.Telling.{IsToldBy};
ghost use Rattle.jrql_patterns.specs.jsonld_values.Numbering.{numbered_triple};
ghost use Rattle.jrql_patterns.specs.jsonld_values.VariableNames.{variables_met};
ghost use Rattle.jrql_update.specs.UpdateReading.{empty_update, read_deleted, read_inserted, read_matched, plan_said};

use jrql_ast::{CopyIn, PatternTriple, Sequence, UpdatePlan};
use jrql_patterns::jsonld_subjects::Place;
use jrql_patterns::jsonld_values::{Names, number_triples};
use jrql_patterns::{OpenGroup, read_where};
use jsonld_context::{Context, JsonFault};
use serde_json::Value;
use std::alloc::{AllocError, Global};
use std::marker::Model;

/// What was read of an update so far: the group of `@where`, with the names of the text, the triples of `@delete` and of `@insert`, and
/// whether `@delete` has a variable, and a subject without an id.
#[derive(Debug, Drop)]
pub(crate) struct OpenUpdate {
    group: OpenGroup,
    deletes: Vec<PatternTriple>,
    inserts: Vec<PatternTriple>,
    has_variables: bool,
    has_hidden: bool,
}

impl Model for OpenUpdate {
    ghost use Rattle.jrql_update.specs.UpdateReading.{OpenUpdate as OpenUpdateValue};

    ghost Value = { OpenUpdateValue };

    ghost view = { λ u. record {
      group = u.group;
      deletes = u.deletes.items;
      inserts = u.inserts.items;
      has_variables = u.has_variables;
      has_hidden = u.has_hidden;
    } };
}

impl OpenUpdate {
    /// The update of which nothing was read.
    pub(crate) fn new(alloc: Global) -> OpenUpdate
        ensures { result ≡ empty_update }
    {
        OpenUpdate {
            group: OpenGroup::new(alloc, Names::empty(alloc)),
            deletes: Vec::new(alloc),
            inserts: Vec::new(alloc),
            has_variables: false,
            has_hidden: false,
        }
    }

    /// Whether `@delete` has a subject without an id.
    pub(crate) fn has_hidden(&self) -> bool
        ensures { result ≡ self.now.has_hidden }
    {
        self.has_hidden
    }

    /// Reads the value of `@delete`.
    pub(crate) fn read_deleted(
        &mut self,
        alloc: Global,
        context: &Context,
        value: &Value,
    ) -> Result<(), JsonFault>
        ensures ok { IfOk result (λ _. read_deleted context.now (view value.now) self.old ≡ Ok self.new) }
        ensures err { IfErr result (IsToldBy (read_deleted context.now (view value.now) self.old)) }
    {
        self.deletes = self
            .group
            .read_apart(alloc, context, Place::Pattern, value)?;
        self.has_variables = has_variables(self.group.names());
        self.has_hidden = self.group.names().hidden() > 0;
        Ok(())
    }

    /// Reads the value of `@insert`.
    pub(crate) fn read_inserted(
        &mut self,
        alloc: Global,
        context: &Context,
        value: &Value,
    ) -> Result<(), JsonFault>
        ensures ok { IfOk result (λ _. read_inserted context.now (view value.now) self.old ≡ Ok self.new) }
        ensures err { IfErr result (IsToldBy (read_inserted context.now (view value.now) self.old)) }
    {
        self.inserts = self.group.read_apart(alloc, context, Place::Insert, value)?;
        Ok(())
    }

    /// Reads the value of `@where`.
    pub(crate) fn read_matched(
        &mut self,
        alloc: Global,
        context: &Context,
        value: &Value,
    ) -> Result<(), JsonFault>
        ensures ok { IfOk result (λ _. read_matched context.now (view value.now) self.old ≡ Ok self.new) }
        ensures err { IfErr result (IsToldBy (read_matched context.now (view value.now) self.old)) }
    {
        read_where(alloc, context, value, &mut self.group)
    }

    /// The plan, in a text that has `@where`, or has none.
    pub(crate) fn into_plan(self, alloc: Global, has_where: bool) -> Result<UpdatePlan, AllocError>
        ensures { IfOk result (λ plan. plan ≡ plan_said has_where self) }
    {
        let OpenUpdate {
            group,
            deletes,
            inserts,
            has_variables,
            has_hidden: _,
        } = self;
        let mut group = group;
        let deletes = Sequence::from_vec(deletes);
        if !has_where && has_variables {
            group.put_patterns(deletes.copy_in(alloc)?.into_vec())?;
        }
        group.names().kept();
        let named = group.names().named();
        let fresh = group.names().fresh();
        Ok(UpdatePlan {
            group: group.into_group(alloc)?,
            deletes: numbered(deletes.into_vec(), named),
            inserts: numbered(inserts, named),
            fresh,
        })
    }
}

/// Whether a variable was met, with a name or without.
fn has_variables(names: &Names) -> bool
    ensures { result ≡ nat_lt 0 (variables_met names.now) }
{
    names.named() > 0 || names.hidden() > 0
}

/// Triples with their variables numbered.
fn numbered(triples: Vec<PatternTriple>, named: u16) -> Sequence<PatternTriple>
    requires { named ≤ variable_limit }
    ensures { result ≡ map (numbered_triple named) triples.items }
{
    let mut triples = triples;
    number_triples(triples.as_mut_slice(), named);
    Sequence::from_vec(triples)
}
