//! A query that is being read.
ghost use Rattle.std.specs.Prelude.{◌≡◌, true, Ok, OnOk, IfOk, IfErr};
ghost use Rattle.serde_json.specs.View.{view};
ghost use Rattle.jsonld_context.specs.Telling.{IsToldBy};
ghost use Rattle.jrql_patterns.specs.OpenGroups.{meet_number};
ghost use Rattle.jrql_patterns.specs.QueryReading.{empty_query, with_query_names, with_target, with_column, with_offset, with_limit, standing_variables, select_of, asked_of, query_of, read_group};

use crate::columns::every_column;
use crate::faults::bad_query;
use crate::lists::push;
use crate::open_groups::OpenGroup;
use crate::wheres::read_where;
use jrql_ast::{Query, Select, Sequence, Target, What};
use jsonld_context::{Context, JsonFault};
use jsonld_subjects::jsonld_values::Names;
use serde_json::Value;
use std::alloc::{AllocError, Global};
use std::marker::Model;
use std::mem;

/// What was read of a query so far: its group, the targets of `@describe`, the columns of `@select` and whether it asks for all, and how
/// rows are cut.
#[derive(Debug, Drop)]
pub(crate) struct OpenQuery {
    group: OpenGroup,
    targets: Vec<Target>,
    columns: Vec<u16>,
    is_every: bool,
    distinct: bool,
    offset: u64,
    limit: Option<u64>,
}

impl Model for OpenQuery {
    ghost use Rattle.jrql_patterns.specs.QueryReading.{OpenQuery as OpenQueryValue};

    ghost Value = { OpenQueryValue };

    ghost view = { λ q. record {
      group = q.group;
      targets = q.targets.items;
      columns = q.columns.items;
      is_every = q.is_every;
      distinct = q.distinct;
      offset = q.offset;
      limit = q.limit;
    } };
}

impl OpenQuery {
    /// The query of which nothing was read.
    pub(crate) fn new(alloc: Global) -> OpenQuery
        ensures { result ≡ empty_query }
    {
        OpenQuery {
            group: OpenGroup::new(alloc, Names::empty(alloc)),
            targets: Vec::new(alloc),
            columns: Vec::new(alloc),
            is_every: false,
            distinct: false,
            offset: 0,
            limit: None,
        }
    }

    /// Its group.
    pub(crate) fn group(&self) -> &OpenGroup
        ensures { result.now ≡ self.now.group }
    {
        &self.group
    }

    /// The targets of `@describe`.
    pub(crate) fn targets(&self) -> &[Target]
        ensures { result.now ≡ self.now.targets }
    {
        self.targets.as_slice()
    }

    /// The columns of `@select`.
    pub(crate) fn columns(&self) -> &[u16]
        ensures { result.now ≡ self.now.columns }
    {
        self.columns.as_slice()
    }

    /// Meets a variable: its number.
    pub(crate) fn meet_number(&mut self, alloc: Global, name: &str) -> Result<u16, JsonFault>
        ensures ok { IfOk result (λ number. meet_number self.old.group.names name.now ≡ Ok (self.new.group.names, number)) }
        ensures err { IfErr result (IsToldBy (meet_number self.old.group.names name.now)) }
        ensures kept { self.new ≡ with_query_names self.old self.new.group.names }
    {
        self.group.meet_number(alloc, name)
    }

    /// Puts a target behind the others.
    pub(crate) fn put_target(&mut self, target: Target) -> Result<(), AllocError>
        ensures { OnOk result (self.new ≡ with_target self.old target) }
    {
        push(&mut self.targets, target)
    }

    /// Puts a column behind the others, where it isn't one of them.
    pub(crate) fn put_column(&mut self, alloc: Global, number: u16) -> Result<(), JsonFault>
        ensures ok { IfOk result (λ _. with_column self.old number ≡ Ok self.new) }
        ensures err { IfErr result (IsToldBy (with_column self.old number)) }
    {
        if self.columns.contains(&number) {
            return Err(bad_query(alloc, "@select"));
        }
        push(&mut self.columns, number)?;
        Ok(())
    }

    /// Asks for all columns.
    pub(crate) fn ask_for_every(&mut self)
        ensures { self.new ≡ record self.old { is_every = true } }
    {
        self.is_every = true;
    }

    /// Says whether each row is given once.
    pub(crate) fn set_distinct(&mut self, distinct: bool)
        ensures { self.new ≡ record self.old { distinct = distinct } }
    {
        self.distinct = distinct;
    }

    /// Says how many rows are left out in front.
    pub(crate) fn set_offset(&mut self, offset: u64)
        ensures { self.new ≡ with_offset self.old offset }
    {
        self.offset = offset;
    }

    /// Says how many rows are given at most.
    pub(crate) fn set_limit(&mut self, limit: u64)
        ensures { self.new ≡ with_limit self.old limit }
    {
        self.limit = Some(limit);
    }

    /// Reads the value of `@where`.
    pub(crate) fn read_group(
        &mut self,
        alloc: Global,
        context: &Context,
        value: &Value,
    ) -> Result<(), JsonFault>
        ensures ok { IfOk result (λ _. read_group context.now (view value.now) self.old ≡ Ok self.new) }
        ensures err { IfErr result (IsToldBy (read_group context.now (view value.now) self.old)) }
    {
        self.group.mark();
        read_where(alloc, context, value, &mut self.group)
    }

    /// The rows that are asked for, where these variables stand in a triple.
    fn take_select(&mut self, alloc: Global, standing: &[u16]) -> Result<Select, AllocError>
        requires { standing.now ≡ standing_variables self.old.group }
        ensures rows { IfOk result (λ select. select ≡ select_of self.old) }
        ensures kept { OnOk result (self.new.group ≡ self.old.group) }
    {
        let vars = if self.is_every {
            every_column(alloc, self.group.names(), standing)?
        } else {
            mem::replace(&mut self.columns, Vec::new(alloc))
        };
        Ok(Select {
            vars: Sequence::from_vec(vars),
            distinct: self.distinct,
            offset: self.offset,
            limit: self.limit,
        })
    }

    /// What is asked, where these variables stand in a triple: rows, or subjects.
    fn take_what(
        &mut self,
        alloc: Global,
        is_select: bool,
        standing: &[u16],
    ) -> Result<What, AllocError>
        requires { standing.now ≡ standing_variables self.old.group }
        ensures what { IfOk result (λ what. what ≡ asked_of is_select self.old) }
        ensures kept { OnOk result (self.new.group ≡ self.old.group) }
    {
        if is_select {
            return Ok(What::Select(self.take_select(alloc, standing)?));
        }
        let targets = mem::replace(&mut self.targets, Vec::new(alloc));
        Ok(What::Describe(Sequence::from_vec(targets)))
    }

    /// The query, where these variables stand in a triple.
    pub(crate) fn into_query(
        self,
        alloc: Global,
        is_select: bool,
        standing: &[u16],
    ) -> Result<Query, AllocError>
        requires { standing.now ≡ standing_variables self.group }
        ensures { IfOk result (λ query. query ≡ query_of is_select self) }
    {
        let mut read = self;
        let what = read.take_what(alloc, is_select, standing)?;
        let group = read.group.into_group(alloc)?;
        Ok(Query { group, what })
    }
}
