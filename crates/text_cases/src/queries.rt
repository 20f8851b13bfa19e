//! `query DOMAIN JSON`: what a query asks for, its patterns, branches and filters, its named variables in the order of their bytes, and how
//! many have no name; or a fault.
//!
//! `update DOMAIN JSON`: what an update deletes, what it inserts, the patterns, branches and filters whose solutions it goes through, the
//! named variables in the order of their bytes, and how many have no name and how many subjects are made anew; or a fault.
use crate::faults::put_fault;
use crate::parts::put_behind;
use crate::slots::{Variables, put_iri, put_slot, put_triples, put_variable};
use jrql_ast::{Compare, Filter, Group, PatternTriple, Query, Select, Target, UpdatePlan, What};
use jrql_patterns::{ReadQuery, read_query};
use jrql_update::read_update;
use jsonld_context::JsonFault;
use std::alloc::{AllocError, Global};
use std::fmt::Write;
use text_rules::{Text, is_domain};
use transcripts::parted;

/// Puts what a `query` line gives.
pub fn put_query(alloc: Global, out: &mut String, input: &str) -> Result<bool, AllocError> {
    let (domain, json) = parted(input);
    if !is_domain(domain) {
        return Ok(false);
    }
    let read = Box::new(alloc, read_query(alloc, json.as_bytes(), domain))?;
    put_query_read(alloc, out, &read)
}

/// Puts a query, or the fault.
fn put_query_read(
    alloc: Global,
    out: &mut String,
    read: &Result<ReadQuery, JsonFault>,
) -> Result<bool, AllocError> {
    match read {
        Ok(read) => put_asked(alloc, out, &read.query),
        Err(fault) => put_fault(out, fault),
    }
}

/// Puts what an `update` line gives.
pub fn put_update(alloc: Global, out: &mut String, input: &str) -> Result<bool, AllocError> {
    let (domain, json) = parted(input);
    if !is_domain(domain) {
        return Ok(false);
    }
    let read = Box::new(alloc, read_update(alloc, json.as_bytes(), domain))?;
    put_update_read(alloc, out, &read)
}

/// Puts a plan, or the fault.
fn put_update_read(
    alloc: Global,
    out: &mut String,
    read: &Result<UpdatePlan, JsonFault>,
) -> Result<bool, AllocError> {
    match read {
        Ok(plan) => put_plan(alloc, out, plan),
        Err(fault) => put_fault(out, fault),
    }
}

/// Puts a plan.
fn put_plan(alloc: Global, out: &mut String, plan: &UpdatePlan) -> Result<bool, AllocError> {
    let names = plan.group.names.as_slice();
    put_marked(alloc, out, "delete ", plan.deletes.as_slice(), names)?;
    put_marked(alloc, out, "; insert ", plan.inserts.as_slice(), names)?;
    put_group(alloc, out, "; where ", &plan.group)?;
    put_names(alloc, out, &plan.group)?;
    if plan.fresh > 0 {
        write!(out, "; fresh {}", plan.fresh)?;
    }
    Ok(true)
}

/// Puts a query.
fn put_asked(alloc: Global, out: &mut String, query: &Query) -> Result<bool, AllocError> {
    let names = query.group.names.as_slice();
    match &query.what {
        What::Select(select) => put_select(out, select, names)?,
        What::Describe(targets) => put_describe(out, targets.as_slice(), names)?,
    }
    put_group(alloc, out, "; ", &query.group)?;
    put_names(alloc, out, &query.group)?;
    Ok(true)
}

/// Puts the rows that are asked for.
fn put_select(text: &mut String, select: &Select, names: &[Text]) -> Result<(), AllocError> {
    text.push_str("select")?;
    put_variables(text, select.vars.as_slice(), names)?;
    if select.distinct {
        text.push_str(" distinct")?;
    }
    put_range(text, select.offset, select.limit)
}

/// Puts variables.
fn put_variables(text: &mut String, numbers: &[u16], names: &[Text]) -> Result<(), AllocError> {
    for number in numbers {
        text.push(' ')?;
        put_variable(text, usize::from(*number), Variables::OfGroup(names))?;
    }
    Ok(())
}

/// Puts how many rows are left out in front, where any are, and how many are given at most.
fn put_range(text: &mut String, offset: u64, limit: Option<u64>) -> Result<(), AllocError> {
    if offset > 0 {
        write!(text, " offset {offset}")?;
    }
    match limit {
        Some(limit) => write!(text, " limit {limit}"),
        None => Ok(()),
    }
}

/// Puts what is to be described.
fn put_describe(text: &mut String, targets: &[Target], names: &[Text]) -> Result<(), AllocError> {
    text.push_str("describe")?;
    for target in targets {
        text.push(' ')?;
        put_target(text, target, names)?;
    }
    Ok(())
}

/// Puts a target.
fn put_target(text: &mut String, target: &Target, names: &[Text]) -> Result<(), AllocError> {
    match target {
        Target::Iri(iri) => put_iri(text, iri.as_str()),
        Target::Var(number) => {
            put_variable(text, usize::from(*number), Variables::OfGroup(names))
        }
    }
}

/// Puts patterns behind a mark, and branches and filters.
fn put_group(
    alloc: Global,
    text: &mut String,
    mark: &str,
    group: &Group,
) -> Result<(), AllocError> {
    let names = group.names.as_slice();
    put_marked(alloc, text, mark, group.patterns.as_slice(), names)?;
    for branch in group.branches.as_slice() {
        put_marked(alloc, text, "; or ", branch.as_slice(), names)?;
    }
    for filter in group.filters.as_slice() {
        put_filter(text, filter, names)?;
    }
    Ok(())
}

/// Puts triples behind a mark.
fn put_marked(
    alloc: Global,
    text: &mut String,
    mark: &str,
    triples: &[PatternTriple],
    names: &[Text],
) -> Result<(), AllocError> {
    text.push_str(mark)?;
    put_triples(alloc, text, triples, Variables::OfGroup(names))
}

/// The key of a comparison.
fn key_of(compare: Compare) -> &'static str {
    match compare {
        Compare::Eq => "@eq",
        Compare::Neq => "@neq",
        Compare::Lt => "@lt",
        Compare::Lte => "@lte",
        Compare::Gt => "@gt",
        Compare::Gte => "@gte",
    }
}

/// Puts a filter.
fn put_filter(text: &mut String, filter: &Filter, names: &[Text]) -> Result<(), AllocError> {
    text.push_str("; if ")?;
    put_slot(text, &filter.left, Variables::OfGroup(names))?;
    text.push(' ')?;
    text.push_str(key_of(filter.op))?;
    text.push(' ')?;
    put_slot(text, &filter.right, Variables::OfGroup(names))
}

/// Puts the named variables in the order of their bytes, where there are any, and how many have no name, where there are any.
fn put_names(alloc: Global, text: &mut String, group: &Group) -> Result<(), AllocError> {
    if !group.names.as_slice().is_empty() {
        text.push_str("; names")?;
        put_sorted(alloc, text, group.names.as_slice())?;
    }
    if group.hidden > 0 {
        write!(text, "; hidden {}", group.hidden)?;
    }
    Ok(())
}

/// Puts names in the order of their bytes, each behind a space.
fn put_sorted(alloc: Global, text: &mut String, names: &[Text]) -> Result<(), AllocError> {
    let mut sorted = Vec::new(alloc);
    for name in names {
        sorted.push(name.as_str())?;
    }
    sorted.sort()?;
    for name in &sorted {
        put_behind(text, name)?;
    }
    Ok(())
}
