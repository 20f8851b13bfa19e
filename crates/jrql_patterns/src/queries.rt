//! Queries read from JSON.
ghost use Rattle.std.specs.Prelude.{◌≡◌, Ok, IfOk, IfErr, IsTrue};
ghost use Rattle.text_rules.specs.Domain.{is_domain};
ghost use Rattle.serde_json.specs.View.{view, members_view};
ghost use Rattle.jsonld_context.specs.Telling.{IsToldBy};
ghost use Rattle.jrql_ast.specs.InForm.{IsQueryInForm};
ghost use Rattle.jrql_patterns.specs.QueryReading.{query_under, query_said, query_read};
ghost use Rattle.jrql_patterns.specs.QueryMeaning.{MeansQuery};

use crate::breaches::check_breaches;
use crate::columns::standing;
use crate::faults::not_under;
use crate::open_queries::OpenQuery;
use crate::parts::read_parts;
use crate::texts::{read_json, said_context};
use jrql_ast::{CopyIn, Query};
use jsonld_context::{Context, JsonFault};
use jsonld_subjects::jsonld_values::has_member;
use serde_json::{Map, Value};
use std::alloc::{AllocError, Global};

/// A query, and the context under which it was read, by which its answer is written.
#[derive(Debug, PartialEq, Eq, Drop)]
pub struct ReadQuery {
    /// The query.
    pub query: Query,
    /// The context.
    pub context: Context,
}

impl CopyIn for ReadQuery {
    fn copy_in(&self, alloc: Global) -> Result<ReadQuery, AllocError> {
        Ok(ReadQuery {
            query: self.query.copy_in(alloc)?,
            context: self.context.share(alloc)?,
        })
    }
}

/// The query of the members of an object.
fn query_under(
    alloc: Global,
    context: &Context,
    members: &Map<String, Value>,
) -> Result<Query, JsonFault>
    ensures ok { IfOk result (λ query. query_under context.now (members_view members.now.entries) ≡ Ok query) }
    ensures err { IfErr result (IsToldBy (query_under context.now (members_view members.now.entries))) }
{
    let mut read = OpenQuery::new(alloc);
    read_parts(alloc, context, members, &mut read)?;
    let standing = standing(alloc, read.group())?;
    check_breaches(alloc, members, &read, standing.as_slice())?;
    Ok(read.into_query(alloc, has_member(members, "@select"), standing.as_slice())?)
}

/// The query that a value says.
fn query_said(alloc: Global, value: &Value, domain: &str) -> Result<ReadQuery, JsonFault>
    requires { IsTrue (is_domain domain.now) }
    ensures ok { IfOk result (λ read. query_said domain.now (view value.now) ≡ Ok read) }
    ensures err { IfErr result (IsToldBy (query_said domain.now (view value.now))) }
{
    let Value::Object(members) = value else {
        return Err(not_under(alloc, "", value));
    };
    let context = said_context(alloc, members, domain)?;
    let query = query_under(alloc, &context, members)?;
    Ok(ReadQuery { query, context })
}

/// The query that a JSON text says, with the context under which it does, else its first fault. `@context` is read first, then the other
/// members of an object by the bytes of their keys; what is missing, and what breaks a rule of several keys, is found behind all of them.
///
/// `NotJson` says that the bytes are no JSON, or nest deeper than 127; `BadContext` and `Remote` what is wrong in `@context`; `BadSubject`,
/// `Unsupported` and `BadIri` what is wrong in a subject, with its key; `Fraction` that a number is no whole number of 64 bits; and
/// `BadQuery` any other breach, with the innermost key of the query in which it is, or a variable too many, with its name or `@id`.
#[tactic(auto, unfolding(crate::specs::QueryReading::query_read))]
pub fn read_query(alloc: Global, bytes: &[u8], domain: &str) -> Result<ReadQuery, JsonFault>
    requires { IsTrue (is_domain domain.now) }
    ensures ok { IfOk result (λ read. query_read domain.now bytes.now ≡ Ok read) }
    ensures err { IfErr result (IsToldBy (query_read domain.now bytes.now)) }
    ensures in_form { IfOk result (λ read. IsQueryInForm read.query) }
    ensures meant { IfOk result (λ read. MeansQuery bytes.now read.query) }
{
    let value = read_json(alloc, bytes)?;
    query_said(alloc, &value, domain)
}
