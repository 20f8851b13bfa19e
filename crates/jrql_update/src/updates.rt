//! Updates read from JSON.
ghost use Rattle.std.specs.Prelude.{◌≡◌, codes, Ok, IfOk, IfErr, IsTrue};
ghost use Rattle.text_rules.specs.Domain.{is_domain};
ghost use Rattle.serde_json.specs.Data.{object};
ghost use Rattle.serde_json.specs.View.{view, members_view};
ghost use Rattle.jsonld_context.specs.Telling.{IsToldBy};
ghost use Rattle.jrql_ast.specs.InForm.{IsPlanInForm};
ghost use Rattle.jrql_update.specs.UpdateReading.{plan_of_subject, members_beside, update_under, update_said, update_read};
ghost use Rattle.jrql_update.specs.UpdateMeaning.{MeansUpdate};

use crate::breaches::{check_breaches, is_subject_alone};
use crate::clauses::read_clauses;
use crate::open_updates::OpenUpdate;
use jrql_ast::UpdatePlan;
use jrql_patterns::jsonld_values::has_member;
use jrql_patterns::{not_under, read_json, said_context};
use jsonld_context::{Context, JsonFault};
use serde_json::{Map, Value};
use std::alloc::Global;

/// The plan of a subject to insert.
fn plan_of_subject(
    alloc: Global,
    context: &Context,
    subject: &Value,
) -> Result<UpdatePlan, JsonFault>
    ensures ok { IfOk result (λ plan. plan_of_subject context.now (view subject.now) ≡ Ok plan) }
    ensures err { IfErr result (IsToldBy (plan_of_subject context.now (view subject.now))) }
{
    let mut read = OpenUpdate::new(alloc);
    read.read_inserted(alloc, context, subject)?;
    Ok(read.into_plan(alloc, false)?)
}

/// Takes the context out of an object.
fn take_context(members: &mut Map<String, Value>) -> Option<Value>
    ensures { members_view members.new.entries ≡ members_beside (codes "@context") (members_view members.old.entries) }
{
    members.remove("@context")
}

/// An object without its context.
fn without_context(members: Map<String, Value>) -> Value
    ensures { view result ≡ object (members_beside (codes "@context") (members_view members.entries)) }
{
    let mut members = members;
    let _context = take_context(&mut members);
    Value::Object(members)
}

/// The plan of the members of an object.
fn update_under(
    alloc: Global,
    context: &Context,
    members: Map<String, Value>,
) -> Result<UpdatePlan, JsonFault>
    ensures ok { IfOk result (λ plan. update_under context.now (members_view members.entries) ≡ Ok plan) }
    ensures err { IfErr result (IsToldBy (update_under context.now (members_view members.entries))) }
{
    if is_subject_alone(&members) {
        return plan_of_subject(alloc, context, &without_context(members));
    }
    let mut read = OpenUpdate::new(alloc);
    read_clauses(alloc, context, &members, &mut read)?;
    check_breaches(alloc, &members, &read)?;
    Ok(read.into_plan(alloc, has_member(&members, "@where"))?)
}

/// The plan that a value says.
fn update_said(alloc: Global, value: Value, domain: &str) -> Result<UpdatePlan, JsonFault>
    requires { IsTrue (is_domain domain.now) }
    ensures ok { IfOk result (λ plan. update_said domain.now (view value) ≡ Ok plan) }
    ensures err { IfErr result (IsToldBy (update_said domain.now (view value))) }
{
    match value {
        Value::Object(members) => {
            let context = said_context(alloc, &members, domain)?;
            update_under(alloc, &context, members)
        }
        other => Err(not_under(alloc, "", &other)),
    }
}

/// What a JSON text says as an update in a domain, else its first fault. `@context` is read first, then the other members of an object by
/// the bytes of their keys; what is missing, and what breaks a rule of two keys, is found behind all of them.
///
/// `NotJson` says that the bytes are no JSON, or nest deeper than 127; `BadContext` and `Remote` what is wrong in `@context`; `BadSubject`,
/// `Unsupported` and `BadIri` what is wrong in a subject, with its key; `Fraction` that a number is no whole number of 64 bits; and
/// `BadQuery` any other breach, with the innermost key of the update in which it is, or a variable too many, with its name or `@id`.
#[tactic(auto, unfolding(crate::specs::UpdateReading::update_read))]
pub fn read_update(alloc: Global, bytes: &[u8], domain: &str) -> Result<UpdatePlan, JsonFault>
    requires { IsTrue (is_domain domain.now) }
    ensures ok { IfOk result (λ plan. update_read domain.now bytes.now ≡ Ok plan) }
    ensures err { IfErr result (IsToldBy (update_read domain.now bytes.now)) }
    ensures in_form { IfOk result IsPlanInForm }
    ensures meant { IfOk result (λ plan. MeansUpdate bytes.now plan) }
{
    let value = read_json(alloc, bytes)?;
    update_said(alloc, value, domain)
}
