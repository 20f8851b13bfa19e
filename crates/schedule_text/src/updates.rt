//! Lines that are updates.
ghost use Rattle.std.specs.Prelude.{IsTrue, IfOk, MatchOption};
ghost use Rattle.text_rules.specs.Domain.{is_domain};
ghost use Rattle.jrql_ast.specs.InForm.{IsPlanInForm};
ghost use Rattle.jrql_ast.specs.declared.plans.UpdatePlan.{UpdatePlan};
ghost use Rattle.schedule_model.specs.declared.Command.{Command};
ghost use Rattle.schedule_text.specs.ReadLines.{Finds, IsUpdateText, IsUpdateRest, IsFoundInForm};

use crate::numbers::read_clone;
use crate::queries::text_fault;
use crate::words::split_at_space;
use jrql_ast::UpdatePlan;
use jrql_update::read_update;
use schedule_model::Command;
use std::alloc::{AllocError, Global};

/// What follows `update` and a space, in the domain of this name: a clone's number, a space, and a JSON text that is an update.
pub fn read_update_command(
    alloc: Global,
    rest: &[u8],
    domain: &str,
) -> Result<Option<Command>, AllocError>
    requires { IsTrue (is_domain domain.now) }
    ensures found { IfOk result (Finds (IsUpdateRest domain.now rest.now)) }
    ensures in_form { IfOk result IsFoundInForm }
{
    let Some((number, text)) = split_at_space(rest) else {
        return Ok(None);
    };
    let Some(number) = read_clone(number) else {
        return Ok(None);
    };
    let Some(plan) = read_update_text(alloc, text, domain)? else {
        return Ok(None);
    };
    Ok(Some(Command::Update(number, plan)))
}

/// The plan of a JSON text, where it says one without a fault.
pub fn read_update_text(
    alloc: Global,
    text: &[u8],
    domain: &str,
) -> Result<Option<UpdatePlan>, AllocError>
    requires { IsTrue (is_domain domain.now) }
    ensures found { IfOk result (Finds (IsUpdateText domain.now text.now)) }
    ensures in_form { IfOk result (λ found. MatchOption found (Unit {0}) IsPlanInForm) }
{
    match read_update(alloc, text, domain) {
        Ok(plan) => Ok(Some(plan)),
        Err(fault) => {
            text_fault(&fault)?;
            Ok(None)
        }
    }
}
