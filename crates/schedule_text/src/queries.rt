//! Lines that are queries.
ghost use Rattle.std.specs.Prelude.{◌≡◌, ◌≢◌, IsTrue, IfOk, OnOk, OnErr, MatchOption};
ghost use Rattle.text_rules.specs.Domain.{is_domain};
ghost use Rattle.jrql_ast.specs.InForm.{IsQueryInForm};
ghost use Rattle.schedule_model.specs.jrql_patterns.declared.queries.ReadQuery.{ReadQuery};
ghost use Rattle.jsonld_context.specs.declared.faults.JsonFault.TheVariants as faults;
ghost use Rattle.schedule_model.specs.declared.Command.{Command};
ghost use Rattle.schedule_text.specs.ReadLines.{Finds, IsQueryText, IsQueryRest, IsFoundInForm};

use crate::numbers::read_clone;
use crate::words::split_at_space;
use jsonld_context::JsonFault;
use schedule_model::Command;
use schedule_model::jrql_patterns::{ReadQuery, read_query};
use std::alloc::{AllocError, Global};

/// What follows `query` and a space, in the domain of this name: a clone's number, a space, and a JSON text that is a query.
pub fn read_query_command(
    alloc: Global,
    rest: &[u8],
    domain: &str,
) -> Result<Option<Command>, AllocError>
    requires { IsTrue (is_domain domain.now) }
    ensures found { IfOk result (Finds (IsQueryRest domain.now rest.now)) }
    ensures in_form { IfOk result IsFoundInForm }
{
    let Some((number, text)) = split_at_space(rest) else {
        return Ok(None);
    };
    let Some(number) = read_clone(number) else {
        return Ok(None);
    };
    let Some(read) = read_query_text(alloc, text, domain)? else {
        return Ok(None);
    };
    Ok(Some(Command::Query(number, read)))
}

/// The query of a JSON text, where it says one without a fault.
pub fn read_query_text(
    alloc: Global,
    text: &[u8],
    domain: &str,
) -> Result<Option<ReadQuery>, AllocError>
    requires { IsTrue (is_domain domain.now) }
    ensures found { IfOk result (Finds (IsQueryText domain.now text.now)) }
    ensures in_form { IfOk result (λ found. MatchOption found (Unit {0}) (λ read. IsQueryInForm read.query)) }
{
    match read_query(alloc, text, domain) {
        Ok(read) => Ok(Some(read)),
        Err(fault) => {
            text_fault(&fault)?;
            Ok(None)
        }
    }
}

/// Passes a fault that a text has, and refuses want of memory alone.
pub fn text_fault(fault: &JsonFault) -> Result<(), AllocError>
    ensures ok { OnOk result (fault.now ≢ faults.NoMemory) }
    ensures err { OnErr result (fault.now ≡ faults.NoMemory) }
{
    match fault {
        JsonFault::NotJson => Ok(()),
        JsonFault::BadContext(_) => Ok(()),
        JsonFault::Remote => Ok(()),
        JsonFault::BadSubject(_) => Ok(()),
        JsonFault::Fraction => Ok(()),
        JsonFault::BadIri(_) => Ok(()),
        JsonFault::Unsupported(_) => Ok(()),
        JsonFault::BadQuery(_) => Ok(()),
        JsonFault::NoMemory => Err(AllocError),
    }
}
