//! JSON texts, and the context of an object (RFC 8259; JSON-LD 1.1, section 3.1).
ghost use Rattle.std.specs.Prelude.{◌≡◌, Ok, IfOk, IfErr, IsTrue};
ghost use Rattle.text_rules.specs.Domain.{is_domain};
ghost use Rattle.serde_json.specs.View.{view, members_view};
ghost use Rattle.jsonld_context.specs.Telling.{IsToldBy};
ghost use Rattle.jrql_patterns.specs.QueryReading.{json_of, context_said};

use jsonld_context::{Context, JsonFault, member_at};
use serde_json::{Map, Value};
use std::alloc::Global;

/// The value of a JSON text. `NotJson` says that the bytes are none, also where they nest deeper than 127.
#[tactic(auto, using(crate::proofs::JsonTexts::json_read, crate::proofs::JsonTexts::json_refused))]
pub fn read_json(alloc: Global, bytes: &[u8]) -> Result<Value, JsonFault>
    ensures ok { IfOk result (λ value. json_of bytes.now ≡ Ok (view value)) }
    ensures err { IfErr result (IsToldBy (json_of bytes.now)) }
{
    match Value::from_slice(alloc, bytes) {
        Ok(value) => Ok(value),
        Err(error) if error.is_memory() => Err(JsonFault::NoMemory),
        Err(_) => Err(JsonFault::NotJson),
    }
}

/// The context that an object's member `@context` says over the defaults of a domain, else these alone; or its first fault, as
/// `Context::read` tells it.
pub fn said_context(
    alloc: Global,
    members: &Map<String, Value>,
    domain: &str,
) -> Result<Context, JsonFault>
    requires { IsTrue (is_domain domain.now) }
    ensures ok { IfOk result (λ context. context_said domain.now (members_view members.now.entries) ≡ Ok context) }
    ensures err { IfErr result (IsToldBy (context_said domain.now (members_view members.now.entries))) }
{
    match member_at(members, "@context") {
        Some(value) => Context::read(alloc, value, domain),
        None => Context::of_domain(alloc, domain),
    }
}
