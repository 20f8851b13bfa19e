//! Faults of queries, with the key at which they are.
ghost use Rattle.std.specs.Prelude.{Some};
ghost use Rattle.serde_json.specs.View.{view};
ghost use Rattle.jsonld_context.specs.Telling.{IsFaultOf};
ghost use Rattle.jsonld_context.specs.declared.faults.JsonFault.TheVariants as faults;
ghost use Rattle.jrql_patterns.specs.OpenGroups.{not_under};

use jsonld_context::JsonFault;
use serde_json::Value;
use std::alloc::Global;
use text_rules::Text;

/// The fault of a query that breaks a rule at a key; or want of memory.
pub fn bad_query(alloc: Global, key: &str) -> JsonFault
    ensures { IsFaultOf (Some (faults.BadQuery key.now)) result }
{
    match Text::new(alloc, key) {
        Ok(key) => JsonFault::BadQuery(key),
        Err(_) => JsonFault::NoMemory,
    }
}

/// The fault of a value that may not stand under a key; or want of memory.
pub fn not_under(alloc: Global, key: &str, value: &Value) -> JsonFault
    ensures { IsFaultOf (Some (not_under key.now (view value.now))) result }
{
    match value {
        Value::Number(number) if number.is_f64() => JsonFault::Fraction,
        _ => bad_query(alloc, key),
    }
}
