//! Faults with the key at which they are.
ghost use Rattle.std.specs.Prelude.{Some};
ghost use Rattle.jsonld_context.specs.Telling.{IsFaultOf};
ghost use Rattle.jsonld_context.specs.declared.faults.JsonFault.TheVariants as faults;

use jsonld_context::JsonFault;
use std::alloc::Global;
use text_rules::Text;

/// The fault of a subject that breaks a rule at a key; or want of memory.
pub fn bad_subject(alloc: Global, key: &str) -> JsonFault
    ensures { IsFaultOf (Some (faults.BadSubject key.now)) result }
{
    match Text::new(alloc, key) {
        Ok(key) => JsonFault::BadSubject(key),
        Err(_) => JsonFault::NoMemory,
    }
}

/// The fault of a key of which what stands there isn't known here; or want of memory.
pub fn unsupported(alloc: Global, key: &str) -> JsonFault
    ensures { IsFaultOf (Some (faults.Unsupported key.now)) result }
{
    match Text::new(alloc, key) {
        Ok(key) => JsonFault::Unsupported(key),
        Err(_) => JsonFault::NoMemory,
    }
}

/// The fault of a variable that is one too many; or want of memory.
pub(crate) fn bad_query(alloc: Global, name: &str) -> JsonFault
    ensures { IsFaultOf (Some (faults.BadQuery name.now)) result }
{
    match Text::new(alloc, name) {
        Ok(name) => JsonFault::BadQuery(name),
        Err(_) => JsonFault::NoMemory,
    }
}
