//! Faults in lines: the name, and behind it the text that the fault carries, between quotes.
use jsonld_context::JsonFault;
use std::alloc::AllocError;
use std::fmt::Write;

/// Puts a fault as lines name it; want of memory is no fault of a line.
pub fn put_fault(out: &mut String, fault: &JsonFault) -> Result<bool, AllocError> {
    match fault {
        JsonFault::NotJson => put_name(out, "NotJson"),
        JsonFault::BadContext(key) => put_named(out, "BadContext", key.as_str()),
        JsonFault::Remote => put_name(out, "Remote"),
        JsonFault::BadSubject(key) => put_named(out, "BadSubject", key.as_str()),
        JsonFault::Fraction => put_name(out, "Fraction"),
        JsonFault::BadIri(written) => put_named(out, "BadIri", written.as_str()),
        JsonFault::Unsupported(key) => put_named(out, "Unsupported", key.as_str()),
        JsonFault::BadQuery(key) => put_named(out, "BadQuery", key.as_str()),
        JsonFault::NoMemory => Err(AllocError),
    }
}

/// Puts a name alone.
fn put_name(out: &mut String, name: &str) -> Result<bool, AllocError> {
    out.push_str(name)?;
    Ok(true)
}

/// Puts a name and a text between quotes.
fn put_named(out: &mut String, name: &str, text: &str) -> Result<bool, AllocError> {
    write!(out, "{name} \"{text}\"")?;
    Ok(true)
}
