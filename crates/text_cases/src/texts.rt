//! Texts in lines, as JSON strings.
use serde_json::Value;
use std::alloc::{AllocError, Global};

/// The text of a JSON string.
pub fn text_of(value: &Value) -> Option<&str> {
    match value {
        Value::String(text) => Some(text.as_str()),
        _ => None,
    }
}

/// The texts of a JSON array of two.
pub fn pair_of(value: &Value) -> Option<(&str, &str)> {
    let Value::Array(items) = value else {
        return None;
    };
    match items.as_slice() {
        [Value::String(first), Value::String(second)] => Some((first.as_str(), second.as_str())),
        _ => None,
    }
}

/// Puts a text as a JSON string.
pub fn put_quoted(alloc: Global, out: &mut String, text: &str) -> Result<bool, AllocError> {
    let text = String::from_str(alloc, text)?;
    let value = Box::new(alloc, Value::String(text))?;
    put_value(alloc, out, &value)
}

/// Puts a JSON value.
pub fn put_value(alloc: Global, out: &mut String, value: &Value) -> Result<bool, AllocError> {
    let written = value.to_string(alloc)?;
    out.push_str(written.as_str())?;
    Ok(true)
}

/// Puts a text that was written.
pub fn put_text(out: &mut String, text: &[u8]) -> Result<bool, AllocError> {
    match str::from_utf8(text) {
        Ok(text) => {
            out.push_str(text)?;
            Ok(true)
        }
        Err(_) => Ok(false),
    }
}
