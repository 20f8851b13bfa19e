//! Texts, their bytes, and single characters.
use std::alloc::Global;
use std::test::Fail;
use text_rules::characters::{is_digit, is_excluded, is_letter, is_scheme_character};
use text_rules::{Text, byte_at, has_byte};

#[test]
fn characters_and_bytes_are_told(rt: HostRuntime) {
    assert!(rt; is_letter('z') && !is_letter('1') && is_digit('9') && !is_digit('a'));
    assert!(rt; is_scheme_character('+') && !is_scheme_character('_'));
    assert!(rt; is_excluded('`') && !is_excluded('%'));
    assert!(rt; byte_at("ab", 1) == Some(b'b') && byte_at("ab", 2).is_none());
    assert!(rt; has_byte("ab", 0, b'a') && !has_byte("ab", 0, b'b') && !has_byte("ab", 2, b'b'));
}

/// Whether a text has so many bytes, and one at least.
fn is_filled(text: &Text, count: usize) -> bool {
    text.len() == count && !text.is_empty()
}

/// Whether a text and its copy are this one.
fn is_copied(text: &Text, wanted: &str) -> bool {
    match text.share() {
        Ok(copy) => copy == *text && copy.as_str() == wanted && is_filled(&copy, wanted.len()),
        Err(_) => false,
    }
}

/// Whether a text that is made, and its copy, are this one.
fn is_made(alloc: Global, text: &str) -> bool {
    match Text::new(alloc, text) {
        Ok(made) => is_copied(&made, text),
        Err(_) => false,
    }
}

/// Whether the text of a string, and its copy, are this one.
fn is_moved(string: String, text: &str) -> bool {
    match Text::from_string(string) {
        Ok(moved) => is_copied(&moved, text),
        Err(_) => false,
    }
}

#[test]
fn texts_are_made_and_copied(rt: HostRuntime) -> Result<(), Fail> {
    assert!(rt; is_made(rt.alloc(), "x"));
    assert!(rt; is_moved(String::from_str(rt.alloc(), "é")?, "é"));
    Ok(())
}
