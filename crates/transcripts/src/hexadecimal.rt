//! Bytes that are written as hexadecimal digits: words parted by spaces, each of which is pairs of digits, or one pair, `*` and how often
//! it stands there.
use std::alloc::{AllocError, Global};

/// The most times that one byte is repeated.
const REPEATS_LIMIT: u32 = 4_194_304;

/// The most bytes that are written of what came.
const SHOWN: usize = 40;

/// One byte, and how often it stands there.
#[derive(Clone, Copy)]
struct Repeated {
    byte: u8,
    count: u32,
}

/// Whether a text says bytes.
pub fn is_hexadecimal(text: &str) -> bool {
    for word in text.split(' ') {
        if !is_pairs(word) && read_repeated(word).is_none() {
            return false;
        }
    }
    true
}

/// Puts the bytes that a text says behind these; what says none is passed over.
pub fn put_hexadecimal(bytes: &mut Vec<u8>, text: &str) -> Result<(), AllocError> {
    for word in text.split(' ') {
        match read_repeated(word) {
            None => put_pairs(bytes, word)?,
            Some(told) => put_repeated(bytes, told)?,
        }
    }
    Ok(())
}

/// Whether a word is pairs of digits.
fn is_pairs(word: &str) -> bool {
    word.len() % 2 == 0 && word.bytes().all(|byte| digit_of(byte).is_some())
}

/// Puts the bytes that pairs of digits say behind these.
fn put_pairs(bytes: &mut Vec<u8>, pairs: &str) -> Result<(), AllocError> {
    let mut high = None;
    for byte in pairs.bytes() {
        let digit = digit_of(byte).unwrap_or(0);
        match high {
            None => high = Some(digit),
            Some(first) => {
                bytes.push(first << 4 | digit)?;
                high = None;
            }
        }
    }
    Ok(())
}

/// The byte that a word repeats, and how often; `None` where the word isn't of that form, or says too many.
fn read_repeated(word: &str) -> Option<Repeated> {
    let (pair, count) = word.split_once('*')?;
    let [high, low] = pair.as_bytes() else {
        return None;
    };
    let byte = digit_of(*high)? << 4 | digit_of(*low)?;
    let count = count.parse::<u32>().ok()?;
    if count > REPEATS_LIMIT {
        return None;
    }
    Some(Repeated { byte, count })
}

/// Puts one byte behind these as often as is told.
fn put_repeated(bytes: &mut Vec<u8>, told: Repeated) -> Result<(), AllocError> {
    for _ in 0..told.count {
        bytes.push(told.byte)?;
    }
    Ok(())
}

/// The number below 16 that a digit says.
fn digit_of(byte: u8) -> Option<u8> {
    match byte {
        b'0'..=b'9' => Some(byte - b'0'),
        b'a'..=b'f' => Some(byte - b'a' + 10),
        _ => None,
    }
}

/// The first bytes of some, as pairs of digits, and two points where there are more.
pub fn first_bytes(alloc: Global, bytes: &[u8]) -> Result<String, AllocError> {
    let mut text = String::new(alloc);
    let mut count = 0usize;
    for byte in bytes {
        if count == SHOWN {
            text.push_str("..")?;
            return Ok(text);
        }
        text.push(letter_of(*byte >> 4))?;
        text.push(letter_of(*byte & 15))?;
        count = count.saturating_add(1);
    }
    Ok(text)
}

/// The digit of a number below 16.
fn letter_of(number: u8) -> char {
    char::from_digit(u32::from(number), 16).unwrap_or('?')
}
