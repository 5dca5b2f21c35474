//! Files that table rows describe as changes. `two` starts from the file of two keys, `layer` from the file with a condition on the
//! layer, `sets` from the file that sets the layer, and any other row from the file of one rule. `..` truncates the file to a
//! length, `@` moves to a byte offset, and hexadecimal digits are the bytes from there on.

use crate::fixtures::{ON_LAYER, SETS_LAYER};
use compile_tests::fixtures::{ONE_RULE, TWO_KEYS};
use std::alloc::{AllocError, Global};
use std::str;
use std::test::Fail;

/// Replaces the byte at an offset, or appends it if the offset is not before the end of the file.
fn put(file: &mut Vec<u8>, place: usize, byte: u8) -> Result<(), AllocError> {
    match file.get_mut(place) {
        Some(there) => {
            *there = byte;
            Ok(())
        }
        None => {
            file.push(byte)?;
            Ok(())
        }
    }
}

/// Returns the byte of two hexadecimal digits.
fn byte_of(digits: &[u8]) -> Result<u8, &'static str> {
    let text = str::from_utf8(digits).unwrap_or("");
    u8::from_str_radix(text, 16)
        .ok()
        .ok_or("digits that are no byte")
}

/// Writes the bytes of hexadecimal digits from an offset on, and returns the offset after them.
fn put_digits(file: &mut Vec<u8>, place: usize, digits: &str) -> Result<usize, Fail> {
    let mut place = place;
    for pair in digits.as_bytes().chunks(2) {
        put(file, place, byte_of(pair)?)?;
        place = place.saturating_add(1);
    }
    Ok(place)
}

/// Returns a number of a row.
fn number(text: &str) -> Result<usize, &'static str> {
    text.parse::<usize>()
        .ok()
        .ok_or("a number that is no number")
}

/// Returns the file that a word names, if it names one.
fn named(word: &str) -> Option<&'static [u8]> {
    match word {
        "two" => Some(&TWO_KEYS),
        "layer" => Some(&ON_LAYER),
        "sets" => Some(&SETS_LAYER),
        _ => None,
    }
}

/// Makes the change of a word at an offset, and returns the offset for the next word.
fn change(file: &mut Vec<u8>, place: usize, word: &str) -> Result<usize, Fail> {
    if let Some(bytes) = named(word) {
        file.clear();
        file.extend_from_slice(bytes)?;
        return Ok(place);
    }
    if let Some(length) = word.strip_prefix("..") {
        file.truncate(number(length)?);
        return Ok(place);
    }
    match word.strip_prefix('@') {
        Some(text) => Ok(number(text)?),
        None => put_digits(file, place, word),
    }
}

/// Makes changes of a file one after the other.
pub fn change_all(file: &mut Vec<u8>, changes: &str) -> Result<(), Fail> {
    let mut place = 0;
    for word in changes.split_whitespace() {
        place = change(file, place, word)?;
    }
    Ok(())
}

/// Returns the file that changes describe.
pub fn changed(alloc: Global, changes: &str) -> Result<Vec<u8>, Fail> {
    let mut file = Vec::from_slice(alloc, &ONE_RULE)?;
    change_all(&mut file, changes)?;
    Ok(file)
}
