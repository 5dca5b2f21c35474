//! The text of a source in UTF-16, as UTF-8.

ghost use Rattle.std.specs.Prelude.{◌≡◌, ◌++◌, ◌<◌, encode_utf8, encode_utf8_all, true, None, Some, IfOk, OnOk};
ghost use Rattle.std.specs.Char.{IsScalar};
ghost use Rattle.kmn_import.specs.Utf16.{unit, units, is_high, is_low, paired, unit_characters, wide_text, begin_with, marked_text};
ghost use Rattle.kmn_import.specs.Units.{first_character, second_half, unit_count};

use kmn_base::slices::behind;
use kmn_base::{Memory, Seq, Text};
use std::alloc::Global;

/// Returns the text of a source that begins with a byte order mark of UTF-16, or None for any other source and for a broken one.
/// Errors: `Memory` if an allocation fails.
pub(crate) fn marked_text(alloc: Global, bytes: &[u8]) -> Result<Option<Text>, Memory>
    ensures { IfOk result (λ text. text ≡ marked_text bytes.now) }
{
    if begin_with(0xFF, 0xFE, bytes) {
        return wide_text(alloc, false, behind(bytes, 2));
    }
    if begin_with(0xFE, 0xFF, bytes) {
        return wide_text(alloc, true, behind(bytes, 2));
    }
    Ok(None)
}

/// Returns whether bytes begin with these two.
fn begin_with(first: u8, second: u8, bytes: &[u8]) -> bool
    ensures { result ≡ begin_with first second bytes.now }
{
    match bytes {
        [left, right, ..] => first == *left && second == *right,
        _ => false,
    }
}

/// Returns the text of bytes in UTF-16, or None if they are broken. Errors: `Memory` if an allocation fails.
fn wide_text(alloc: Global, big_endian: bool, bytes: &[u8]) -> Result<Option<Text>, Memory>
    ensures { IfOk result (λ text. text ≡ wide_text big_endian bytes.now) }
{
    let Some(units) = units(alloc, big_endian, bytes)? else {
        return Ok(None);
    };
    let Some(characters) = unit_characters(alloc, units.as_slice())? else {
        return Ok(None);
    };
    Ok(Some(encoded(alloc, characters.as_slice())?))
}

/// Returns the units of bytes, or None if one byte is left over. Errors: `Memory` if an allocation fails.
fn units(alloc: Global, big_endian: bool, bytes: &[u8]) -> Result<Option<Seq<u16>>, Memory>
    ensures { IfOk result (λ all. all ≡ units big_endian bytes.now) }
{
    let mut all = Seq::new(alloc);
    let mut rest = bytes;
    while let [first, second, ..] = rest {
        all.add(unit(big_endian, *first, *second))?;
        rest = behind(rest, 2);
    }
    if rest.is_empty() {
        Ok(Some(all))
    } else {
        Ok(None)
    }
}

/// Returns the unit of two bytes, with the high byte first or last.
fn unit(big_endian: bool, first: u8, second: u8) -> u16
    ensures { result ≡ unit big_endian first second }
{
    if big_endian {
        u16::from(first) * 256 + u16::from(second)
    } else {
        u16::from(second) * 256 + u16::from(first)
    }
}

/// Returns the characters of units, or None if a pair is not complete. Errors: `Memory` if an allocation fails.
fn unit_characters(alloc: Global, units: &[u16]) -> Result<Option<Seq<char>>, Memory>
    ensures { IfOk result (λ characters. characters ≡ unit_characters None units.now) }
{
    let mut characters = Seq::new(alloc);
    let mut rest = units;
    while let [unit, ..] = rest {
        let count = unit_count(*unit);
        let Some(character) = first_character(rest) else {
            return Ok(None);
        };
        characters.add(character)?;
        rest = behind(rest, count);
    }
    Ok(Some(characters))
}

/// Returns the number of units of the character that begins with a unit.
fn unit_count(unit: u16) -> usize
    ensures { result ≡ unit_count unit }
{
    if is_high(unit) { 2 } else { 1 }
}

/// Returns the first character of units, or None if a pair is not complete.
#[tactic(auto, using(crate::proofs::Utf16Steps::unit_is_scalar))]
fn first_character(units: &[u16]) -> Option<char>
    ensures { result ≡ first_character units.now }
{
    let [unit, after @ ..] = units else {
        return None;
    };
    if is_high(*unit) {
        return second_half(*unit, after);
    }
    if is_low(*unit) {
        return None;
    }
    Some(character(u32::from(*unit)))
}

/// Returns the character of a surrogate pair, or None if its second unit does not follow.
#[tactic(auto, using(crate::proofs::Utf16Steps::pair_is_scalar))]
fn second_half(high: u16, units: &[u16]) -> Option<char>
    requires { is_high high ≡ true }
    ensures { result ≡ second_half high units.now }
{
    let [low, ..] = units else {
        return None;
    };
    if !is_low(*low) {
        return None;
    }
    Some(character(paired(high, *low)))
}

/// Returns the code of a surrogate pair.
fn paired(high: u16, low: u16) -> u32
    requires high { is_high high ≡ true }
    requires low { is_low low ≡ true }
    ensures { result ≡ paired high low }
{
    0x1_0000 + (u32::from(high) - 0xD800) * 1024 + (u32::from(low) - 0xDC00)
}

/// Returns the character with a code.
fn character(code: u32) -> char
    requires { IsScalar code }
    ensures { result ≡ code }
{
    match char::from_u32(code) {
        Some(character) => character,
        None => unreachable!(),
    }
}

/// Returns whether a unit is the first one of a surrogate pair.
fn is_high(unit: u16) -> bool
    ensures { result ≡ is_high unit }
{
    0xD800 <= unit && unit < 0xDC00
}

/// Returns whether a unit is the second one of a surrogate pair.
fn is_low(unit: u16) -> bool
    ensures { result ≡ is_low unit }
{
    0xDC00 <= unit && unit < 0xE000
}

/// Returns characters in UTF-8. Errors: `Memory` if an allocation fails.
fn encoded(alloc: Global, characters: &[char]) -> Result<Text, Memory>
    ensures { IfOk result (λ text. text ≡ encode_utf8_all characters.now) }
{
    let mut text = Seq::new(alloc);
    for character in characters {
        add_character(&mut text, *character)?;
    }
    Ok(text)
}

/// Appends a character in UTF-8. Errors: `Memory` if an allocation fails.
fn add_character(text: &mut Text, character: char) -> Result<(), Memory>
    ensures { OnOk result (text.new ≡ text.old ++ encode_utf8 character) }
{
    let mut bytes = [0; 4];
    text.extend_from_slice(character.encode_utf8(&mut bytes).as_bytes())
}
