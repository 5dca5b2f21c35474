//! Words that are read as numbers: the code of a character in octal, decimal or hexadecimal digits, and offsets.

ghost use Rattle.std.specs.Prelude.{◌≡◌, ◌≤◌, IfSome};
ghost use Rattle.kmn_items.specs.Numbers.{begins_digit, is_prefixed, number_base, is_number_word, number_digits, character_lead, digits_lead, is_offset, offset_value};

use crate::syntax::Lead;
use kmn_base::Code;
use kmn_base::digits::{are_digits, bounded_value, is_digit};
use kmn_base::slices::behind;
use kmn_base::texts::{NO_CHARACTER, is_forbidden};

/// The largest number of nine digits.
const LARGEST_OFFSET: u32 = 999_999_999;

/// Returns the base of a word that is read as a number.
pub(crate) fn number_base(text: &[u8]) -> Option<u32>
    ensures base { result ≡ number_base text.now }
    ensures least { IfSome result (λ base. 2 ≤ base) }
    ensures most { IfSome result (λ base. base ≤ 16) }
{
    if begins_digit(10, text) {
        Some(8)
    } else if is_prefixed(b'd', 10, text) {
        Some(10)
    } else if is_prefixed(b'x', 16, text) {
        Some(16)
    } else {
        None
    }
}

/// Returns whether a text begins with a digit of a base.
fn begins_digit(base: u32, text: &[u8]) -> bool
    requires least { 2 ≤ base }
    requires most { base ≤ 16 }
    ensures { result ≡ begins_digit base text.now }
{
    match text {
        [first, ..] => is_digit(*first, base),
        [] => false,
    }
}

/// Returns whether a text begins with a letter and then a digit of a base.
fn is_prefixed(letter: u8, base: u32, text: &[u8]) -> bool
    requires least { 2 ≤ base }
    requires most { base ≤ 16 }
    ensures { result ≡ is_prefixed letter base text.now }
{
    match text {
        [first, rest @ ..] => *first == letter && begins_digit(base, rest),
        [] => false,
    }
}

/// Returns whether a word is read as a number.
pub fn is_number_word(text: &[u8]) -> bool
    ensures { result ≡ is_number_word text.now }
{
    number_base(text).is_some()
}

/// Returns the digits of a word that is read as a number.
pub(crate) fn number_digits(text: &[u8]) -> &[u8]
    ensures { result.now ≡ number_digits text.now }
{
    if begins_digit(10, text) {
        text
    } else {
        behind(text, 1)
    }
}

/// Returns digits of a base as the kind of an item.
pub(crate) fn digits_lead(base: u32, digits: &[u8]) -> Lead
    requires least { 2 ≤ base }
    requires most { base ≤ 16 }
    ensures { result ≡ digits_lead base digits.now }
{
    if are_digits(base, digits) {
        character_lead(bounded_value(NO_CHARACTER, base, digits))
    } else {
        Lead::Wrong(Code::L04)
    }
}

/// Returns a code point as the kind of an item.
fn character_lead(code: u32) -> Lead
    ensures { result ≡ character_lead code }
{
    if is_forbidden(code) {
        return Lead::Wrong(Code::L02);
    }
    match char::from_u32(code) {
        Some(c) => Lead::One(c),
        None => Lead::Wrong(Code::L04),
    }
}

/// Returns whether a text is 1 to 9 decimal digits.
pub(crate) fn is_offset(text: &[u8]) -> bool
    ensures { result ≡ is_offset text.now }
{
    1 <= text.len() && text.len() <= 9 && are_digits(10, text)
}

/// Returns the number of an offset.
pub(crate) fn offset_value(text: &[u8]) -> u32
    ensures { result ≡ offset_value text.now }
{
    bounded_value(LARGEST_OFFSET, 10, text)
}
