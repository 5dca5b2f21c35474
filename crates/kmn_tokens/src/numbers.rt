//! Numbers as `U+` and hexadecimal digits.

ghost use Rattle.std.specs.Prelude.{◌≡◌, ◌≤◌};
ghost use Rattle.kmn_base.specs.declared.texts.TheConstants.{NO_CHARACTER};
ghost use Rattle.kmn_lines.specs.Tokens.{hex_value, all_digits, value_fault, digits_fault};
ghost use Rattle.kmn_tokens.specs.Scanning.{Gives};

use kmn_base::Code;
use kmn_base::bytes::hex_digit;
use kmn_base::texts::{NO_CHARACTER, is_forbidden};

/// Returns the character of 4 to 6 hexadecimal digits. Errors: L04 if there are fewer or more digits, if a byte is not a digit,
/// or if no character has the number; L02 for U+0000 and U+FFFF.
pub fn number(digits: &[u8]) -> Result<char, Code>
    ensures { Gives (digits_fault digits.now) (hex_value 0 digits.now) result }
{
    if 4 <= digits.len() && digits.len() <= 6 && all_digits(digits) {
        char_of(hex_value(digits))
    } else {
        Err(Code::L04)
    }
}

/// Returns whether each byte is a hexadecimal digit.
fn all_digits(digits: &[u8]) -> bool
    ensures { result ≡ all_digits digits.now }
{
    digits.iter().all(|digit| hex_digit(*digit).is_some())
}

/// Returns the character of a number. Errors: L02 or L04 as in `number`.
fn char_of(value: u32) -> Result<char, Code>
    ensures { Gives (value_fault value) value result }
{
    if is_forbidden(value) {
        return Err(Code::L02);
    }
    char::from_u32(value).ok_or(Code::L04)
}

/// Returns the number that digits denote, limited to a value past all characters.
fn hex_value(digits: &[u8]) -> u32
    ensures is { result ≡ hex_value 0 digits.now }
    ensures within { result ≤ NO_CHARACTER }
{
    let mut value = 0;
    for digit in digits {
        value = (value * 16 + hex_digit(*digit).unwrap_or(0)).min(NO_CHARACTER);
    }
    value
}
