//! Numbers written in words in some base.

ghost use Rattle.std.specs.Prelude.{◌≡◌, ◌≤◌};
ghost use Rattle.std.specs.Char.{digit_value, is_digit};
ghost use Rattle.kmn_base.specs.Digits.{are_digits, with_digit, bounded_value};

/// Returns whether a byte is a digit of a base, in either case.
pub fn is_digit(byte: u8, base: u32) -> bool
    requires least { 2 ≤ base }
    requires most { base ≤ 16 }
    ensures { result ≡ is_digit byte base }
{
    char::from(byte).is_digit(base)
}

/// Returns whether all bytes are digits of a base.
pub fn are_digits(base: u32, text: &[u8]) -> bool
    requires least { 2 ≤ base }
    requires most { base ≤ 16 }
    ensures { result ≡ are_digits base text.now }
{
    text.iter().all(|byte| is_digit(*byte, base))
}

/// Returns the number that digits denote, or a bound if the number is larger.
pub fn bounded_value(bound: u32, base: u32, digits: &[u8]) -> u32
    requires { base ≤ 16 }
    ensures { result ≡ bounded_value bound base digits.now }
{
    let mut value = 0;
    for digit in digits {
        value = with_digit(bound, base, value, *digit);
    }
    value
}

/// Returns a number with another digit appended, or a bound if the number is larger.
fn with_digit(bound: u32, base: u32, value: u32, byte: u8) -> u32
    requires { base ≤ 16 }
    ensures value { result ≡ with_digit bound base value byte }
{
    let larger = u64::from(base) * u64::from(value) + u64::from(digit_value(byte));
    larger.min(u64::from(bound)) as u32
}

/// Returns the value of a digit or a letter, and 36 for any other byte.
fn digit_value(byte: u8) -> u32
    ensures value { result ≡ digit_value byte }
    ensures most { result ≤ 36 }
{
    match byte {
        b'0'..=b'9' => u32::from(byte) - 48,
        b'A'..=b'Z' => u32::from(byte) - 55,
        b'a'..=b'z' => u32::from(byte) - 87,
        _ => 36,
    }
}
