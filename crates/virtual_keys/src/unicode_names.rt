//! The characters that a name of a custom key denotes, such as `U_0061`.

ghost use Rattle.std.specs.Prelude.{◌≡◌, SomeIff, IsTrue, OnSome, ◌+◌, ◌≤◌, ◌∷◌, if◌then◌else◌, Some, None, length, option_copied, option_map};
ghost use Rattle.std.specs.List.{list_all, position};
ghost use Rattle.virtual_keys.specs.Dictionary.{is_hex_digit, hex_value, is_nameable, is_group, is_parting, groups, group_chars, name_chars};
ghost use Rattle.virtual_keys.specs.Groups.{groups_behind, bytes_behind};

use arrayvec::ArrayVec;
use kmn_base::bytes::hex_digit;
use kmn_base::limits::SOURCE_NAME_CHARS;
use kmn_base::names::same_name;
use kmn_base::texts::is_forbidden;

/// Returns the characters of a name that represents characters. A name has at most 80 characters, so at most 15 groups.
#[tactic(auto, unfolding(crate::specs::Dictionary::name_chars))]
pub fn named_chars(name: &[u8]) -> Option<ArrayVec<char, 16>>
    ensures { option_map (λ chars. chars.items) result ≡ name_chars name.now }
{
    if name.len() > SOURCE_NAME_CHARS || name.len() < 2 {
        return None;
    }
    let (letter, text) = name.split_at(2);
    if same_name(letter, b"U_") {
        group_chars(text)
    } else {
        None
    }
}

/// Returns the characters of a text's groups.
fn group_chars(text: &[u8]) -> Option<ArrayVec<char, 16>>
    requires { length text.now ≤ 78 }
    ensures { option_map (λ chars. chars.items) result ≡ group_chars (groups text.now) }
{
    let mut chars = ArrayVec::new();
    let mut rest = Some(text);
    while let Some(text) = rest {
        let (group, behind) = first_group(text);
        chars.push(group_char(group)?);
        rest = behind;
    }
    Some(chars)
}

/// Returns the first group of a text, and the rest after the `_` that ends it.
#[tactic(auto, using(crate::proofs::GroupLemmas::groups_parted, crate::proofs::GroupLemmas::groups_alone))]
fn first_group(text: &[u8]) -> (&[u8], Option<&[u8]>)
    ensures parts { groups text.now ≡ result.0.now ∷ groups_behind (option_copied result.1) }
    ensures sizes { length result.0.now + bytes_behind (option_copied result.1) ≡ length text.now }
{
    match parting(text) {
        Some(at) => (&text[..at], Some(&text[at + 1..])),
        None => (text, None),
    }
}

/// Returns the position of the first `_` of a text.
fn parting(text: &[u8]) -> Option<usize>
    ensures { result ≡ position is_parting text.now }
{
    text.iter().position(|byte| *byte == b'_')
}

/// Returns the character that a group of digits denotes.
fn group_char(group: &[u8]) -> Option<char>
    ensures value { SomeIff result (IsTrue (is_group group.now)) (hex_value group.now) }
    ensures size { OnSome result (4 ≤ length group.now) }
{
    if group.len() < 4 || group.len() > 6 {
        return None;
    }
    nameable(hex_value(group)?)
}

/// Returns the character of a code, if a name may have it.
fn nameable(code: u32) -> Option<char>
    ensures { result ≡ (if is_nameable code then Some code else None) }
{
    if is_forbidden(code) {
        return None;
    }
    char::from_u32(code)
}

/// Returns the number that hexadecimal digits denote.
fn hex_value(digits: &[u8]) -> Option<u32>
    requires { length digits.now ≤ 6 }
    ensures { result ≡ (if list_all is_hex_digit digits.now then Some (hex_value digits.now) else None) }
{
    let mut value = 0;
    for digit in digits {
        value = 16 * value + hex_digit(*digit)?;
    }
    Some(value)
}
