//! Looks up the codes of keys and shift words by name, and the names of keys by code.

ghost use Rattle.std.specs.Prelude.{◌≡◌, map, option_map};
ghost use Rattle.virtual_keys.specs.Keys.{name_numbered, key_code, key_name, shift_flag, shift_flags};

use crate::tables::{KEYS, MODIFIERS};
use kmn_base::names::named_in;

/// Returns the words of the shift flags, each with its flag.
#[tactic(auto, unfolding(crate::specs::Keys::shift_flags))]
pub fn modifiers() -> &'static [(&'static str, u16)]
    ensures { map (λ row. (row.0.now, row.1)) result.now ≡ shift_flags }
{
    &MODIFIERS
}

/// Returns the code of the key with a name.
#[tactic(auto, unfolding(crate::specs::Keys::key_codes))]
pub fn key_named(name: &[u8]) -> Option<u16>
    ensures { result ≡ key_code name.now }
{
    named_in(&KEYS, name)
}

/// Returns the shift flag of a word.
#[tactic(auto, unfolding(crate::specs::Keys::shift_flags))]
pub fn modifier_named(word: &[u8]) -> Option<u16>
    ensures { result ≡ shift_flag word.now }
{
    named_in(&MODIFIERS, word)
}

/// Returns the name of the key with a code.
#[tactic(auto, unfolding(crate::specs::Keys::key_codes))]
pub fn name_of(code: u16) -> Option<&'static [u8]>
    ensures { option_map (λ name. name.now) result ≡ key_name code }
{
    name_numbered(&KEYS, code)
}

/// Returns the name that a table has for a number.
fn name_numbered(table: &'static [(&'static str, u16)], number: u16) -> Option<&'static [u8]>
    ensures { option_map (λ name. name.now) result ≡ name_numbered (map (λ row. (row.0.now, row.1)) table.now) number }
{
    for row in table {
        if row.1 == number {
            return Some(row.0.as_bytes());
        }
    }
    None
}
