//! The character that a press produces on the US layout, and the shift flags that it fits.

ghost use Rattle.std.specs.Prelude.{◌≡◌, IsTrue};
ghost use Rattle.virtual_keys.specs.Fits.{has, has_either, letter, is_letter, character_in, us_character, caps_fit, sides_fit, flags_fit, is_plain, char_of_press};
ghost use Rattle.virtual_keys.specs.Keys.{us_characters};

use crate::tables::US_CHARACTERS;
use kmn_base::KeyPress;
use kmn_base::keys::{
    CAPS, EITHER_ALT, EITHER_CONTROL, LEFT_ALT, LEFT_CONTROL, NO_CAPS, RIGHT_ALT, RIGHT_CONTROL,
    SHIFT,
};

/// Returns whether a bit is set.
pub fn has(bits: u32, bit: u16) -> bool
    ensures { result ≡ has bits bit }
{
    bits & u32::from(bit) != 0
}

/// Returns whether one of two bits is set.
pub fn has_either(bits: u32, left: u16, right: u16) -> bool
    ensures { result ≡ has_either bits left right }
{
    has(bits, left) || has(bits, right)
}

/// Returns whether neither control nor alt is held. Shift and caps lock don't matter.
pub fn is_plain(press: KeyPress) -> bool
    ensures { result ≡ is_plain press }
{
    let mods = u32::from(press.mods);
    !(has_either(mods, LEFT_CONTROL, RIGHT_CONTROL) || has_either(mods, LEFT_ALT, RIGHT_ALT))
}

/// Returns the character that a press produces on the US layout.
#[tactic(auto, unfolding(crate::specs::Fits::char_of_press))]
pub fn char_of(press: KeyPress) -> Option<char>
    ensures { result ≡ char_of_press press }
{
    if !is_plain(press) {
        return None;
    }
    let mods = u32::from(press.mods);
    us_character(press.code, has(mods, SHIFT), has(mods, CAPS))
}

/// Returns the character that a key produces on the US layout.
fn us_character(code: u16, shifted: bool, locked: bool) -> Option<char>
    ensures { result ≡ us_character code shifted locked }
{
    if is_letter(code) {
        Some(letter(code, shifted != locked))
    } else {
        other_character(code, shifted)
    }
}

/// Returns whether a code is the code of a letter key.
fn is_letter(code: u16) -> bool
    ensures { result ≡ is_letter code }
{
    (65..=90).contains(&code)
}

/// Returns the letter of a letter key.
fn letter(code: u16, upper: bool) -> char
    requires { IsTrue (is_letter code) }
    ensures { result ≡ letter code upper }
{
    let capital = char::from(code as u8);
    if upper {
        capital
    } else {
        capital.to_ascii_lowercase()
    }
}

/// Returns the character that a key other than a letter produces on the US layout.
#[tactic(auto, unfolding(crate::specs::Keys::us_characters))]
fn other_character(code: u16, shifted: bool) -> Option<char>
    ensures { result ≡ character_in us_characters code shifted }
{
    character_in(&US_CHARACTERS, code, shifted)
}

/// Returns the character that a table has for a key, with or without shift.
fn character_in(table: &[(u16, char, char)], code: u16, shifted: bool) -> Option<char>
    ensures { result ≡ character_in table.now code shifted }
{
    table
        .iter()
        .find(|row| row.0 == code)
        .map(|row| if shifted { row.2 } else { row.1 })
}

/// Returns whether the held modifiers are those that the shift flags require.
pub fn flags_fit(flags: u32, mods: u32) -> bool
    ensures { result ≡ flags_fit flags mods }
{
    has(flags, SHIFT) == has(mods, SHIFT)
        && caps_fit(flags, mods)
        && sides_fit(EITHER_CONTROL, LEFT_CONTROL, RIGHT_CONTROL, flags, mods)
        && sides_fit(EITHER_ALT, LEFT_ALT, RIGHT_ALT, flags, mods)
}

/// Returns whether caps lock is as the shift flags require it.
fn caps_fit(flags: u32, mods: u32) -> bool
    ensures { result ≡ caps_fit flags mods }
{
    (!has(flags, CAPS) || has(mods, CAPS)) && (!has(flags, NO_CAPS) || !has(mods, CAPS))
}

/// Returns whether the held sides of control or alt are those that the shift flags require.
fn sides_fit(either: u16, left: u16, right: u16, flags: u32, mods: u32) -> bool
    ensures { result ≡ sides_fit either left right flags mods }
{
    if has(flags, either) {
        has_either(mods, left, right)
    } else {
        has(flags, left) == has(mods, left) && has(flags, right) == has(mods, right)
    }
}
