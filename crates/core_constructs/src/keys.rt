//! Keys that Keyman's own engine matches with other presses.

ghost use Rattle.std.specs.Prelude.{◌≡◌};
ghost use Rattle.core_constructs.specs.Keys.{names_side, has_both_sides, is_alt_graph, fits_both, is_keypad_character};

use kmn_base::RuleKey;
use kmn_base::keys::{
    EITHER_ALT, EITHER_CONTROL, LEFT_ALT, LEFT_CONTROL, RIGHT_ALT, RIGHT_CONTROL, SHIFT,
};
use virtual_keys::{has, has_either};

/// Returns whether a key has CTRL or ALT, and a side of one of them.
pub(crate) fn has_both_sides(key: RuleKey) -> bool
    ensures { result ≡ has_both_sides key }
{
    match key {
        RuleKey::Virtual { flags, .. } => {
            has_either(flags, EITHER_CONTROL, EITHER_ALT) && names_side(flags)
        }
        _ => false,
    }
}

/// Returns whether a key has LCTRL and RALT, and no other modifier than caps lock.
pub(crate) fn is_alt_graph(key: RuleKey) -> bool
    ensures { result ≡ is_alt_graph key }
{
    match key {
        RuleKey::Virtual { flags, .. } => {
            has(flags, LEFT_CONTROL)
                && has(flags, RIGHT_ALT)
                && !has_either(flags, RIGHT_CONTROL, LEFT_ALT)
                && !(has(flags, SHIFT) || has_either(flags, EITHER_CONTROL, EITHER_ALT))
        }
        _ => false,
    }
}

/// Returns whether a key has CTRL or ALT and no side, or both sides of one.
pub(crate) fn fits_both(key: RuleKey) -> bool
    ensures { result ≡ fits_both key }
{
    match key {
        RuleKey::Virtual { flags, .. } => {
            let either = has_either(flags, EITHER_CONTROL, EITHER_ALT);
            !(either && names_side(flags))
                && (either
                    || has(flags, LEFT_CONTROL) && has(flags, RIGHT_CONTROL)
                    || has(flags, LEFT_ALT) && has(flags, RIGHT_ALT))
        }
        _ => false,
    }
}

/// Returns whether shift flags have a side of control or alt.
fn names_side(flags: u32) -> bool
    ensures { result ≡ names_side flags }
{
    has_either(flags, LEFT_CONTROL, RIGHT_CONTROL) || has_either(flags, LEFT_ALT, RIGHT_ALT)
}

/// Returns whether a key is a character of the keypad: a digit or one of `* + - . /`.
pub(crate) fn is_keypad_character(key: RuleKey) -> bool
    ensures { result ≡ is_keypad_character key }
{
    match key {
        RuleKey::Char(c) => 42 <= c && c <= 57 && c != 44,
        _ => false,
    }
}
