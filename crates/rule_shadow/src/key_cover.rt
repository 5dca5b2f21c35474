//! Decides whether a key fits each key press that another key fits.

ghost use Rattle.std.specs.Prelude.{◌≡◌, ◌++◌, not, ◌||◌, filter, flat_map, IfOk, OnOk};
ghost use Rattle.std.specs.List.{list_all};
ghost use Rattle.virtual_keys.specs.Fits.{key_fits};
ghost use Rattle.rule_shadow.specs.Keys.{all_codes, all_modifiers, plain_modifiers, presses_of, fitting_presses, covers_key};

use kmn_base::keys::{CAPS, SHIFT};
use kmn_base::{KeyPress, Memory, RuleKey};
use std::alloc::Global;
use virtual_keys::Pressed;

/// The codes of the keys that have a name.
static CODES: [u16; 90] = [
    65, 66, 67, 68, 69, 70, 71, 72, 73, 74, 75, 76, 77, 78, 79, 80, 81, 82, 83, 84, 85, 86, 87, 88,
    89, 90, 48, 49, 50, 51, 52, 53, 54, 55, 56, 57, 8, 9, 13, 27, 32, 33, 34, 35, 36, 37, 38, 39,
    40, 45, 46, 96, 97, 98, 99, 100, 101, 102, 103, 104, 105, 106, 107, 109, 110, 111, 112, 113,
    114, 115, 116, 117, 118, 119, 120, 121, 122, 123, 186, 187, 188, 189, 190, 191, 192, 219, 220,
    221, 222, 226,
];

/// All combinations of the modifiers that can be held.
static HELD_MODIFIERS: [u16; 64] = [
    0, 256, 16, 272, 8, 264, 24, 280, 4, 260, 20, 276, 12, 268, 28, 284, 2, 258, 18, 274, 10, 266,
    26, 282, 6, 262, 22, 278, 14, 270, 30, 286, 1, 257, 17, 273, 9, 265, 25, 281, 5, 261, 21, 277,
    13, 269, 29, 285, 3, 259, 19, 275, 11, 267, 27, 283, 7, 263, 23, 279, 15, 271, 31, 287,
];

/// The combinations without control and alt. Only with these does a key produce a character.
static PLAIN_MODIFIERS: [u16; 4] = [0, CAPS, SHIFT, SHIFT + CAPS];

/// Returns whether key `a` fits each press that key `b` fits.
pub fn covers_key(a: RuleKey, b: RuleKey) -> bool
    ensures { result ≡ covers_key a b }
{
    match b {
        RuleKey::Any => fit_for(a, b, all_codes(), all_modifiers()),
        RuleKey::Char(_) => fit_for(a, b, all_codes(), plain_modifiers()),
        RuleKey::Virtual { code, .. } => fit_for(a, b, &[code], all_modifiers()),
    }
}

/// Returns whether each press of some codes with some modifiers that fits the second key fits the first.
fn fit_for(a: RuleKey, b: RuleKey, codes: &[u16], modifiers: &[u16]) -> bool
    ensures { result ≡ list_all (λ code. list_all (λ press. not (key_fits b press) || key_fits a press) (presses_of modifiers.now code)) codes.now }
{
    for code in codes {
        if !fit_with(a, b, *code, modifiers) {
            return false;
        }
    }
    true
}

/// Returns whether each press of a code with some modifiers that fits the second key fits the first.
fn fit_with(a: RuleKey, b: RuleKey, code: u16, modifiers: &[u16]) -> bool
    ensures { result ≡ list_all (λ press. not (key_fits b press) || key_fits a press) (presses_of modifiers.now code) }
{
    for mods in modifiers {
        if !fits_too(a, b, KeyPress { code, mods: *mods }) {
            return false;
        }
    }
    true
}

/// Returns whether a press does not fit the second key or fits the first.
fn fits_too(a: RuleKey, b: RuleKey, press: KeyPress) -> bool
    ensures { result ≡ (not (key_fits b press) || key_fits a press) }
{
    let pressed = Pressed::of(press);
    !pressed.fits(b) || pressed.fits(a)
}

/// Returns the codes of the keys that have a name.
#[tactic(auto, unfolding(crate::specs::Keys::all_codes, virtual_keys::specs::Keys::key_codes))]
fn all_codes() -> &'static [u16]
    ensures { result.now ≡ all_codes }
{
    &CODES
}

/// Returns all combinations of the modifiers that can be held.
#[tactic(auto, unfolding(crate::specs::Keys::all_modifiers))]
fn all_modifiers() -> &'static [u16]
    ensures { result.now ≡ all_modifiers }
{
    &HELD_MODIFIERS
}

/// Returns the combinations without control and alt.
#[tactic(auto, unfolding(crate::specs::Keys::plain_modifiers))]
fn plain_modifiers() -> &'static [u16]
    ensures { result.now ≡ plain_modifiers }
{
    &PLAIN_MODIFIERS
}

/// Returns the presses to test that fit a key. If another key fits these, it fits every press that this key fits.
pub fn fitting_presses(alloc: Global, key: RuleKey) -> Result<Vec<Pressed>, Memory>
    ensures { IfOk result (λ presses. presses.items ≡ fitting_presses key) }
{
    match key {
        RuleKey::Any => fitting(alloc, key, all_codes(), all_modifiers()),
        RuleKey::Char(_) => fitting(alloc, key, all_codes(), plain_modifiers()),
        RuleKey::Virtual { code, .. } => fitting(alloc, key, &[code], all_modifiers()),
    }
}

/// Returns the presses of some codes with some modifiers that fit a key.
fn fitting(
    alloc: Global,
    key: RuleKey,
    codes: &[u16],
    modifiers: &[u16],
) -> Result<Vec<Pressed>, Memory>
    ensures { IfOk result (λ presses. presses.items ≡ flat_map (λ code. filter (key_fits key) (presses_of modifiers.now code)) codes.now) }
{
    let mut presses = Vec::new(alloc);
    for code in codes {
        add_fitting(&mut presses, key, *code, modifiers)?;
    }
    Ok(presses)
}

/// Adds the presses of a code with some modifiers that fit a key.
fn add_fitting(
    presses: &mut Vec<Pressed>,
    key: RuleKey,
    code: u16,
    modifiers: &[u16],
) -> Result<(), Memory>
    ensures { OnOk result (presses.new.items ≡ presses.old.items ++ filter (key_fits key) (presses_of modifiers.now code)) }
{
    for mods in modifiers {
        let pressed = Pressed::of(KeyPress { code, mods: *mods });
        if pressed.fits(key) {
            presses.push(pressed)?;
        }
    }
    Ok(())
}

/// Returns whether a key fits each of some presses.
pub fn fits_each(key: RuleKey, presses: &[Pressed]) -> bool
    ensures { result ≡ list_all (key_fits key) presses.now }
{
    presses.iter().all(|pressed| pressed.fits(key))
}
