//! Tests whether a press fits the key of a rule.

ghost use Rattle.std.specs.Prelude.{◌≡◌};
ghost use Rattle.virtual_keys.specs.Fits.{key_fits};

use crate::presses::{char_of, flags_fit};
use kmn_base::{KeyPress, RuleKey};
use std::marker::Model;

/// A press whose character was looked up once, for the many keys that are compared with it. Contracts model it as the press.
#[derive(Drop)]
pub struct Pressed {
    press: KeyPress,
    given: Option<char>,
}

impl Model for Pressed {
    ghost use Rattle.std.specs.Prelude.{◌≡◌};
    ghost use Rattle.kmn_base.specs.declared.keys.KeyPress.{KeyPress};
    ghost use Rattle.virtual_keys.specs.Fits.{char_of_press};

    ghost Value = { KeyPress };

    ghost view = { λ pressed. pressed.press };

    ghost invariant = { λ pressed. pressed.given ≡ char_of_press pressed.press };
}

/// Returns whether the key of a rule fits a press.
pub fn fits(key: RuleKey, press: KeyPress) -> bool
    ensures { result ≡ key_fits key press }
{
    Pressed::of(press).fits(key)
}

impl Pressed {
    /// Looks up the character of a press.
    pub fn of(press: KeyPress) -> Pressed
        ensures { result ≡ press }
    {
        Pressed {
            press,
            given: char_of(press),
        }
    }

    /// Returns whether the key of a rule fits the press.
    #[tactic(auto, unfolding(crate::specs::Fits::key_fits))]
    pub fn fits(&self, key: RuleKey) -> bool
        ensures { result ≡ key_fits key self.now }
    {
        match key {
            RuleKey::Any => true,
            RuleKey::Char(unit) => self
                .given
                .is_some_and(|given| given as u32 == u32::from(unit)),
            RuleKey::Virtual { flags, code } => code == self.press.code
                && flags_fit(flags, u32::from(self.press.mods)),
        }
    }
}
