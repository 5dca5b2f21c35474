//! The default of a group with keys: what a press does if no record holds.

ghost use Rattle.std.specs.Prelude.{◌≡◌, map};
ghost use Rattle.virtual_keys.specs.Dictionary.{name_chars};
ghost use Rattle.virtual_keys.specs.Fits.{char_of_press};
ghost use Rattle.rule_model.specs.Act.{put_items};
ghost use Rattle.rule_model.specs.Enter.{put_press, put_named, by_default};
ghost use Rattle.rule_engine.specs.Event.{keyboard_of};

use crate::event::PressEvent;
use kmn_base::{Item, KeyPress};
use virtual_keys::{char_of, named_chars};

/// Performs the default of a group with keys.
#[tactic(auto, unfolding(rule_model::specs::Enter::by_default))]
pub fn by_default(press: KeyPress, event: &mut PressEvent)
    ensures { event.new ≡ record event.old { state = by_default (keyboard_of event.old) press event.old.state } }
{
    match event.indexed().own_key(press.code) {
        Some(name) => put_named(name, event),
        None => put_press(press, event),
    }
}

/// Outputs the characters that a key name represents. A name that represents no characters has no effect.
fn put_named(name: &[u8], event: &mut PressEvent)
    ensures { event.new ≡ record event.old { state = put_named (name_chars name.now) event.old.state } }
{
    if let Some(chars) = named_chars(name) {
        put_chars(chars.as_slice(), event);
    }
}

/// Outputs characters.
fn put_chars(chars: &[char], event: &mut PressEvent)
    ensures { event.new ≡ record event.old { state = put_items (map Item.Char chars.now) event.old.state } }
{
    for c in chars {
        event.put_item(Item::Char(*c));
    }
}

/// Performs the default of a key press that is not in the key dictionary: outputs the character of the press. If the press has
/// no character, deletes back or passes the key on.
fn put_press(press: KeyPress, event: &mut PressEvent)
    ensures { event.new ≡ record event.old { state = put_press press (char_of_press press) event.old.state } }
{
    match char_of(press) {
        Some(c) => event.put_item(Item::Char(c)),
        None => event.delete_or_pass(press),
    }
}
