//! The default of a group with keys: what a press does if no record holds.

ghost use Rattle.std.specs.Prelude.{◌≡◌, ◌<◌, OnOk, length, map, nat_lt};
ghost use Rattle.kmn_base.specs.Lists.{characters};
ghost use Rattle.virtual_keys.specs.Dictionary.{name_chars};
ghost use Rattle.virtual_keys.specs.Fits.{char_of_press};
ghost use Rattle.rule_model.specs.Act.{put_items};
ghost use Rattle.rule_model.specs.Enter.{delete_or_pass, put_press, put_named, by_default};
ghost use Rattle.rule_model.specs.Tab.{tab};

use crate::left::take_character;
use crate::outputs::put_item;
use indexed_tables::IndexedTables;
use kmn_base::{Item, KeyPress, Memory};
use rule_model::EventState;
use std::alloc::Global;
use virtual_keys::codes::K_BKSP;
use virtual_keys::{char_of, is_plain, named_chars};

/// Performs the default of a group with keys.
#[tactic(auto, unfolding(rule_model::specs::Enter::by_default))]
pub fn by_default(
    indexed: &IndexedTables,
    press: KeyPress,
    state: &mut EventState,
) -> Result<(), Memory>
    ensures { OnOk result (state.new ≡ by_default (tab indexed.now) press state.old) }
{
    match indexed.own_key(press.code) {
        Some(name) => put_named(indexed.alloc(), name, state),
        None => put_press(indexed.alloc(), press, state),
    }
}

/// Puts the characters that a name denotes. Any other name has no effect.
fn put_named(alloc: Global, name: &[u8], state: &mut EventState) -> Result<(), Memory>
    ensures { OnOk result (state.new ≡ put_named (name_chars name.now) state.old) }
{
    match named_chars(name) {
        Some(chars) => put_chars(alloc, chars.as_slice(), state),
        None => Ok(()),
    }
}

/// Puts characters.
fn put_chars(alloc: Global, chars: &[char], state: &mut EventState) -> Result<(), Memory>
    ensures { OnOk result (state.new ≡ put_items (map Item.Char chars.now) state.old) }
{
    for c in chars {
        put_item(alloc, Item::Char(*c), state)?;
    }
    Ok(())
}

/// Performs a press whose key is not in the key dictionary: puts its character, or deletes back or passes the press on.
fn put_press(alloc: Global, press: KeyPress, state: &mut EventState) -> Result<(), Memory>
    ensures { OnOk result (state.new ≡ put_press press (char_of_press press) state.old) }
{
    match char_of(press) {
        Some(c) => put_item(alloc, Item::Char(c), state),
        None => {
            delete_or_pass(press, state);
            Ok(())
        }
    }
}

/// Performs a key press that has no character: a plain backspace deletes the last character, if any. Any other press is passed on.
fn delete_or_pass(press: KeyPress, state: &mut EventState)
    ensures { state.new ≡ delete_or_pass press state.old }
{
    if press.code == K_BKSP && is_plain(press) && has_character(state.left.as_slice()) {
        take_character(&mut state.left);
    } else {
        state.pass = true;
    }
}

/// Returns whether a list has a character.
fn has_character(items: &[Item]) -> bool
    ensures { result ≡ nat_lt 0 (length (characters items.now)) }
{
    for item in items {
        if let Item::Char(_) = item {
            return true;
        }
    }
    false
}
