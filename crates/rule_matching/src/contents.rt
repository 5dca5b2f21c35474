//! What a store contains in a state, and its saved value.

ghost use Rattle.std.specs.Prelude.{◌≡◌, ◌<◌, None, Some, length, option_map};
ghost use Rattle.option_store.specs.Cells.{held_value, cell_at};
ghost use Rattle.option_store.specs.Meaning.{option_values, option_saves};
ghost use Rattle.option_store.specs.declared.options.Held.TheVariants.{Host, Store};
ghost use Rattle.rule_model.specs.Content.{content, option_number};
ghost use Rattle.rule_model.specs.Keyboard.{Numbered, stated};
ghost use Rattle.rule_model.specs.Tab.{tab};
ghost use Rattle.rule_matching.specs.MatchState.{saved_of};
ghost use Rattle.rule_matching.specs.StoreValues.{elements_in};

use crate::store_value::StoreValue;
use option_store::{Held, Options};
use rule_index::IndexedKeyboard;

/// Returns what a store holds now: the current value of an option, or the store itself if it is not an option.
#[tactic(auto, using(crate::proofs::StoreContents::option_within, crate::proofs::StoreContents::current_is_content, crate::proofs::StoreContents::itself_is_content))]
pub fn held_now(indexed: &IndexedKeyboard, options: &Options, store: u32) -> Held
    requires { length options.now ≡ length (tab indexed.now).stores }
    ensures value { held_value (stated (tab indexed.now).stores) (cell_at options.now store).text result
        ≡ content (tab indexed.now).stores (option_values (tab indexed.now).stores options.now) (Numbered store) }
    ensures option { result ≡ Host → store < length options.now }
    ensures host { result ≡ Host → (cell_at options.now store).current ≡ Host }
    ensures itself { option_number (tab indexed.now).stores (Numbered store) ≡ None → result ≡ Store store }
{
    match indexed.option_number(store) {
        Some(_) => options.current(store),
        None => Held::Store(store),
    }
}

/// Returns the content of a store now: the current value of an option, or the elements of another store. If there is no such
/// store, the content is empty.
pub fn content<'c>(indexed: &'c IndexedKeyboard, options: &'c Options, store: u32) -> StoreValue<'c>
    requires { length options.now ≡ length (tab indexed.now).stores }
    ensures { elements_in result ≡ content (tab indexed.now).stores (option_values (tab indexed.now).stores options.now) (Numbered store) }
{
    held(indexed, options, store, held_now(indexed, options, store))
}

/// Returns the value that is held for a store: the elements that a store is defined with, or the text of the host.
#[tactic(auto, using(crate::proofs::StoreContents::elements_held))]
fn held<'c>(
    indexed: &'c IndexedKeyboard,
    options: &'c Options,
    store: u32,
    held: Held,
) -> StoreValue<'c>
    requires { held ≡ Host → store < length options.now }
    ensures { elements_in result ≡ held_value (stated (tab indexed.now).stores) (cell_at options.now store).text held }
{
    match held {
        Held::Store(value) => StoreValue::Elements(indexed.stated(value)),
        Held::Host => StoreValue::Text(options.host_text(store)),
    }
}

/// Returns the saved value of a store, or `None` if no value is saved or the store is not an option.
#[tactic(auto, using(crate::proofs::StoreContents::option_within, crate::proofs::StoreContents::saved_is_of, crate::proofs::StoreContents::unsaved_is_of))]
pub fn saved_of<'c>(
    indexed: &'c IndexedKeyboard,
    options: &'c Options,
    store: u32,
) -> Option<StoreValue<'c>>
    requires { length options.now ≡ length (tab indexed.now).stores }
    ensures { option_map elements_in result ≡ saved_of (tab indexed.now).stores (option_saves (tab indexed.now).stores options.now) store }
{
    if indexed.option_number(store).is_none() {
        return None;
    }
    match options.saved(store) {
        Some(saved) => Some(held(indexed, options, store, saved)),
        None => None,
    }
}
