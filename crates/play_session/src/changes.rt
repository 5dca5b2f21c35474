//! Finds the option values that a step changed, by comparing them with the values before it.

ghost use Rattle.std.specs.Prelude.{◌≡◌, ◌+◌, ◌*◌, ◌<◌, ◌≤◌, [], ◌++◌, length, Some, option_map, vec_len, vec_capacity};
ghost use Rattle.option_store.specs.Cells.{current_value, saved_value};
ghost use Rattle.rule_model.specs.Content.{option_number};
ghost use Rattle.rule_model.specs.Keyboard.{Numbered, stated};
ghost use Rattle.rule_model.specs.Match.{same_value};
ghost use Rattle.rule_model.specs.Tab.{tab};
ghost use Rattle.rule_matching.specs.StoreValues.{elements_in};
ghost use Rattle.play_session.specs.Changes.{option_stores, are_of_one_store, current_at, saved_at, is_newly_saved, current_change, saved_change, changes_between, values_in, values_now};

use option_store::{Cell, Held};
use rule_engine::{Engine, StoreValue};

/// An option value that a step changed: the current or the saved value of a store.
#[derive(Clone, Copy, Debug, PartialEq, Eq)]
pub struct Change {
    /// From 0. The layer and the platform have the two numbers after the stores of the file.
    pub store: u32,
    /// True for the saved value, false for the current value.
    pub saved: bool,
}

/// Appends the changes of all options, given the cells that they had before. Ignores stores that are not options.
#[tactic(auto, using(crate::proofs::OptionStores::number_of_option))]
pub(crate) fn put_changes(
    changes: &mut Vec<Change>,
    engine: &Engine,
    options: &[u32],
    before: &[Cell],
)
    requires options { options.now ≡ option_stores engine.now.tables }
    requires cells { length before.now ≡ length options.now }
    requires none { changes.old.items ≡ [] }
    requires room { 2 * length options.now ≤ vec_capacity changes.old }
    ensures changes { changes.new.items ≡ changes_between engine.now.tables (values_in engine.now.tables before.now) (values_now engine.now) }
    ensures room { vec_capacity changes.new ≡ vec_capacity changes.old }
{
    for option in 0..options.len() {
        put_current_change(changes, options[option], option, engine, before);
        put_saved_change(changes, options[option], option, engine, before);
    }
}

/// Appends the change of an option's current value, if it changed.
fn put_current_change(
    changes: &mut Vec<Change>,
    store: u32,
    option: usize,
    engine: &Engine,
    before: &[Cell],
)
    requires number { option_number (tab engine.now.tables).stores (Numbered store) ≡ Some option }
    requires within { option < length before.now }
    requires room { vec_len changes.old < vec_capacity changes.old }
    ensures changes { changes.new.items ≡ changes.old.items ++ current_change (values_in engine.now.tables before.now) (values_now engine.now) store option }
    ensures few { vec_len changes.new ≤ vec_len changes.old + 1 }
    ensures room { vec_capacity changes.new ≡ vec_capacity changes.old }
{
    if !current_stays(engine, before, store, option) {
        changes.push_reserved(Change {
            store,
            saved: false,
        });
    }
}

/// Returns whether the current value of an option is unchanged.
#[tactic(auto, using(crate::proofs::Comparing::cell_has_value))]
fn current_stays(engine: &Engine, before: &[Cell], store: u32, option: usize) -> bool
    requires number { option_number (tab engine.now.tables).stores (Numbered store) ≡ Some option }
    requires within { option < length before.now }
    ensures { result ≡ same_value (current_at (values_in engine.now.tables before.now) option) (current_at (values_now engine.now) option) }
{
    is_current(engine, &before[option], store, option)
}

/// Returns whether the current value of an option is the current value in a cell. Does not compare elements if both values are the
/// elements of the same store. Only the contract uses the number of the option: the body looks up its store.
#[tactic(auto, using(crate::proofs::Comparing::content_is_value))]
fn is_current(engine: &Engine, was: &Cell, store: u32, option: usize) -> bool
    requires { option_number (tab engine.now.tables).stores (Numbered store) ≡ Some option }
    ensures { result ≡ same_value (current_value (stated (tab engine.now.tables).stores) was.now) (current_at (values_now engine.now) option) }
{
    if are_of_one_store(was.current, engine.options().current(store)) {
        return true;
    }
    let held = engine.held(was.current, was.text.as_slice());
    held.is_same(engine.content(store))
}

/// Returns whether two values are held as the elements of the same store of the file.
fn are_of_one_store(a: Held, b: Held) -> bool
    ensures { result ≡ are_of_one_store a b }
{
    match (a, b) {
        (Held::Store(a), Held::Store(b)) => a == b,
        _ => false,
    }
}

/// Appends the change of an option's saved value, if it changed.
fn put_saved_change(
    changes: &mut Vec<Change>,
    store: u32,
    option: usize,
    engine: &Engine,
    before: &[Cell],
)
    requires number { option_number (tab engine.now.tables).stores (Numbered store) ≡ Some option }
    requires within { option < length before.now }
    requires room { vec_len changes.old < vec_capacity changes.old }
    ensures changes { changes.new.items ≡ changes.old.items ++ saved_change (values_in engine.now.tables before.now) (values_now engine.now) store option }
    ensures few { vec_len changes.new ≤ vec_len changes.old + 1 }
    ensures room { vec_capacity changes.new ≡ vec_capacity changes.old }
{
    let was = saved_before(engine, before, option);
    if is_newly_saved(was, engine.saved_of(store)) {
        changes.push_reserved(Change { store, saved: true });
    }
}

/// Returns the saved value that an option had, if any.
#[tactic(auto, using(crate::proofs::Comparing::cell_has_saved))]
fn saved_before<'c>(engine: &'c Engine, before: &'c [Cell], option: usize) -> Option<StoreValue<'c>>
    requires { option < length before.now }
    ensures { option_map elements_in result ≡ saved_at (values_in engine.now.tables before.now) option }
{
    saved_in(engine, &before[option])
}

/// Returns the saved value in a cell, if any.
fn saved_in<'c>(engine: &'c Engine, cell: &'c Cell) -> Option<StoreValue<'c>>
    ensures { option_map elements_in result ≡ saved_value (stated (tab engine.now.tables).stores) cell.now }
{
    let saved = cell.saved?;
    Some(engine.held(saved, cell.text.as_slice()))
}

/// Returns whether a value is saved now that was not saved before.
fn is_newly_saved(before: Option<StoreValue>, after: Option<StoreValue>) -> bool
    ensures { result ≡ is_newly_saved (option_map elements_in before.entry) (option_map elements_in after.entry) }
{
    match (before, after) {
        (_, None) => false,
        (None, Some(_)) => true,
        (Some(before), Some(after)) => !before.is_same(after),
    }
}
