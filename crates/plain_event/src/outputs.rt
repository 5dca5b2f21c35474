//! Performs the items of an output that change the left list or an option.

ghost use Rattle.std.specs.Prelude.{◌≡◌, OnOk, Some, slice_get, map};
ghost use Rattle.rule_model.specs.Keyboard.{Numbered};
ghost use Rattle.rule_model.specs.Content.{option_number, elements_at};
ghost use Rattle.rule_model.specs.Match.{element_at};
ghost use Rattle.rule_model.specs.Act.{put_item, put_items, item_list, put_element, items_caught, content_now, place_for_index, set_current, save_current, value_to_reset, reset_current};
ghost use Rattle.rule_model.specs.Tab.{tab, elements_of};
ghost use Rattle.rule_model.specs.System.{system_ref};

use crate::left::with_item;
use crate::values::set_value;
use indexed_tables::IndexedTables;
use kmn_base::limits::EVENT_PUTS;
use kmn_base::{Element, Item, Memory, Seq};
use plain_matching::{element, place_caught, value_at};
use rule_model::{Caught, EventState, item_of};
use std::alloc::Global;

/// Puts an item, or stops the event if it has put `EVENT_PUTS` items. A stopped event is unchanged.
pub fn put_item(alloc: Global, item: Item, state: &mut EventState) -> Result<(), Memory>
    ensures { OnOk result (state.new ≡ put_item item state.old) }
{
    if state.stopped {
        return Ok(());
    }
    if state.put >= EVENT_PUTS {
        state.stopped = true;
        return Ok(());
    }
    state.left = Seq::from_vec(with_item(alloc, state.left.as_slice(), item)?);
    state.put += 1;
    Ok(())
}

/// Puts an item, if there is one.
pub fn put_any(alloc: Global, item: Option<Item>, state: &mut EventState) -> Result<(), Memory>
    ensures { OnOk result (state.new ≡ put_items (item_list item) state.old) }
{
    match item {
        Some(item) => put_item(alloc, item, state),
        None => Ok(()),
    }
}

/// Performs `index`.
pub fn put_index(
    indexed: &IndexedTables,
    caught: &Caught,
    store: u32,
    offset: u32,
    state: &mut EventState,
) -> Result<(), Memory>
    ensures { OnOk result (state.new ≡ put_element
        (element_at (content_now (tab indexed.now) state.old (Numbered store)) (place_for_index caught.now offset)) state.old) }
{
    let element = element(indexed, state, store, place_for_index(caught, offset));
    put_element(indexed.alloc(), element, state)
}

/// Returns the position that an `index` uses: the key's if the offset is one past the context, else the caught position.
fn place_for_index(caught: &Caught, offset: u32) -> Option<usize>
    ensures { result ≡ place_for_index caught.now offset }
{
    if offset > 0 && offset as usize - 1 == caught.catches.len() {
        caught.key_place
    } else {
        place_caught(caught.catches.as_slice(), offset)
    }
}

/// Puts an element, if there is one. A virtual key has no effect.
fn put_element(
    alloc: Global,
    element: Option<Element>,
    state: &mut EventState,
) -> Result<(), Memory>
    ensures { OnOk result (state.new ≡ put_element element state.old) }
{
    match element {
        Some(element) => put_any(alloc, item_of(element), state),
        None => Ok(()),
    }
}

/// Performs `context`: puts all items that were matched.
pub fn put_context(alloc: Global, caught: &Caught, state: &mut EventState) -> Result<(), Memory>
    ensures { OnOk result (state.new ≡ put_items (items_caught caught.now) state.old) }
{
    for catch in caught.catches.as_slice() {
        put_any(alloc, catch.item, state)?;
    }
    Ok(())
}

/// Performs `set`.
pub fn set_current(
    indexed: &IndexedTables,
    store: u32,
    value: u32,
    state: &mut EventState,
) -> Result<(), Memory>
    ensures { OnOk result (state.new ≡ set_current
        (option_number (tab indexed.now).stores (Numbered store)) (elements_of indexed.now.stores value) state.old) }
{
    let value = Seq::from_slice(indexed.alloc(), indexed.elements(value))?;
    if let Some(option) = indexed.option_number(store) {
        set_value(&mut state.current, option, value);
    }
    Ok(())
}

/// Performs `set` of a system option.
pub fn set_system(
    indexed: &IndexedTables,
    id: u32,
    value: u32,
    state: &mut EventState,
) -> Result<(), Memory>
    ensures { OnOk result (state.new ≡ set_current
        (option_number (tab indexed.now).stores (system_ref id)) (elements_of indexed.now.stores value) state.old) }
{
    let value = Seq::from_slice(indexed.alloc(), indexed.elements(value))?;
    set_value(&mut state.current, indexed.system_option(id), value);
    Ok(())
}

/// Performs `save`.
pub fn save_current(
    indexed: &IndexedTables,
    store: u32,
    state: &mut EventState,
) -> Result<(), Memory>
    ensures { OnOk result (state.new ≡ save_current
        (option_number (tab indexed.now).stores (Numbered store)) state.old) }
{
    let Some(option) = indexed.option_number(store) else {
        return Ok(());
    };
    let value = Seq::from_slice(indexed.alloc(), value_at(state, option))?;
    set_value(&mut state.saved, option, Some(value));
    state.saves = state.saves.saturating_add(1);
    Ok(())
}

/// Performs `reset`.
pub fn reset_current(
    indexed: &IndexedTables,
    store: u32,
    state: &mut EventState,
) -> Result<(), Memory>
    ensures { OnOk result (state.new ≡ reset_current
        (option_number (tab indexed.now).stores (Numbered store)) (elements_at (tab indexed.now).stores (Some store)) state.old) }
{
    let Some(option) = indexed.option_number(store) else {
        return Ok(());
    };
    let value = value_to_reset(state, option, indexed.stated(store));
    let value = Seq::from_slice(indexed.alloc(), value)?;
    set_value(&mut state.current, option, value);
    Ok(())
}

/// Returns the saved value of an option, or else the value that the keyboard states.
fn value_to_reset<'a>(state: &'a EventState, option: usize, stated: &'a [Element]) -> &'a [Element]
    ensures { result.now ≡ value_to_reset (slice_get state.now.saved option) stated.now }
{
    match state.saved.as_slice().get(option) {
        Some(Some(value)) => value.as_slice(),
        _ => stated,
    }
}
