//! Creates the state before the first event, and checks which events can be performed in a state.

ghost use Rattle.std.specs.Prelude.{◌≡◌, ◌+◌, ◌≤◌, ℕ, List, length, IsTrue};
ghost use Rattle.kmn_base.specs.Lists.{characters};
ghost use Rattle.rule_model.specs.Event.{whole_text};
ghost use Rattle.plain_event.specs.PlainStates.{state_of, IsStateOf, IsWithin};

use kmn_base::{Element, Event, Item, Memory, Outcome, Seq};
use plain_event::PlainState;
use rule_model::Tables;
use std::alloc::Global;

/// The elements of the system options, which follow the stores.
const SYSTEM_OPTIONS: &[&str] = &["default", "windows desktop hardware native"];

/// Returns the characters of a text as elements.
fn elements(alloc: Global, text: &str) -> Result<Seq<Element>, Memory> {
    let mut elements = Seq::new(alloc);
    for c in text.chars() {
        elements.add(Element::Char(c))?;
    }
    Ok(elements)
}

/// Appends the elements of each store.
fn add_stores(
    alloc: Global,
    values: &mut Seq<Seq<Element>>,
    tables: &Tables,
) -> Result<(), Memory> {
    for store in tables.stores.as_slice() {
        values.add(store.elements.copy(alloc)?)?;
    }
    Ok(())
}

/// Appends the elements of each system option.
fn add_options(alloc: Global, values: &mut Seq<Seq<Element>>) -> Result<(), Memory> {
    for value in SYSTEM_OPTIONS {
        values.add(elements(alloc, value)?)?;
    }
    Ok(())
}

/// Returns the elements of each store and each system option.
fn first_values(alloc: Global, tables: &Tables) -> Result<Seq<Seq<Element>>, Memory> {
    let mut values = Seq::new(alloc);
    add_stores(alloc, &mut values, tables)?;
    add_options(alloc, &mut values)?;
    Ok(values)
}

/// Returns `count` entries without a saved value.
fn nothing_saved(alloc: Global, count: usize) -> Result<Seq<Option<Seq<Element>>>, Memory> {
    let mut saved = Seq::new(alloc);
    for _ in 0..count {
        saved.add(None)?;
    }
    Ok(saved)
}

/// Returns the state before the first event: no text, each store and system option with its elements, and no saved values.
pub fn start(alloc: Global, tables: &Tables) -> Result<PlainState, Memory> {
    let current = first_values(alloc, tables)?;
    let saved = nothing_saved(alloc, current.len())?;
    Ok(PlainState {
        left: Seq::new(alloc),
        right: Seq::new(alloc),
        current,
        saved,
        last: Outcome {
            delete: 0,
            pass: false,
            beeps: 0,
            entered: 0,
            put: 0,
            saved: 0,
        },
    })
}

/// Returns whether there are as many values as stores and system options.
fn is_full(count: usize, tables: &Tables) -> bool
    ensures { IsTrue result → count ≡ length tables.now.stores + 2 }
{
    count >= 2 && count - 2 == tables.stores.len()
}

/// Returns whether a state is one of these tables.
fn is_state(tables: &Tables, state: &PlainState) -> bool
    ensures { IsTrue result → IsStateOf tables.now state.now }
{
    state.left.len() < 0x1_0000_0000
        && is_full(state.current.len(), tables)
        && is_full(state.saved.len(), tables)
}

/// Returns the number of characters among the items.
fn character_count(items: &[Item]) -> usize
    ensures { result ≡ length (characters items.now) }
{
    let mut count = 0;
    for item in items {
        if let Item::Char(_) = item {
            count += 1;
        }
    }
    count
}

/// Returns whether the positions of an event are within a text of at least `count` characters.
fn is_within(count: usize, event: &Event) -> bool
    ensures { IsTrue result → (text : List ℕ) → count ≤ length text → IsWithin text event.now }
{
    match event {
        Event::Key(_) | Event::Setting { .. } => true,
        Event::Caret(place) => *place as usize <= count,
        Event::Edit { from, to, .. } => from <= to && *to as usize <= count,
    }
}

/// Returns whether an event can be performed in a state of these tables.
pub fn can_be_done(tables: &Tables, state: &PlainState, event: &Event) -> bool
    ensures state { IsTrue result → IsStateOf tables.now state.now }
    ensures places { IsTrue result → IsWithin (whole_text (state_of tables.now state.now)) event.now }
{
    let count = character_count(state.left.as_slice()).saturating_add(state.right.len());
    is_state(tables, state) && is_within(count, event)
}
