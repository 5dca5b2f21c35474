//! What stores and system options contain in a state.

ghost use Rattle.std.specs.Prelude.{◌≡◌, [], slice_get, unwrap_or};
ghost use Rattle.rule_model.specs.Keyboard.{Numbered};
ghost use Rattle.rule_model.specs.Match.{element_at};
ghost use Rattle.rule_model.specs.Act.{content_now};
ghost use Rattle.rule_model.specs.Tab.{tab};
ghost use Rattle.rule_model.specs.System.{system_ref};

use indexed_tables::IndexedTables;
use kmn_base::Element;
use rule_model::EventState;

/// Returns the current value of an option, which is empty if there is no such option.
pub fn value_at(state: &EventState, option: usize) -> &[Element]
    ensures { result.now ≡ unwrap_or (slice_get state.now.current option) [] }
{
    match state.current.as_slice().get(option) {
        Some(value) => value.as_slice(),
        None => &[],
    }
}

/// Returns what a store contains in a state: the current value of an option, else its elements.
#[tactic(auto, using(rule_model::proofs::PlainOptions::content_of_option, rule_model::proofs::PlainOptions::content_of_other))]
pub fn content<'a>(indexed: &'a IndexedTables, state: &'a EventState, store: u32) -> &'a [Element]
    ensures { result.now ≡ content_now (tab indexed.now) state.now (Numbered store) }
{
    match indexed.option_number(store) {
        Some(option) => value_at(state, option),
        None => indexed.stated(store),
    }
}

/// Returns the content of a system option in a state.
#[tactic(auto, using(rule_model::proofs::SystemOptions::content_by_option))]
pub fn system_content<'a>(indexed: &IndexedTables, state: &'a EventState, id: u32) -> &'a [Element]
    ensures { result.now ≡ content_now (tab indexed.now) state.now (system_ref id) }
{
    value_at(state, indexed.system_option(id))
}

/// Returns the element at a position of a store's content in a state, if there is such a position.
pub fn element(
    indexed: &IndexedTables,
    state: &EventState,
    store: u32,
    place: Option<usize>,
) -> Option<Element>
    ensures { result ≡ element_at (content_now (tab indexed.now) state.now (Numbered store)) place }
{
    content(indexed, state, store).get(place?).copied()
}
