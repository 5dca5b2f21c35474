//! Performs an event on a plain state: a key press, an option change, a caret move or an edit.

ghost use Rattle.std.specs.Prelude.{◌≡◌, ◌+◌, ◌-◌, ◌^◌, ◌<◌, ◌≤◌, ◌++◌, [], IfOk, OnOk, length, map};
ghost use Rattle.kmn_base.specs.Lists.{characters, read_again};
ghost use Rattle.rule_model.specs.KeyEvent.{begin_event, outcome_of};
ghost use Rattle.rule_model.specs.Event.{whole_text, no_outcome, by_editor, key_event, only_state, setting_event, caret_event, moved_caret, edited_text, edit_event};
ghost use Rattle.rule_model.specs.Tab.{tab};
ghost use Rattle.rule_model.specs.Plain.{of_options};
ghost use Rattle.rule_model.specs.ChosenLines.{chosen};
ghost use Rattle.plain_event.specs.PlainStates.{acted, given, with_text, state_of, IsMadeBy, IsPlainStep, IsStateOf, IsWithin};

use crate::editor::{editor_left, editor_right, joined};
use crate::entering::after_key;
use crate::state::PlainState;
use crate::texts::{characters, read_again};
use crate::values::{copies, picked, set_value, spread};
use indexed_tables::IndexedTables;
use kmn_base::{Element, Event, Item, KeyPress, Memory, Outcome, Seq};
use rule_model::{EventState, Tables, common_prefix, moved_caret};
use std::alloc::Global;
use virtual_keys::is_plain;

/// Performs an event on a state, by the meaning of tables. Returns the new state and the lines of the rules that the event
/// selected. Does not check the limits of an event's text.
#[tactic(auto, unfolding(rule_model::specs::Event::happening))]
pub fn traced_event(
    alloc: Global,
    tables: &Tables,
    state: &PlainState,
    event: &Event,
) -> Result<Traced, Memory>
    requires state { IsStateOf tables.now state.now }
    requires places { IsWithin (whole_text (state_of tables.now state.now)) event.now }
    ensures step { IfOk result (λ traced. IsPlainStep tables.now state.now event.now traced.state) }
    ensures lines { IfOk result (λ traced. traced.lines ≡ chosen (tab tables.now) (state_of tables.now state.now) event.now) }
{
    let indexed = IndexedTables::new(alloc, tables)?;
    match event {
        Event::Key(press) => key_event(&indexed, *press, state),
        Event::Setting { name, value } => {
            let after = setting_event(&indexed, name.as_slice(), value.as_slice(), state)?;
            Ok(without_lines(alloc, after))
        }
        Event::Caret(place) => {
            let after = caret_event(alloc, *place, state)?;
            Ok(without_lines(alloc, after))
        }
        Event::Edit { from, to, text } => {
            let after = edit_event(alloc, *from, *to, text.as_slice(), state)?;
            Ok(without_lines(alloc, after))
        }
    }
}

/// Performs a key press.
fn key_event(indexed: &IndexedTables, press: KeyPress, state: &PlainState) -> Result<Traced, Memory>
    requires { IsStateOf indexed.now state.now }
    ensures made { IfOk result (λ traced. IsMadeBy indexed.now state.now (key_event (tab indexed.now) press (state_of indexed.now state.now)) traced.state) }
    ensures lines { IfOk result (λ traced. traced.lines ≡ chosen (tab indexed.now) (state_of indexed.now state.now) (Event.Key press)) }
{
    let begun = begin_event(indexed, state)?;
    let pressed = after_key(indexed, press, begun)?;
    let event_state = pressed.state;
    let lines = pressed.lines;
    let outcome = outcome_of(indexed.alloc(), state.left.as_slice(), &event_state)?;
    let after = acted(indexed, &event_state, outcome, state)?;
    if !event_state.pass {
        return Ok(Traced {
            state: after,
            lines,
        });
    }
    let edited = by_editor(indexed.alloc(), press, &after)?;
    Ok(Traced {
        state: edited,
        lines,
    })
}

/// Returns the state with which an event begins, before it does anything.
#[tactic(auto, using(crate::proofs::SpreadValues::picked_options))]
fn begin_event(indexed: &IndexedTables, state: &PlainState) -> Result<EventState, Memory>
    ensures { IfOk result (λ event_state. event_state ≡ begin_event state.now.left
        (of_options (tab indexed.now).stores state.now.current) (of_options (tab indexed.now).stores state.now.saved)) }
{
    Ok(EventState {
        left: state.left.copy(indexed.alloc())?,
        current: picked(indexed, state.current.as_slice())?,
        saved: picked(indexed, state.saved.as_slice())?,
        pass: false,
        stopped: false,
        beeps: 0,
        entered: 0,
        put: 0,
        saves: 0,
    })
}

/// Returns the outcome of a key press, from the items before the caret before the press and the state after it.
#[tactic(auto, using(crate::proofs::ItemTexts::length_characters, rule_model::proofs::PlainLists::common_prefix_bound))]
fn outcome_of(alloc: Global, old: &[Item], event_state: &EventState) -> Result<Outcome, Memory>
    requires { length old.now < 2 ^ 32 }
    ensures { IfOk result (λ outcome. outcome ≡ outcome_of old.now event_state.now) }
{
    let before = characters(alloc, old)?;
    let after = characters(alloc, event_state.left.as_slice())?;
    let deleted = before.len() - common_prefix(before.as_slice(), after.as_slice());
    Ok(Outcome {
        delete: deleted as u32,
        pass: event_state.pass,
        beeps: event_state.beeps,
        entered: event_state.entered,
        put: event_state.put,
        saved: event_state.saves,
    })
}

/// Returns the plain state after an event, with this outcome.
fn acted(
    indexed: &IndexedTables,
    event_state: &EventState,
    last: Outcome,
    state: &PlainState,
) -> Result<PlainState, Memory>
    ensures { IfOk result (λ after. after ≡ acted indexed.now event_state.now last state.now) }
{
    Ok(PlainState {
        left: Seq::from_slice(indexed.alloc(), event_state.left.as_slice())?,
        right: state.right.copy(indexed.alloc())?,
        current: spread(
            indexed,
            state.current.as_slice(),
            event_state.current.as_slice(),
        )?,
        saved: spread(
            indexed,
            state.saved.as_slice(),
            event_state.saved.as_slice(),
        )?,
        last,
    })
}

/// A state after an event, and the source lines of the rules that the event selected, in the order of entry.
#[derive(Drop)]
pub struct Traced {
    pub state: PlainState,
    pub lines: Seq<u32>,
}

/// Performs the editor's default for a key that was passed on.
fn by_editor(alloc: Global, press: KeyPress, state: &PlainState) -> Result<PlainState, Memory>
    ensures after { IfOk result (λ after. (tables : Tables) → state_of tables after ≡ by_editor press (state_of tables state.now)) }
    ensures others { IfOk result (λ after. after ≡ record state.now { left = after.left; right = after.right }) }
{
    let text = characters(alloc, state.left.as_slice())?;
    let left = text.as_slice();
    let right = state.right.as_slice();
    if !is_plain(press) {
        return text_becomes(alloc, left, right, state);
    }
    let before = editor_left(alloc, press.code, left, right)?;
    let after = editor_right(alloc, press.code, left, right)?;
    text_becomes(alloc, before.as_slice(), after.as_slice(), state)
}

/// Returns the state with these texts before and after the caret.
fn text_becomes(
    alloc: Global,
    left: &[char],
    right: &[char],
    state: &PlainState,
) -> Result<PlainState, Memory>
    ensures { IfOk result (λ after. after ≡ record state.now {
      left = read_again state.now.left left.now;
      right = right.now;
    }) }
{
    Ok(PlainState {
        left: Seq::from_vec(read_again(alloc, state.left.as_slice(), left)?),
        right: Seq::from_slice(alloc, right)?,
        current: copies(alloc, state.current.as_slice())?,
        saved: copies(alloc, state.saved.as_slice())?,
        last: state.last,
    })
}

/// Performs an option change: the host sets the value of an option.
fn setting_event(
    indexed: &IndexedTables,
    name: &[u8],
    value: &[char],
    state: &PlainState,
) -> Result<PlainState, Memory>
    requires { IsStateOf indexed.now state.now }
    ensures { IfOk result (IsMadeBy indexed.now state.now (only_state (setting_event name.now value.now (state_of indexed.now state.now)))) }
{
    let mut event_state = begin_event(indexed, state)?;
    give(
        indexed.alloc(),
        indexed.option_named(name),
        value,
        &mut event_state,
    )?;
    let after = acted(indexed, &event_state, no_outcome(), state)?;
    Ok(after)
}

/// Sets the current and the saved value of an option, if there is one.
fn give(
    alloc: Global,
    option: Option<usize>,
    value: &[char],
    event_state: &mut EventState,
) -> Result<(), Memory>
    ensures { OnOk result (event_state.new ≡ given option (map Element.Char value.now) event_state.old) }
{
    let Some(option) = option else {
        return Ok(());
    };
    let current = Seq::from_vec(as_elements(alloc, value)?);
    let saved = Seq::from_vec(as_elements(alloc, value)?);
    set_value(&mut event_state.current, option, current);
    set_value(&mut event_state.saved, option, Some(saved));
    Ok(())
}

/// Returns characters as elements.
fn as_elements(alloc: Global, text: &[char]) -> Result<Vec<Element>, Memory>
    ensures { IfOk result (λ value. value.items ≡ map Element.Char text.now) }
{
    Ok(text.iter().map(|c| Element::Char(*c)).collect(alloc)?)
}

/// Returns the outcome of an event that is not a key press.
fn no_outcome() -> Outcome
    ensures { result ≡ no_outcome }
{
    Outcome {
        delete: 0,
        pass: false,
        beeps: 0,
        entered: 0,
        put: 0,
        saved: 0,
    }
}

/// Returns the result of an event that selected no rule.
fn without_lines(alloc: Global, state: PlainState) -> Traced
    ensures { result ≡ record { state = state; lines = [] } }
{
    Traced {
        state,
        lines: Seq::new(alloc),
    }
}

/// Moves the caret to a position.
fn caret_event(alloc: Global, place: u32, state: &PlainState) -> Result<PlainState, Memory>
    requires { place ≤ length (characters state.now.left ++ state.now.right) }
    ensures { IfOk result (λ after. (tables : Tables) → IsMadeBy tables state.now (only_state (caret_event place (state_of tables state.now))) after) }
{
    let whole = whole_text(alloc, state)?;
    let after = with_text(alloc, whole.as_slice(), place as usize, state)?;
    Ok(after)
}

/// Returns the whole text, before and after the caret.
fn whole_text(alloc: Global, state: &PlainState) -> Result<Vec<char>, Memory>
    ensures { IfOk result (λ text. text.items ≡ characters state.now.left ++ state.now.right) }
{
    let left = characters(alloc, state.left.as_slice())?;
    joined(alloc, left.as_slice(), state.right.as_slice())
}

/// Returns the state with a whole text and the caret at a position in it.
fn with_text(
    alloc: Global,
    text: &[char],
    caret: usize,
    state: &PlainState,
) -> Result<PlainState, Memory>
    requires { caret ≤ length text.now }
    ensures { IfOk result (λ after. after ≡ with_text text.now caret state.now) }
{
    let (left, right) = text.split_at(caret);
    let mut after = text_becomes(alloc, left, right, state)?;
    after.last = no_outcome();
    Ok(after)
}

/// Performs an edit in which the application replaces characters.
fn edit_event(
    alloc: Global,
    from: u32,
    to: u32,
    text: &[char],
    state: &PlainState,
) -> Result<PlainState, Memory>
    requires { (from ≤ to) × (to ≤ length (characters state.now.left ++ state.now.right)) }
    ensures { IfOk result (λ after. (tables : Tables) → IsMadeBy tables state.now (only_state (edit_event from to text.now (state_of tables state.now))) after) }
{
    let before = characters(alloc, state.left.as_slice())?;
    let whole = joined(alloc, before.as_slice(), state.right.as_slice())?;
    let edited = edited_text(alloc, from as usize, to as usize, text, whole.as_slice())?;
    let caret = moved_caret(from as usize, to as usize, text.len(), before.len());
    let after = with_text(alloc, edited.as_slice(), caret, state)?;
    Ok(after)
}

/// Returns the whole text after an edit.
fn edited_text(
    alloc: Global,
    from: usize,
    to: usize,
    text: &[char],
    whole: &[char],
) -> Result<Vec<char>, Memory>
    requires { (from ≤ to) × (to ≤ length whole.now) }
    ensures { IfOk result (λ edited. edited.items ≡ edited_text from to text.now whole.now) }
{
    let before = joined(alloc, &whole[..from], text)?;
    joined(alloc, before.as_slice(), &whole[to..])
}

/// Performs an event on a state, by the meaning of tables. Does not check the limits of an event's text.
pub fn plain_event(
    alloc: Global,
    tables: &Tables,
    state: &PlainState,
    event: &Event,
) -> Result<PlainState, Memory>
    requires state { IsStateOf tables.now state.now }
    requires places { IsWithin (whole_text (state_of tables.now state.now)) event.now }
    ensures { IfOk result (IsPlainStep tables.now state.now event.now) }
{
    let traced = traced_event(alloc, tables, state, event)?;
    Ok(traced.state)
}
