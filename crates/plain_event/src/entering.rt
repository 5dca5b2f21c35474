//! Enters groups for a key press: selects a record in each, and performs outputs, which can enter further groups.
//!
//! The functions call one another as the definitions in `specs/Enter` of `rule_model` do, so each meets the definition of its
//! name. The recursion terminates, since each nested entry has a smaller `depth`. An event stops after `EVENT_ENTRIES` entered
//! groups, so `depth`, which starts at this number, is never used up. Each entered group costs a test of its records up to the
//! one that holds, and at most two outputs. The lines of the selected records are appended in the order of entry.

ghost use Rattle.std.specs.Prelude.{◌≡◌, ◌<◌, [], ◌∷◌, ◌++◌, IfOk, OnOk, map, length, true, None, Some, option_map, option_copied, if◌then◌else◌};
ghost use Rattle.kmn_base.specs.declared.limits.TheConstants.{EVENT_ENTRIES};
ghost use Rattle.kmn_base.specs.Lists.{without_last};
ghost use Rattle.rule_model.specs.Keyboard.{Numbered, UseGroup};
ghost use Rattle.rule_model.specs.Act.{act_one, act, enter_if_allowed, items_caught};
ghost use Rattle.rule_model.specs.Enter.{nothing, do_chosen, do_unmatched, do_group, chosen_in, in_group};
ghost use Rattle.rule_model.specs.KeyEvent.{after_key};
ghost use Rattle.rule_model.specs.Tab.{tab, tab_output, tab_rule, tab_group};
ghost use Rattle.rule_model.specs.ChosenLines.{lines_of_one, lines_of, lines_if_any, lines_of_group, lines_in_group, lines_of_press};
ghost use Rattle.plain_event.specs.Entering.{keyboard_of, stores_of, enters, adds};

use crate::defaults::by_default;
use crate::left;
use crate::outputs::{
    put_any, put_context, put_index, put_item, reset_current, save_current, set_current, set_system,
};
use indexed_tables::IndexedTables;
use kmn_base::limits::EVENT_ENTRIES;
use kmn_base::{Item, KeyPress, Memory, Seq};
use plain_matching::{chosen_in, item_caught};
use rule_model::{Caught, EventState, Group, Out, Rule};
use std::alloc::Global;

/// A key press that enters groups. `depth` is the number of nested entries that are still possible.
#[derive(Clone, Copy)]
pub struct Entering<'a> {
    pub indexed: &'a IndexedTables<'a>,
    pub press: KeyPress,
    pub depth: u32,
}

/// The record that a group selected, with what it caught.
#[derive(Clone, Copy)]
pub struct Choice<'a> {
    pub rule: &'a Rule,
    pub caught: &'a Caught,
}

/// Returns an event's state after a key press, and the lines of the rules that the press selected. Consumes the state, so that
/// no incomplete state remains if an allocation fails.
#[tactic(auto, unfolding(rule_model::specs::KeyEvent::after_key, rule_model::specs::Tab::tab, rule_model::specs::ChosenLines::lines_of_press))]
pub fn after_key(
    indexed: &IndexedTables,
    press: KeyPress,
    mut state: EventState,
) -> Result<Pressed, Memory>
    requires { state.entered ≡ 0 }
    ensures acts { IfOk result (λ pressed. pressed.state ≡ after_key (tab indexed.now) press state) }
    ensures lines { IfOk result (λ pressed. pressed.lines ≡ lines_of_press (tab indexed.now) press state) }
{
    let entering = Entering {
        indexed,
        press,
        depth: EVENT_ENTRIES,
    };
    let mut lines = Vec::new(indexed.alloc());
    enter(&entering, indexed.start(), &mut state, &mut lines)?;
    Ok(Pressed {
        state,
        lines: Seq::from_vec(lines),
    })
}

/// Enters a group.
#[cycle(acts)]
#[tactic(auto, using(rule_model::proofs::PlainKeyboard::enter_more, rule_model::proofs::MoreLines::more_lines))]
fn enter(
    entering: &Entering,
    group: u32,
    state: &mut EventState,
    lines: &mut Vec<u32>,
) -> Result<(), Memory>
    requires { state.old.entered < EVENT_ENTRIES }
    ensures acts { OnOk result (state.new ≡ enters entering.now (Numbered group) state.old) }
    ensures lines { OnOk result (lines.new.items ≡ adds entering.now (Numbered group) state.old lines.old.items) }
{
    if entering.depth == 0 {
        state.stopped = true;
        return Ok(());
    }
    state.entered += 1;
    let inside = Entering {
        depth: entering.depth - 1,
        ..*entering
    };
    in_group(&inside, entering.indexed.group(group), state, lines)?;
    Ok(())
}

/// Performs a group, if there is one.
#[cycle(acts)]
fn in_group(
    entering: &Entering,
    group: Option<&Group>,
    state: &mut EventState,
    lines: &mut Vec<u32>,
) -> Result<(), Memory>
    ensures acts { OnOk result (state.new ≡ in_group (keyboard_of entering.now) (enters entering.now) entering.now.press
        (option_map (tab_group (stores_of entering.now)) (option_copied group.entry)) state.old) }
    ensures lines { OnOk result (lines.new.items ≡ lines_in_group (keyboard_of entering.now) (enters entering.now) (adds entering.now) entering.now.press
        (option_map (tab_group (stores_of entering.now)) (option_copied group.entry)) state.old lines.old.items) }
{
    match group {
        Some(group) => do_group(entering, group, state, lines),
        None => Ok(()),
    }
}

/// Performs a group.
#[cycle(acts)]
fn do_group(
    entering: &Entering,
    group: &Group,
    state: &mut EventState,
    lines: &mut Vec<u32>,
) -> Result<(), Memory>
    ensures acts { OnOk result (state.new ≡ do_group (keyboard_of entering.now) (enters entering.now) entering.now.press (tab_group (stores_of entering.now) group.now)
        (chosen_in (keyboard_of entering.now) entering.now.press (tab_group (stores_of entering.now) group.now) state.old) state.old) }
    ensures lines { OnOk result (lines.new.items ≡ lines_of_group (keyboard_of entering.now) (enters entering.now) (adds entering.now)
        (tab_group (stores_of entering.now) group.now) (chosen_in (keyboard_of entering.now) entering.now.press (tab_group (stores_of entering.now) group.now) state.old) state.old lines.old.items) }
{
    match chosen_in(entering.indexed, entering.press, state, group)? {
        Some((rule, caught)) => {
            let choice = Choice {
                rule,
                caught: &caught,
            };
            do_chosen(entering, group, choice, state, lines)
        }
        None => do_unmatched(entering, group, state, lines),
    }
}

/// Performs a selected record: removes its items, then performs its output and the group's match output.
#[cycle(acts)]
fn do_chosen(
    entering: &Entering,
    group: &Group,
    choice: Choice,
    state: &mut EventState,
    lines: &mut Vec<u32>,
) -> Result<(), Memory>
    ensures acts { OnOk result (state.new ≡ do_chosen (keyboard_of entering.now) (enters entering.now)
        (tab_group (stores_of entering.now) group.now) (tab_rule (stores_of entering.now) group.now.using_keys choice.entry.rule.now, choice.entry.caught.now) state.old) }
    ensures lines { OnOk result (lines.new.items ≡ lines_of_group (keyboard_of entering.now) (enters entering.now) (adds entering.now)
        (tab_group (stores_of entering.now) group.now) (Some (tab_rule (stores_of entering.now) group.now.using_keys choice.entry.rule.now, choice.entry.caught.now)) state.old lines.old.items) }
{
    let Choice { rule, caught } = choice;
    let alloc = entering.indexed.alloc();
    take(caught, state);
    lines.push(rule.line)?;
    act(entering, caught, rule.output.as_slice(), state, lines)?;
    act(
        entering,
        &nothing(alloc),
        group.on_match.as_slice(),
        state,
        lines,
    )
}

/// Removes the items that a record has matched.
#[tactic(auto, using(rule_model::proofs::PlainLists::length_filter_map))]
fn take(caught: &Caught, state: &mut EventState)
    ensures { state.new ≡ record state.old {
      left = without_last (length (items_caught caught.now)) state.old.left;
    } }
{
    let catches = caught.catches.as_slice();
    let count = catches.iter().filter(|catch| catch.item.is_some()).count();
    left::take(&mut state.left, count);
}

/// Performs the items of an output in order. Once the event is stopped, the remaining items have no effect.
#[cycle(acts)]
fn act(
    entering: &Entering,
    caught: &Caught,
    outputs: &[Out],
    state: &mut EventState,
    lines: &mut Vec<u32>,
) -> Result<(), Memory>
    ensures acts { OnOk result (state.new ≡ act
        (keyboard_of entering.now) (enters entering.now) caught.now (map (tab_output (stores_of entering.now)) outputs.now) state.old) }
    ensures lines { OnOk result (lines.new.items ≡ lines_of
        (keyboard_of entering.now) (enters entering.now) (adds entering.now) caught.now (map (tab_output (stores_of entering.now)) outputs.now) state.old lines.old.items) }
{
    for output in outputs {
        act_next(entering, caught, *output, state, lines)?;
    }
    Ok(())
}

/// Performs the next item of an output, unless the event is stopped.
#[cycle(acts)]
fn act_next(
    entering: &Entering,
    caught: &Caught,
    output: Out,
    state: &mut EventState,
    lines: &mut Vec<u32>,
) -> Result<(), Memory>
    ensures acts { OnOk result (state.new ≡ (if state.old.stopped then state.old else act_one
        (keyboard_of entering.now) (enters entering.now) caught.now (tab_output (stores_of entering.now) output) state.old)) }
    ensures lines { OnOk result (lines.new.items ≡ (if state.old.stopped then lines.old.items else lines_of_one (adds entering.now) (tab_output (stores_of entering.now) output) state.old lines.old.items)) }
{
    if state.stopped {
        return Ok(());
    }
    act_one(entering, caught, output, state, lines)
}

/// Performs one item of an output.
#[cycle(acts)]
fn act_one(
    entering: &Entering,
    caught: &Caught,
    output: Out,
    state: &mut EventState,
    lines: &mut Vec<u32>,
) -> Result<(), Memory>
    ensures acts { OnOk result (state.new ≡ act_one
        (keyboard_of entering.now) (enters entering.now) caught.now (tab_output (stores_of entering.now) output) state.old) }
    ensures lines { OnOk result (lines.new.items ≡ lines_of_one (adds entering.now) (tab_output (stores_of entering.now) output) state.old lines.old.items) }
{
    let indexed = entering.indexed;
    let alloc = indexed.alloc();
    match output {
        Out::Char(c) => put_item(alloc, Item::Char(c), state),
        Out::Mark(m) => put_item(alloc, Item::Mark(m), state),
        Out::Index(store, offset) => put_index(indexed, caught, store, offset, state),
        Out::Context => put_context(alloc, caught, state),
        Out::ContextAt(offset) => {
            put_any(alloc, item_caught(caught.catches.as_slice(), offset), state)
        }
        Out::Enter(group) => enter_if_allowed(entering, group, state, lines),
        Out::Set(store, value) => set_current(indexed, store, value, state),
        Out::SetSystem(id, value) => set_system(indexed, id, value, state),
        Out::Save(store) => save_current(indexed, store, state),
        Out::Reset(store) => reset_current(indexed, store, state),
        Out::Beep => {
            state.beeps = state.beeps.saturating_add(1);
            Ok(())
        }
        Out::Nul => Ok(()),
        Out::Stop => {
            state.stopped = true;
            Ok(())
        }
    }
}

/// Enters a group, or stops the event if it has entered `EVENT_ENTRIES` groups.
#[cycle(acts)]
fn enter_if_allowed(
    entering: &Entering,
    group: u32,
    state: &mut EventState,
    lines: &mut Vec<u32>,
) -> Result<(), Memory>
    ensures acts { OnOk result (state.new ≡ enter_if_allowed (enters entering.now) (Numbered group) state.old) }
    ensures lines { OnOk result (lines.new.items ≡ lines_of_one (adds entering.now) (UseGroup (Numbered group)) state.old lines.old.items) }
{
    if state.entered >= EVENT_ENTRIES {
        state.stopped = true;
        return Ok(());
    }
    enter(entering, group, state, lines)
}

/// Returns what is caught for an output that does not belong to a record.
fn nothing(alloc: Global) -> Caught
    ensures { result ≡ nothing }
{
    Caught {
        catches: Seq::new(alloc),
        key_place: None,
    }
}

/// An event's state after a key press, and the lines of the rules that the press selected.
#[derive(Drop)]
pub struct Pressed {
    pub state: EventState,
    /// In the order in which their groups were entered.
    pub lines: Seq<u32>,
}

/// Performs a group in which no record holds: the nomatch output, else the default of a group with keys.
#[cycle(acts)]
fn do_unmatched(
    entering: &Entering,
    group: &Group,
    state: &mut EventState,
    lines: &mut Vec<u32>,
) -> Result<(), Memory>
    ensures acts { OnOk result (state.new ≡ do_unmatched (keyboard_of entering.now) (enters entering.now) entering.now.press
        (tab_group (stores_of entering.now) group.now).on_nomatch group.now.using_keys state.old) }
    ensures lines { OnOk result (lines.new.items ≡ lines_of_group (keyboard_of entering.now) (enters entering.now) (adds entering.now)
        (tab_group (stores_of entering.now) group.now) None state.old lines.old.items) }
{
    if !group.on_nomatch.is_empty() {
        let nothing = nothing(entering.indexed.alloc());
        return act(
            entering,
            &nothing,
            group.on_nomatch.as_slice(),
            state,
            lines,
        );
    }
    if group.using_keys {
        by_default(entering.indexed, entering.press, state)?;
    }
    Ok(())
}
