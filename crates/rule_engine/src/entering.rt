//! Enters groups for a key press: selects a record in each, and performs outputs, which can enter further groups.
//!
//! The functions call one another as the definitions in `specs/Enter` of `rule_model` do, so each meets the definition of its
//! name. Two counts bound a press. An event enters at most `EVENT_ENTRIES` groups and then stops, and a stopped event skips all
//! remaining items. `depth` is the number of nested entries that are still allowed: it falls with each nested entry, so the
//! recursion terminates. It starts at `EVENT_ENTRIES`, so the first count always stops the event before `depth` is 0. Each
//! entered group costs one choice and at most two outputs. What is caught is stored on the stack, so nothing allocates.

ghost use Rattle.std.specs.Prelude.{◌≡◌, ◌<◌, [], ◌∷◌, ◌++◌, None, Some, map, length, option_map, slice_get, if◌then◌else◌};
ghost use Rattle.kmn_base.specs.declared.limits.TheConstants.{EVENT_ENTRIES};
ghost use Rattle.kmn_base.specs.Lists.{without_last};
ghost use Rattle.rule_model.specs.Keyboard.{Numbered, UseGroup};
ghost use Rattle.rule_model.specs.Act.{act_one, act, enter_if_allowed, items_caught};
ghost use Rattle.rule_model.specs.Enter.{do_chosen, do_unmatched, do_group, chosen_in, in_group};
ghost use Rattle.rule_model.specs.KeyEvent.{after_key};
ghost use Rattle.rule_model.specs.ChosenLines.{lines_of_one, lines_of, lines_if_any, lines_of_group, lines_in_group, lines_of_press};
ghost use Rattle.rule_model.specs.Tab.{tab_output, tab_rule, tab_group};
ghost use Rattle.rule_index.specs.Groups.{IsRuleIndexOf};
ghost use Rattle.rule_matching.specs.MatchState.{AreShort};
ghost use Rattle.rule_engine.specs.Event.{AllChangeOwn, ChangesOwn, GroupChangesOwn, RuleChangesOwn, keyboard_of, enters, adds};

use crate::defaults::by_default;
use crate::event::PressEvent;
use crate::outputs::{is_empty, put_any, put_context, put_index};
use kmn_base::limits::EVENT_ENTRIES;
use kmn_base::{Item, KeyPress};
use kmx_parts::{FileGroup, FileRule, Outputs};
use rule_index::RuleIndex;
use rule_matching::{MatchedItems, item_caught};
use rule_model::Out;

/// A key press that enters groups, and the number of nested entries that are still allowed.
#[derive(Clone, Copy)]
pub struct Entering {
    pub press: KeyPress,
    pub depth: u32,
}

/// Performs a key press in an event in which no rule has been selected yet.
#[tactic(auto, unfolding(rule_model::specs::KeyEvent::after_key, rule_model::specs::ChosenLines::lines_of_press, rule_model::specs::Tab::tab))]
pub fn press(press: KeyPress, event: &mut PressEvent)
    requires entered { event.old.state.entered ≡ 0 }
    requires lines { event.old.lines ≡ [] }
    ensures { event.new ≡ record event.old {
      state = after_key (keyboard_of event.old) press event.old.state;
      lines = lines_of_press (keyboard_of event.old) press event.old.state;
    } }
{
    let entering = Entering {
        press,
        depth: EVENT_ENTRIES,
    };
    let start = event.indexed().start();
    enter(entering, start, event);
}

/// Enters a group, or stops the event if no more nested entries are allowed.
#[cycle(acts)]
#[tactic(auto, using(rule_model::proofs::PlainKeyboard::enter_more, rule_model::proofs::MoreLines::more_lines))]
fn enter(entering: Entering, group: u32, event: &mut PressEvent)
    requires { event.old.state.entered < EVENT_ENTRIES }
    ensures { event.new ≡ record event.old {
      state = enters event.old entering (Numbered group) event.old.state;
      lines = adds event.old entering (Numbered group) event.old.state event.old.lines;
    } }
{
    if entering.depth == 0 {
        event.stop();
        return;
    }
    event.count_entry();
    let inside = Entering {
        depth: entering.depth - 1,
        ..entering
    };
    in_group(inside, group, event);
}

/// Performs the group with a number, if there is one.
#[cycle(acts)]
#[tactic(auto, using(crate::proofs::Contexts::short_in_group, crate::proofs::Contexts::own_in_group))]
fn in_group(entering: Entering, group: u32, event: &mut PressEvent)
    requires { length event.old.lines < event.old.state.entered }
    ensures { event.new ≡ record event.old {
      state = in_group (keyboard_of event.old) (enters event.old entering) entering.press
          (option_map (tab_group event.old.tables.stores) (slice_get event.old.tables.groups group)) event.old.state;
      lines = lines_in_group (keyboard_of event.old) (enters event.old entering) (adds event.old entering) entering.press
          (option_map (tab_group event.old.tables.stores) (slice_get event.old.tables.groups group)) event.old.state event.old.lines;
    } }
{
    if let Some((group, records)) = event.indexed().group(group) {
        do_group(entering, &group, records, event);
    }
}

/// Performs a group.
#[cycle(acts)]
fn do_group(entering: Entering, group: &FileGroup<'_>, records: &RuleIndex, event: &mut PressEvent)
    requires short { AreShort group.now.rules }
    requires index { IsRuleIndexOf group.now records.now }
    requires group { GroupChangesOwn (length event.old.tables.stores) group.now }
    requires room { length event.old.lines < event.old.state.entered }
    ensures { event.new ≡ record event.old {
      state = do_group (keyboard_of event.old) (enters event.old entering) entering.press (tab_group event.old.tables.stores group.now)
          (chosen_in (keyboard_of event.old) entering.press (tab_group event.old.tables.stores group.now) event.old.state) event.old.state;
      lines = lines_of_group (keyboard_of event.old) (enters event.old entering) (adds event.old entering) (tab_group event.old.tables.stores group.now)
          (chosen_in (keyboard_of event.old) entering.press (tab_group event.old.tables.stores group.now) event.old.state) event.old.state event.old.lines;
    } }
{
    let mut caught = MatchedItems::nothing();
    match event.chosen_in(entering.press, group, records, &mut caught) {
        Some(rule) => do_chosen(entering, group, &rule, &mut caught, event),
        None => do_unmatched(entering, group, &caught, event),
    }
}

/// Performs a selected record: notes its line, removes its items, performs its output, and then the group's match output, for
/// which nothing is caught.
#[cycle(acts)]
fn do_chosen(
    entering: Entering,
    group: &FileGroup<'_>,
    rule: &FileRule<'_>,
    caught: &mut MatchedItems,
    event: &mut PressEvent,
)
    requires group { GroupChangesOwn (length event.old.tables.stores) group.now }
    requires rule { RuleChangesOwn (length event.old.tables.stores) rule.now }
    requires room { length event.old.lines < event.old.state.entered }
    ensures { event.new ≡ record event.old {
      state = do_chosen (keyboard_of event.old) (enters event.old entering)
          (tab_group event.old.tables.stores group.now) (tab_rule event.old.tables.stores group.now.using_keys rule.now, caught.old) event.old.state;
      lines = lines_of_group (keyboard_of event.old) (enters event.old entering) (adds event.old entering)
          (tab_group event.old.tables.stores group.now) (Some (tab_rule event.old.tables.stores group.now.using_keys rule.now, caught.old)) event.old.state
          event.old.lines;
    } }
{
    event.note_line(rule.line());
    take(caught, event);
    act(entering, caught, rule.output(), event);
    caught.clear();
    act(entering, caught, group.on_match(), event);
}

/// Removes the items that a record has matched.
fn take(caught: &MatchedItems, event: &mut PressEvent)
    ensures { event.new ≡ record event.old {
      state = record event.old.state {
        left = without_last (length (items_caught caught.now)) event.old.state.left;
      };
    } }
{
    event.take(caught.item_count());
}

/// Performs the items of an output in order. Once the event is stopped, the remaining items have no effect.
#[cycle(acts)]
fn act(entering: Entering, caught: &MatchedItems, outputs: Outputs<'_>, event: &mut PressEvent)
    requires { AllChangeOwn (length event.old.tables.stores) outputs }
    ensures { event.new ≡ record event.old {
      state = act
          (keyboard_of event.old) (enters event.old entering) caught.now (map (tab_output event.old.tables.stores) outputs.entry) event.old.state;
      lines = lines_of (keyboard_of event.old) (enters event.old entering) (adds event.old entering)
          caught.now (map (tab_output event.old.tables.stores) outputs.entry) event.old.state event.old.lines;
    } }
{
    for output in outputs {
        act_next(entering, caught, output, event);
    }
}

/// Performs the next item of an output, unless the event is stopped.
#[cycle(acts)]
fn act_next(entering: Entering, caught: &MatchedItems, output: Out, event: &mut PressEvent)
    requires { ChangesOwn (length event.old.tables.stores) output }
    ensures { event.new ≡ record event.old {
      state = if event.old.state.stopped then event.old.state else act_one
          (keyboard_of event.old) (enters event.old entering) caught.now (tab_output event.old.tables.stores output) event.old.state;
      lines = if event.old.state.stopped then event.old.lines else lines_of_one
          (adds event.old entering) (tab_output event.old.tables.stores output) event.old.state event.old.lines;
    } }
{
    if !event.is_stopped() {
        act_one(entering, caught, output, event);
    }
}

/// Performs one item of an output.
#[cycle(acts)]
fn act_one(entering: Entering, caught: &MatchedItems, output: Out, event: &mut PressEvent)
    requires { ChangesOwn (length event.old.tables.stores) output }
    ensures { event.new ≡ record event.old {
      state = act_one
          (keyboard_of event.old) (enters event.old entering) caught.now (tab_output event.old.tables.stores output) event.old.state;
      lines = lines_of_one (adds event.old entering) (tab_output event.old.tables.stores output) event.old.state event.old.lines;
    } }
{
    match output {
        Out::Char(c) => event.put_item(Item::Char(c)),
        Out::Mark(m) => event.put_item(Item::Mark(m)),
        Out::Index(store, offset) => put_index(caught, store, offset, event),
        Out::Context => put_context(caught, event),
        Out::ContextAt(offset) => put_any(item_caught(caught.found(), offset), event),
        Out::Enter(group) => enter_if_allowed(entering, group, event),
        Out::Set(store, value) => event.set_current(store, value),
        Out::SetSystem(_, value) => event.set_current(event.indexed().layer(), value),
        Out::Save(store) => event.save_current(store),
        Out::Reset(store) => event.reset_current(store),
        Out::Beep => event.beep(),
        Out::Nul => {}
        Out::Stop => event.stop(),
    }
}

/// Enters a group, or stops the event if no more entries are allowed.
#[cycle(acts)]
fn enter_if_allowed(entering: Entering, group: u32, event: &mut PressEvent)
    ensures { event.new ≡ record event.old {
      state = enter_if_allowed (enters event.old entering) (Numbered group) event.old.state;
      lines = lines_of_one (adds event.old entering) (UseGroup (Numbered group)) event.old.state event.old.lines;
    } }
{
    if event.entered() >= EVENT_ENTRIES {
        event.stop();
    } else {
        enter(entering, group, event);
    }
}

/// Performs a group in which no record holds: its nomatch output, for which nothing is caught. If it has none and the group has
/// keys, performs the default.
#[cycle(acts)]
fn do_unmatched(
    entering: Entering,
    group: &FileGroup<'_>,
    nothing: &MatchedItems,
    event: &mut PressEvent,
)
    requires nothing { nothing.now ≡ record { catches = []; key_place = None } }
    requires group { GroupChangesOwn (length event.old.tables.stores) group.now }
    ensures { event.new ≡ record event.old {
      state = do_unmatched (keyboard_of event.old) (enters event.old entering) entering.press
          (tab_group event.old.tables.stores group.now).on_nomatch group.now.using_keys event.old.state;
      lines = lines_if_any (keyboard_of event.old) (enters event.old entering) (adds event.old entering)
          (tab_group event.old.tables.stores group.now).on_nomatch event.old.state event.old.lines;
    } }
{
    if !is_empty(group.on_nomatch()) {
        act(entering, nothing, group.on_nomatch(), event);
    } else if group.using_keys() {
        by_default(entering.press, event);
    }
}
