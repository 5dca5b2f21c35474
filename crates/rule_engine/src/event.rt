//! The state of one key press while the rules act on it.

ghost use Rattle.std.specs.Prelude.{◌≡◌, ◌≤◌, ◌<◌, ◌+◌, ◌^◌, [], ◌∷◌, ◌++◌, IfSome, length, option_map, vec_capacity, None, Some, true};
ghost use Rattle.std.specs.List.{Contains};
ghost use Rattle.kmn_base.specs.declared.limits.TheConstants.{EVENT_ENTRIES, EVENT_PUTS, WINDOW_ITEMS};
ghost use Rattle.kmn_base.specs.Lists.{characters, window, without_last, read_again};
ghost use Rattle.option_store.specs.Meaning.{option_values, option_saves};
ghost use Rattle.rule_model.specs.Act.{one_more, put_item, set_current, save_current, reset_current};
ghost use Rattle.rule_model.specs.Content.{option_number, elements_at};
ghost use Rattle.rule_model.specs.Enter.{chosen_in, delete_or_pass};
ghost use Rattle.rule_model.specs.Keyboard.{Numbered};
ghost use Rattle.rule_model.specs.KeyEvent.{begin_event, deleted, inserted, outcome_of};
ghost use Rattle.rule_model.specs.Tab.{tab, elements_of, tab_group, tab_rule};
ghost use Rattle.rule_index.specs.Groups.{IsRuleIndexOf};
ghost use Rattle.rule_matching.specs.MatchState.{AreShort};
ghost use Rattle.rule_matching.specs.PlaceMemory.{rooms};
ghost use Rattle.rule_engine.specs.Event.{CanAct, HasCapacity, HasShortContexts, PlatformStays, keyboard_of, match_state_of};

use crate::workspace::Workspace;
use event_text::Left;
use kmn_base::limits::EVENT_PUTS;
use kmn_base::{Item, KeyPress, Outcome};
use kmx_parts::{FileGroup, FileRule};
use option_store::Options;
use rule_index::{IndexedKeyboard, RuleIndex};
use rule_matching::{EnteredGroup, MatchState, MatchedItems, PlaceMemory, first_held};
use std::marker::Model;
use virtual_keys::codes::K_BKSP;
use virtual_keys::is_plain;

/// The state on which one key press acts. It does not allocate.
#[derive(Drop)]
pub struct PressEvent<'a> {
    indexed: &'a IndexedKeyboard<'a>,
    left: Left<'a>,
    options: Options,
    truths: Vec<bool>,
    places: PlaceMemory,
    pass: bool,
    stopped: bool,
    beeps: u32,
    entered: u32,
    saves: u32,
    /// The lines of the selected rules, at most one for each group that is entered.
    lines: Vec<u32>,
}

/// The outcome of a press, and what the next event works on.
#[derive(Drop)]
pub struct AfterPress {
    pub outcome: Outcome,
    pub workspace: Workspace,
}

impl<'a> Model for PressEvent<'a> {
    ghost use Rattle.std.specs.Prelude.{[], vec_capacity};
    ghost use Rattle.option_store.specs.Meaning.{with_values};
    ghost use Rattle.rule_model.specs.Tab.{tab};
    ghost use Rattle.rule_matching.specs.PlaceMemory.{rooms};
    ghost use Rattle.rule_engine.specs.Event.{CanAct, EventValue, HasNoted};

    ghost Value = { EventValue };

    ghost view = { λ event. record {
      tables = event.indexed.now;
      lent = event.left.lent;
      state = with_values (tab event.indexed.now).stores event.options (record {
        left = event.left.items;
        current = [];
        saved = [];
        pass = event.pass;
        stopped = event.stopped;
        beeps = event.beeps;
        entered = event.entered;
        put = event.left.put;
        saves = event.saves;
      });
      lines = event.lines.items;
    } };

    ghost invariant = { λ event. CanAct event.indexed.now event.options event.truths.items (rooms event.places) × HasNoted event.lines.items event.entered (vec_capacity event.lines) };
}

impl<'a> PressEvent<'a> {
    ghost use Rattle.rule_engine.specs.Event.{EventValue};

    /// Begins an event on a text, which is read again with the last items of the workspace. The options are unchanged.
    pub fn begin(
        indexed: &'a IndexedKeyboard<'a>,
        lent: &'a [char],
        workspace: Workspace,
    ) -> PressEvent<'a>
        requires few { length lent.now < 2 ^ 32 }
        requires room { HasCapacity workspace.cache workspace.inserted (vec_capacity workspace.chosen) }
        requires can { CanAct indexed.now workspace.options workspace.truths.items (rooms workspace.places) }
        ensures { result ≡ record {
          tables = indexed.now;
          lent = lent.now;
          state = begin_event (read_again workspace.cache.items lent.now)
              (option_values (tab indexed.now).stores workspace.options) (option_saves (tab indexed.now).stores workspace.options);
          lines = [];
        } }
    {
        let mut lines = workspace.chosen;
        lines.clear();
        PressEvent {
            indexed,
            left: Left::begin(lent, workspace.inserted, workspace.cache),
            options: workspace.options,
            truths: workspace.truths,
            places: workspace.places,
            pass: false,
            stopped: false,
            beeps: 0,
            entered: 0,
            saves: 0,
            lines,
        }
    }

    /// Ends the event and returns its outcome and what the next event works on.
    pub fn finish(self) -> AfterPress
        ensures outcome { (before : _) → characters before ≡ self.entry.lent → result.outcome ≡ outcome_of before self.entry.state }
        ensures inserted { (before : _) → characters before ≡ self.entry.lent → result.workspace.inserted.text ≡ inserted before self.entry.state.left }
        ensures cache { result.workspace.cache.items ≡ window self.entry.state.left }
        ensures current { option_values (keyboard_of self.entry).stores result.workspace.options ≡ self.entry.state.current }
        ensures saved { option_saves (keyboard_of self.entry).stores result.workspace.options ≡ self.entry.state.saved }
        ensures can { CanAct self.entry.tables result.workspace.options result.workspace.truths.items (rooms result.workspace.places) }
        ensures chosen { result.workspace.chosen.items ≡ self.entry.lines }
        ensures room { HasCapacity result.workspace.cache result.workspace.inserted (vec_capacity result.workspace.chosen) }
        ensures few { length result.workspace.inserted.text ≤ EVENT_PUTS }
    {
        let put = self.left.puts();
        let edited = self.left.finish();
        AfterPress {
            outcome: Outcome {
                delete: edited.deleted as u32,
                pass: self.pass,
                beeps: self.beeps,
                entered: self.entered,
                put,
                saved: self.saves,
            },
            workspace: Workspace {
                cache: edited.cache,
                options: self.options,
                truths: self.truths,
                inserted: edited.inserted,
                chosen: self.lines,
                places: self.places,
            },
        }
    }

    /// Returns the tables.
    pub fn indexed(&self) -> &'a IndexedKeyboard<'a>
        ensures value { result.now ≡ self.now.tables }
        ensures short { HasShortContexts result.now }
        ensures platform { PlatformStays result.now }
    {
        self.indexed
    }

    /// Returns the keyboard in its current state.
    pub fn moment(&self) -> MatchState<'_>
        ensures { result ≡ match_state_of self.now }
    {
        MatchState::of(self.indexed, &self.options, self.truths.as_slice())
    }

    /// Returns whether the remaining effects of the event are stopped.
    pub fn is_stopped(&self) -> bool
        ensures { result ≡ self.now.state.stopped }
    {
        self.stopped
    }

    /// Stops the remaining effects of the event.
    pub fn stop(&mut self)
        ensures { self.new ≡ record self.old { state = record self.old.state { stopped = true } } }
    {
        self.stopped = true;
    }

    /// Adds one beep.
    pub fn beep(&mut self)
        ensures { self.new ≡ record self.old { state = record self.old.state { beeps = one_more self.old.state.beeps } } }
    {
        self.beeps = self.beeps.saturating_add(1);
    }

    /// Returns the number of groups that were entered.
    pub fn entered(&self) -> u32
        ensures { result ≡ self.now.state.entered }
    {
        self.entered
    }

    /// Counts a group that is entered. There is then space for the line of the rule that is selected in it.
    pub fn count_entry(&mut self)
        requires { self.old.state.entered < EVENT_ENTRIES }
        ensures event { self.new ≡ record self.old { state = record self.old.state { entered = self.old.state.entered + 1 } } }
        ensures room { length self.new.lines < self.new.state.entered }
    {
        self.entered += 1;
    }

    /// Appends the line of a selected rule.
    pub fn note_line(&mut self, line: u32)
        requires { length self.old.lines < self.old.state.entered }
        ensures { self.new ≡ record self.old { lines = self.old.lines ++ line ∷ [] } }
    {
        self.lines.push_reserved(line);
    }

    /// Returns the record of a group that is selected in the current state, or `None`. Writes what the record catches to
    /// `caught`, which is unchanged if no record is selected. The choice depends only on the last 64 items, which are filled in
    /// before and read in place.
    #[tactic(auto, using(crate::proofs::Contexts::first_in_window), unfolding(rule_model::specs::Tab::tab))]
    pub fn chosen_in<'g>(
        &mut self,
        press: KeyPress,
        group: &FileGroup<'g>,
        records: &RuleIndex,
        caught: &mut MatchedItems,
    ) -> Option<FileRule<'g>>
        requires short { AreShort group.now.rules }
        requires index { IsRuleIndexOf group.now records.now }
        ensures chosen { option_map (λ rule. (tab_rule self.old.tables.stores group.now.using_keys rule, caught.new)) result ≡ chosen_in
            (keyboard_of self.old) press (tab_group self.old.tables.stores group.now) self.old.state }
        ensures none { result ≡ None → caught.new ≡ caught.old }
        ensures among { IfSome result (λ rule. Contains group.now.rules rule) }
        ensures same { self.new ≡ self.old }
    {
        self.left.fill();
        let moment = MatchState::of(self.indexed, &self.options, self.truths.as_slice());
        let entered = EnteredGroup {
            press,
            group,
            records,
        };
        first_held(
            &moment,
            &entered,
            self.left.cache(),
            &mut self.places,
            caught,
        )
    }

    /// Removes the last `count` items, or all items if there are fewer. `count` is at most the size of a window.
    #[tactic(auto, using(crate::proofs::Windows::taken_from_window))]
    pub fn take(&mut self, count: usize)
        requires { count ≤ WINDOW_ITEMS }
        ensures { self.new ≡ record self.old { state = record self.old.state { left = without_last count self.old.state.left } } }
    {
        let left = &mut self.left;
        left.fill();
        left.take(count.min(left.cache().len()));
    }

    /// Outputs an item, or stops the event if no more items are allowed.
    pub fn put_item(&mut self, item: Item)
        ensures { self.new ≡ record self.old { state = put_item item self.old.state } }
    {
        if self.stopped {
            return;
        }
        if self.left.puts() >= EVENT_PUTS {
            self.stopped = true;
            return;
        }
        self.left.put(item);
    }

    /// Performs a press without a character: a backspace without control and alt deletes back, if there is a character.
    /// Otherwise the key is passed on.
    pub fn delete_or_pass(&mut self, press: KeyPress)
        ensures { self.new ≡ record self.old { state = delete_or_pass press self.old.state } }
    {
        if press.code == K_BKSP && is_plain(press) && self.left.has_character() {
            self.left.take_character();
        } else {
            self.pass = true;
        }
    }

    /// Performs `set` on a store of the file or on the layer. The truths are unchanged, since they depend on the platform.
    #[tactic(auto, using(rule_matching::proofs::StoreContents::option_within, crate::proofs::OptionSteps::set_follows, crate::proofs::OptionSteps::nothing_set))]
    pub fn set_current(&mut self, store: u32, value: u32)
        requires store { store + 1 < length (keyboard_of self.old).stores }
        requires value { value < length self.old.tables.stores }
        ensures { self.new ≡ record self.old {
          state = set_current
              (option_number (keyboard_of self.old).stores (Numbered store)) (elements_of self.old.tables.stores value) self.old.state;
        } }
    {
        if self.indexed.option_number(store).is_some() {
            self.options.set(store, value);
        }
    }

    /// Performs `save`, and counts it if the store is an option.
    #[tactic(auto, using(rule_matching::proofs::StoreContents::option_within, crate::proofs::OptionSteps::save_follows, crate::proofs::OptionSteps::nothing_saved))]
    pub fn save_current(&mut self, store: u32)
        ensures { self.new ≡ record self.old {
          state = save_current
              (option_number (keyboard_of self.old).stores (Numbered store)) self.old.state;
        } }
    {
        if self.indexed.option_number(store).is_some() {
            self.options.save(store);
            self.saves = self.saves.saturating_add(1);
        }
    }

    /// Performs `reset` on a store of the file.
    #[tactic(auto, using(rule_matching::proofs::StoreContents::option_within, crate::proofs::OptionSteps::reset_follows, crate::proofs::OptionSteps::nothing_reset))]
    pub fn reset_current(&mut self, store: u32)
        requires { store < length self.old.tables.stores }
        ensures { self.new ≡ record self.old {
          state = reset_current
              (option_number (keyboard_of self.old).stores (Numbered store)) (elements_at (keyboard_of self.old).stores (Some store)) self.old.state;
        } }
    {
        if self.indexed.option_number(store).is_some() {
            self.options.reset(store);
        }
    }
}
