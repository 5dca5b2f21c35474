//! The engine of one text: a keyboard, and what remains between its events.

ghost use Rattle.std.specs.Prelude.{◌≡◌, ◌<◌, ◌≤◌, ◌+◌, ◌^◌, length, option_map, vec_capacity, IfOk, MatchResult, is_some};
ghost use Rattle.kmn_base.specs.declared.limits.TheConstants.{EVENT_ENTRIES, EVENT_PUTS, STORES};
ghost use Rattle.kmx_format.specs.TablesOf.{tables_of};
ghost use Rattle.option_store.specs.Cells.{held_value};
ghost use Rattle.option_store.specs.Meaning.{option_values, option_saves};
ghost use Rattle.rule_model.specs.Content.{content};
ghost use Rattle.rule_model.specs.Keyboard.{Numbered, stated};
ghost use Rattle.rule_model.specs.Plain.{option_numbers};
ghost use Rattle.rule_model.specs.Tab.{tab};
ghost use Rattle.rule_engine.specs.Engine.{IsAtWork, IsRunnable, engine_with, press_outcome, press_leaves};
ghost use Rattle.rule_engine.specs.Event.{OthersHoldThemselves};
ghost use Rattle.rule_matching.specs.PlaceMemory.{rooms};
ghost use Rattle.rule_matching.specs.StoreValues.{elements_in};

use crate::entering::press;
use crate::event::{AfterPress, PressEvent};
use crate::naming::{name_of, store_named};
use crate::workspace::Workspace;
use kmn_base::{Item, KeyPress, Memory, Outcome, Seq, Text};
use kmx_parts::FileTables;
use kmx_verifier::Verified;
use option_store::{Held, Options};
use rule_index::IndexedKeyboard;
use rule_matching::StoreValue;
use std::alloc::Global;
use std::marker::Model;
use std::mem;
use std::sync::Arc;
use virtual_keys::KeyDictionary;

/// The engine of one text. Engines on the same file share its index, and each has its own workspace.
pub struct Engine<'a> {
    indexed: Arc<IndexedKeyboard<'a>>,
    workspace: Workspace,
}

/// One call in proofs. A derived drop would be written out in each exit.
impl Drop for Engine<'_> {
    fn drop(self) {
        let Engine {
            indexed: _,
            workspace: _,
        } = self;
    }
}

/// What a press would do: its outcome, and the text that it would insert.
#[derive(Drop)]
pub struct Preview {
    pub outcome: Outcome,
    pub inserted: Seq<char>,
}

impl<'a> Model for Engine<'a> {
    ghost use Rattle.std.specs.Arc.{arc_value};
    ghost use Rattle.std.specs.Prelude.{vec_capacity};
    ghost use Rattle.rule_matching.specs.PlaceMemory.{rooms};
    ghost use Rattle.rule_engine.specs.Engine.{EngineState, engine_with, IsAtWork};

    ghost Value = { EngineState };

    ghost view = { λ engine. engine_with (arc_value engine.indexed) engine.workspace.cache.items engine.workspace.options engine.workspace.inserted.text engine.workspace.chosen.items };

    ghost invariant = { λ engine. IsAtWork (arc_value engine.indexed) engine.workspace.cache engine.workspace.options engine.workspace.truths.items engine.workspace.inserted
        (vec_capacity engine.workspace.chosen) (rooms engine.workspace.places) };
}

/// Returns the number of stores of a file's keyboard: the stores of the file, then the layer and the platform.
#[tactic(auto, using(rule_index::proofs::StoreIndexes::count_of_all))]
fn keyboard_stores(file: &FileTables<'_>) -> u32
    requires { length file.now.stores ≤ STORES }
    ensures value { result ≡ length (tab file.now).stores }
    ensures few { result ≤ STORES + 2 }
{
    file.store_count() + 2
}

impl<'a> Engine<'a> {
    ghost use Rattle.rule_engine.specs.Engine.{IsEngine, first_engine, name_of, option_named, set_by_host, synced};
    ghost use Rattle.rule_matching.specs.MatchState.{saved_of};

    /// Creates the engine of a file: an empty text, each option with its elements, and no saved value. Errors: `Memory` if an
    /// allocation fails.
    #[tactic(auto, using(crate::proofs::Runnable::playable_is_runnable))]
    pub fn start(alloc: Global, file: &Verified<'a>) -> Result<Engine<'a>, Memory>
        ensures { IfOk result (λ engine. engine ≡ first_engine (tables_of file.now)) }
    {
        Engine::with_parts(alloc, file.parts())
    }

    /// Creates the engine of a file whose tables can be run. Errors: `Memory` if an allocation fails.
    #[tactic(auto, using(crate::proofs::Engines::first_is_at_work, crate::proofs::Engines::first_values))]
    fn with_parts(alloc: Global, file: FileTables<'a>) -> Result<Engine<'a>, Memory>
        requires { IsRunnable file }
        ensures { IfOk result (λ engine. engine ≡ first_engine file.entry) }
    {
        let mut workspace = Workspace::new(alloc, keyboard_stores(&file))?;
        let indexed = IndexedKeyboard::new(alloc, file)?;
        workspace.begin(&indexed);
        Ok(Engine {
            indexed: Arc::new(alloc, indexed)?,
            workspace,
        })
    }

    /// Creates a new engine on the same file, in the state that `start` returns. Both engines share the index, so the file isn't
    /// scanned again. Errors: `Memory` if an allocation fails.
    #[tactic(auto, using(crate::proofs::Engines::first_is_at_work, crate::proofs::Engines::first_values))]
    pub fn fresh(&self, alloc: Global) -> Result<Engine<'a>, Memory>
        ensures { IfOk result (λ engine. engine ≡ first_engine self.now.tables) }
    {
        let mut workspace = Workspace::new(alloc, self.indexed.store_count())?;
        workspace.begin(&self.indexed);
        Ok(Engine {
            indexed: Arc::try_clone(&self.indexed)?,
            workspace,
        })
    }

    /// Copies the engine with its state. Both engines share the index, so the file isn't scanned again. Errors: `Memory` if an
    /// allocation fails.
    pub fn copy(&self, alloc: Global) -> Result<Engine<'a>, Memory>
        ensures { IfOk result (λ engine. engine ≡ self.now) }
    {
        let workspace = self.workspace.copy(alloc, self.indexed.store_count())?;
        Ok(Engine {
            indexed: Arc::try_clone(&self.indexed)?,
            workspace,
        })
    }

    /// Presses a key. `left` is the text before the caret, which is read again first. The outcome describes the edit: delete that
    /// many characters at the end of `left`, then insert the text that `inserted` returns. If the key is passed on, the caller does
    /// what its editor does by default.
    pub fn key(&mut self, left: &[char], press: KeyPress) -> Outcome
        requires { length left.now < 2 ^ 32 }
        ensures outcome { result ≡ press_outcome left.now press self.old }
        ensures engine { self.new ≡ press_leaves left.now press self.old }
    {
        let none = Workspace::without_capacity(self.indexed.alloc());
        let workspace = mem::replace(&mut self.workspace, none);
        let done = pressed(&self.indexed, left, press, workspace);
        self.workspace = done.workspace;
        done.outcome
    }

    /// Returns what a press would do if the text before the caret were `left`, and does not change the engine. It copies what an
    /// event works on, but neither the text nor the index. Errors: `Memory` if an allocation fails.
    pub fn preview(&self, alloc: Global, left: &[char], press: KeyPress) -> Result<Preview, Memory>
        requires { length left.now < 2 ^ 32 }
        ensures outcome { IfOk result (λ preview. preview.outcome ≡ press_outcome left.now press self.now) }
        ensures inserted { IfOk result (λ preview. preview.inserted ≡ (press_leaves left.now press self.now).inserted) }
    {
        let workspace = self.workspace.copy(alloc, self.indexed.store_count())?;
        let done = pressed(&self.indexed, left, press, workspace);
        let inserted = Seq::from_slice(alloc, done.workspace.inserted.as_slice())?;
        Ok(Preview {
            outcome: done.outcome,
            inserted,
        })
    }

    /// Returns the characters that the last press inserted, and an empty slice before the first press.
    pub fn inserted(&self) -> &[char]
        ensures value { result.now ≡ self.now.inserted }
        ensures few { length result.now ≤ EVENT_PUTS }
    {
        self.workspace.inserted.as_slice()
    }

    /// Returns the source lines of the rules that the last press selected, in the order in which their groups were entered, and an
    /// empty slice before the first press.
    pub fn chosen(&self) -> &[u32]
        ensures value { result.now ≡ self.now.chosen }
        ensures few { length result.now ≤ EVENT_ENTRIES }
    {
        self.workspace.chosen.as_slice()
    }

    /// Returns the last 64 items before the caret, or all of them if there are fewer. All marks are among them.
    pub fn context(&self) -> &[Item]
        ensures value { result.now ≡ self.now.context }
        ensures engine { IsEngine self.now }
    {
        self.workspace.cache.items()
    }

    /// Reads the text before the caret again. A mark keeps its position if the text around it is the same.
    #[tactic(auto, using(crate::proofs::Windows::window_is_few))]
    pub fn sync(&mut self, left: &[char])
        requires { length left.now < 2 ^ 32 }
        ensures { self.new ≡ synced left.now self.old }
    {
        self.workspace.cache.sync(left);
    }

    /// Sets the current and the saved value of the option with a name. Names are compared without ASCII case. The first store with
    /// the name is found, then the layer (`&layer`) and the platform (`&platform`). A store without a name is never found. Returns
    /// whether there is such an option. Errors: `Memory` if an allocation fails.
    pub fn setting(&mut self, alloc: Global, name: &[u8], value: &[char]) -> Result<bool, Memory>
        ensures found { IfOk result (λ found. found ≡ is_some (option_named name.now self.old)) }
        ensures engine { MatchResult result (λ _. self.new ≡ set_by_host name.now value.now self.old) (λ _. self.new ≡ self.old) }
    {
        let indexed: &IndexedKeyboard<'_> = &self.indexed;
        let named = store_named(alloc, name, indexed)?;
        let Some(store) = named else {
            return Ok(false);
        };
        self.workspace.set_option(alloc, indexed, store, value)?;
        Ok(true)
    }

    /// Returns what each store holds: the stores of the file, then the layer and the platform.
    pub fn options(&self) -> &Options
        ensures current { option_values (tab self.now.tables).stores result.now ≡ self.now.current }
        ensures saved { option_saves (tab self.now.tables).stores result.now ≡ self.now.saved }
        ensures stores { length result.now ≡ length (tab self.now.tables).stores }
        ensures others { OthersHoldThemselves self.now.tables result.now }
    {
        &self.workspace.options
    }

    /// Returns the number of stores, with the layer and the platform.
    pub fn store_count(&self) -> u32
        ensures { result ≡ length (tab self.now.tables).stores }
    {
        self.indexed.store_count()
    }

    /// Returns the name of a store. The layer and the platform have the two numbers after those of the file. The name is empty if
    /// the store has none or does not exist. Errors: `Memory` if an allocation fails.
    pub fn name(&self, alloc: Global, store: u32) -> Result<Text, Memory>
        ensures { IfOk result (λ name. name ≡ name_of self.now.tables store) }
    {
        name_of(alloc, &self.indexed, store)
    }

    /// Returns the tables of the file.
    pub fn file(&self) -> FileTables<'a>
        ensures { result ≡ self.now.tables }
    {
        self.indexed.file()
    }

    /// Returns the names of the file's custom keys.
    pub fn names(&self) -> &KeyDictionary
        ensures { result.now ≡ (tab self.now.tables).dictionary }
    {
        self.indexed.names()
    }

    /// Returns the option number of each store, and None for a store that is not an option.
    pub fn option_numbers(&self) -> &[Option<usize>]
        ensures { result.now ≡ option_numbers 0 (tab self.now.tables).stores }
    {
        self.indexed.numbers()
    }

    /// Returns what a store has: the current value of an option, else the store's own elements. A store that does not exist has no
    /// elements.
    pub fn content(&self, store: u32) -> StoreValue<'_>
        ensures { elements_in result ≡ content (tab self.now.tables).stores self.now.current (Numbered store) }
    {
        rule_matching::content(&self.indexed, &self.workspace.options, store)
    }

    /// Returns the saved value of a store, and None if no value is saved or the store is not an option.
    pub fn saved_of(&self, store: u32) -> Option<StoreValue<'_>>
        ensures { option_map elements_in result ≡ saved_of (tab self.now.tables).stores self.now.saved store }
    {
        rule_matching::saved_of(&self.indexed, &self.workspace.options, store)
    }

    /// Returns what is held: the elements of a store, or this text of the host.
    #[tactic(auto, using(rule_matching::proofs::StoreContents::elements_held))]
    pub fn held<'c>(&'c self, held: Held, text: &'c [char]) -> StoreValue<'c>
        ensures { elements_in result ≡ held_value (stated (tab self.now.tables).stores) text.now held }
    {
        match held {
            Held::Store(store) => StoreValue::Elements(self.indexed.stated(store)),
            Held::Host => StoreValue::Text(text),
        }
    }
}

/// Performs a key press on this text with the values of a workspace, and returns the outcome and the workspace after the press.
fn pressed(
    indexed: &IndexedKeyboard,
    left: &[char],
    key: KeyPress,
    workspace: Workspace,
) -> AfterPress
    requires few { length left.now < 2 ^ 32 }
    requires work { IsAtWork indexed.now workspace.cache workspace.options workspace.truths.items workspace.inserted (vec_capacity workspace.chosen) (rooms workspace.places) }
    ensures outcome { result.outcome ≡ press_outcome left.now key (engine_with indexed.now workspace.cache.items workspace.options workspace.inserted.text workspace.chosen.items) }
    ensures engine { engine_with indexed.now result.workspace.cache.items result.workspace.options result.workspace.inserted.text result.workspace.chosen.items
        ≡ press_leaves left.now key (engine_with indexed.now workspace.cache.items workspace.options workspace.inserted.text workspace.chosen.items) }
    ensures work { IsAtWork indexed.now result.workspace.cache result.workspace.options result.workspace.truths.items result.workspace.inserted
        (vec_capacity result.workspace.chosen) (rooms result.workspace.places) }
{
    let mut event = PressEvent::begin(indexed, left, workspace);
    press(key, &mut event);
    event.finish()
}
