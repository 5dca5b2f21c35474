//! A session: a keyboard with the text that is typed with it, and its steps.

ghost use Rattle.std.specs.Prelude.{◌≡◌, ◌≢◌, ◌≤◌, false, length, IfOk, IfErr, Ok};
ghost use Rattle.kmn_base.specs.declared.events.Event.TheVariants as event;
ghost use Rattle.kmn_base.specs.declared.limits.TheConstants.{EVENT_ENTRIES, TEXT_CHARS};
ghost use Rattle.kmn_base.specs.Lists.{characters, window};
ghost use Rattle.kmx_format.specs.TablesOf.{tables_of};
ghost use Rattle.rule_engine.specs.Engine.{first_engine};
ghost use Rattle.rule_model.specs.Act.{one_more};
ghost use Rattle.rule_model.specs.Event.{whole_text, event_refusal, event_of};
ghost use Rattle.rule_model.specs.Tab.{tab};
ghost use Rattle.rule_model.specs.Trace.{first_state};

use crate::changes::{Change, put_changes};
use crate::options::{cells_now, option_stores};
use crate::playing::{Places, caret_event, edit_event, key_event, preview_key, setting_event};
use editor_model::{EditError, Editor};
use kmn_base::limits::TEXT_CHARS_AT_KEY;
use kmn_base::{Element, Event, KeyPress, Memory, Outcome, Seq, Text};
use kmx_verifier::Verified;
use rule_engine::{Engine, Preview};
use std::alloc::Global;
use std::marker::Model;
use thiserror::Error;

/// The outcome of an event that is not a key press.
const NO_OUTCOME: Outcome = Outcome {
    delete: 0,
    pass: false,
    beeps: 0,
    entered: 0,
    put: 0,
    saved: 0,
};

/// The reason why an event was not done.
#[derive(Debug, Drop, Error)]
pub enum StepError {
    /// A position is past the end of the text.
    #[error("refused E1")]
    Place,
    /// The text is or would be too long.
    #[error("refused E2")]
    Length,
    #[error("out of memory")]
    Memory,
}

impl From<Memory> for StepError {
    ghost use Rattle.std.specs.Prelude.{◌≡◌};
    ghost use Rattle.play_session.specs.declared.session.StepError.TheVariants as error;

    ghost from_gives = { λ _ given. given ≡ error.Memory };

    fn from(_memory: Memory) -> StepError {
        StepError::Memory
    }
}

impl From<EditError> for StepError {
    ghost use Rattle.std.specs.Prelude.{◌≡◌};
    ghost use Rattle.editor_model.specs.Answers.{code_of as edit_code};
    ghost use Rattle.play_session.specs.Answers.{code_of};

    ghost from_gives = { λ error given. code_of given ≡ edit_code error };

    fn from(error: EditError) -> StepError {
        match error {
            EditError::Place => StepError::Place,
            EditError::Length => StepError::Length,
            EditError::Memory => StepError::Memory,
        }
    }
}

/// The outcome of an event that was done, with the number of the step. Numbers start at 1 and saturate at the maximum of the type.
#[derive(Clone, Copy, Debug, PartialEq, Eq)]
pub struct Step {
    pub number: u32,
    pub outcome: Outcome,
}

/// A keyboard and the text that is typed with it.
pub struct Session<'a> {
    engine: Engine<'a>,
    editor: Editor,
    number: u32,
    /// False if the last step was not a key press. The engine's inserted text and selected lines are then those of an earlier step.
    typed: bool,
    /// The numbers of the stores that are options, in rising order. No event changes another store.
    options: Vec<u32>,
    changes: Vec<Change>,
}

/// Keeps drops short in proofs: this drop is one call, and a derived drop is written out at each exit.
impl Drop for Session<'_> {
    fn drop(self) {
        let Session {
            engine: _,
            editor: _,
            number: _,
            typed: _,
            options: _,
            changes: _,
        } = self;
    }
}

impl<'a> Model for Session<'a> {
    ghost use Rattle.std.specs.Prelude.{vec_capacity};
    ghost use Rattle.kmn_base.specs.declared.limits.TheConstants.{TEXT_CHARS};
    ghost use Rattle.play_session.specs.Session.{SessionState, AreTogether, HasCapacity, session_of};

    ghost Value = { SessionState };

    ghost view = { λ session. session_of session.engine session.editor session.number session.typed session.changes.items };

    ghost invariant = { λ session. AreTogether TEXT_CHARS session.engine session.editor
        × HasCapacity session.engine.tables session.options.items (vec_capacity session.changes) };
}

impl<'a> Session<'a> {
    ghost use Rattle.context_cache.specs.Cached.{text_with_context};
    ghost use Rattle.play_session.specs.Session.{TellsPress, engine_of, first_session, happened, after_step};
    ghost use Rattle.play_session.specs.Answers.{step_of, code_of, takes_memory};
    ghost use Rattle.rule_engine.specs.Engine.{name_of};
    ghost use Rattle.play_session.specs.Printed.{value_of};

    /// Creates a session before its first event: the text is empty, each option has its elements, and no value is saved.
    ///
    /// Errors: `Memory` if an allocation fails.
    pub fn start(alloc: Global, file: &Verified<'a>) -> Result<Session<'a>, Memory>
        ensures { IfOk result (λ session. session ≡ first_session (tables_of file.now)) }
    {
        Session::with_engine(alloc, Engine::start(alloc, file)?)
    }

    /// Creates a session with an engine that is before its first press.
    pub(crate) fn with_engine(alloc: Global, engine: Engine<'a>) -> Result<Session<'a>, Memory>
        requires { engine ≡ first_engine engine.tables }
        ensures { IfOk result (λ session. session ≡ first_session engine.entry.tables) }
    {
        let options = option_stores(alloc, &engine)?;
        let changes = Vec::with_capacity(alloc, 2 * options.len())?;
        Ok(Session {
            engine,
            editor: Editor::new(alloc),
            number: 0,
            typed: true,
            options,
            changes,
        })
    }

    /// Creates a session on the same file, in the state that `start` returns. The two sessions share the index of the file, so the file
    /// is not scanned again.
    pub fn fresh(&self, alloc: Global) -> Result<Session<'a>, Memory>
        ensures { IfOk result (λ session. session ≡ first_session self.now.tables) }
    {
        Session::with_engine(alloc, self.engine.fresh(alloc)?)
    }

    /// Creates a session on the same file, in the state of this session. An event in one of the two does not change the other.
    pub fn copy(&self, alloc: Global) -> Result<Session<'a>, Memory>
        ensures { IfOk result (λ session. session ≡ self.now) }
    {
        let mut options = Vec::with_capacity(alloc, self.options.len())?;
        options.extend_from_slice(self.options.as_slice())?;
        let mut changes = Vec::with_capacity(alloc, self.changes.capacity())?;
        changes.extend_from_slice(self.changes.as_slice())?;
        let editor = self.editor.copy(alloc)?;
        let engine = self.engine.copy(alloc)?;
        Ok(Session {
            engine,
            editor,
            number: self.number,
            typed: self.typed,
            options,
            changes,
        })
    }

    /// Performs an event and returns its step. An event allocates before it acts, and a caret move does not allocate.
    ///
    /// Errors: `Place` or `Length` exactly when the meaning refuses the event; `Memory` if an allocation fails. After an error the
    /// session is unchanged.
    pub fn step(&mut self, alloc: Global, event: &Event) -> Result<Step, StepError>
        ensures happens { IfOk result (λ _. event_of (tab self.old.tables) self.old.state event.now ≡ Ok (happened self.old event.now)) }
        ensures answer { IfOk result (λ step. step ≡ step_of self.old event.now) }
        ensures leaves { IfOk result (λ _. self.new ≡ after_step self.old event.now) }
        ensures refused { IfErr result (λ error. code_of error ≡ event_refusal self.old.state event.now) }
        ensures no_memory { IfErr result (λ error. takes_memory event.now ≡ false → error ≢ StepError.Memory) }
        ensures unchanged { IfErr result (λ _. self.new ≡ self.old) }
    {
        match event {
            Event::Key(press) => self.key(alloc, *press),
            Event::Setting { name, value } => {
                self.setting(alloc, name.as_slice(), value.as_slice())
            }
            Event::Caret(place) => self.caret(*place),
            Event::Edit { from, to, text } => self.edit(alloc, *from, *to, text.as_slice()),
        }
    }

    /// Performs a key press. Copies and compares only the stores that are options, which include the layer and the platform, so the
    /// cost depends on their number and not on the number of all stores.
    #[tactic(auto, unfolding(rule_model::specs::Event::happening))]
    fn key(&mut self, alloc: Global, press: KeyPress) -> Result<Step, StepError>
        ensures happens { IfOk result (λ _. event_of (tab self.old.tables) self.old.state (event.Key press) ≡ Ok (happened self.old (event.Key press))) }
        ensures answer { IfOk result (λ step. step ≡ step_of self.old (event.Key press)) }
        ensures leaves { IfOk result (λ _. self.new ≡ after_step self.old (event.Key press)) }
        ensures refused { IfErr result (λ error. code_of error ≡ event_refusal self.old.state (event.Key press)) }
        ensures unchanged { IfErr result (λ _. self.new ≡ self.old) }
    {
        if self.editor.len() > TEXT_CHARS_AT_KEY {
            return Err(StepError::Length);
        }
        let before = cells_now(alloc, &self.engine, self.options.as_slice())?;
        let outcome = key_event(alloc, &mut self.engine, &mut self.editor, press)?;
        self.changes.clear();
        put_changes(
            &mut self.changes,
            &self.engine,
            self.options.as_slice(),
            before.as_slice(),
        );
        self.typed = true;
        Ok(next_step(&mut self.number, outcome))
    }

    /// Performs an option change by the host.
    #[tactic(auto, unfolding(rule_model::specs::Event::happening))]
    fn setting(&mut self, alloc: Global, name: &[u8], value: &[char]) -> Result<Step, StepError>
        ensures happens { IfOk result (λ _. event_of (tab self.old.tables) self.old.state (event.Setting name.now value.now) ≡ Ok (happened self.old (event.Setting name.now value.now))) }
        ensures answer { IfOk result (λ step. step ≡ step_of self.old (event.Setting name.now value.now)) }
        ensures leaves { IfOk result (λ _. self.new ≡ after_step self.old (event.Setting name.now value.now)) }
        ensures refused { IfErr result (λ error. code_of error ≡ event_refusal self.old.state (event.Setting name.now value.now)) }
        ensures unchanged { IfErr result (λ _. self.new ≡ self.old) }
    {
        let before = cells_now(alloc, &self.engine, self.options.as_slice())?;
        setting_event(alloc, &mut self.engine, &self.editor, name, value)?;
        self.changes.clear();
        put_changes(
            &mut self.changes,
            &self.engine,
            self.options.as_slice(),
            before.as_slice(),
        );
        self.typed = false;
        Ok(next_step(&mut self.number, NO_OUTCOME))
    }

    /// Performs a caret move.
    #[tactic(auto, using(crate::proofs::Changing::nothing_changes), unfolding(rule_model::specs::Event::happening))]
    fn caret(&mut self, place: u32) -> Result<Step, StepError>
        ensures happens { IfOk result (λ _. event_of (tab self.old.tables) self.old.state (event.Caret place) ≡ Ok (happened self.old (event.Caret place))) }
        ensures answer { IfOk result (λ step. step ≡ step_of self.old (event.Caret place)) }
        ensures leaves { IfOk result (λ _. self.new ≡ after_step self.old (event.Caret place)) }
        ensures refused { IfErr result (λ error. code_of error ≡ event_refusal self.old.state (event.Caret place)) }
        ensures no_memory { IfErr result (λ error. error ≢ StepError.Memory) }
        ensures unchanged { IfErr result (λ _. self.new ≡ self.old) }
    {
        caret_event(&mut self.engine, &mut self.editor, place)?;
        self.changes.clear();
        self.typed = false;
        Ok(next_step(&mut self.number, NO_OUTCOME))
    }

    /// Performs an external edit.
    #[tactic(auto, using(crate::proofs::Changing::nothing_changes), unfolding(rule_model::specs::Event::happening))]
    fn edit(&mut self, alloc: Global, from: u32, to: u32, text: &[char]) -> Result<Step, StepError>
        ensures happens { IfOk result (λ _. event_of (tab self.old.tables) self.old.state (event.Edit from to text.now) ≡ Ok (happened self.old (event.Edit from to text.now))) }
        ensures answer { IfOk result (λ step. step ≡ step_of self.old (event.Edit from to text.now)) }
        ensures leaves { IfOk result (λ _. self.new ≡ after_step self.old (event.Edit from to text.now)) }
        ensures refused { IfErr result (λ error. code_of error ≡ event_refusal self.old.state (event.Edit from to text.now)) }
        ensures unchanged { IfErr result (λ _. self.new ≡ self.old) }
    {
        let places = Places { from, to };
        edit_event(alloc, &mut self.engine, &mut self.editor, places, text)?;
        self.changes.clear();
        self.typed = false;
        Ok(next_step(&mut self.number, NO_OUTCOME))
    }

    /// Returns what a key press would do as the next event: its outcome, and the text that it would insert. Does not change the
    /// session.
    ///
    /// Errors: `Length` exactly when the event would be refused with it; `Memory` if an allocation fails.
    #[tactic(auto, unfolding(rule_model::specs::Event::happening))]
    pub fn preview(&self, alloc: Global, press: KeyPress) -> Result<Preview, StepError>
        ensures happens { IfOk result (λ _. event_of (tab self.now.tables) self.now.state (event.Key press) ≡ Ok (happened self.now (event.Key press))) }
        ensures outcome { IfOk result (λ preview. preview.outcome ≡ (happened self.now (event.Key press)).outcome) }
        ensures inserted { IfOk result (λ preview. preview.inserted ≡ (happened self.now (event.Key press)).inserted) }
        ensures refused { IfErr result (λ error. code_of error ≡ event_refusal self.now.state (event.Key press)) }
    {
        if self.editor.len() > TEXT_CHARS_AT_KEY {
            return Err(StepError::Length);
        }
        Ok(preview_key(alloc, &self.engine, &self.editor, press)?)
    }

    /// Returns the text with its caret. The left list of the state that the session represents is the text before the caret, with the
    /// engine's cached context as its last items.
    pub fn editor(&self) -> &Editor
        ensures left { result.now.left ≡ characters self.now.state.left }
        ensures right { result.now.right ≡ self.now.state.right }
        ensures few { length (whole_text self.now.state) ≤ TEXT_CHARS }
        ensures context { self.now.state.left ≡ text_with_context result.now.left (window self.now.state.left) }
    {
        &self.editor
    }

    /// Returns the engine, with its cached context. Its inserted text and chosen lines are those of the last key event, even if other
    /// steps followed it. Before the first key event, both are empty.
    pub fn engine(&self) -> &Engine<'a>
        ensures value { result.now ≡ engine_of self.now }
        ensures press { TellsPress self.now result.now }
        ensures names { self.now.state.names ≡ (first_state (tab self.now.tables)).names }
    {
        &self.engine
    }

    /// Returns the characters that the keyboard inserted in the last step, or an empty slice if the step was not a key press. A
    /// character that the editor inserts by default is not among them.
    pub fn inserted(&self) -> &[char]
        ensures { result.now ≡ self.now.inserted }
    {
        if self.typed {
            self.engine.inserted()
        } else {
            &[]
        }
    }

    /// Returns the lines of the rules that fired in the last step, in the order in which their groups were entered. Returns none if
    /// the step was not a press.
    pub fn chosen(&self) -> &[u32]
        ensures value { result.now ≡ self.now.chosen }
        ensures few { length result.now ≤ EVENT_ENTRIES }
    {
        if self.typed {
            self.engine.chosen()
        } else {
            &[]
        }
    }

    /// Returns the option values that the last step changed, by store number, the current value before the saved value. The layer and
    /// the platform have the two numbers after the stores of the file.
    pub fn changes(&self) -> &[Change]
        ensures { result.now ≡ self.now.changes }
    {
        self.changes.as_slice()
    }

    /// Returns the current or the saved value of a store, or of the layer or the platform, which have the two numbers after the stores.
    /// The current value of a store that is not an option is its elements, and it has no saved value. Returns `None` exactly for a
    /// saved value that does not exist.
    ///
    /// Errors: `Memory` if an allocation fails.
    pub fn value(
        &self,
        alloc: Global,
        store: u32,
        saved: bool,
    ) -> Result<Option<Seq<Element>>, Memory>
        ensures { IfOk result (λ value. value ≡ value_of self.now store saved) }
    {
        if !saved {
            return Ok(Some(self.engine.content(store).copy(alloc)?));
        }
        match self.engine.saved_of(store) {
            Some(value) => Ok(Some(value.copy(alloc)?)),
            None => Ok(None),
        }
    }

    /// Returns the name of a store, or of the layer or the platform. The name is empty if the store has no name or does not exist.
    ///
    /// Errors: `Memory` if an allocation fails.
    pub fn name(&self, alloc: Global, store: u32) -> Result<Text, Memory>
        ensures { IfOk result (λ name. name ≡ name_of self.now.tables store) }
    {
        self.engine.name(alloc, store)
    }
}

/// Increments the number and returns the step with this number.
fn next_step(number: &mut u32, outcome: Outcome) -> Step
    ensures number { number.new ≡ one_more number.old }
    ensures step { result ≡ record { number = one_more number.old; outcome = outcome } }
{
    *number = number.saturating_add(1);
    Step {
        number: *number,
        outcome,
    }
}
