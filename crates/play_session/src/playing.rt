//! Performs each kind of event on the engine and the editor together, so that both have the same text before the caret.

ghost use Rattle.std.specs.Prelude.{◌≡◌, ◌≢◌, ◌+◌, ◌≤◌, None, IfOk, IfErr};
ghost use Rattle.kmn_base.specs.declared.events.Event.TheVariants as event;
ghost use Rattle.kmn_base.specs.declared.limits.TheConstants.{EVENT_PUTS, TEXT_CHARS, TEXT_CHARS_AT_KEY};
ghost use Rattle.rule_model.specs.ChosenLines.{chosen};
ghost use Rattle.rule_model.specs.KeyEvent.{outcome_of, inserted};
ghost use Rattle.rule_model.specs.Event.{by_editor, key_event, caret_event, edit_event, setting_event, event_refusal};
ghost use Rattle.rule_model.specs.Tab.{tab};
ghost use Rattle.play_session.specs.Answers.{code_of};
ghost use Rattle.play_session.specs.Session.{AreTogether, stands_for};
ghost use Rattle.play_session.specs.Playing.{press_gives, acted};

use crate::session::StepError;
use editor_model::Editor;
use kmn_base::limits::EVENT_PUTS;
use kmn_base::{KeyPress, Memory, Outcome};
use rule_engine::{Engine, Preview};
use std::alloc::Global;

/// The largest number of characters that a key press inserts, and one character that the editor may insert by itself.
const KEY_CHARS: usize = EVENT_PUTS as usize + 1;

/// The positions where an edit begins and where the text that it replaces ends.
#[derive(Clone, Copy)]
pub(crate) struct Places {
    pub(crate) from: u32,
    pub(crate) to: u32,
}

/// Performs a key event. Reserves space for all that it may insert first, so the text is unchanged if an allocation fails.
#[tactic(auto, using(crate::proofs::Moves::same_text))]
pub(crate) fn key_event(
    alloc: Global,
    engine: &mut Engine,
    editor: &mut Editor,
    press: KeyPress,
) -> Result<Outcome, Memory>
    requires together { AreTogether TEXT_CHARS_AT_KEY engine.old editor.old }
    ensures together { AreTogether TEXT_CHARS engine.new editor.new }
    ensures tables { engine.new.tables ≡ engine.old.tables }
    ensures outcome { IfOk result (λ outcome. outcome ≡ (key_event (tab engine.old.tables) press (stands_for engine.old editor.old)).outcome) }
    ensures state { IfOk result (λ _. stands_for engine.new editor.new ≡ (key_event (tab engine.old.tables) press (stands_for engine.old editor.old)).after) }
    ensures inserted { IfOk result (λ _. engine.new.inserted ≡ (key_event (tab engine.old.tables) press (stands_for engine.old editor.old)).inserted) }
    ensures chosen { IfOk result (λ _. engine.new.chosen ≡ chosen (tab engine.old.tables) (stands_for engine.old editor.old) (event.Key press)) }
    ensures unchanged { IfErr result (λ _. stands_for engine.new editor.new ≡ stands_for engine.old editor.old) }
    ensures engine { IfErr result (λ _. engine.new ≡ engine.old) }
{
    editor.reserve(alloc, KEY_CHARS)?;
    let outcome = press_key(engine, editor, press);
    if outcome.pass {
        pass_on(engine, editor, press);
    }
    Ok(outcome)
}

/// Presses a key and makes its edit before the caret.
fn press_key(engine: &mut Engine, editor: &mut Editor, press: KeyPress) -> Outcome
    requires together { AreTogether TEXT_CHARS_AT_KEY engine.old editor.old }
    requires room { EVENT_PUTS + 1 ≤ editor.old.spare }
    ensures together { AreTogether (TEXT_CHARS_AT_KEY + EVENT_PUTS) engine.new editor.new }
    ensures tables { engine.new.tables ≡ engine.old.tables }
    ensures outcome { result ≡ outcome_of (stands_for engine.old editor.old).left (press_gives engine.old.tables press (stands_for engine.old editor.old)) }
    ensures state { stands_for engine.new editor.new ≡ acted (press_gives engine.old.tables press (stands_for engine.old editor.old)) (stands_for engine.old editor.old) }
    ensures inserted { engine.new.inserted ≡ inserted (stands_for engine.old editor.old).left (press_gives engine.old.tables press (stands_for engine.old editor.old)).left }
    ensures chosen { engine.new.chosen ≡ chosen (tab engine.old.tables) (stands_for engine.old editor.old) (event.Key press) }
    ensures room { 1 ≤ editor.new.spare }
{
    let outcome = engine.key(editor.left(), press);
    editor.apply(outcome.delete, engine.inserted());
    outcome
}

/// Performs the editor's default for a key that was passed on, and reads the text before the caret again.
fn pass_on(engine: &mut Engine, editor: &mut Editor, press: KeyPress)
    requires together { AreTogether (TEXT_CHARS_AT_KEY + EVENT_PUTS) engine.old editor.old }
    requires room { 1 ≤ editor.old.spare }
    ensures together { AreTogether TEXT_CHARS engine.new editor.new }
    ensures tables { engine.new.tables ≡ engine.old.tables }
    ensures state { stands_for engine.new editor.new ≡ by_editor press (stands_for engine.old editor.old) }
    ensures inserted { engine.new.inserted ≡ engine.old.inserted }
    ensures chosen { engine.new.chosen ≡ engine.old.chosen }
{
    editor.passed(press);
    engine.sync(editor.left());
}

/// Returns what a key press would do. Changes neither the engine nor the editor.
#[tactic(auto, using(crate::proofs::Presses::press_is_done, crate::proofs::Presses::press_inserts))]
pub(crate) fn preview_key(
    alloc: Global,
    engine: &Engine,
    editor: &Editor,
    press: KeyPress,
) -> Result<Preview, Memory>
    requires together { AreTogether TEXT_CHARS_AT_KEY engine.now editor.now }
    ensures outcome { IfOk result (λ preview. preview.outcome ≡ (key_event (tab engine.now.tables) press (stands_for engine.now editor.now)).outcome) }
    ensures inserted { IfOk result (λ preview. preview.inserted ≡ (key_event (tab engine.now.tables) press (stands_for engine.now editor.now)).inserted) }
{
    engine.preview(alloc, editor.left(), press)
}

/// Performs a caret event. Does not allocate.
#[tactic(auto, using(crate::proofs::Moves::caret_steps))]
pub(crate) fn caret_event(
    engine: &mut Engine,
    editor: &mut Editor,
    place: u32,
) -> Result<(), StepError>
    requires together { AreTogether TEXT_CHARS engine.old editor.old }
    ensures together { AreTogether TEXT_CHARS engine.new editor.new }
    ensures tables { engine.new.tables ≡ engine.old.tables }
    ensures happens { IfOk result (λ _. event_refusal (stands_for engine.old editor.old) (event.Caret place) ≡ None) }
    ensures state { IfOk result (λ _. stands_for engine.new editor.new ≡ caret_event place (stands_for engine.old editor.old)) }
    ensures refused { IfErr result (λ error. code_of error ≡ event_refusal (stands_for engine.old editor.old) (event.Caret place)) }
    ensures no_memory { IfErr result (λ error. error ≢ StepError.Memory) }
    ensures unchanged { IfErr result (λ _. stands_for engine.new editor.new ≡ stands_for engine.old editor.old) }
    ensures inserted { engine.new.inserted ≡ engine.old.inserted }
    ensures chosen { engine.new.chosen ≡ engine.old.chosen }
{
    editor.caret(place)?;
    engine.sync(editor.left());
    Ok(())
}

/// Performs an external edit.
#[tactic(auto, using(crate::proofs::Moves::edit_steps))]
pub(crate) fn edit_event(
    alloc: Global,
    engine: &mut Engine,
    editor: &mut Editor,
    places: Places,
    text: &[char],
) -> Result<(), StepError>
    requires together { AreTogether TEXT_CHARS engine.old editor.old }
    ensures together { AreTogether TEXT_CHARS engine.new editor.new }
    ensures tables { engine.new.tables ≡ engine.old.tables }
    ensures happens { IfOk result (λ _. event_refusal (stands_for engine.old editor.old) (event.Edit places.from places.to text.now) ≡ None) }
    ensures state { IfOk result (λ _. stands_for engine.new editor.new ≡ edit_event places.from places.to text.now (stands_for engine.old editor.old)) }
    ensures refused { IfErr result (λ error. code_of error ≡ event_refusal (stands_for engine.old editor.old) (event.Edit places.from places.to text.now)) }
    ensures unchanged { IfErr result (λ _. stands_for engine.new editor.new ≡ stands_for engine.old editor.old) }
    ensures inserted { engine.new.inserted ≡ engine.old.inserted }
    ensures chosen { engine.new.chosen ≡ engine.old.chosen }
{
    editor.edit(alloc, places.from, places.to, text)?;
    engine.sync(editor.left());
    Ok(())
}

/// Performs an option change by the host. Only the contract uses the editor: a state contains its text.
#[tactic(auto, using(crate::proofs::Moves::setting_steps))]
pub(crate) fn setting_event(
    alloc: Global,
    engine: &mut Engine,
    editor: &Editor,
    name: &[u8],
    value: &[char],
) -> Result<(), Memory>
    requires together { AreTogether TEXT_CHARS engine.old editor.now }
    ensures together { AreTogether TEXT_CHARS engine.new editor.now }
    ensures tables { engine.new.tables ≡ engine.old.tables }
    ensures state { IfOk result (λ _. stands_for engine.new editor.now ≡ setting_event name.now value.now (stands_for engine.old editor.now)) }
    ensures unchanged { IfErr result (λ _. engine.new ≡ engine.old) }
    ensures inserted { engine.new.inserted ≡ engine.old.inserted }
    ensures chosen { engine.new.chosen ≡ engine.old.chosen }
{
    engine.setting(alloc, name, value)?;
    Ok(())
}
