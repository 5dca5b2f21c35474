//! An open field: a keyboard with the text that is typed with it, and the calls on both.

ghost use Rattle.std.specs.Prelude.{◌≡◌, ◌<◌, ◌≤◌, length, [], ◌∷◌, get_or, None, Some, true, unwrap_or, slice_get, encode_utf8_all, IfOk, IfErr, MatchResult};
ghost use Rattle.std.specs.Option.{option_map};
ghost use Rattle.std.specs.Str.{all_scalars};
ghost use Rattle.kmn_base.specs.declared.events.Event.TheVariants as event;
ghost use Rattle.kmn_base.specs.declared.limits.TheConstants.{TEXT_CHARS};
ghost use Rattle.kmn_base.specs.Lists.{characters, window};
ghost use Rattle.kmx_format.specs.TablesOf.{tables_of};
ghost use Rattle.kmx_verifier.specs.FaultOf.{fault_of, IsRefusal};
ghost use Rattle.virtual_keys.specs.Keys.{key_code};
ghost use Rattle.rule_model.specs.Event.{event_refusal, whole_text};
ghost use Rattle.rule_model.specs.Plain.{option_numbers};
ghost use Rattle.rule_model.specs.Tab.{tab};
ghost use Rattle.rule_engine.specs.Engine.{name_of};
ghost use Rattle.play_session.specs.Session.{first_session, happened, after_step};
ghost use Rattle.curlew_calls.specs.Answers.{IsCause, IsCaretCause, IsSettingCause};
ghost use Rattle.curlew_calls.specs.Calls.{key, Happens, edit_of, text_at, edit_before, at_new_place, with_text_before, knows_option, is_option_named, own_key_code, store_count, store_name, store_value};
ghost use Rattle.play_session.specs.Changes.{option_stores};
ghost use Rattle.curlew_calls.specs.Numbers.{written, item_numbers, element_numbers};

use crate::errors::CallError;
use crate::{
    characters, put_bytes, put_characters, put_elements, put_items, put_options, put_utf8,
};
use kmn_base::names::same_name;
use kmn_base::{Event, KeyPress, Memory, Seq};
use kmx_verifier::{VerifyError, verify};
use play_session::{Change, Session};
use std::alloc::Global;
use std::marker::Model;
use virtual_keys::key_named;

/// The result of a key press.
#[repr(C)]
#[derive(Clone, Copy, Debug, PartialEq, Eq)]
pub struct Edit {
    /// The number of characters that are deleted before the caret, before any is inserted.
    pub deleted: u32,
    /// 1 if the keyboard has nothing for the key, so that the application does what the key does; otherwise 0.
    pub passed: u32,
    pub beeps: u32,
    /// The number of characters that are then inserted before the caret.
    pub inserted: usize,
    /// The number of option values that changed.
    pub changes: usize,
}

/// An open keyboard, and the text that is typed with it.
#[derive(Drop)]
pub struct OpenField {
    session: Session<'static>,
}

impl Model for OpenField {
    ghost use Rattle.play_session.specs.Session.{SessionState};

    ghost Value = { SessionState };

    ghost view = { λ field. field.session };
}

impl OpenField {
    /// Opens an untrusted file with an empty text.
    ///
    /// Errors: `Refused` with the first fault of the file; `Memory` if an allocation fails.
    pub fn open(alloc: Global, file: &'static [u8]) -> Result<OpenField, VerifyError>
        ensures { MatchResult result
            (λ field. (fault_of file.now ≡ None) × (field ≡ first_session (tables_of file.now)))
            (λ error. IsRefusal error (λ fault. fault_of file.now ≡ Some fault)) }
    {
        let keyboard = verify(alloc, file)?;
        match Session::start(alloc, &keyboard) {
            Ok(session) => Ok(OpenField { session }),
            Err(_) => Err(VerifyError::Memory),
        }
    }

    /// Creates another field on the same file, with the same text and options. Does not scan the file again.
    pub fn copy(&self, alloc: Global) -> Result<OpenField, Memory>
        ensures { IfOk result (λ field. field ≡ self.now) }
    {
        Ok(OpenField {
            session: self.session.copy(alloc)?,
        })
    }

    /// Presses a key. `code` and `mods` are the fields of a `KeyPress`.
    ///
    /// Errors: `Length` exactly when the text is too long for a key press; `Memory` if an allocation fails.
    #[tactic(auto, using(crate::proofs::Causes::step_cause, crate::proofs::Causes::key_happens), unfolding(rule_model::specs::Event::happening))]
    pub fn key(&mut self, alloc: Global, code: u16, mods: u16) -> Result<Edit, CallError>
        ensures happens { IfOk result (λ _. Happens self.old (key code mods)) }
        ensures edit { IfOk result (λ edit. edit ≡ edit_of (happened self.old (key code mods)) (length self.new.changes)) }
        ensures leaves { IfOk result (λ _. self.new ≡ after_step self.old (key code mods)) }
        ensures refused { IfErr result (λ error. IsCause [] (event_refusal self.old.state (key code mods)) error) }
        ensures unchanged { IfErr result (λ _. self.new ≡ self.old) }
    {
        let press = KeyPress { code, mods };
        let step = self.session.step(alloc, &Event::Key(press))?;
        Ok(Edit {
            deleted: step.outcome.delete,
            passed: u32::from(step.outcome.pass),
            beeps: step.outcome.beeps,
            inserted: self.session.inserted().len(),
            changes: self.session.changes().len(),
        })
    }

    /// Returns what a key press would do, without doing it, and writes the text that it would insert to the buffer `room`. The
    /// number of changed option values is always 0.
    #[tactic(auto, using(crate::proofs::Causes::step_cause, crate::proofs::Causes::key_happens))]
    pub fn preview(
        &self,
        alloc: Global,
        code: u16,
        mods: u16,
        room: &mut [u32],
    ) -> Result<Edit, CallError>
        ensures happens { IfOk result (λ _. Happens self.now (key code mods)) }
        ensures edit { IfOk result (λ edit. edit ≡ edit_of (happened self.now (key code mods)) 0) }
        ensures room { IfOk result (λ _. room.new ≡ written (happened self.now (key code mods)).inserted room.old) }
        ensures refused { IfErr result (λ error. IsCause [] (event_refusal self.now.state (key code mods)) error) }
        ensures unchanged { IfErr result (λ _. room.new ≡ room.old) }
    {
        let preview = self.session.preview(alloc, KeyPress { code, mods })?;
        Ok(Edit {
            deleted: preview.outcome.delete,
            passed: u32::from(preview.outcome.pass),
            beeps: preview.outcome.beeps,
            inserted: put_characters(room, preview.inserted.as_slice()),
            changes: 0,
        })
    }

    /// Writes the text that the last step inserted to a buffer as code points, and returns its length. It is empty if that step was
    /// not a key press.
    pub fn inserted(&self, room: &mut [u32]) -> usize
        ensures length { result ≡ length self.now.inserted }
        ensures room { room.new ≡ written self.now.inserted room.old }
    {
        put_characters(room, self.session.inserted())
    }

    /// Writes the text that the last step inserted to a buffer as UTF-8, and returns its size in bytes.
    pub fn inserted_utf8(&self, room: &mut [u8]) -> usize
        ensures length { result ≡ length (encode_utf8_all self.now.inserted) }
        ensures room { room.new ≡ written (encode_utf8_all self.now.inserted) room.old }
    {
        put_utf8(room, self.session.inserted())
    }

    /// Sets the text before the caret; the text after it is unchanged. Marks (deadkeys in the item list) remain if the text around
    /// them does. If `text` is empty, the field moves to a new position, where no mark remains unless the window has 64 marks.
    ///
    /// Errors: `Character` if a number is not a character; otherwise `Length` exactly when the whole text would be too long;
    /// `Memory` if an allocation fails.
    pub fn before(&mut self, alloc: Global, text: &[u32]) -> Result<(), CallError>
        ensures happens { IfOk result (λ _. Happens self.old (edit_before text.now self.old.state)) }
        ensures leaves { IfOk result (λ _. self.new ≡ with_text_before text.now self.old) }
        ensures characters { IfOk result (λ _. all_scalars text.now ≡ true) }
        ensures refused { IfErr result (λ error. IsCause text.now (event_refusal self.old.state (edit_before text.now self.old.state)) error) }
        ensures unchanged { IfErr result (λ _. self.new ≡ self.old) }
    {
        let end = self.session.editor().left().len() as u32;
        if end > 0 {
            return self.replace(alloc, 0, end, text);
        }
        if text.is_empty() {
            return self.come_to_new_place(alloc);
        }
        *self = self.begun_before(alloc, text)?;
        Ok(())
    }

    /// Moves the field to a new position, with no character before the caret. If a character follows the caret, the caret moves over
    /// it and back, so only a field without text allocates.
    fn come_to_new_place(&mut self, alloc: Global) -> Result<(), CallError>
        requires nothing { characters self.old.state.left ≡ [] }
        ensures leaves { IfOk result (λ _. self.new ≡ at_new_place self.old) }
        ensures refused { IfErr result (λ error. error ≡ CallError.Memory) }
        ensures unchanged { IfErr result (λ _. self.new ≡ self.old) }
    {
        if self.session.editor().right().is_empty() {
            *self = self.emptied(alloc)?;
            return Ok(());
        }
        self.caret(alloc, 1)?;
        self.caret(alloc, 0)?;
        Ok(())
    }

    /// Returns a copy of a field without text that is at a new position: an x is inserted, the caret moves past it, and it is
    /// deleted. These steps are never refused.
    fn emptied(&self, alloc: Global) -> Result<OpenField, CallError>
        requires nothing { length (whole_text self.now.state) ≡ 0 }
        ensures begins { IfOk result (λ field. field ≡ after_step (after_step (after_step self.now (event.Edit 0 0 (0x78 ∷ []))) (event.Caret 1)) (event.Edit 0 1 [])) }
        ensures refused { IfErr result (λ error. error ≡ CallError.Memory) }
    {
        let mut field = self.copy(alloc)?;
        field.replace(alloc, 0, 0, &['x' as u32])?;
        field.caret(alloc, 1)?;
        field.replace(alloc, 0, 1, &[])?;
        Ok(field)
    }

    /// Returns a copy of a field with no character before the caret, in which this text is before it. The position after the text
    /// exists, so the caret move to it is never refused.
    #[tactic(auto, using(crate::proofs::Begun::never_kept_from))]
    fn begun_before(&self, alloc: Global, text: &[u32]) -> Result<OpenField, CallError>
        requires { characters self.now.state.left ≡ [] }
        ensures happens { IfOk result (λ _. Happens self.now (event.Edit 0 0 text.now)) }
        ensures begins { IfOk result (λ field. field ≡ after_step (after_step self.now (event.Edit 0 0 text.now)) (event.Caret (length text.now))) }
        ensures characters { IfOk result (λ _. all_scalars text.now ≡ true) }
        ensures refused { IfErr result (λ error. IsCause text.now (event_refusal self.now.state (event.Edit 0 0 text.now)) error) }
    {
        let mut field = self.copy(alloc)?;
        field.replace(alloc, 0, 0, text)?;
        field.caret(alloc, text.len() as u32)?;
        Ok(field)
    }

    /// Moves the caret to a position in the whole text, counted in characters from its start.
    ///
    /// Errors: only `Place`, exactly when the position is past the end of the text. A caret move does not allocate.
    #[tactic(auto, using(crate::proofs::Causes::caret_cause, crate::proofs::Causes::caret_happens))]
    pub fn caret(&mut self, alloc: Global, place: u32) -> Result<(), CallError>
        ensures happens { IfOk result (λ _. Happens self.old (event.Caret place)) }
        ensures leaves { IfOk result (λ _. self.new ≡ after_step self.old (event.Caret place)) }
        ensures refused { IfErr result (λ error. IsCaretCause (event_refusal self.old.state (event.Caret place)) error) }
        ensures unchanged { IfErr result (λ _. self.new ≡ self.old) }
    {
        self.session.step(alloc, &Event::Caret(place))?;
        Ok(())
    }

    /// Replaces the characters between two positions of the whole text with these characters.
    #[tactic(auto, using(crate::proofs::Causes::step_text_cause, crate::proofs::Causes::not_characters, crate::proofs::Causes::few_characters, crate::proofs::Causes::edit_happens))]
    pub fn replace(
        &mut self,
        alloc: Global,
        from: u32,
        to: u32,
        text: &[u32],
    ) -> Result<(), CallError>
        ensures happens { IfOk result (λ _. Happens self.old (event.Edit from to text.now)) }
        ensures leaves { IfOk result (λ _. self.new ≡ after_step self.old (event.Edit from to text.now)) }
        ensures few { IfOk result (λ _. length text.now ≤ TEXT_CHARS) }
        ensures characters { IfOk result (λ _. all_scalars text.now ≡ true) }
        ensures refused { IfErr result (λ error. IsCause text.now (event_refusal self.old.state (event.Edit from to text.now)) error) }
        ensures unchanged { IfErr result (λ _. self.new ≡ self.old) }
    {
        let Some(text) = characters(alloc, text)? else {
            return Err(CallError::Character);
        };
        self.session.step(alloc, &Event::Edit { from, to, text })?;
        Ok(())
    }

    /// Writes the text before or after the caret to a buffer, and returns its length.
    pub fn text(&self, after: bool, room: &mut [u32]) -> usize
        ensures length { result ≡ length (text_at after self.now.state) }
        ensures room { room.new ≡ written (text_at after self.now.state) room.old }
    {
        let editor = self.session.editor();
        let text = if after { editor.right() } else { editor.left() };
        put_characters(room, text)
    }

    /// Writes the last 64 items before the caret to a buffer, or all if there are fewer, and returns their number. Marks are among
    /// them.
    pub fn context(&self, room: &mut [u32]) -> usize
        ensures length { result ≡ length (window self.now.state.left) }
        ensures room { room.new ≡ written (item_numbers (window self.now.state.left)) room.old }
    {
        put_items(room, self.session.engine().context())
    }

    /// Returns the code of a key by its name: of a key that all keyboards have, otherwise of a custom key of the file; 0 if neither
    /// has the name. Names compare without ASCII case.
    pub fn own_key_code(&self, name: &[u8]) -> u16
        ensures { result ≡ own_key_code name.now self.now.tables }
    {
        match key_named(name) {
            Some(code) => code,
            None => self.session.engine().names().code_of(name).unwrap_or(0),
        }
    }

    /// Sets the current and the saved value of an option for the host. Names compare without ASCII case.
    ///
    /// Errors: `NoOption` exactly when no option has the name; otherwise `Character` if a number is not a character; `Memory` if an
    /// allocation fails.
    #[tactic(auto)]
    pub fn set(&mut self, alloc: Global, name: &[u8], value: &[u32]) -> Result<(), CallError>
        ensures leaves { IfOk result (λ _. self.new ≡ after_step self.old (event.Setting name.now value.now)) }
        ensures known { IfOk result (λ _. knows_option name.now self.old.tables ≡ true) }
        ensures characters { IfOk result (λ _. all_scalars value.now ≡ true) }
        ensures refused { IfErr result (λ error. IsSettingCause (knows_option name.now self.old.tables) value.now error) }
        ensures unchanged { IfErr result (λ _. self.new ≡ self.old) }
    {
        if !self.knows_option(alloc, name)? {
            return Err(CallError::NoOption);
        }
        let Some(value) = characters(alloc, value)? else {
            return Err(CallError::Character);
        };
        let name = Seq::from_slice(alloc, name)?;
        self.session.step(alloc, &Event::Setting { name, value })?;
        Ok(())
    }

    /// Returns whether some option has a name.
    #[tactic(auto, using(play_session::proofs::OptionStores::count_of_numbers))]
    fn knows_option(&self, alloc: Global, name: &[u8]) -> Result<bool, Memory>
        ensures { IfOk result (λ known. known ≡ knows_option name.now self.now.tables) }
    {
        for store in 0..self.session.engine().store_count() {
            if self.is_option_named(alloc, store, name)? {
                return Ok(true);
            }
        }
        Ok(false)
    }

    /// Returns whether a store is an option with a name.
    #[tactic(auto, using(play_session::proofs::OptionStores::count_of_numbers))]
    fn is_option_named(&self, alloc: Global, store: u32, name: &[u8]) -> Result<bool, Memory>
        requires { store < length (tab self.now.tables).stores }
        ensures { IfOk result (λ found. found ≡ is_option_named name.now self.now.tables store (get_or (option_numbers 0 (tab self.now.tables).stores) store None)) }
    {
        let engine = self.session.engine();
        if engine.option_numbers()[store as usize].is_none() {
            return Ok(false);
        }
        let other = engine.name(alloc, store)?;
        Ok(!other.is_empty() && same_name(other.as_slice(), name))
    }

    /// Returns the nth option value, counted from 0, that the last step changed.
    pub fn change(&self, n: usize) -> Option<Change>
        ensures { result ≡ slice_get self.now.changes n }
    {
        self.session.changes().get(n).copied()
    }

    /// Returns how many stores there are: those of the file, then the layer and the platform.
    pub fn store_count(&self) -> u32
        ensures { result ≡ store_count self.now.tables }
    {
        self.session.engine().store_count()
    }

    /// Writes the numbers of the stores that are options to a buffer, in rising order, and returns how many there are.
    #[tactic(auto, using(play_session::proofs::OptionStores::count_of_numbers))]
    pub fn options(&self, room: &mut [u32]) -> usize
        ensures length { result ≡ length (option_stores self.now.tables) }
        ensures room { room.new ≡ written (option_stores self.now.tables) room.old }
    {
        let engine = self.session.engine();
        put_options(room, engine.option_numbers(), engine.store_count())
    }

    /// Writes the name of a store to a buffer as UTF-8, empty if the store has none, and returns its size in bytes. Returns `None`
    /// exactly when there is no such store.
    pub fn option_name(
        &self,
        alloc: Global,
        store: u32,
        room: &mut [u8],
    ) -> Result<Option<usize>, Memory>
        ensures length { IfOk result (λ count. count ≡ option_map length (store_name self.now.tables store)) }
        ensures room { IfOk result (λ _. room.new ≡ written (unwrap_or (store_name self.now.tables store) []) room.old) }
        ensures unchanged { IfErr result (λ _. room.new ≡ room.old) }
    {
        if store >= self.store_count() {
            return Ok(None);
        }
        let name = self.session.name(alloc, store)?;
        Ok(Some(put_bytes(room, name.as_slice())))
    }

    /// Writes the current or the saved value of a store to a buffer, and returns its length. Returns `None` exactly when there is no
    /// such store, or the saved value is requested and no value is saved.
    pub fn option_value(
        &self,
        alloc: Global,
        store: u32,
        saved: bool,
        room: &mut [u32],
    ) -> Result<Option<usize>, Memory>
        ensures length { IfOk result (λ count. count ≡ option_map length (store_value self.now store saved)) }
        ensures room { IfOk result (λ _. room.new ≡ written (element_numbers (unwrap_or (store_value self.now store saved) [])) room.old) }
        ensures unchanged { IfErr result (λ _. room.new ≡ room.old) }
    {
        if store >= self.store_count() {
            return Ok(None);
        }
        match self.session.value(alloc, store, saved)? {
            Some(value) => Ok(Some(put_elements(room, value.as_slice()))),
            None => Ok(None),
        }
    }
}

/// Returns the code of a key that all keyboards have, by its name, for example K_A; 0 if no such key has the name.
pub fn key_code(name: &[u8]) -> u16
    ensures { result ≡ unwrap_or (key_code name.now) 0 }
{
    key_named(name).unwrap_or(0)
}
