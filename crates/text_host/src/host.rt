//! A host: the text fields of an application, each a session over the same file.

ghost use Rattle.std.specs.Prelude.{◌≡◌, ◌≢◌, ◌+◌, ◌<◌, ◌≤◌, false, length, IfOk, IfErr, IsSomeAnd, MatchOption, None, Some, Ok};
ghost use Rattle.kmn_base.specs.declared.events.Event.TheVariants as event;
ghost use Rattle.kmn_base.specs.declared.limits.TheConstants.{FIELDS};
ghost use Rattle.kmx_format.specs.TablesOf.{tables_of};
ghost use Rattle.rule_model.specs.Event.{event_of};
ghost use Rattle.rule_model.specs.Tab.{tab};
ghost use Rattle.play_session.specs.Answers.{step_of, takes_memory};
ghost use Rattle.play_session.specs.Session.{first_session, happened, after_step};
ghost use Rattle.text_host.specs.Host.{first_host, field_of, with_field, with_new_field, add_refusal, step_refusal, refusal_of};

use kmn_base::limits::FIELDS;
use kmn_base::{Event, KeyPress, Memory};
use kmx_verifier::Verified;
use play_session::{Preview, Session, Step, StepError};
use std::alloc::Global;
use std::marker::Model;
use thiserror::Error;

/// The error of a call on a host. The call did not change the host.
#[derive(Debug, Drop, Error)]
pub enum HostError {
    /// No field has this number.
    #[error("no such field")]
    NoField,
    /// The host already has `FIELDS` fields.
    #[error("no room for another field")]
    Full,
    /// A position is past the end of the field's text.
    #[error("refused E1")]
    Place,
    /// The field's text is or would be too long.
    #[error("refused E2")]
    Length,
    #[error("out of memory")]
    Memory,
}

impl From<Memory> for HostError {
    ghost use Rattle.std.specs.Prelude.{◌≡◌};
    ghost use Rattle.text_host.specs.declared.host.HostError.TheVariants as error;

    ghost from_gives = { λ _ given. given ≡ error.Memory };

    fn from(_memory: Memory) -> HostError {
        HostError::Memory
    }
}

impl From<StepError> for HostError {
    ghost use Rattle.std.specs.Prelude.{◌≡◌};
    ghost use Rattle.text_host.specs.Host.{of_step};

    ghost from_gives = { λ error given. given ≡ of_step error };

    fn from(error: StepError) -> HostError {
        match error {
            StepError::Place => HostError::Place,
            StepError::Length => HostError::Length,
            StepError::Memory => HostError::Memory,
        }
    }
}

/// The text fields of an application over one compiled keyboard, numbered from 1 in the order in which they were added. Each field
/// has its own text, deadkeys and option values.
#[derive(Drop)]
pub struct Host<'a> {
    file: &'a Verified<'a>,
    /// At most `FIELDS` sessions, all over that file.
    fields: Vec<Session<'a>>,
}

impl<'a> Model for Host<'a> {
    ghost use Rattle.std.specs.Prelude.{◌≡◌, ◌≤◌, length};
    ghost use Rattle.kmn_base.specs.declared.limits.TheConstants.{FIELDS};
    ghost use Rattle.kmx_format.specs.TablesOf.{tables_of};
    ghost use Rattle.text_host.specs.Host.{HostState, AreOver};

    ghost Value = { HostState };

    ghost view = { λ host. record { tables = tables_of host.file.now; sessions = host.fields.items } };

    ghost invariant = { λ host. AreOver (tables_of host.file.now) host.fields.items × (length host.fields.items ≤ FIELDS) };
}

impl<'a> Host<'a> {
    /// Creates a host over a file, without fields. The host does not allocate before its first field.
    pub fn over(alloc: Global, file: &'a Verified<'a>) -> Host<'a>
        ensures { result ≡ first_host (tables_of file.now) }
    {
        Host {
            file,
            fields: Vec::new(alloc),
        }
    }

    /// Adds a field that is before its first event, and returns its number: one more than the number of earlier fields. Scans the
    /// file only for the first field.
    ///
    /// Errors: `Full` exactly when the host has `FIELDS` fields; `Memory` if an allocation fails.
    #[tactic(auto, using(crate::proofs::Fields::one_more))]
    pub fn add(&mut self, alloc: Global) -> Result<u32, HostError>
        ensures number { IfOk result (λ number. number ≡ length self.new.sessions) }
        ensures leaves { IfOk result (λ _. self.new ≡ with_new_field self.old) }
        ensures room { IfOk result (λ _. length self.old.sessions < FIELDS) }
        ensures refused { IfErr result (λ error. refusal_of error ≡ add_refusal self.old) }
        ensures unchanged { IfErr result (λ _. self.new ≡ self.old) }
    {
        if self.fields.len() >= FIELDS {
            return Err(HostError::Full);
        }
        let session = self.new_session(alloc)?;
        match self.fields.push(session) {
            Ok(()) => Ok(self.fields.len() as u32),
            Err(_failed) => Err(HostError::Memory),
        }
    }

    /// Creates a session before its first event. The lookup data of the file is built for the first field, and the others share it.
    fn new_session(&self, alloc: Global) -> Result<Session<'a>, Memory>
        ensures { IfOk result (λ session. session ≡ first_session self.now.tables) }
    {
        match self.fields.first() {
            Some(session) => session.fresh(alloc),
            None => Session::start(alloc, self.file),
        }
    }

    /// Returns the sessions of all fields, in the order of their numbers.
    pub fn fields(&self) -> &[Session<'a>]
        ensures value { result.now ≡ self.now.sessions }
        ensures few { length result.now ≤ FIELDS }
    {
        self.fields.as_slice()
    }

    /// Returns the index of the field with a number, or `None` if there is no such field.
    fn place_of(&self, field: u32) -> Option<usize>
        ensures { MatchOption result (field_of self.now field ≡ None)
            (λ place. (place < length self.now.sessions) × (field ≡ place + 1)) }
    {
        let place = (field as usize).checked_sub(1)?;
        if place < self.fields.len() {
            Some(place)
        } else {
            None
        }
    }

    /// Performs an event in the field with a number, and returns its step. The other fields do not change. A caret move does not
    /// allocate.
    ///
    /// Errors: `NoField` exactly when there is no such field; `Place` or `Length` exactly when the meaning of the event refuses it in
    /// that field; `Memory` if an allocation fails. After an error the host is unchanged.
    #[tactic(auto, using(crate::proofs::Errors::no_field, crate::proofs::Errors::session_wants))]
    pub fn step(&mut self, alloc: Global, field: u32, event: &Event) -> Result<Step, HostError>
        ensures happens { IfOk result (λ _. IsSomeAnd (field_of self.old field) (λ session. event_of (tab session.tables) session.state event.now ≡ Ok (happened session event.now))) }
        ensures answer { IfOk result (λ step. IsSomeAnd (field_of self.old field) (λ session. step ≡ step_of session event.now)) }
        ensures leaves { IfOk result (λ _. IsSomeAnd (field_of self.old field) (λ session. self.new ≡ with_field field (after_step session event.now) self.old)) }
        ensures refused { IfErr result (λ error. refusal_of error ≡ step_refusal (field_of self.old field) event.now) }
        ensures no_memory { IfErr result (λ error. takes_memory event.now ≡ false → error ≢ HostError.Memory) }
        ensures unchanged { IfErr result (λ _. self.new ≡ self.old) }
    {
        let Some(place) = self.place_of(field) else {
            return Err(HostError::NoField);
        };
        let step = self.fields[place].step(alloc, event)?;
        Ok(step)
    }

    /// Returns what a key press would do as the next event of the field with a number: its outcome, and the text that it would
    /// insert. Does not change the host.
    ///
    /// Errors: `NoField` exactly when there is no such field; `Length` exactly when that event would be refused with it; `Memory` if
    /// an allocation fails.
    pub fn preview(&self, alloc: Global, field: u32, press: KeyPress) -> Result<Preview, HostError>
        ensures happens { IfOk result (λ _. IsSomeAnd (field_of self.now field) (λ session. event_of (tab session.tables) session.state (event.Key press) ≡ Ok (happened session (event.Key press)))) }
        ensures outcome { IfOk result (λ preview. IsSomeAnd (field_of self.now field) (λ session. preview.outcome ≡ (happened session (event.Key press)).outcome)) }
        ensures inserted { IfOk result (λ preview. IsSomeAnd (field_of self.now field) (λ session. preview.inserted ≡ (happened session (event.Key press)).inserted)) }
        ensures refused { IfErr result (λ error. refusal_of error ≡ step_refusal (field_of self.now field) (event.Key press)) }
    {
        let Some(session) = self.field(field) else {
            return Err(HostError::NoField);
        };
        Ok(session.preview(alloc, press)?)
    }

    /// Returns the session of the field with a number, or `None` exactly when there is no such field.
    pub fn field(&self, field: u32) -> Option<&Session<'a>>
        ensures { MatchOption result (field_of self.now field ≡ None) (λ session. field_of self.now field ≡ Some session.now) }
    {
        let place = self.place_of(field)?;
        Some(&self.fields[place])
    }
}
