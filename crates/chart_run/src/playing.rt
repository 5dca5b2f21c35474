//! Plays a script in a session without printing.

ghost use Rattle.std.specs.Prelude.{◌≡◌, ◌≤◌, [], ◌∷◌, ℕ, List, length, Ok, IfOk};
ghost use Rattle.kmn_base.specs.declared.limits.TheConstants.{TEXT_CHARS_AT_KEY};
ghost use Rattle.rule_model.specs.Act.{one_more};
ghost use Rattle.rule_model.specs.Event.{whole_text};
ghost use Rattle.rule_model.specs.declared.script.Entry.{Entry};
ghost use Rattle.rule_model.specs.declared.script.Entry.TheVariants.{Act};
ghost use Rattle.chart_run.specs.Drawings.{Leads, state_left};

use keyman_run::Stop;
use keyman_words::Reason;
use kmn_base::limits::TEXT_CHARS_AT_KEY;
use kmn_base::{Code, Event};
use play_session::Session;
use play_transcript::refused_with;
use rule_model::Entry;
use std::alloc::Global;

/// Performs the events of a script in a session before its first event. Expected texts are ignored. Errors: the refusal of an event; E2
/// for the next event if the text is then too long for a key press; `Memory` if an allocation fails.
pub(crate) fn play_through(
    alloc: Global,
    session: &mut Session,
    entries: &[Entry],
) -> Result<(), Stop>
    requires { session.old.number ≡ 0 }
    ensures tables { session.new.tables ≡ session.old.tables }
    ensures room { IfOk result (λ _. length (whole_text session.new.state) ≤ TEXT_CHARS_AT_KEY) }
    ensures leads { Leads (state_left session.old entries.now) (Ok session.new.state) result }
{
    let last = play_all(alloc, session, 0, entries)?;
    check_room(session, last)
}

/// Refuses a key press if the text of a session is too long for it. The last step of the session has the number `last`.
#[tactic(auto, using(crate::proofs::Plays::is_full, crate::proofs::Plays::has_room))]
fn check_room(session: &Session, last: u32) -> Result<(), Stop>
    requires { session.now.number ≡ last }
    ensures room { IfOk result (λ _. length (whole_text session.now.state) ≤ TEXT_CHARS_AT_KEY) }
    ensures leads { Leads (state_left session.now []) (Ok session.now.state) result }
{
    if text_length(session) > TEXT_CHARS_AT_KEY {
        return Err(event_stop(last, Code::E2));
    }
    Ok(())
}

/// Returns the length of a session's text in characters.
fn text_length(session: &Session) -> usize
    ensures { result ≡ length (whole_text session.now.state) }
{
    session.editor().len()
}

/// Performs the events of a script in a session whose last step has this number, and returns the number of its last step. Expected texts
/// are ignored. Errors: the refusal of an event, or `Memory` if an allocation fails.
fn play_all(alloc: Global, session: &mut Session, last: u32, entries: &[Entry]) -> Result<u32, Stop>
    requires { session.old.number ≡ last }
    ensures numbered { IfOk result (λ number. session.new.number ≡ number) }
    ensures tables { session.new.tables ≡ session.old.tables }
    ensures leads { Leads (state_left session.old entries.now) (state_left session.new []) result }
{
    let mut number = last;
    for entry in entries {
        number = perform(alloc, session, number, entry)?;
    }
    Ok(number)
}

/// Performs the event of an entry, if it has one, and returns the number of the last step.
fn perform(alloc: Global, session: &mut Session, last: u32, entry: &Entry) -> Result<u32, Stop>
    requires { session.old.number ≡ last }
    ensures numbered { IfOk result (λ number. session.new.number ≡ number) }
    ensures tables { session.new.tables ≡ session.old.tables }
    ensures leads { (entries : List Entry) → Leads (state_left session.old (entry.now ∷ entries)) (state_left session.new entries) result }
{
    match entry {
        Entry::Act { event, .. } => perform_event(alloc, session, last, event),
        Entry::Expect { .. } => Ok(last),
    }
}

/// Performs an event and returns the number of its step.
#[tactic(auto, using(crate::proofs::Plays::event_done, crate::proofs::Plays::event_stops))]
fn perform_event(
    alloc: Global,
    session: &mut Session,
    last: u32,
    event: &Event,
) -> Result<u32, Stop>
    requires { session.old.number ≡ last }
    ensures numbered { IfOk result (λ number. session.new.number ≡ number) }
    ensures tables { session.new.tables ≡ session.old.tables }
    ensures leads { (line : ℕ) (entries : List Entry) → Leads (state_left session.old (Act line event.now ∷ entries)) (state_left session.new entries) result }
{
    match session.step(alloc, event) {
        Ok(step) => Ok(step.number),
        Err(error) => {
            let code = refused_with(error)?;
            Err(event_stop(last, code))
        }
    }
}

/// Returns why a run stops if the event after the last step is refused.
fn event_stop(last: u32, code: Code) -> Stop
    ensures { result ≡ Stop.Refused (Reason.Event (one_more last) code) }
{
    Stop::Refused(Reason::Event {
        number: last.saturating_add(1),
        code,
    })
}
