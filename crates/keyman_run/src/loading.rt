//! The command `load`: generates a large keyboard, compiles it, verifies it and plays a script on it in memory.

ghost use Rattle.std.specs.Prelude.{◌≡◌, ◌≤◌, ◌<◌, ◌+◌, ◌-◌, ◌*◌, ◌^◌, ◌∷◌, ℕ, List, length, IfOk};
ghost use Rattle.std.specs.String.{string_bytes};
ghost use Rattle.kmx_format.specs.File.{all_rules};
ghost use Rattle.kmx_format.specs.TablesOf.{tables_of};
ghost use Rattle.rule_model.specs.Tab.{tab};
ghost use Rattle.rule_model.specs.Trace.{trace};
ghost use Rattle.rule_model.specs.Transcript.{events_of};
ghost use Rattle.rule_model.specs.declared.script.Entry.{Entry};
ghost use Rattle.rule_model.specs.declared.script.Entry.TheVariants.{Act};
ghost use Rattle.rule_model.specs.Act.{one_more};
ghost use Rattle.rule_model.specs.Event.{whole_text};
ghost use Rattle.keyman_run.specs.Loads.{job_of, load_job, program_job, script_job, file_part, load_line, play_part, played_load, sums_of, sums_left, no_progress, LeadsTo};
ghost use Rattle.keyman_run.specs.Steps.{IsCompiled, States, itself, prepared_job};

use crate::preparing::{Prepared, Stop, key_names};
use keyman_words::Reason;
use kmn_base::{Code, Event, Memory, Seq, Text};
use kmn_compiler::{Compiled, back, front};
use kmx_format::rule_count;
use kmx_verifier::{Verified, verify};
use load_maker::make;
use play_script::read_script;
use play_session::Session;
use play_transcript::refused_with;
use rule_checker::Checked;
use rule_model::Entry;
use std::alloc::{AllocError, Global};
use virtual_keys::KeyDictionary;

/// The sums of a play: the number of events, the number of items that they output, and the length of the final text.
#[derive(Clone, Copy)]
pub struct Sums {
    pub events: usize,
    pub put: u128,
    /// In characters.
    pub text: usize,
}

/// The counts of a play so far: the number of its last step, the number of events, and the number of items that they output.
#[derive(Clone, Copy)]
pub struct Progress {
    /// Saturates at the maximum of its type.
    pub number: u32,
    pub events: usize,
    /// The number of items of each event fits in 32 bits, so the sum never overflows.
    pub put: u128,
}

/// Generates, compiles, verifies and plays the load of a number, and returns its line.
pub fn played_load(alloc: Global, number: u32) -> Result<Text, Stop>
    ensures { States itself (played_load number) result }
{
    let prepared = prepare_load(alloc, number)?;
    let sums = play_load(alloc, &prepared)?;
    Ok(load_line(alloc, number, &prepared.compiled, sums)?)
}

/// Generates and compiles the load of a number, and reads its script.
fn prepare_load(alloc: Global, number: u32) -> Result<Prepared, Stop>
    ensures compiled { IfOk result (λ prepared. IsCompiled prepared.compiled) }
    ensures states { States prepared_job (load_job number) result }
{
    let load = make(alloc, number)?;
    prepare_texts(alloc, load.source.as_slice(), load.script.as_slice())
}

/// Compiles a source without a bitmap and reads a script for it.
fn prepare_texts(alloc: Global, source: &[u8], script: &[u8]) -> Result<Prepared, Stop>
    ensures compiled { IfOk result (λ prepared. IsCompiled prepared.compiled) }
    ensures states { States prepared_job (job_of source.now script.now) result }
{
    let checked = front(alloc, source)?;
    prepare_checked(alloc, &checked, script)
}

/// Compiles a checked program without a bitmap and reads a script for it.
fn prepare_checked(alloc: Global, checked: &Checked, script: &[u8]) -> Result<Prepared, Stop>
    ensures compiled { IfOk result (λ prepared. IsCompiled prepared.compiled) }
    ensures states { States prepared_job (program_job checked.now script.now) result }
{
    let compiled = back(alloc, checked, &[])?;
    with_script(alloc, compiled, script, key_names(checked))
}

/// Reads a script for a compiled keyboard with these key names.
fn with_script(
    alloc: Global,
    compiled: Compiled,
    script: &[u8],
    names: &KeyDictionary,
) -> Result<Prepared, Stop>
    requires { IsCompiled compiled }
    ensures compiled { IfOk result (λ prepared. IsCompiled prepared.compiled) }
    ensures states { States prepared_job (script_job compiled names.now script.now) result }
{
    let entries = read_script(alloc, script, names)?;
    Ok(Prepared { compiled, entries })
}

/// Verifies a compiled keyboard, plays the script on it, and returns the sums of the play.
fn play_load(alloc: Global, prepared: &Prepared) -> Result<Sums, Stop>
    requires { IsCompiled prepared.now.compiled }
    ensures { States itself (sums_of (trace (tab prepared.now.compiled.tables) (events_of prepared.now.entries))) result }
{
    let file = verify(alloc, prepared.compiled.bytes.as_slice())?;
    count_play(alloc, &file, prepared.entries.as_slice())
}

/// Plays a script on a valid file and returns the sums of the play. Expected texts are ignored.
#[tactic(auto, using(crate::proofs::LoadLaws::all_counted))]
fn count_play<'a>(alloc: Global, file: &'a Verified<'a>, entries: &[Entry]) -> Result<Sums, Stop>
    ensures { States itself (sums_of (trace (tab (tables_of file.now)) (events_of entries.now))) result }
{
    let mut session = Session::start(alloc, file)?;
    let mut progress = no_progress();
    for entry in entries {
        progress = count_entry(alloc, &mut session, progress, entry)?;
    }
    Ok(Sums {
        events: progress.events,
        put: progress.put,
        text: text_length(&session),
    })
}

/// Returns the counts before the first event.
fn no_progress() -> Progress
    ensures { result ≡ no_progress }
{
    Progress {
        number: 0,
        events: 0,
        put: 0,
    }
}

/// Performs and counts the event of an entry, if it has one.
fn count_entry(
    alloc: Global,
    session: &mut Session,
    progress: Progress,
    entry: &Entry,
) -> Result<Progress, Stop>
    requires numbered { session.old.number ≡ progress.number }
    requires events { progress.events < 2 ^ 64 - 1 }
    requires put { progress.put ≤ progress.events * 2 ^ 32 }
    ensures numbered { IfOk result (λ next. session.new.number ≡ next.number) }
    ensures counted { IfOk result (λ next. (next.events ≤ progress.events + 1) × (next.put ≤ next.events * 2 ^ 32)) }
    ensures leads { (entries : List Entry) → LeadsTo (sums_left session.old progress (entry.now ∷ entries)) (λ next. sums_left session.new next entries) result }
{
    match entry {
        Entry::Act { event, .. } => count_event(alloc, session, progress, event),
        Entry::Expect { .. } => Ok(progress),
    }
}

/// Performs and counts an event.
#[tactic(auto, using(crate::proofs::LoadLaws::event_counted, crate::proofs::LoadLaws::event_stops))]
fn count_event(
    alloc: Global,
    session: &mut Session,
    progress: Progress,
    event: &Event,
) -> Result<Progress, Stop>
    requires numbered { session.old.number ≡ progress.number }
    requires events { progress.events < 2 ^ 64 - 1 }
    requires put { progress.put ≤ progress.events * 2 ^ 32 }
    ensures numbered { IfOk result (λ next. session.new.number ≡ next.number) }
    ensures counted { IfOk result (λ next. (next.events ≤ progress.events + 1) × (next.put ≤ next.events * 2 ^ 32)) }
    ensures leads { (line : ℕ) (entries : List Entry) → LeadsTo (sums_left session.old progress (Act line event.now ∷ entries)) (λ next. sums_left session.new next entries) result }
{
    match session.step(alloc, event) {
        Ok(step) => Ok(Progress {
            number: step.number,
            events: progress.events + 1,
            put: progress.put + u128::from(step.outcome.put),
        }),
        Err(error) => {
            let code = refused_with(error)?;
            Err(event_stop(progress.number, code))
        }
    }
}

/// Returns why a play stops if its next event is refused.
fn event_stop(last: u32, code: Code) -> Stop
    ensures { result ≡ Stop.Refused (Reason.Event (one_more last) code) }
{
    Stop::Refused(Reason::Event {
        number: last.saturating_add(1),
        code,
    })
}

/// Returns the length of a session's text in characters.
fn text_length(session: &Session) -> usize
    ensures { result ≡ length (whole_text session.now.state) }
{
    session.editor().len()
}

/// Returns the line of a load.
fn load_line(alloc: Global, number: u32, compiled: &Compiled, sums: Sums) -> Result<Text, Memory>
    requires { length (all_rules compiled.now.tables) < 2 ^ 64 }
    ensures { IfOk result (λ line. line ≡ load_line number (length (all_rules compiled.now.tables)) (length compiled.now.bytes) sums) }
{
    let rules = rule_count(compiled.tables.groups.as_slice());
    let file = file_part(alloc, number, rules, compiled.bytes.len())?;
    let play = play_part(alloc, sums)?;
    let mut line = Seq::from_slice(alloc, file.as_bytes())?;
    line.extend_from_slice(play.as_bytes())?;
    Ok(line)
}

/// Returns the part of a load's line that describes its file.
#[tactic(auto, unfolding(crate::specs::Loads::file_part))]
fn file_part(alloc: Global, number: u32, rules: u64, bytes: usize) -> Result<String, AllocError>
    ensures { IfOk result (λ text. string_bytes text ≡ file_part number rules bytes) }
{
    format!(in alloc; "load n={number} rules={rules} bytes={bytes}")
}

/// Returns the part of a load's line that describes its play.
#[tactic(auto, unfolding(crate::specs::Loads::play_part))]
fn play_part(alloc: Global, sums: Sums) -> Result<String, AllocError>
    ensures { IfOk result (λ text. string_bytes text ≡ play_part sums) }
{
    let Sums { events, put, text } = sums;
    format!(in alloc; " events={events} put={put} text={text}\n")
}
