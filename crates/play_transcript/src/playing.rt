//! Plays a script in a session, and prints its transcript.

ghost use Rattle.std.specs.Prelude.{◌≡◌, ◌-◌, ◌<◌, ◌^◌, ◌++◌, [], Some, None, length, flat_map, unwrap_or, IsTrue, IfOk, IfErr};
ghost use Rattle.std.specs.List.{All};
ghost use Rattle.std.specs.Str.{bytes_eq};
ghost use Rattle.kmn_outside.specs.Outside.{WriteCounts};
ghost use Rattle.rule_model.specs.Tab.{tab};
ghost use Rattle.rule_model.specs.Trace.{trace};
ghost use Rattle.rule_model.specs.Transcript.{events_of, transcript, refused_event_line};
ghost use Rattle.play_session.specs.Answers.{code_of};
ghost use Rattle.play_session.specs.Printed.{IsSession, change_line};
ghost use Rattle.play_session.specs.Session.{first_session};
ghost use Rattle.play_transcript.specs.Ends.{play_end, end_after};
ghost use Rattle.play_transcript.specs.Playing.{entry_lines, event_lines, expect_lines, end_lines, happened_lines, no_counts, AreOfStores, Plays, PlaysEvent, PlaysExpect};
ghost use Rattle.play_transcript.specs.Printing.{Prints};

use crate::printing::put_all;
use kmn_base::slices::{before, behind};
use kmn_base::{Code, Element, Event, Memory, Seq, Text};
use kmn_outside::{Sink, WriteError};
use play_script::{end_line, expect_line, line_of, refused_event_line, text_line, value_line};
use play_session::{Change, Session, Step, StepError};
use rule_model::Entry;
use std::alloc::Global;

/// The counts of a play: the number of its last step, of events that were done, and of expected texts that differed.
#[derive(Clone, Copy)]
pub struct Counts {
    /// From 1, or 0 before the first step. Saturates at the maximum of its type.
    pub number: u32,
    pub events: usize,
    pub failed: usize,
}

/// The effect of an entry on a play: the play continues, or an event was refused.
#[derive(Clone, Copy)]
pub enum Played {
    On(Counts),
    Refused,
}

/// How a play ends.
#[derive(Clone, Copy)]
pub enum PlayEnd {
    Done,
    /// An event was refused.
    Refused,
    /// The whole script was played, and an expected text differed.
    ExpectFailed,
}

/// A text that a script expects, and the number of the line that expects it.
#[derive(Clone, Copy)]
struct Expected<'a> {
    line: u32,
    text: &'a [char],
}

/// Plays a script in a session before its first event. Prints what each event did and which expected texts differ, and at the end
/// the text and the counts.
pub fn play<'a, S: Sink>(
    alloc: Global,
    mut session: Session<'a>,
    entries: &[Entry],
    out: &mut S,
) -> Result<PlayEnd, WriteError>
    requires { session ≡ first_session session.tables }
    ensures counts { WriteCounts (S.faults out.old) (S.faults out.new) result }
    ensures told { S.told out.new ≡ S.told out.old }
    ensures ends { IfOk result (λ end. end ≡ play_end (trace (tab session.entry.tables) (events_of entries.now)) entries.now) }
    ensures prints { IsTrue (S.told out.old)
        → Prints (S.written out.old) (S.written out.new) (transcript (tab session.entry.tables) entries.now) result }
{
    let mut counts = no_counts();
    for entry in entries {
        match play_entry(alloc, &mut session, counts, entry, out)? {
            Played::On(next) => counts = next,
            Played::Refused => return Ok(PlayEnd::Refused),
        }
    }
    put_end(alloc, &session, counts, out)
}

/// Returns the counts before the first entry.
fn no_counts() -> Counts
    ensures { result ≡ no_counts }
{
    Counts {
        number: 0,
        events: 0,
        failed: 0,
    }
}

/// Plays an entry of a script and prints its lines.
fn play_entry<S: Sink>(
    alloc: Global,
    session: &mut Session,
    counts: Counts,
    entry: &Entry,
    out: &mut S,
) -> Result<Played, WriteError>
    requires numbered { session.old.number ≡ counts.number }
    requires events { counts.events < 2 ^ 64 - 1 }
    requires failed { counts.failed < 2 ^ 64 - 1 }
    requires options { IsSession session.old }
    ensures counts { WriteCounts (S.faults out.old) (S.faults out.new) result }
    ensures told { S.told out.new ≡ S.told out.old }
    ensures plays { IfOk result (Plays session.old session.new counts entry.now) }
    ensures prints { IsTrue (S.told out.old) → Prints (S.written out.old) (S.written out.new) (entry_lines session.old entry.now) result }
{
    match entry {
        Entry::Act { event, .. } => play_event(alloc, session, counts, event, out),
        Entry::Expect { line, text } => {
            let expected = Expected {
                line: *line,
                text: text.as_slice(),
            };
            play_expect(alloc, session, counts, expected, out)
        }
    }
}

/// Performs an event and prints its lines.
#[tactic(auto, using(crate::proofs::PrintingLaws::faults, crate::proofs::PlayingLaws::step_of_stores))]
fn play_event<S: Sink>(
    alloc: Global,
    session: &mut Session,
    counts: Counts,
    event: &Event,
    out: &mut S,
) -> Result<Played, WriteError>
    requires numbered { session.old.number ≡ counts.number }
    requires events { counts.events < 2 ^ 64 - 1 }
    requires options { IsSession session.old }
    ensures counts { WriteCounts (S.faults out.old) (S.faults out.new) result }
    ensures told { S.told out.new ≡ S.told out.old }
    ensures plays { IfOk result (PlaysEvent session.old session.new counts event.now) }
    ensures prints { IsTrue (S.told out.old) → Prints (S.written out.old) (S.written out.new) (event_lines [] session.old event.now) result }
{
    match session.step(alloc, event) {
        Ok(step) => {
            put_step(alloc, b"", session, step, out)?;
            Ok(Played::On(Counts {
                number: step.number,
                events: counts.events + 1,
                failed: counts.failed,
            }))
        }
        Err(error) => {
            let code = refused_with(error)?;
            put_refusal(alloc, counts.number.saturating_add(1), code, out)
        }
    }
}

/// Prints the refusal of an event.
#[tactic(auto, using(crate::proofs::PrintingLaws::faults))]
fn put_refusal<S: Sink>(
    alloc: Global,
    number: u32,
    code: Code,
    out: &mut S,
) -> Result<Played, WriteError>
    ensures counts { WriteCounts (S.faults out.old) (S.faults out.new) result }
    ensures told { S.told out.new ≡ S.told out.old }
    ensures refused { IfOk result (λ played. played ≡ Played.Refused) }
    ensures prints { IsTrue (S.told out.old) → Prints (S.written out.old) (S.written out.new) (refused_event_line number code) result }
{
    let line = refused_event_line(alloc, number, code)?;
    put_all(out, line.as_slice())?;
    Ok(Played::Refused)
}

/// Compares the whole text with an expected text, and prints a line if they differ.
#[tactic(auto, using(crate::proofs::PrintingLaws::faults))]
fn play_expect<S: Sink>(
    alloc: Global,
    session: &Session,
    counts: Counts,
    expected: Expected<'_>,
    out: &mut S,
) -> Result<Played, WriteError>
    requires failed { counts.failed < 2 ^ 64 - 1 }
    ensures counts { WriteCounts (S.faults out.old) (S.faults out.new) result }
    ensures told { S.told out.new ≡ S.told out.old }
    ensures plays { IfOk result (PlaysExpect session.now session.now counts expected.entry.text.now) }
    ensures prints { IsTrue (S.told out.old) → Prints (S.written out.old) (S.written out.new) (expect_lines session.now.state expected.entry.line expected.entry.text.now) result }
{
    let editor = session.editor();
    if is_text(editor.left(), editor.right(), expected.text) {
        return Ok(Played::On(counts));
    }
    let line = expect_line(alloc, expected.line)?;
    put_all(out, line.as_slice())?;
    Ok(Played::On(Counts {
        failed: counts.failed + 1,
        ..counts
    }))
}

/// Prints the text and the counts, and returns how the play ends.
#[tactic(auto, using(crate::proofs::PrintingLaws::faults))]
fn put_end<S: Sink>(
    alloc: Global,
    session: &Session,
    counts: Counts,
    out: &mut S,
) -> Result<PlayEnd, WriteError>
    ensures counts { WriteCounts (S.faults out.old) (S.faults out.new) result }
    ensures told { S.told out.new ≡ S.told out.old }
    ensures ends { IfOk result (λ end. end ≡ end_after None counts.failed) }
    ensures prints { IsTrue (S.told out.old) → Prints (S.written out.old) (S.written out.new) (end_lines session.now counts) result }
{
    let text = text_line(alloc, session.editor().left(), session.editor().right())?;
    let end = end_line(alloc, counts.events, counts.failed)?;
    put_all(out, text.as_slice())?;
    put_all(out, end.as_slice())?;
    Ok(end_after(counts.failed))
}

/// Returns the code of a refused event. Errors: `Memory` if the session ran out of memory.
pub fn refused_with(error: StepError) -> Result<Code, Memory>
    ensures code { IfOk result (λ code. code_of error ≡ Some code) }
    ensures memory { IfErr result (λ _. code_of error ≡ None) }
{
    match error {
        StepError::Place => Ok(Code::E1),
        StepError::Length => Ok(Code::E2),
        StepError::Memory => Err(Memory),
    }
}

/// Prints what the last event of a session did, and the values that it changed, with `front` at the front of each line. The sink
/// receives each line as one piece.
#[tactic(auto, using(crate::proofs::PrintingLaws::faults, crate::proofs::PrintingLaws::prints_behind))]
pub fn put_step<S: Sink>(
    alloc: Global,
    front: &[u8],
    session: &Session,
    step: Step,
    out: &mut S,
) -> Result<(), WriteError>
    requires { AreOfStores session.now }
    ensures counts { WriteCounts (S.faults out.old) (S.faults out.new) result }
    ensures told { S.told out.new ≡ S.told out.old }
    ensures prints { IsTrue (S.told out.old) → Prints (S.written out.old) (S.written out.new) (happened_lines front.now session.now step) result }
{
    let context = session.engine().context();
    let line = line_of(
        alloc,
        step.number,
        step.outcome,
        session.inserted(),
        context,
    )?;
    let line = fronted(alloc, front, line)?;
    put_all(out, line.as_slice())?;
    put_changes(alloc, front, session, session.changes(), out)
}

/// Prints the new values of options.
#[tactic(auto, using(crate::proofs::PrintingLaws::faults, crate::proofs::PlayingLaws::changes_begin))]
fn put_changes<S: Sink>(
    alloc: Global,
    front: &[u8],
    session: &Session,
    changes: &[Change],
    out: &mut S,
) -> Result<(), WriteError>
    requires { All (λ change. change.store < length (tab session.now.tables).stores) changes.now }
    ensures counts { WriteCounts (S.faults out.old) (S.faults out.new) result }
    ensures told { S.told out.new ≡ S.told out.old }
    ensures prints { IsTrue (S.told out.old) → Prints (S.written out.old) (S.written out.new) (flat_map (change_line front.now session.now) changes.now) result }
{
    for change in changes {
        put_change(alloc, front, session, change, out)?;
    }
    Ok(())
}

/// Prints the new value of an option.
#[tactic(auto, using(crate::proofs::PrintingLaws::faults))]
fn put_change<S: Sink>(
    alloc: Global,
    front: &[u8],
    session: &Session,
    change: &Change,
    out: &mut S,
) -> Result<(), WriteError>
    requires { change.now.store < length (tab session.now.tables).stores }
    ensures counts { WriteCounts (S.faults out.old) (S.faults out.new) result }
    ensures told { S.told out.new ≡ S.told out.old }
    ensures prints { IsTrue (S.told out.old) → Prints (S.written out.old) (S.written out.new) (change_line front.now session.now change.now) result }
{
    let line = fronted(alloc, front, change_line(alloc, session, *change)?)?;
    put_all(out, line.as_slice())
}

/// Returns the line of an option's new value.
fn change_line(alloc: Global, session: &Session, change: Change) -> Result<Text, Memory>
    requires { change.store < length (tab session.now.tables).stores }
    ensures { IfOk result (λ line. line ≡ change_line [] session.now change) }
{
    let name = session.name(alloc, change.store)?;
    let value = session.value(alloc, change.store, change.saved)?;
    value_line(alloc, change.saved, name.as_slice(), elements_of(&value))
}

/// Returns the elements of a value, or no elements if there is no value.
fn elements_of(value: &Option<Seq<Element>>) -> &[Element]
    ensures { result.now ≡ unwrap_or value.now [] }
{
    match value {
        Some(value) => value.as_slice(),
        None => &[],
    }
}

/// Returns a line with `front` at its front.
pub fn fronted(alloc: Global, front: &[u8], line: Text) -> Result<Text, Memory>
    ensures { IfOk result (λ all. all ≡ front.now ++ line) }
{
    if front.is_empty() {
        return Ok(line);
    }
    let mut all = Seq::from_slice(alloc, front)?;
    all.extend_from_slice(line.as_slice())?;
    Ok(all)
}

/// Returns whether a text before the caret and a text after it together are this text.
#[tactic(auto, using(crate::proofs::PlayingLaws::text_in_parts))]
pub fn is_text(left: &[char], right: &[char], text: &[char]) -> bool
    ensures { result ≡ bytes_eq (left.now ++ right.now) text.now }
{
    left == before(text, left.len()) && right == behind(text, left.len())
}

/// Returns how a play ends after its whole script is played.
pub fn end_after(failed: usize) -> PlayEnd
    ensures { result ≡ end_after None failed }
{
    if failed == 0 {
        PlayEnd::Done
    } else {
        PlayEnd::ExpectFailed
    }
}
