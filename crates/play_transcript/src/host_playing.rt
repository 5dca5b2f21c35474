//! Plays a script for several fields on a host, and prints its transcript.

ghost use Rattle.std.specs.Prelude.{◌≡◌, ◌-◌, ◌<◌, ◌^◌, [], None, IsTrue, IsSomeAnd, IfOk, IfErr};
ghost use Rattle.kmn_outside.specs.Outside.{WriteCounts};
ghost use Rattle.kmn_base.specs.declared.events.Event.TheVariants as event;
ghost use Rattle.play_transcript.specs.Ends.{end_after};
ghost use Rattle.play_transcript.specs.Printing.{Prints};
ghost use Rattle.text_host.specs.Host.{first_host, field_of, refusal_of};
ghost use Rattle.play_transcript.specs.EachEntry.{AreSessions, Plays, PlaysBy, code_in, played_by, told_lines, ReportsStoreFault, is_text_of};
ghost use Rattle.play_transcript.specs.HostText.{host_text, host_end, entry_lines, event_lines, preview_lines, expect_text, text_or_refusal, field_text, field_texts, end_lines};
ghost use Rattle.play_transcript.specs.HostPlaying.{first_play, turned_to, refusal_in, opened, shown, stepped, compared};

use crate::host_lines::{front, preview_line, put_line};
use crate::{PlayEnd, end_after, is_text, put_all, put_step};
use kmn_base::{Code, Event, KeyPress, Memory};
use kmn_outside::{Sink, WriteError};
use play_script::{end_line, expect_line, refused_event_line, text_line};
use play_session::{Session, Step};
use std::alloc::Global;
use text_host::{Host, HostEntry, HostError};

/// A play of a script for several fields: its host and its counts.
#[derive(Drop)]
pub(crate) struct Play<'a> {
    pub host: Host<'a>,
    /// The number of the current field, or 0 before the first field is opened.
    pub field: u32,
    /// The number of events that were done and previews that were shown, in all fields. Saturates at the maximum of its type.
    pub asked: u32,
    /// The number of events that were done.
    pub events: usize,
    /// The number of expected texts that differed.
    pub failed: usize,
}

/// The effect of an entry on a play: the play continues, or an event or a preview was refused.
#[derive(Clone, Copy)]
pub(crate) enum Played {
    On,
    Refused,
}

/// Plays a script for several fields on a host without fields. Prints what each event did, what each preview shows and which
/// expected texts differ, each line with the number of its field at the front, and at the end the text of each field and the
/// counts. A refused event or preview ends the play. If the entries do not come from a script that was read, an entry in a field
/// that does not exist has no effect, and neither does an entry that opens a field when the host is full.
pub fn play_host<'a, S: Sink>(
    alloc: Global,
    host: Host<'a>,
    entries: &[HostEntry],
    out: &mut S,
) -> Result<PlayEnd, WriteError>
    requires { host ≡ first_host host.tables }
    ensures counts { WriteCounts (S.faults out.old) (S.faults out.new) result }
    ensures told { S.told out.new ≡ S.told out.old }
    ensures ends { IfOk result (λ end. end ≡ host_end host.entry.tables entries.now) }
    ensures prints { IsTrue (S.told out.old)
        → Prints (S.written out.old) (S.written out.new) (host_text host.entry.tables entries.now) result }
{
    let mut play = Play {
        host,
        field: 0,
        asked: 0,
        events: 0,
        failed: 0,
    };
    play_entries(alloc, &mut play, entries, out)
}

/// Does the same as `play_host`, with a borrowed play before its first entry.
fn play_entries<S: Sink>(
    alloc: Global,
    play: &mut Play,
    entries: &[HostEntry],
    out: &mut S,
) -> Result<PlayEnd, WriteError>
    requires { play.old ≡ first_play play.old.host.tables }
    ensures counts { WriteCounts (S.faults out.old) (S.faults out.new) result }
    ensures told { S.told out.new ≡ S.told out.old }
    ensures ends { IfOk result (λ end. end ≡ host_end play.old.host.tables entries.now) }
    ensures prints { IsTrue (S.told out.old)
        → Prints (S.written out.old) (S.written out.new) (host_text play.old.host.tables entries.now) result }
{
    for entry in entries {
        match play_entry(alloc, play, entry, out)? {
            Played::On => {}
            Played::Refused => return Ok(PlayEnd::Refused),
        }
    }
    put_end(alloc, play, out)
}

/// Plays an entry of a script and prints its lines.
fn play_entry<S: Sink>(
    alloc: Global,
    play: &mut Play,
    entry: &HostEntry,
    out: &mut S,
) -> Result<Played, WriteError>
    requires events { play.old.events < 2 ^ 64 - 1 }
    requires failed { play.old.failed < 2 ^ 64 - 1 }
    requires options { AreSessions play.old.host }
    ensures counts { WriteCounts (S.faults out.old) (S.faults out.new) result }
    ensures told { S.told out.new ≡ S.told out.old }
    ensures plays { IfOk result (Plays play.old play.new entry.now) }
    ensures prints { IsTrue (S.told out.old) → Prints (S.written out.old) (S.written out.new) (entry_lines play.old entry.now) result }
{
    match entry {
        HostEntry::Open { .. } => open_field(alloc, play),
        HostEntry::Field { field, .. } => {
            play.field = *field;
            Ok(Played::On)
        }
        HostEntry::Preview { press, .. } => play_preview(alloc, play, *press, out),
        HostEntry::Act { event, .. } => play_event(alloc, play, event, out),
        HostEntry::Expect { line, text } => play_expect(alloc, play, *line, text.as_slice(), out),
    }
}

/// Opens a field and makes it the current field.
fn open_field(alloc: Global, play: &mut Play) -> Result<Played, WriteError>
    ensures memory { IfErr result (λ error. error ≡ WriteError.Memory) }
    ensures goes_on { IfOk result (λ end. end ≡ Played.On) }
    ensures leaves { IfOk result (λ _. play.new ≡ opened play.old) }
{
    match play.host.add(alloc) {
        Ok(field) => {
            play.field = field;
            Ok(Played::On)
        }
        Err(HostError::Memory) => Err(WriteError::Memory),
        Err(_) => Ok(Played::On),
    }
}

/// Prints what a key press would do in the current field.
#[tactic(auto, using(crate::proofs::PrintingLaws::faults))]
fn play_preview<S: Sink>(
    alloc: Global,
    play: &mut Play,
    press: KeyPress,
    out: &mut S,
) -> Result<Played, WriteError>
    ensures counts { WriteCounts (S.faults out.old) (S.faults out.new) result }
    ensures told { S.told out.new ≡ S.told out.old }
    ensures plays { IfOk result (PlaysBy (refusal_in (turned_to play.old) (event.Key press)) (shown play.old (turned_to play.old)) play.new) }
    ensures prints { IsTrue (S.told out.old) → Prints (S.written out.old) (S.written out.new) (preview_lines play.old press) result }
{
    let asked = play.asked.saturating_add(1);
    match play.host.preview(alloc, play.field, press) {
        Ok(preview) => {
            let line = preview_line(alloc, preview.outcome, preview.inserted.as_slice())?;
            put_line(alloc, play.field, line, out)?;
            play.asked = asked;
            Ok(Played::On)
        }
        Err(error) => {
            let code = refused_with(error)?;
            put_refusal(alloc, asked, code, out)
        }
    }
}

/// Returns the code of an event or a preview that a host refuses, or `None` if there is no such field or the host is full.
fn refused_with(error: HostError) -> Result<Option<Code>, Memory>
    ensures { IfOk result (λ code. IsSomeAnd (refusal_of error) (λ refusal. code ≡ code_in refusal)) }
{
    match error {
        HostError::NoField | HostError::Full => Ok(None),
        HostError::Place => Ok(Some(Code::E1)),
        HostError::Length => Ok(Some(Code::E2)),
        HostError::Memory => Err(Memory),
    }
}

/// Prints the refusal of an event or a preview, if it has a code.
#[tactic(auto, using(crate::proofs::PrintingLaws::faults, crate::proofs::PrintingLaws::nothing_put))]
fn put_refusal<S: Sink>(
    alloc: Global,
    number: u32,
    code: Option<Code>,
    out: &mut S,
) -> Result<Played, WriteError>
    ensures counts { WriteCounts (S.faults out.old) (S.faults out.new) result }
    ensures told { S.told out.new ≡ S.told out.old }
    ensures ends { IfOk result (λ end. end ≡ played_by code) }
    ensures prints { IsTrue (S.told out.old) → Prints (S.written out.old) (S.written out.new) (text_or_refusal code number []) result }
{
    let Some(code) = code else {
        return Ok(Played::On);
    };
    let line = refused_event_line(alloc, number, code)?;
    put_all(out, line.as_slice())?;
    Ok(Played::Refused)
}

/// Performs an event in the current field, and prints its lines.
#[tactic(auto, using(crate::proofs::PrintingLaws::faults))]
fn play_event<S: Sink>(
    alloc: Global,
    play: &mut Play,
    event: &Event,
    out: &mut S,
) -> Result<Played, WriteError>
    requires events { play.old.events < 2 ^ 64 - 1 }
    requires options { AreSessions play.old.host }
    ensures counts { WriteCounts (S.faults out.old) (S.faults out.new) result }
    ensures told { S.told out.new ≡ S.told out.old }
    ensures plays { IfOk result (PlaysBy (refusal_in (turned_to play.old) event.now) (stepped play.old event.now (turned_to play.old)) play.new) }
    ensures prints { IsTrue (S.told out.old) → Prints (S.written out.old) (S.written out.new) (event_lines play.old event.now) result }
{
    let number = play.asked.saturating_add(1);
    match play.host.step(alloc, play.field, event) {
        Ok(step) => {
            put_field_step(alloc, &play.host, play.field, step, out)?;
            play.asked = number;
            play.events += 1;
            Ok(Played::On)
        }
        Err(error) => {
            let code = refused_with(error)?;
            put_refusal(alloc, number, code, out)
        }
    }
}

/// Prints what the last event of a field did.
#[tactic(auto, using(crate::proofs::PrintingLaws::faults, crate::proofs::PrintingLaws::nothing_put))]
fn put_field_step<S: Sink>(
    alloc: Global,
    host: &Host,
    field: u32,
    step: Step,
    out: &mut S,
) -> Result<(), WriteError>
    requires { ReportsStoreFault (field_of host.now field) }
    ensures counts { WriteCounts (S.faults out.old) (S.faults out.new) result }
    ensures told { S.told out.new ≡ S.told out.old }
    ensures prints { IsTrue (S.told out.old) → Prints (S.written out.old) (S.written out.new) (told_lines field step (field_of host.now field)) result }
{
    let Some(session) = host.field(field) else {
        return Ok(());
    };
    let front = front(alloc, field)?;
    put_step(alloc, front.as_slice(), session, step, out)
}

/// Compares the whole text of the current field with an expected text, and prints a line if they differ.
#[tactic(auto, using(crate::proofs::PrintingLaws::faults, crate::proofs::PrintingLaws::nothing_put))]
fn play_expect<S: Sink>(
    alloc: Global,
    play: &mut Play,
    line: u32,
    text: &[char],
    out: &mut S,
) -> Result<Played, WriteError>
    requires { play.old.failed < 2 ^ 64 - 1 }
    ensures counts { WriteCounts (S.faults out.old) (S.faults out.new) result }
    ensures told { S.told out.new ≡ S.told out.old }
    ensures goes_on { IfOk result (λ end. end ≡ Played.On) }
    ensures leaves { IfOk result (λ _. play.new ≡ compared play.old text.now (turned_to play.old)) }
    ensures prints { IsTrue (S.told out.old)
        → Prints (S.written out.old) (S.written out.new) (expect_text play.old.field line text.now (turned_to play.old)) result }
{
    if is_text_of(&play.host, play.field, text) {
        return Ok(Played::On);
    }
    let line = expect_line(alloc, line)?;
    put_line(alloc, play.field, line, out)?;
    play.failed += 1;
    Ok(Played::On)
}

/// Returns whether the whole text of a field is this text, or there is no such field.
fn is_text_of(host: &Host, field: u32, text: &[char]) -> bool
    ensures { result ≡ is_text_of text.now (field_of host.now field) }
{
    match host.field(field) {
        Some(session) => is_text(session.editor().left(), session.editor().right(), text),
        None => true,
    }
}

/// Prints the texts of the fields and the counts, and returns how the play ends.
#[tactic(auto, using(crate::proofs::PrintingLaws::faults))]
fn put_end<S: Sink>(alloc: Global, play: &Play, out: &mut S) -> Result<PlayEnd, WriteError>
    ensures counts { WriteCounts (S.faults out.old) (S.faults out.new) result }
    ensures told { S.told out.new ≡ S.told out.old }
    ensures ends { IfOk result (λ end. end ≡ end_after None play.now.failed) }
    ensures prints { IsTrue (S.told out.old) → Prints (S.written out.old) (S.written out.new) (end_lines play.now) result }
{
    let end = end_line(alloc, play.events, play.failed)?;
    put_texts(alloc, &play.host, out)?;
    put_all(out, end.as_slice())?;
    Ok(end_after(play.failed))
}

/// Prints the text of each field.
#[tactic(auto, using(crate::proofs::PrintingLaws::faults))]
fn put_texts<S: Sink>(alloc: Global, host: &Host, out: &mut S) -> Result<(), WriteError>
    ensures counts { WriteCounts (S.faults out.old) (S.faults out.new) result }
    ensures told { S.told out.new ≡ S.told out.old }
    ensures prints { IsTrue (S.told out.old) → Prints (S.written out.old) (S.written out.new) (field_texts 1 host.now.sessions) result }
{
    let mut field = 0;
    for session in host.fields() {
        field += 1;
        put_text(alloc, field, session, out)?;
    }
    Ok(())
}

/// Prints the text of a field.
#[tactic(auto, using(crate::proofs::PrintingLaws::faults))]
fn put_text<S: Sink>(
    alloc: Global,
    field: u32,
    session: &Session,
    out: &mut S,
) -> Result<(), WriteError>
    ensures counts { WriteCounts (S.faults out.old) (S.faults out.new) result }
    ensures told { S.told out.new ≡ S.told out.old }
    ensures prints { IsTrue (S.told out.old) → Prints (S.written out.old) (S.written out.new) (field_text field session.now) result }
{
    let line = text_line(alloc, session.editor().left(), session.editor().right())?;
    put_line(alloc, field, line, out)
}
