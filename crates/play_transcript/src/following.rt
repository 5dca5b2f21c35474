//! Plays a script and prints which lines of the source fire, instead of what the events do.

ghost use Rattle.std.specs.Prelude.{◌≡◌, ◌-◌, ◌<◌, ◌^◌, All, IsTrue, IfOk};
ghost use Rattle.kmn_outside.specs.Outside.{WriteCounts};
ghost use Rattle.rule_model.specs.Tab.{tab};
ghost use Rattle.rule_model.specs.Trace.{trace};
ghost use Rattle.rule_model.specs.Transcript.{events_of, refused_event_line};
ghost use Rattle.rule_trace.specs.declared.coverage.Hit.{Hit};
ghost use Rattle.rule_trace.specs.Coverage.{lines_of_tables, hit_lines, AreLinesOf};
ghost use Rattle.play_session.specs.Session.{first_session};
ghost use Rattle.play_transcript.specs.Printing.{Prints};
ghost use Rattle.play_transcript.specs.TraceEnds.{trace_end};
ghost use Rattle.play_transcript.specs.TraceText.{fired_line, hits_text, trace_text};
ghost use Rattle.play_transcript.specs.TraceEntry.{no_counts, entry_line, event_line, Covers, Follows, FollowsEvent};

use crate::fired::{fired_line, hits_text};
use crate::put_all;
use kmn_base::{Code, Event};
use kmn_outside::{Sink, WriteError};
use play_script::refused_event_line;
use play_session::{Session, StepError};
use rule_model::Entry;
use rule_trace::{Coverage, Hit};
use std::alloc::Global;

/// The counts of a traced script: the number of its last step, and the number of events that were done.
#[derive(Clone, Copy)]
pub(crate) struct TraceCounts {
    /// Saturates at the maximum of its type.
    pub number: u32,
    pub events: usize,
}

/// The effect of an entry on a script: the script continues, or an event was refused.
#[derive(Clone, Copy)]
pub(crate) enum Followed {
    On(TraceCounts),
    Refused,
}

/// How a traced script ends.
#[derive(Clone, Copy)]
pub enum TraceEnd {
    Done,
    /// An event was refused.
    Refused,
}

/// A session with the coverage of the lines that fire in it.
#[derive(Drop)]
struct TracedSession<'a> {
    session: Session<'a>,
    coverage: Coverage,
}

/// Plays a script in a session before its first event, with a coverage that has counted no line. Prints the lines of the rules that
/// fire for each event, and at the end how often each line fired and which lines never fired.
pub fn trace_play<'a, S: Sink>(
    alloc: Global,
    session: Session<'a>,
    coverage: Coverage,
    entries: &[Entry],
    out: &mut S,
) -> Result<TraceEnd, WriteError>
    requires first { session ≡ first_session session.tables }
    requires none_chosen { All (λ (hit : Hit). hit.count ≡ 0) coverage }
    requires lines { AreLinesOf session.tables coverage }
    ensures counts { WriteCounts (S.faults out.old) (S.faults out.new) result }
    ensures told { S.told out.new ≡ S.told out.old }
    ensures ends { IfOk result (λ end. end ≡ trace_end (trace (tab session.entry.tables) (events_of entries.now))) }
    ensures prints { IsTrue (S.told out.old)
        → Prints (S.written out.old) (S.written out.new) (trace_text (tab session.entry.tables) (lines_of_tables session.entry.tables) entries.now) result }
{
    let mut traced = TracedSession { session, coverage };
    follow(alloc, &mut traced, entries, out)
}

/// Does the same as `trace_play`, with a borrowed session and coverage.
fn follow<S: Sink>(
    alloc: Global,
    traced: &mut TracedSession,
    entries: &[Entry],
    out: &mut S,
) -> Result<TraceEnd, WriteError>
    requires first { traced.old.session ≡ first_session traced.old.session.tables }
    requires none_chosen { All (λ (hit : Hit). hit.count ≡ 0) traced.old.coverage }
    requires lines { AreLinesOf traced.old.session.tables traced.old.coverage }
    ensures counts { WriteCounts (S.faults out.old) (S.faults out.new) result }
    ensures told { S.told out.new ≡ S.told out.old }
    ensures ends { IfOk result (λ end. end ≡ trace_end (trace (tab traced.old.session.tables) (events_of entries.now))) }
    ensures prints { IsTrue (S.told out.old)
        → Prints (S.written out.old) (S.written out.new) (trace_text (tab traced.old.session.tables) (lines_of_tables traced.old.session.tables) entries.now) result }
{
    let mut counts = no_counts();
    for entry in entries {
        match follow_entry(alloc, traced, counts, entry, out)? {
            Followed::On(next) => counts = next,
            Followed::Refused => return Ok(TraceEnd::Refused),
        }
    }
    put_end(alloc, counts.events, traced.coverage.hits(), out)
}

/// Returns the counts before the first entry.
fn no_counts() -> TraceCounts
    ensures { result ≡ no_counts }
{
    TraceCounts {
        number: 0,
        events: 0,
    }
}

/// Plays an entry of a script and prints its line. An expected text has no effect.
#[tactic(auto, using(crate::proofs::PrintingLaws::nothing_put))]
fn follow_entry<S: Sink>(
    alloc: Global,
    traced: &mut TracedSession,
    counts: TraceCounts,
    entry: &Entry,
    out: &mut S,
) -> Result<Followed, WriteError>
    requires numbered { traced.old.session.number ≡ counts.number }
    requires events { counts.events < 2 ^ 64 - 1 }
    requires covers { Covers traced.old.session.tables (hit_lines traced.old.coverage) }
    ensures counts { WriteCounts (S.faults out.old) (S.faults out.new) result }
    ensures told { S.told out.new ≡ S.told out.old }
    ensures follows { IfOk result (Follows traced.old.session traced.new.session traced.old.coverage traced.new.coverage counts entry.now) }
    ensures prints { IsTrue (S.told out.old) → Prints (S.written out.old) (S.written out.new) (entry_line traced.old.session entry.now) result }
{
    match entry {
        Entry::Act { event, .. } => follow_event(alloc, traced, counts, event, out),
        Entry::Expect { .. } => Ok(Followed::On(counts)),
    }
}

/// Performs an event, prints its line and counts the lines of the rules that fired.
#[tactic(auto, using(crate::proofs::PrintingLaws::faults))]
fn follow_event<S: Sink>(
    alloc: Global,
    traced: &mut TracedSession,
    counts: TraceCounts,
    event: &Event,
    out: &mut S,
) -> Result<Followed, WriteError>
    requires numbered { traced.old.session.number ≡ counts.number }
    requires events { counts.events < 2 ^ 64 - 1 }
    requires covers { Covers traced.old.session.tables (hit_lines traced.old.coverage) }
    ensures counts { WriteCounts (S.faults out.old) (S.faults out.new) result }
    ensures told { S.told out.new ≡ S.told out.old }
    ensures follows { IfOk result (FollowsEvent traced.old.session traced.new.session traced.old.coverage traced.new.coverage counts event.now) }
    ensures prints { IsTrue (S.told out.old) → Prints (S.written out.old) (S.written out.new) (event_line traced.old.session event.now) result }
{
    match traced.session.step(alloc, event) {
        Ok(step) => {
            put_fired(alloc, step.number, traced.session.chosen(), out)?;
            traced.coverage.add(traced.session.chosen());
            Ok(Followed::On(TraceCounts {
                number: step.number,
                events: counts.events + 1,
            }))
        }
        Err(StepError::Place) => put_refusal(alloc, counts.number.saturating_add(1), Code::E1, out),
        Err(StepError::Length) => {
            put_refusal(alloc, counts.number.saturating_add(1), Code::E2, out)
        }
        Err(StepError::Memory) => Err(WriteError::Memory),
    }
}

/// Prints the lines of the rules that fired for an event.
#[tactic(auto, using(crate::proofs::PrintingLaws::faults))]
fn put_fired<S: Sink>(
    alloc: Global,
    number: u32,
    lines: &[u32],
    out: &mut S,
) -> Result<(), WriteError>
    ensures counts { WriteCounts (S.faults out.old) (S.faults out.new) result }
    ensures told { S.told out.new ≡ S.told out.old }
    ensures prints { IsTrue (S.told out.old) → Prints (S.written out.old) (S.written out.new) (fired_line number lines.now) result }
{
    let line = fired_line(alloc, number, lines)?;
    put_all(out, line.as_slice())
}

/// Prints the refusal of an event.
#[tactic(auto, using(crate::proofs::PrintingLaws::faults))]
fn put_refusal<S: Sink>(
    alloc: Global,
    number: u32,
    code: Code,
    out: &mut S,
) -> Result<Followed, WriteError>
    ensures counts { WriteCounts (S.faults out.old) (S.faults out.new) result }
    ensures told { S.told out.new ≡ S.told out.old }
    ensures refused { IfOk result (λ followed. followed ≡ Followed.Refused) }
    ensures prints { IsTrue (S.told out.old) → Prints (S.written out.old) (S.written out.new) (refused_event_line number code) result }
{
    let line = refused_event_line(alloc, number, code)?;
    put_all(out, line.as_slice())?;
    Ok(Followed::Refused)
}

/// Prints how often each line fired, which lines never fired, and the number of events.
#[tactic(auto, using(crate::proofs::PrintingLaws::faults))]
fn put_end<S: Sink>(
    alloc: Global,
    events: usize,
    hits: &[Hit],
    out: &mut S,
) -> Result<TraceEnd, WriteError>
    ensures counts { WriteCounts (S.faults out.old) (S.faults out.new) result }
    ensures told { S.told out.new ≡ S.told out.old }
    ensures ends { IfOk result (λ end. end ≡ TraceEnd.Done) }
    ensures prints { IsTrue (S.told out.old) → Prints (S.written out.old) (S.written out.new) (hits_text events hits.now) result }
{
    let text = hits_text(alloc, events, hits)?;
    put_all(out, text.as_slice())?;
    Ok(TraceEnd::Done)
}
