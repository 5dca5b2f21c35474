//! The command `trace`: compiles a source, plays a script on it, and prints which lines of the source fired.

ghost use Rattle.std.specs.Prelude.{◌≡◌, All};
ghost use Rattle.kmx_format.specs.TablesOf.{tables_of};
ghost use Rattle.rule_model.specs.Tab.{tab};
ghost use Rattle.rule_model.specs.Trace.{trace};
ghost use Rattle.rule_model.specs.Transcript.{events_of};
ghost use Rattle.rule_trace.specs.declared.coverage.Hit.{Hit};
ghost use Rattle.rule_trace.specs.Coverage.{lines_of_tables, AreLinesOf};
ghost use Rattle.play_transcript.specs.TraceText.{trace_text};
ghost use Rattle.keyman_run.specs.Endings.{end_of_trace, trace_status};
ghost use Rattle.keyman_run.specs.Orders.{trace_work};
ghost use Rattle.keyman_run.specs.Run.{Does};
ghost use Rattle.keyman_words.specs.Tells.{Tells};
ghost use Rattle.keyman_run.specs.Steps.{IsCompiled};

use crate::preparing::{Prepared, Stop, prepare};
use crate::running::print_stop;
use keyman_words::{FileName, Status, write_status};
use kmn_outside::{Folder, Sink};
use kmx_verifier::{Verified, verify};
use play_session::Session;
use play_transcript::{TraceEnd, trace_play};
use rule_model::Entry;
use rule_trace::Coverage;
use std::alloc::Global;

/// Compiles a source, plays a script on it, and prints which lines of the source fired.
pub fn trace_rules<F: Folder, S: Sink>(
    alloc: Global,
    source: &FileName<'_>,
    keys: &FileName<'_>,
    folder: &mut F,
    out: &mut S,
) -> Status
    ensures { Does (trace_work source.now keys.now) F.Folder folder.old folder.new S.Sink out.old out.new result }
{
    match prepare(alloc, source, keys, folder) {
        Ok(prepared) => trace_file(alloc, &prepared, out),
        Err(stop) => print_stop(alloc, stop, out),
    }
}

/// Plays the script on the compiled keyboard and prints which lines of its source fired.
fn trace_file<S: Sink>(alloc: Global, prepared: &Prepared, out: &mut S) -> Status
    requires { IsCompiled prepared.now.compiled }
    ensures { Tells (trace_status (trace (tab prepared.now.compiled.tables) (events_of prepared.now.entries)))
        (trace_text (tab prepared.now.compiled.tables) (lines_of_tables prepared.now.compiled.tables) prepared.now.entries) S.Sink out.old out.new result }
{
    let Ok(coverage) = Coverage::new(alloc, &prepared.compiled.tables) else {
        return Status::Memory;
    };
    match verify(alloc, prepared.compiled.bytes.as_slice()) {
        Ok(file) => print_trace(alloc, &file, coverage, prepared.entries.as_slice(), out),
        Err(error) => print_stop(alloc, Stop::from(error), out),
    }
}

/// Prints which lines fire when the keyboard of a valid file runs a script. All counts of the coverage must be 0.
#[tactic(auto, using(play_transcript::proofs::PrintingLaws::none_begun))]
fn print_trace<'a, S: Sink>(
    alloc: Global,
    file: &'a Verified<'a>,
    coverage: Coverage,
    entries: &[Entry],
    out: &mut S,
) -> Status
    requires none_chosen { All (λ (hit : Hit). hit.count ≡ 0) coverage }
    requires lines { AreLinesOf (tables_of file.now) coverage }
    ensures { Tells (trace_status (trace (tab (tables_of file.now)) (events_of entries.now)))
        (trace_text (tab (tables_of file.now)) (lines_of_tables (tables_of file.now)) entries.now) S.Sink out.old out.new result }
{
    let Ok(session) = Session::start(alloc, file) else {
        return Status::Memory;
    };
    match trace_play(alloc, session, coverage, entries, out) {
        Ok(end) => end_of_trace(end),
        Err(error) => write_status(error),
    }
}

/// Returns the status of a run that ends with a trace.
fn end_of_trace(end: TraceEnd) -> Status
    ensures { result ≡ end_of_trace end }
{
    match end {
        TraceEnd::Done => Status::Done,
        TraceEnd::Refused => Status::Refused,
    }
}
