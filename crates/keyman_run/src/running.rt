//! Runs the command that the arguments name. The work of the longer commands is in separate modules.

ghost use Rattle.std.specs.Prelude.{◌≡◌, IsTrue};
ghost use Rattle.kmx_format.specs.TablesOf.{tables_of};
ghost use Rattle.rule_model.specs.Tab.{tab};
ghost use Rattle.rule_model.specs.Trace.{trace};
ghost use Rattle.rule_model.specs.Transcript.{events_of, transcript};
ghost use Rattle.play_session.specs.Session.{first_session};
ghost use Rattle.keyman_run.specs.Asked.{HasWritten};
ghost use Rattle.keyman_run.specs.Endings.{end_status, play_status};
ghost use Rattle.keyman_run.specs.Orders.{bytes_play_work, compile_work, decompile_work, layout_work, play_work, tables_layout_work, tables_play_work, test_work, verify_work};
ghost use Rattle.keyman_run.specs.Inputs.{tables_of_file};
ghost use Rattle.keyman_run.specs.Loads.{load_text};
ghost use Rattle.keyman_run.specs.Run.{Does, TextMeans};
ghost use Rattle.keyman_run.specs.Runs.{Runs};
ghost use Rattle.keyman_words.specs.Tells.{Tells};
ghost use Rattle.keyman_run.specs.Steps.{IsCompiled, PrintsFileCounts, PrintsLoad, PrintsStop};

use crate::hosting::host_on_file;
use crate::layouts::read_keys;
use crate::loading::played_load;
use crate::preparing::{Prepared, Stop, prepare, read_and_compile, read_file, read_own_entries};
use crate::shadowing::shadow_rules;
use crate::texts::read_text;
use crate::tracing::trace_rules;
use keyman_words::{
    Command, FileName, Status, command_of, compiled_line, decompiled_line, print_line,
    print_result, reason_line, sound_line, valid_line, write, write_status,
};
use kmn_base::{Memory, Text};
use kmn_outside::{Folder, Sink};
use kmx_verifier::{Verified, verify};
use play_session::Session;
use play_transcript::{PlayEnd, play};
use rule_model::{Entry, Tables};
use std::alloc::Global;

/// The file names of a test: the source, the file that it compiles to, and the script.
#[derive(Drop)]
struct TestNames<'a> {
    source: FileName<'a>,
    file: FileName<'a>,
    keys: FileName<'a>,
}

/// Runs the command that the arguments name on a folder and a sink. The fields of `Runs` are its clauses.
pub fn run<F: Folder, S: Sink>(alloc: Global, words: &[Text], folder: &mut F, out: &mut S) -> Status
    ensures { Runs words.now F.Folder folder.old folder.new S.Sink out.old out.new result }
{
    match command_of(words) {
        Some(Command::Compile { source, file }) => compile(alloc, &source, &file, folder, out),
        Some(Command::Test { source, file, keys }) => {
            let names = TestNames { source, file, keys };
            test(alloc, &names, folder, out)
        }
        Some(Command::Verify { file }) => verify_file(alloc, &file, folder, out),
        Some(Command::Decompile { file, source }) => decompile(alloc, &file, &source, folder, out),
        Some(Command::Play { file, keys }) => play_on_file(alloc, &file, &keys, folder, out),
        Some(Command::Layout { source, layout }) => {
            check_layout(alloc, &source, &layout, folder, out)
        }
        Some(Command::Load { number }) => load(alloc, number, out),
        Some(Command::Trace { source, keys }) => trace_rules(alloc, &source, &keys, folder, out),
        Some(Command::Shadow { source }) => shadow_rules(alloc, &source, folder, out),
        Some(Command::Host { file, keys }) => host_on_file(alloc, &file, &keys, folder, out),
        None => Status::Words,
    }
}

/// Compiles a source, writes the file and prints its counts.
fn compile<F: Folder, S: Sink>(
    alloc: Global,
    source: &FileName<'_>,
    file: &FileName<'_>,
    folder: &mut F,
    out: &mut S,
) -> Status
    ensures { Does (compile_work source.now file.now) F.Folder folder.old folder.new S.Sink out.old out.new result }
{
    match read_and_compile(alloc, source, folder) {
        Ok(compiled) => match write(alloc, file, compiled.bytes.as_slice(), folder) {
            Ok(()) => print_result(compiled_line(alloc, &compiled), Status::Done, out),
            Err(error) => write_status(error),
        },
        Err(stop) => print_stop(alloc, stop, out),
    }
}

/// Compiles a source, writes the file and plays a script on it. The transcript is what the source means.
fn test<F: Folder, S: Sink>(
    alloc: Global,
    names: &TestNames<'_>,
    folder: &mut F,
    out: &mut S,
) -> Status
    ensures { Does (test_work names.now.source names.now.file names.now.keys) F.Folder folder.old folder.new S.Sink out.old out.new result }
{
    match prepare(alloc, &names.source, &names.keys, folder) {
        Ok(prepared) => match write(
            alloc,
            &names.file,
            prepared.compiled.bytes.as_slice(),
            folder,
        ) {
            Ok(()) => play_file(alloc, &prepared, out),
            Err(error) => write_status(error),
        },
        Err(stop) => print_stop(alloc, stop, out),
    }
}

/// Plays the script on the written file.
#[tactic(auto, using(crate::proofs::FileRuns::plays_written))]
fn play_file<S: Sink>(alloc: Global, prepared: &Prepared, out: &mut S) -> Status
    requires { IsCompiled prepared.now.compiled }
    ensures { Tells (play_status (trace (tab prepared.now.compiled.tables) (events_of prepared.now.entries)) prepared.now.entries)
        (transcript (tab prepared.now.compiled.tables) prepared.now.entries) S.Sink out.old out.new result }
{
    match verify(alloc, prepared.compiled.bytes.as_slice()) {
        Ok(file) => print_played(alloc, &file, prepared.entries.as_slice(), out),
        Err(error) => print_stop(alloc, Stop::from(error), out),
    }
}

/// Prints what the keyboard of a valid file does with a script.
#[tactic(auto, using(play_transcript::proofs::PrintingLaws::none_begun))]
fn print_played<'a, S: Sink>(
    alloc: Global,
    file: &'a Verified<'a>,
    entries: &[Entry],
    out: &mut S,
) -> Status
    ensures { Tells (play_status (trace (tab (tables_of file.now)) (events_of entries.now)) entries.now)
        (transcript (tab (tables_of file.now)) entries.now) S.Sink out.old out.new result }
{
    match Session::start(alloc, file) {
        Ok(session) => print_play(alloc, session, entries, out),
        Err(Memory) => Status::Memory,
    }
}

/// Prints what a session before its first event does with a script.
#[tactic(auto, using(play_transcript::proofs::PrintingLaws::none_begun))]
fn print_play<'a, S: Sink>(
    alloc: Global,
    session: Session<'a>,
    entries: &[Entry],
    out: &mut S,
) -> Status
    requires { session ≡ first_session session.tables }
    ensures { Tells (play_status (trace (tab session.entry.tables) (events_of entries.now)) entries.now)
        (transcript (tab session.entry.tables) entries.now) S.Sink out.old out.new result }
{
    match play(alloc, session, entries, out) {
        Ok(end) => end_status(end),
        Err(error) => write_status(error),
    }
}

/// Verifies a file and prints its version and counts, or its first fault.
fn verify_file<F: Folder, S: Sink>(
    alloc: Global,
    file: &FileName<'_>,
    folder: &mut F,
    out: &mut S,
) -> Status
    ensures { Does (verify_work file.now) F.Folder folder.old folder.new S.Sink out.old out.new result }
{
    match read_file(alloc, file, folder) {
        Ok(bytes) => print_file_counts(alloc, bytes.as_slice(), out),
        Err(stop) => print_stop(alloc, stop, out),
    }
}

/// Prints the version and counts of a file, or its first fault.
fn print_file_counts<S: Sink>(alloc: Global, bytes: &[u8], out: &mut S) -> Status
    ensures { PrintsFileCounts (tables_of_file bytes.now) S.Sink out.old out.new result }
{
    match verify(alloc, bytes) {
        Ok(file) => print_result(valid_line(alloc, &file), Status::Done, out),
        Err(error) => print_stop(alloc, Stop::from(error), out),
    }
}

/// Decompiles a file, writes its source and prints the size of the source.
fn decompile<F: Folder, S: Sink>(
    alloc: Global,
    file: &FileName<'_>,
    source: &FileName<'_>,
    folder: &mut F,
    out: &mut S,
) -> Status
    ensures does { Does (decompile_work file.now source.now) F.Folder folder.old folder.new S.Sink out.old out.new result }
    ensures means { IsTrue (F.told folder.old) → HasWritten (F.calls folder.old) (F.calls folder.new)
        → TextMeans (F.files folder.old) (F.files folder.new) file.now source.now }
{
    match read_text(alloc, file, folder) {
        Ok(text) => match write(alloc, source, text.as_slice(), folder) {
            Ok(()) => print_result(decompiled_line(alloc, &text), Status::Done, out),
            Err(error) => write_status(error),
        },
        Err(stop) => print_stop(alloc, stop, out),
    }
}

/// Plays a script on an untrusted compiled keyboard.
fn play_on_file<F: Folder, S: Sink>(
    alloc: Global,
    file: &FileName<'_>,
    keys: &FileName<'_>,
    folder: &mut F,
    out: &mut S,
) -> Status
    ensures { Does (play_work file.now keys.now) F.Folder folder.old folder.new S.Sink out.old out.new result }
{
    match read_file(alloc, file, folder) {
        Ok(bytes) => play_on_bytes(alloc, bytes.as_slice(), keys, folder, out),
        Err(stop) => print_stop(alloc, stop, out),
    }
}

/// Plays a script on the bytes of a file, or prints the first fault of the file.
#[tactic(auto, using(crate::proofs::FileRuns::plays_valid))]
fn play_on_bytes<F: Folder, S: Sink>(
    alloc: Global,
    bytes: &[u8],
    keys: &FileName<'_>,
    folder: &mut F,
    out: &mut S,
) -> Status
    ensures { Does (bytes_play_work bytes.now keys.now) F.Folder folder.old folder.new S.Sink out.old out.new result }
{
    match verify(alloc, bytes) {
        Ok(file) => play_on_valid(alloc, &file, keys, folder, out),
        Err(error) => print_stop(alloc, Stop::from(error), out),
    }
}

/// Reads a script for the keyboard of a valid file and plays it.
#[tactic(auto, using(crate::proofs::FileRuns::does_no_memory))]
fn play_on_valid<'a, F: Folder, S: Sink>(
    alloc: Global,
    file: &'a Verified<'a>,
    keys: &FileName<'_>,
    folder: &mut F,
    out: &mut S,
) -> Status
    ensures { Does (tables_play_work (tables_of file.now) keys.now) F.Folder folder.old folder.new S.Sink out.old out.new result }
{
    match Session::start(alloc, file) {
        Ok(session) => play_in_session(alloc, session, keys, folder, out),
        Err(Memory) => Status::Memory,
    }
}

/// Reads a script for the keyboard of a session before its first event and plays it in the session.
fn play_in_session<'a, F: Folder, S: Sink>(
    alloc: Global,
    session: Session<'a>,
    keys: &FileName<'_>,
    folder: &mut F,
    out: &mut S,
) -> Status
    requires { session ≡ first_session session.tables }
    ensures { Does (tables_play_work session.entry.tables keys.now) F.Folder folder.old folder.new S.Sink out.old out.new result }
{
    match read_own_entries(alloc, &session, keys, folder) {
        Ok(entries) => print_play(alloc, session, entries.as_slice(), out),
        Err(stop) => print_stop(alloc, stop, out),
    }
}

/// Compiles a source, checks a touch layout against its tables, and prints the number of keys of the layout.
fn check_layout<F: Folder, S: Sink>(
    alloc: Global,
    source: &FileName<'_>,
    layout: &FileName<'_>,
    folder: &mut F,
    out: &mut S,
) -> Status
    ensures { Does (layout_work source.now layout.now) F.Folder folder.old folder.new S.Sink out.old out.new result }
{
    match read_and_compile(alloc, source, folder) {
        Ok(compiled) => check_beside(alloc, &compiled.tables, layout, folder, out),
        Err(stop) => print_stop(alloc, stop, out),
    }
}

/// Reads a touch layout, checks it against tables, and prints the number of its keys.
fn check_beside<F: Folder, S: Sink>(
    alloc: Global,
    tables: &Tables,
    layout: &FileName<'_>,
    folder: &mut F,
    out: &mut S,
) -> Status
    ensures { Does (tables_layout_work tables.now layout.now) F.Folder folder.old folder.new S.Sink out.old out.new result }
{
    match read_keys(alloc, layout, tables, folder) {
        Ok(count) => print_result(sound_line(alloc, count), Status::Done, out),
        Err(stop) => print_stop(alloc, stop, out),
    }
}

/// Generates, compiles and plays a load, and prints its line.
fn load<S: Sink>(alloc: Global, number: u32, out: &mut S) -> Status
    ensures { PrintsLoad (load_text number) S.Sink out.old out.new result }
{
    match played_load(alloc, number) {
        Ok(line) => print_line(line.as_slice(), Status::Done, out),
        Err(stop) => print_stop(alloc, stop, out),
    }
}

/// Ends a run that stops before it writes. Only a refusal prints a line.
#[tactic(auto, using(keyman_words::proofs::Printed::tells_made))]
pub fn print_stop<S: Sink>(alloc: Global, stop: Stop, out: &mut S) -> Status
    ensures { PrintsStop stop S.Sink out.old out.new result }
{
    match stop {
        Stop::Refused(why) => print_result(reason_line(alloc, why), Status::Refused, out),
        Stop::ReadFault => Status::ReadFault,
        Stop::Memory => Status::Memory,
    }
}

/// Returns the status of a run that ends with a play.
pub fn end_status(end: PlayEnd) -> Status
    ensures { result ≡ end_status end }
{
    match end {
        PlayEnd::Done => Status::Done,
        PlayEnd::Refused => Status::Refused,
        PlayEnd::ExpectFailed => Status::ExpectFailed,
    }
}
