//! The command `host`: plays a script in the fields of a host on an untrusted compiled keyboard.

ghost use Rattle.kmx_format.specs.TablesOf.{tables_of};
ghost use Rattle.rule_model.specs.Tab.{tab};
ghost use Rattle.play_transcript.specs.HostText.{host_end, host_text};
ghost use Rattle.keyman_run.specs.Endings.{end_status};
ghost use Rattle.keyman_run.specs.Orders.{bytes_host_work, host_script_work, host_work, tables_host_work};
ghost use Rattle.keyman_run.specs.Run.{Does};
ghost use Rattle.keyman_words.specs.Tells.{Tells};
ghost use Rattle.keyman_run.specs.Steps.{Gives, itself};

use crate::preparing::{Stop, at_line_one, own_names, read_file, read_stop};
use crate::running::{end_status, print_stop};
use keyman_words::{FileName, Status, read, write_status};
use kmn_base::limits::TEXT_BYTES;
use kmn_base::{Code, Seq};
use kmn_outside::{Folder, Sink};
use kmx_verifier::{Verified, verify};
use play_session::Session;
use play_transcript::play_host;
use std::alloc::Global;
use text_host::{Host, HostEntry, read_host};
use virtual_keys::KeyDictionary;

/// Plays a script in the fields of a host on an untrusted compiled keyboard.
pub fn host_on_file<F: Folder, S: Sink>(
    alloc: Global,
    file: &FileName<'_>,
    keys: &FileName<'_>,
    folder: &mut F,
    out: &mut S,
) -> Status
    ensures { Does (host_work file.now keys.now) F.Folder folder.old folder.new S.Sink out.old out.new result }
{
    match read_file(alloc, file, folder) {
        Ok(bytes) => host_on_bytes(alloc, bytes.as_slice(), keys, folder, out),
        Err(stop) => print_stop(alloc, stop, out),
    }
}

/// Plays a script in a host on the bytes of a file, or prints the first fault of the file.
#[tactic(auto, using(crate::proofs::HostRuns::hosts_valid))]
fn host_on_bytes<F: Folder, S: Sink>(
    alloc: Global,
    bytes: &[u8],
    keys: &FileName<'_>,
    folder: &mut F,
    out: &mut S,
) -> Status
    ensures { Does (bytes_host_work bytes.now keys.now) F.Folder folder.old folder.new S.Sink out.old out.new result }
{
    match verify(alloc, bytes) {
        Ok(file) => host_on_valid(alloc, &file, keys, folder, out),
        Err(error) => print_stop(alloc, Stop::from(error), out),
    }
}

/// Reads a script for the keyboard of a valid file and plays it in a host on the file.
fn host_on_valid<'a, F: Folder, S: Sink>(
    alloc: Global,
    file: &'a Verified<'a>,
    keys: &FileName<'_>,
    folder: &mut F,
    out: &mut S,
) -> Status
    ensures { Does (tables_host_work (tables_of file.now) keys.now) F.Folder folder.old folder.new S.Sink out.old out.new result }
{
    match read_for_file(alloc, file, keys, folder) {
        Ok(entries) => print_host_play(alloc, file, entries.as_slice(), out),
        Err(stop) => print_stop(alloc, stop, out),
    }
}

/// Reads a host script for the keyboard of a valid file. It starts a session to get the key names of the keyboard.
fn read_for_file<'a, F: Folder>(
    alloc: Global,
    file: &'a Verified<'a>,
    keys: &FileName<'_>,
    folder: &mut F,
) -> Result<Seq<HostEntry>, Stop>
    ensures { Gives itself (host_script_work (tab (tables_of file.now)).dictionary keys.now) F.Folder folder.old folder.new result }
{
    let session = Session::start(alloc, file)?;
    read_host_entries(alloc, keys, own_names(&session), folder)
}

/// Reads a host script for a keyboard with these key names.
fn read_host_entries<F: Folder>(
    alloc: Global,
    keys: &FileName<'_>,
    names: &KeyDictionary,
    folder: &mut F,
) -> Result<Seq<HostEntry>, Stop>
    ensures { Gives itself (host_script_work names.now keys.now) F.Folder folder.old folder.new result }
{
    let script = read(alloc, keys, TEXT_BYTES, folder).map_err(|error| read_stop(
        error,
        at_line_one(Code::P06),
    ))?;
    Ok(read_host(alloc, script.as_slice(), names)?)
}

/// Prints what the fields of a host on a valid file do with a script.
#[tactic(auto, using(play_transcript::proofs::PrintingLaws::none_begun))]
fn print_host_play<'a, S: Sink>(
    alloc: Global,
    file: &'a Verified<'a>,
    entries: &[HostEntry],
    out: &mut S,
) -> Status
    ensures { Tells (end_status (host_end (tables_of file.now) entries.now)) (host_text (tables_of file.now) entries.now) S.Sink out.old out.new result }
{
    match play_host(alloc, Host::over(alloc, file), entries, out) {
        Ok(end) => end_status(end),
        Err(error) => write_status(error),
    }
}
