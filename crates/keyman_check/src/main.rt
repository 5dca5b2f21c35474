//! The program that checks a source: prints all of its refusals, or its warnings.
//!
//! Depends on `keyman_words` (the command-line arguments, and the exit status as `status_number`) and on `check_run` (its
//! function `check_run` reads a source in a folder and prints what it finds to a sink). `main` is one call of `run_words`, on the real
//! files and standard output, with the arguments of the process.
#![tactic(auto)]

ghost use Rattle.std.specs.Prelude.{◌≡◌, IfErr, IfOk};
ghost use Rattle.std.specs.Process.{exit_status};
ghost use Rattle.check_run.specs.Runs.{Runs};
ghost use Rattle.keyman_words.specs.Status.{status_number};

use check_run::{Status, check_run};
use keyman_words::words;
use kmn_base::{Memory, Seq, Text};
use kmn_outside::{DiskFolder, Folder, Sink, StreamSink};
use std::alloc::Global;
use std::process::ExitCode;

/// Does what the arguments request and returns the exit status of the process. If an allocation for the arguments failed, the
/// folder and the sink are unchanged.
fn run_words<F: Folder, S: Sink>(
    alloc: Global,
    words: Result<Seq<Text>, Memory>,
    folder: &mut F,
    out: &mut S,
) -> ExitCode
    ensures runs { IfOk words (λ said. (how : Status) × Runs said F.Folder folder.old folder.new S.Sink out.old out.new how × (exit_status result ≡ status_number how)) }
    ensures unread { IfErr words (λ _. (exit_status result ≡ status_number Status.Memory) × (folder.new ≡ folder.old) × (out.new ≡ out.old)) }
{
    match words {
        Ok(words) => check_run(alloc, words.as_slice(), folder, out).exit_code(),
        Err(Memory) => Status::Memory.exit_code(),
    }
}

fn main(rt: HostRuntime) -> ExitCode {
    run_words(
        rt.alloc(),
        words(&rt),
        &mut DiskFolder::new(&rt),
        &mut StreamSink::new(rt.stdout()),
    )
}
