//! Prints lines to a sink, and returns the status with which the run then ends.

ghost use Rattle.std.specs.Prelude.{◌≡◌, ◌⊎◌};
ghost use Rattle.keyman_words.specs.Tells.{Tells, PrintsResult, write_status};

use crate::status::Status;
use kmn_base::{Memory, Text};
use kmn_outside::{Sink, WriteError};
use play_transcript::put_all;

/// Prints one or more lines, and returns this status. If the sink fails, returns `WriteFault`; then a first part of the bytes was
/// printed, maybe none.
pub fn print_line<S: Sink>(line: &[u8], status: Status, out: &mut S) -> Status
    requires { (status ≡ Status.Done) ⊎ (status ≡ Status.Refused) }
    ensures { Tells status line.now S.Sink out.old out.new result }
{
    match put_all(out, line) {
        Ok(()) => status,
        Err(error) => write_status(error),
    }
}

/// Prints one or more lines that were made, and returns this status. If an allocation failed while they were made, does not print and
/// returns `Memory`.
pub fn print_result<S: Sink>(made: Result<Text, Memory>, status: Status, out: &mut S) -> Status
    requires { (status ≡ Status.Done) ⊎ (status ≡ Status.Refused) }
    ensures { PrintsResult status made S.Sink out.old out.new result }
{
    match made {
        Ok(line) => print_line(line.as_slice(), status, out),
        Err(Memory) => Status::Memory,
    }
}

/// Returns the status of a run that ends with a failed write of a file or to the sink.
pub fn write_status(error: WriteError) -> Status
    ensures { result ≡ write_status error }
{
    match error {
        WriteError::Failed => Status::WriteFault,
        WriteError::Memory => Status::Memory,
    }
}
