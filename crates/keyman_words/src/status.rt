//! The results of a run, and the exit status of each.

ghost use Rattle.std.specs.Prelude.{◌≡◌};
ghost use Rattle.std.specs.Process.{exit_status};
ghost use Rattle.keyman_words.specs.Status.{status_number};

use std::process::ExitCode;

/// The result of a run.
#[derive(Clone, Copy, Debug, PartialEq, Eq)]
pub enum Status {
    Done,
    /// A named rule was broken, or a file isn't exported, and the line that reports this was printed.
    Refused,
    /// The command-line arguments are not a command or, for the exporter, not the names of two files.
    Words,
    ReadFault,
    WriteFault,
    Memory,
    /// An expected text differed.
    ExpectFailed,
}

impl Status {
    /// Returns the exit status of the process.
    pub fn number(self) -> u8
        ensures { result ≡ status_number self }
    {
        match self {
            Status::Done => 0,
            Status::Refused => 1,
            Status::Words => 2,
            Status::ReadFault => 3,
            Status::WriteFault => 4,
            Status::Memory => 5,
            Status::ExpectFailed => 6,
        }
    }

    /// Returns the exit code with which the process ends after a run with this result.
    pub fn exit_code(self) -> ExitCode
        ensures { exit_status result ≡ status_number self }
    {
        ExitCode::from(self.number())
    }
}
