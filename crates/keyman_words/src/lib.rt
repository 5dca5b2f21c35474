//! The texts of a run: the command in its command-line arguments, the names of its files, the lines that it prints when work is
//! refused or done, and its exit status.
//!
//! Depends on `kmn_outside` for files and the sink, on `play_transcript`, which prints a whole line, and on the crates that define the
//! faults and results that a line reports: `kmn_compiler`, `kmx_verifier`, `kmx_decompiler`, `play_script` and `touch_layout`.
//!
//! A program calls `words` to get the command-line arguments after its name. No clause states that the result is these arguments,
//! since the toolchain's contract of `Env::arg` does not describe them. What is proved is that `words` returns, whatever the system
//! passes. The runs use these functions:
//! - `command_of` returns exactly the command that `request_of` specifies (`specs/Command`).
//! - `read` and `write` access a file by its name, and `beside` returns the name of a file in another file's folder (`specs/Beside`).
//!   `is_layout` returns whether a name ends as that of a touch layout (`specs/LayoutNames`).
//! - `reason_line` returns the line of a `Reason` why work is refused (`specs/Reasons`). `compiled_line`, `valid_line`,
//!   `decompiled_line` and `sound_line` return the lines of work that was done (`specs/Lines`). Each returns exactly its line, unless
//!   an allocation fails. `LONG_FILE` is the fault of a file that is too long to read.
//! - `print_line` ends a run; its clause `Tells` (`specs/Tells`) states what was printed for each status. `print_result` ends a run with a
//!   line that may be missing because an allocation failed, and `write_status` with a failed write.
//!
//! The programs end with the `exit_code` of a status. `specs/Seen` defines what the contracts of runs see of a folder and a sink.
#![tactic(auto)]

mod command;
mod file_lines;
mod file_name;
mod lines;
mod printing;
mod process;
mod reason;
mod status;

pub use command::{Command, command_of};
pub use file_lines::{compiled_line, decompiled_line, sound_line, valid_line};
pub use file_name::{FileName, beside, is_layout, read, write};
pub use lines::reason_line;
pub use printing::{print_line, print_result, write_status};
pub use process::words;
pub use reason::{LONG_FILE, Reason};
pub use status::Status;
