//! Runs the exporter, which writes a file that Keyman's own engine plays instead of a compiled keyboard.
//!
//! Depends on `core_export`, which makes that file; `core_constructs` for the constructs that it finds; `kmx_verifier`; `keyman_words`
//! (reading and writing by name, the line of a file's fault, and how a run ends); and `kmn_outside` (the folder and the sink). The
//! layer above calls `export_run` and ends with the number of its `Status`. The contract `Runs` (`specs/Runs`) states by status what
//! was read, written and printed.
#![tactic(auto)]

mod printing;
mod reading;
mod running;
mod telling;

pub use keyman_words::Status;
pub use running::export_run;
