//! Runs the program that imports a source: it writes the imported source and prints what was changed in it.
//!
//! Depends on `kmn_import`, which imports the bytes of a source; `keyman_run` for the order of work, and for how a run stops;
//! `keyman_words` (reading and writing by name, and how a run ends); and `kmn_outside` (the folder and the sink). The layer above
//! calls `import_run` and ends with the number of its `Status`. The contract `Runs` (`specs/Runs`) states by status what was read,
//! written and printed, and `specs/Printed` defines the printed lines.
#![tactic(auto)]

mod printing;
mod reading;
mod running;

pub use keyman_words::Status;
pub use running::import_run;
