//! Runs the program that checks a source: it prints all refusals of the source, or its warnings, each in a line that editors can read.
//! With a source that is not refused, it also checks a touch layout and a script.
//!
//! Depends on `source_faults`, which finds the refusals of lines; `refusal_details` and `refusal_places`, which find what they are about
//! and where they are; `keyman_run`, for the bitmap and the limits of the file if no line is refused, for the script, and for the order of
//! work; `source_warnings`, which finds the warnings if the source compiles, `dead_rules`, which adds those of dead rules, and
//! `name_warnings`, which finds those of keys that a layout lacks; `check_texts` for their texts; `indexed_tables`, which finds the options of
//! the keyboard; `touch_layout` for the faults of layouts and the ids of their keys; `keyman_words` (names of files, and how a run ends); and
//! `kmn_outside` (the folder and the sink). The layer above calls `check_run` and ends with the number of its `Status`. The contract `Runs`
//! (`specs/Runs`) states by status what was read and printed, `specs/Inputs` what is found in a layout and a script, `specs/Shown` which
//! refusals are printed, and `specs/Printed` the printed lines.
#![tactic(auto)]

mod checking;
mod error_lines;
mod findings;
mod input_lines;
mod inputs;
mod layouts;
mod printing;
mod running;
mod shown;
mod unknown;
mod warning_lines;

pub use keyman_words::Status;
pub use running::check_run;
