//! Traces which rules of a keyboard fire: returns the source lines of the rules that an event selects, and counts how often each
//! line of a keyboard is selected.
//!
//! Depends on `kmn_base`, `rule_model` (`chosen` defines which lines an event selects), `plain_event` (performs an event on the
//! tables of a compiled keyboard) and, for the laws, `compile_laws` (the tables of a program). The layer above uses `Coverage`,
//! which counts lines and has a hit for each line that a record has, and two laws: compiled tables select the lines that their
//! program selects, and the lines that tables select are lines of their records, as a coverage requires. A line occurs once in a
//! coverage, although a rule with a key store has a record for each key. Tests of the meaning call `trace_event`, which does what
//! `plain_event` does and also returns the lines.
#![tactic(auto)]

mod coverage;
mod law;
mod tracing;

pub use coverage::{Coverage, Hit};
pub use law::{chosen_lines_are_lines, compiling_keeps_choice};
pub use plain_event::Traced;
pub use tracing::trace_event;
