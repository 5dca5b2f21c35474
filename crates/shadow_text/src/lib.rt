//! Lists rules of a keyboard that can never fire, as text.
//!
//! For each such rule, the text has its line and the lines of other rules, and at the end it has the number of rules and of
//! dead rules. Whenever the dead rule would hold, a rule of one of these lines takes precedence over it.
//!
//! Use: call `dead_text`, which returns the text for any tables that a file can have (`specs/DeadLines`), or `found_dead`, which
//! returns the same rules as a list. Callers pass at most `limits::SHADOW_RECORDS` records, since each record is compared with all
//! earlier ones.
//!
//! Law: each line of `dead_lines` has a rule that never fires, in any state and for any key press. The lines of `found_dead` are these
//! lines.
//!
//! Depends on `rule_shadow`, which finds earlier records for a record. Whenever the record holds, one of these holds too.
#![tactic(auto)]

mod dead_lines;
mod law;
mod printing;
mod verdicts;

pub use dead_lines::{DeadRule, found_dead};
pub use law::{dead_lines_are_dead, found_are_dead_lines};
pub use printing::dead_text;
