//! Finds the rules of a compiled keyboard that never take precedence, as warnings at their lines.
//!
//! Depends on `shadow_text`, which finds the rules all of whose records have a certificate; `kmx_format`, which counts the records;
//! `name_warnings` for the warnings; `source_uses` for the order of lines; and `compile_laws` and `rule_model`. The layer above calls
//! `with_dead_rules` with the warnings of a program and with the tables that it compiles to. It returns the same warnings with W07
//! (`specs/DeadRules`): a warning at each such rule, unless another warning in its line says why it never fires, or a note if there are too
//! many records to search.
//!
//! Law: a rule with this warning never fires, in any state and for any key press.
#![tactic(auto)]

mod joining;
mod law;
mod sorting;
mod sought;

pub use joining::with_dead_rules;
pub use law::warned_rules_are_dead;
