//! Finds all causes for which names refuse the statements of a program, and reports a name that is not defined anywhere once.
//!
//! Depends on `kmn_base`, `rule_model` and `store_table`, which defines what a name is refused for and returns the first refusal.
//! `specs/Causes` defines all causes of each statement, in the order in which they are checked. The layer above calls `reported_causes`,
//! which returns exactly the causes that `specs/Telling` defines: of each statement, in the order of lines, the first cause that lacks
//! no name that an earlier statement was reported for. `refusals_of` returns their refusals, and `names_lacked` the names that count as
//! defined for later checks. `laws` states that the first of them is the first refusal for names, and that no name is reported twice.
//! `store_names` and `group_names` return the names that statements define.
#![tactic(auto)]

mod causes;
mod items;
pub mod laws;
mod listing;
mod sorting;
mod stating;
mod telling;

pub use causes::{Cause, NameFault, names_lacked, refusals_of};
pub use stating::{group_names, store_names};
pub use telling::reported_causes;
