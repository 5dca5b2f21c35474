//! Finds the record that a group selects in a state, by testing each record: simple and not fast.
//!
//! Depends on `kmn_base`; `virtual_keys` (`fits` matches keys); `rule_model` (`specs/Match`, `specs/Hold` and `specs/Enter`
//! define when a context holds, what it catches and which record is selected); `indexed_tables` (the stores' elements and
//! option numbers). The layer above, the evaluator `plain_event`, calls `chosen_in` for each group that an event enters, and
//! looks up what was caught and what a store contains in the state.
#![tactic(auto)]

mod contents;
mod elements;
mod matching;

pub use contents::{element, value_at};
pub use elements::{item_caught, place_caught};
pub use matching::chosen_in;
