//! Computes what the tables of a compiled keyboard do with an event, as their meaning specifies it.
//!
//! Depends on `kmn_base`, `virtual_keys`, `rule_model` (this crate computes its meaning of an event), `indexed_tables` (contains what
//! events look up) and `plain_matching` (selects the record of a group). The code is clear, not fast: it builds a new list whenever an
//! item is put. `plain_event` performs an event on a `PlainState`, whose values are indexed by store number, with the values of the
//! system options after all others. `specs/PlainStates` defines what such a state means. `traced_event` does the same and also returns
//! the lines of the rules that the event selected, which `rule_trace` shows. Tests of the meaning call `plain_event`.
#![tactic(auto)]

mod defaults;
mod editor;
mod entering;
mod events;
mod left;
mod outputs;
mod state;
mod texts;
mod values;

pub use events::{Traced, plain_event, traced_event};
pub use state::PlainState;
