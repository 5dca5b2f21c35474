//! Checks a touch layout, the JSON text that lists the keys that a phone or a tablet shows, against a keyboard.
//!
//! It depends on `serde_json`, which reads the text by the grammar of `json`, on `virtual_keys` for the names of keys, on
//! `indexed_tables` for the tables of the keyboard and its custom keys, and on `store_table`, whose `NameTable` contains the
//! names of the keys that records have. `specs/Keys` defines the keys of a layout as one list in the order of their places, and
//! `specs/Layout` defines the rules of a layout. The layer above uses `check_layout`: `Ok` is the number of keys of a layout
//! that breaks no rule, at most one more than the number of bytes (`proofs/KeyCounts`), and a refusal is `layout_fault`, the
//! first broken rule with its place. `layout_ids` returns the ids of its keys.
#![tactic(auto)]

mod check;
mod faults;
mod ids;
mod keys;
mod layer_ids;
mod layers;
mod listing;
mod ruled;

pub use check::check_layout;
pub use faults::{LayoutError, LayoutFault, LayoutPlace};
pub use listing::layout_ids;
