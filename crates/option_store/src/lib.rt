//! The values of a keyboard's stores while it runs: for each store a current value, an optional saved value, and the text that the host
//! set.
//!
//! Depends on `kmn_base`, and for its law on `rule_model`, whose `specs/Act` and `specs/Event` define what `set`, `save`, `reset` and an
//! option change by the host do. The layer above uses `Options`, which contracts model as a list of `Cell`s by store number
//! (`specs/Cells`), and the law in `laws`: the calls change the cells as the meaning changes the values that the cells denote
//! (`specs/Meaning`). The rules copy no values: a cell names the store whose elements it holds.
#![tactic(auto)]

pub mod laws;
mod options;

pub use options::{Cell, Held, Options};
