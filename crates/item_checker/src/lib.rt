//! Checks the items of a program and returns the first refusal, or all refusals.
//!
//! Depends on `kmn_base`; `rule_model` for programs; `store_table` for tables of names, for what is `known` of a program and
//! for the terms of the first refusal; `kmx_format` for the versions that a file can have; `virtual_keys` for the end of the
//! codes of the key table; and `compile_laws` for a lemma. `specs/Items` defines the first refusal for items (`items_refusal`:
//! C08 to C14 and C25), and `specs/Summaries` defines the summaries of the elements of stores, which are never built. The layer
//! above calls `items_refusal`, which returns exactly that refusal, or `items_refusals`, which returns all of them.
#![tactic(auto)]

mod facts;
mod items;
mod offsets;
mod rules;
mod stores;
mod summaries;

pub use items::{items_refusal, items_refusals};
