//! Expands an accepted program to its tables: each group has the records of its rules, in the order of the rules.
//!
//! Depends on `rule_checker` for programs that aren't refused and their laws, on `store_table` for the numbers of names, on
//! `kmx_format` for the tables that a program compiles to and for the versions, on `item_codec` for the units of a character, and on
//! `indexmap` for the values. `specs/Expanded` defines the expanded tables (`expanded_tables`). The layer above calls `expand` and
//! then sorts the records. Before that, it calls `outline_of`, which returns the tables without records and the size of the records,
//! computed without building them (`specs/Sizes`). If it needs the elements of only one system store, it calls `system_elements`.
//!
//! Names, values and cased keys are found by hash, and the elements of a store are gathered once. What all records of a rule have in
//! common is built once (`Template`), and each record needs time in its own length.
#![tactic(auto)]

mod cased_keys;
mod expanding;
mod groups;
mod lookups;
mod pieces;
mod records;
mod sizes;
mod stores;
mod system_stores;
mod values;
mod versions;

pub use expanding::{Outline, expand, outline_of};
pub use system_stores::system_elements;
