//! Finds what compiles but is probably a mistake in a source.
//!
//! Depends on `name_warnings`, which defines warnings and finds those of names and values; `source_uses`, which lists what the statements
//! of a program use; `virtual_keys` for the characters of presses; `store_table`, `rule_model` and `kmn_base`; and `kmn_lines` and
//! `source_faults` for the words of lines. The layer above calls `warnings` with the program of a source that is not refused and with its
//! `aside_words`, the words of the lines for other programs. `specs/Warnings` defines the list that `warnings` returns, and one file of
//! `specs`, here or in `name_warnings`, defines each kind of warning or a few that belong together.
#![tactic(auto)]

mod aside;
mod conditions;
mod indexes;
mod keys;
mod listing;
mod patterns;
mod repeated;
mod same_keys;
mod sorting;

pub use aside::aside_words;
pub use listing::warnings;
pub use name_warnings::{Warning, WarningKind};
