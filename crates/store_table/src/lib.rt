//! Checks the names of a program and numbers them as in its file.
//!
//! Depends on `kmn_base`, `virtual_keys`, `rule_model` and `indexmap`. `specs/Names` defines the first refusal for names
//! (`names_refusal`) with the terms of `specs/First`, and `specs/Numbering` defines the numbers of names. The layer above calls
//! `number`, which returns `numbered` of a program, and looks names up in the resulting `Names`. A layer that needs all refusals for
//! names calls `names_refusals`. The checkers above also state their own refusals with the terms of `specs/First`, use `earlier`,
//! `at_line` and `add_refusal` for them, and check a program with what is `known` of it (`specs/Known`). `parted_by_line` returns the stores that precede a statement to callers that scan a program
//! line by line. A layer above that looks up its own names stores them in a `NameTable`: contracts model it as their list, in
//! which it finds the first index of a name without ASCII case.
#![tactic(auto)]

mod appearing;
mod by_line;
mod first;
mod listing;
mod name_table;
mod program_names;
mod refusing;
mod stating;

pub use by_line::parted_by_line;
pub use first::{at_line, earlier};
pub use listing::{add_refusal, names_refusals};
pub use name_table::NameTable;
pub use program_names::{Names, number};
