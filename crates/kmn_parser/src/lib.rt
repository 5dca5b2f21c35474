//! Parses a source as a program, or returns its first refusal.
//!
//! Depends on `kmn_base`, on `kmn_lines` for lines, `kmn_tokens` for tokens, `kmn_items` for the items of a statement,
//! `rule_model` for the statements, and `virtual_keys` for the names of keys. `specs/Source` defines the program and the first
//! refusal of a source, and `specs/Line` the statement of a line; `docs/LANGUAGE.md` describes them for keyboard writers. The
//! layer above calls `parse`, which returns exactly that program or that refusal, and relies on `laws`. A layer that continues
//! after a refused line calls `read_line` for each line, and `group_after` and `add_statement` for its statement. For the name
//! of a system store it calls `system_store_name`.
//!
//! `specs/Programs` defines the text of a program, and `specs/Spelled` defines the programs that a text can express. A layer
//! above that writes such a text calls `programs_are_read_back`, a function with an empty body, for the law that the text is
//! read as the program.
#![tactic(auto)]

mod group_line;
pub mod laws;
mod line;
mod reading;
mod rule_line;
mod signs;
mod statement;
mod store_line;
mod text_laws;

pub use line::read_line;
pub use reading::{add_statement, group_after, parse};
pub use signs::place_of;
pub use statement::{LastGroup, Sign, Statement};
pub use store_line::system_store_name;
pub use text_laws::programs_are_read_back;
