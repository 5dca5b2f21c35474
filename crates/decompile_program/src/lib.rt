//! Defines the program that the tables of a compiled keyboard decompile to: it has the same meaning, under names that a source can have.
//!
//! Stores and groups keep their own names if a source can have them and no earlier store or group has them. Otherwise they get the
//! next free names. Keys keep the names of the dictionary.
//!
//! `specs/Names` defines the names of stores and groups, `specs/Items` the item of a source for each item of a file, `specs/Back` the
//! program that tables decompile to, and `specs/WrittenOut` the tables for which this keeps the meaning.
//!
//! Use: `free_stores` returns the free names, and the caller may use the first of them for stores that it adds. Then `called_by`
//! returns all names of the text (`specs/AllNames`). `Called` returns a reference to each name, and contracts model it as these names.
//! For the added stores, `greatest_mark` returns the greatest deadkey number and `own_keys` the names of the custom keys. To find out
//! why a file has no text, use `is_source_name` for a name, `has_character` for elements, and `named_by_pattern` and
//! `named_by_output` for the store that an item names.
//!
//! Law: if tables can be played and written out, the program takes the same steps as the tables for all events. For this law,
//! call `decompiling_keeps_meaning`, a function with an empty body.
//!
//! Depends on `rule_model`; `kmx_format`, which defines the tables that can be played; `kmx_parts`, which reads the records of a file in
//! place; `indexed_tables`, which finds stores and keys; `store_table` (`NameTable` finds the names that are already used); `kmn_parser`
//! for the names that a source can have; and `kmn_lines`, `kmn_tokens` and `kmn_items`, which decide whether a source reads a text as a
//! name.
#![tactic(auto)]

mod all_names;
mod called;
mod characters;
mod dictionary;
mod free_names;
mod greatest;
mod law;
mod naming;
mod source_names;
mod used;

pub use all_names::{called_by, free_stores};
pub use called::Called;
pub use characters::has_character;
pub use dictionary::own_keys;
pub use greatest::greatest_mark;
pub use law::decompiling_keeps_meaning;
pub use source_names::is_source_name;
pub use used::{named_by_output, named_by_pattern};
