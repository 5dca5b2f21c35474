//! Writes the source of a compiled keyboard: `text_of` returns exactly the text that `kmn_parser` defines for the program to which
//! `decompile_program` decompiles the tables, and `text_size` the size of this text without writing it.
//!
//! Depends on `decompile_program`, whose definitions specify the program of the tables and the names of stores, groups and keys in the
//! text; on `kmn_parser`, whose definitions specify the text of a program; on `kmx_parts`, which reads the records of a file in place; and
//! on `kmx_format` for the texts of versions. The layer above has already created the names, to test which parts of the tables no source
//! can express. It passes them as `SizedNames`, which have the sizes of values, with a `Front`, which describes the stores before the
//! file's own stores.
#![tactic(auto)]

mod characters;
mod front;
mod items;
mod lines;
mod page;
mod values;
mod writing;

pub use values::SizedNames;
pub use writing::{Front, front_count, front_of, text_of, text_size};
