//! Compiles a keyboard source to a valid compiled keyboard that means the same, or returns the first refusal of the source.
//!
//! Depends on `kmn_parser` and `rule_checker`, which read a source and refuse what a keyboard may not have, on `rule_expand`, which
//! builds the tables of a checked program, on `rule_order` for the order of records, on `kmx_writer` for the bytes, on `kmx_format`
//! for the properties of such tables, and on `kmx_verifier` for the definition of a valid file. The layer above calls `front`,
//! `picture_name` and `back`, or, if it already has the bitmap, `compile`, which does all steps. The bytes that it returns are the
//! file of the tables that the source's program compiles to. They are valid, so no verification refuses them, and they mean the
//! program, so both take the same steps for all events (`CompilesTo` of `specs/Source`). A refusal is the first one of the source. A
//! file that would be too large is refused before its records are built. The contracts of `laws`, functions with empty bodies, state
//! the properties of each program that a source is accepted with, whether or not it was compiled.
#![tactic(auto)]

mod compiling;
mod laws;
mod picture;

pub use compiling::{Compiled, back, compile, front};
pub use laws::{files_mean_their_source, tables_keep_meaning};
pub use picture::picture_name;
