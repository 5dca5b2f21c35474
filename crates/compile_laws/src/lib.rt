//! Defines the tables that a program compiles to.
//!
//! Depends on `kmn_base`, `virtual_keys`, `rule_model` and `kmx_format`. `specs/Compiles` defines these tables, `specs/Ordered`
//! computes them, `specs/WellNamed` defines the programs whose meaning they keep, and `specs/Means` defines when bytes mean a
//! program. A layer above that has a well-named program and its tables calls `compiling_keeps_meaning`, a function with an
//! empty body, to use the law in its contract: such tables mean what the program means.
#![tactic(auto)]

mod law;

pub use law::{compiling_keeps_meaning, compiling_keeps_transcripts, program_has_its_tables};
