//! Verifies untrusted compiled keyboards: accepts exactly the valid files and returns the first fault of every other file. The
//! tables of a valid file can be played.
//!
//! Depends on `kmn_base`, `rule_model`, `item_codec`, `kmx_format` (this crate follows its definition of reading), `kmx_view` and
//! `kmx_parts`. `specs/FaultOf` defines the first fault of a file, step by step. The layers above open a file with `verify` and use a
//! `Verified`, which borrows the bytes and copies nothing: `parts` returns the file's tables, which are read in place, and
//! `copied_tables` copies them for a caller that needs a copy.
#![tactic(auto)]

mod contexts;
mod counts;
mod faults;
mod groups;
mod header;
mod items;
pub mod laws;
mod options;
mod stores;
mod strings;
mod tables;
mod verified;
mod whole;

pub use faults::{Fault, VerifyError};
pub use verified::{Verified, verify};
