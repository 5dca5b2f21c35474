//! Defines three conversions of the tables of a keyboard that is exported for Keyman's own engine.
//!
//! It depends on `virtual_keys` for the flags of keys and on `rule_model` for tables and traces. `specs/Conversions` defines the
//! conversions: `nul_first`, `plain_sides`, `empty_as_nomatch`, and `converted`, which is all three. The layer above uses these
//! three, which convert tables; `plain_flags`, which converts the flags of a key; and `nomatch_rule`, which finds the rule of a group
//! whose output becomes its nomatch output.
//!
//! `laws` states that converted tables take the same steps for every list of events.
#![tactic(auto)]

pub mod laws;
mod nomatch;
mod nul;
mod sides;

pub use nomatch::{empty_as_nomatch, nomatch_rule};
pub use nul::nul_first;
pub use sides::{plain_flags, plain_sides};
