//! Laws of groups: groups that no start group reaches have no effect, and a rule can put again what it matched.
//!
//! Depends on `kmn_base`, `virtual_keys` and `rule_model`, whose definitions the laws are about. `specs/Unreached` states what
//! removing groups changes, and `specs/Readonly` what an output that begins with `context` does to the text. No program calls
//! this crate: `laws` has the laws, each the contract of a function with an empty body.
#![tactic(auto)]

pub mod laws;
