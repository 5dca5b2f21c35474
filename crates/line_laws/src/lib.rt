//! Laws of the lines of a text that is put together from others.
//!
//! Depends on `kmn_base`, `kmn_lines`, whose definitions of lines and tokens the laws are about, and `kmn_items` for tokens with
//! their texts. `specs/Laws` states that lines that are joined stay the lines that they were, and that the tokens and the
//! faults of a line depend on its bytes only. No program calls this crate: `laws` has the laws, each the contract of a function
//! with an empty body.
#![tactic(auto)]

pub mod laws;
