//! Generates a large input of a given size, a keyboard that converts each ideograph to the next one and a script that types it, and
//! states the laws of its source, its program, its file, its keyboard and its script.
//!
//! Depends on `kmn_base`, and for its laws on the definitions of the language and its checker, of compiled tables and their file, of
//! `rule_model` and of `play_script`. `specs/Loads` defines both texts. The layer above calls `make`, which returns exactly these
//! texts. For the laws it calls functions with an empty body, or cites the lemmas in `proofs/`.
#![tactic(auto)]

mod laws;
mod load;

pub use laws::{
    files_have_sizes, files_play, loads_play, programs_mean, scripts_are_read, sources_are_checked,
};
pub use load::{Load, LoadError, make};
