//! Tests the crates that read sources: `keys` tests `virtual_keys`. `statements` tests `kmn_parser` on the sources in `rows`, each with
//! its statements or its refusal. `names` tests `store_table` on programs, each with all refusals of its names. `faults` tests
//! `source_faults` on sources, each with all of its refusals, and `warnings` tests `source_warnings` on sources that are not refused.
//!
//! The tests are in a separate crate because a crate with tests is proved twice, once with its tests and once without. So each of
//! the tested crates is proved once, and the tests are proved after it. `telling` writes what a program states in the notation of
//! the rows. `fixtures` contains what several tests use: all crates of tests except `run_tests` use it to split a row into a text and
//! its expected result, `compile_tests` and `play_tests` to compare refusals, and `engine_tests` to write items.
#![tactic(auto)]

#[cfg(test)]
mod faults;
pub mod fixtures;
#[cfg(test)]
mod keys;
#[cfg(test)]
mod names;
#[cfg(test)]
mod rows;
pub mod sample;
#[cfg(test)]
mod statements;
#[cfg(test)]
mod telling;
#[cfg(test)]
mod warnings;
