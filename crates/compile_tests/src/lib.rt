//! Tests the crates that check and compile sources: `checks` tests `rule_checker`, and `writing` tests `kmx_writer` on a bitmap that is
//! too large. For `rule_shadow`, `dead_rules` tests what it finds in short sources, and `certificates` tests certificates that are
//! written by hand.
//!
//! The tests are in a separate crate because a crate with tests is proved twice, once with its tests and once without. So each of
//! the tested crates is proved once, and the tests are proved after it. `source_tests` does the same for the crates below these.
//! `rows` builds the sources of rows, `sources` the tables of short sources, and `fixtures` contains what other tests use too: the
//! tests of files, sessions and runs use the file of one rule or of a source.
#![tactic(auto)]

#[cfg(test)]
mod certificates;
#[cfg(test)]
mod checks;
#[cfg(test)]
mod dead_rules;
pub mod fixtures;
#[cfg(test)]
mod rows;
#[cfg(test)]
mod sources;
#[cfg(test)]
mod writing;
