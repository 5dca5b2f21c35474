//! Tests the crates that import sources: `answers` tests `kmn_import` on sources, each with what it is imported as.
//!
//! The tests are in a separate crate because a crate with tests is proved twice, once with its tests and once without.
#![tactic(auto)]

#[cfg(test)]
mod answers;
