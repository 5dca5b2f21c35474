//! Tests the crates that read files: `codec` tests `item_codec`, `views` tests `kmx_view`, `constructs` tests `core_constructs`,
//! `exporting` tests `core_export`, and `errors` the printed texts of errors of `kmx_verifier` and `kmx_decompiler`.
//!
//! The tests are in a separate crate because a crate with tests is proved twice, once with its tests and once without. So each of
//! the tested crates is proved once, and the tests are proved after it. `files` builds the files that table rows describe, and
//! `fixtures` contains the files that rows name. No crate depends on this one.
#![tactic(auto)]

#[cfg(test)]
mod codec;
#[cfg(test)]
mod constructs;
#[cfg(test)]
mod errors;
#[cfg(test)]
mod exporting;
#[cfg(test)]
mod files;
#[cfg(test)]
mod fixtures;
#[cfg(test)]
mod views;
