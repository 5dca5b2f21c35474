//! Tests the input of a play: `scripts` tests `play_script`, `editing` tests `editor_model`, and `hosts` and `host_scripts` test
//! `text_host`. Also tests the printed texts of errors: `refusals` for `kmn_base`, and `calls` for `curlew_calls`.
//!
//! A crate with tests is proved twice, once with them and once without. The tests are in this crate so that each tested crate
//! is proved only once. Depends on the tested crates, on `source_tests`, which splits the rows of tables, and on `compile_tests` for
//! the file of one rule. No crate depends on this one.
#![tactic(auto)]

#[cfg(test)]
mod calls;
#[cfg(test)]
mod editing;
#[cfg(test)]
mod host_scripts;
#[cfg(test)]
mod hosts;
#[cfg(test)]
mod refusals;
#[cfg(test)]
mod scripts;
