//! Tests the external input of a run: `folders` tests calls of `kmn_outside` over real files, `layouts` the touch layouts of
//! `touch_layout`, `loads` the printed texts of errors of `load_maker`, and `hostile` runs of `keyman_run` in which a call fails or a
//! file has the maximum size. `keyboards` tests the lines that `export_run` prints for small sources, and `checks` the lines that
//! `check_run` prints for small sources, layouts and scripts.
//!
//! A crate with tests is proved twice, once with them and once without. The tests are in this crate so that each tested crate
//! is proved only once. Depends on the tested crates, and on `run_tests`, whose `commands` runs commands. `fixtures` creates
//! the bytes of large files. No crate depends on this one.
#![tactic(auto)]

#[cfg(test)]
mod checks;
pub mod fixtures;
#[cfg(test)]
mod folders;
#[cfg(test)]
mod hostile;
#[cfg(test)]
mod keyboards;
#[cfg(test)]
mod layouts;
#[cfg(test)]
mod loads;
