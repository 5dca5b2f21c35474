//! The tests of `keyman_run`: `runs` contains runs of each command over a folder and a sink in memory.
//!
//! They are in a separate crate because a crate with tests is proved twice, once with them and once without. So `keyman_run` is proved
//! once, and the tests are proved on top of it. `commands` contains the functions that the tests use. `outside_tests`, which contains
//! the runs in which a call of the folder or the sink fails, uses the same functions.
#![tactic(auto)]

pub mod commands;
#[cfg(test)]
mod runs;
