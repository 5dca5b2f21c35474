//! Tests charts: `pictures` compares a drawing of `chart_drawing` with a drawing that was written by hand, `layouts` a drawing of a layer
//! that `touch_board` reads, and `runs` tests runs of `chart_run` over a folder and a sink in memory.
//!
//! A crate with tests is proved twice, once with them and once without. The tests are in this crate so that each tested crate
//! is proved only once. Depends on the tested crates. No crate depends on this one.
#![tactic(auto)]

#[cfg(test)]
mod layouts;
#[cfg(test)]
mod pictures;
#[cfg(test)]
mod runs;
