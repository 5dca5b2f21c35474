//! Tests the meaning of keyboards and sessions: `meaning` tests `plain_event` and `rule_trace`, and `sessions` tests sessions of
//! `play_session` event by event.
//!
//! A crate with tests is proved twice, once with them and once without. The tests are in this crate so that each tested crate
//! is proved only once. Depends on the tested crates, and on `source_tests` and `compile_tests` for the symbols of items and
//! files. `events` reads events, and `states` creates the states that keyboards are played in. No crate depends on this one.
#![tactic(auto)]

#[cfg(test)]
mod events;
#[cfg(test)]
mod meaning;
#[cfg(test)]
mod sessions;
#[cfg(test)]
mod states;
