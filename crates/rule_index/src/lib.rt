//! Indexes the tables of a compiled keyboard, so that the engine finds the records that can match a key press, and the position of an
//! item in a store, without a scan.
//!
//! Depends on `kmn_base`, `virtual_keys`, `rule_model`, `indexed_tables`, `kmx_parts` and `indexmap`.
//!
//! Use: create an `IndexedKeyboard` from `FileTables`. It contains:
//!
//! - an index of each group's records, with each record's context and the number of text items that the context matches
//!   (`specs/Groups`);
//! - the elements of each store (`specs/Stores`), followed by those of the layer and the platform, which have the last two store
//!   numbers: `element_at` returns the element that `index` outputs;
//! - the first position of each item in each store (`specs/Holdings`): `holders` returns the stores that contain an item, and
//!   `place_of` the position of an item in a store;
//! - a number that stores with equal elements share (`specs/Values`): `same_elements` compares two stores by it;
//! - a store for each text that a store is stated with (`specs/Texts`): `stated_with` returns it;
//! - the option number of each store (`indexed_tables`), and the names of custom keys (`specs/OwnNames`).
//!
//! For a press, call `matching_classes` with the press and the left list. Then test the records that the `Candidates` of a group's
//! `RuleIndex` return, in file order. The iterator searches the rows when it is created, and then moves over them one by one. To test
//! conditions on the platform, call `find_truths` each time the platform changes: it sets a flag for each store whose words the
//! platform has.
//!
//! `specs/Classes` defines what a record can match, `specs/Next` the next candidate, and `specs/Walk` where the iterator continues.
//! Laws (`laws`): a record that holds has one of the matching classes, so the first record that holds is the first candidate that holds.
#![tactic(auto)]

mod candidates;
mod class;
mod classes;
mod contexts;
mod current_run;
mod cursor;
mod elements;
mod holding;
mod holdings;
mod indexed_keyboard;
pub mod laws;
mod options;
mod own_names;
mod row;
mod rows;
mod rule_index;
mod texts;
mod values;

pub use candidates::Candidates;
pub use class::Class;
pub use classes::matching_classes;
pub use holding::Holding;
pub use indexed_keyboard::IndexedKeyboard;
pub use rule_index::RuleIndex;
