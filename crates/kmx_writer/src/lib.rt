//! Writes the bytes of a compiled keyboard (a `.kmx` file) from its tables.
//!
//! Depends on `kmn_base`, `item_codec`, `rule_model` and `kmx_format`, whose definition of a file it implements. The layer above
//! calls `write`, which returns the file of the tables and the bitmap, and `places_of`, which computes where the parts of a
//! file begin, and so its size, without writing it.
#![tactic(auto)]

mod file;
mod groups;
mod names;
mod places;
mod rules;
mod spelled;
mod stores;
mod units;

pub use file::write;
pub use places::{Places, places_of};
