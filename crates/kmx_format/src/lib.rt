//! Defines the format of a compiled keyboard (a `.kmx` file): its bytes, and the tables that are read from them.
//!
//! Depends on `kmn_base`, `item_codec` and `rule_model`. `specs/File` defines the bytes of the file of tables, `specs/TablesOf`
//! the tables of bytes, `specs/Writable` the tables that a file can have, and `specs/Versions` the versions of the format.
//! `laws` states that these fit together, and the numbers of offsets and sizes. The writer and the readers use the sizes of
//! records, the offsets of the header's words, the count of key records and the spelling of items from here. All crates that
//! use versions use this table of versions.
#![tactic(auto)]

mod counts;
pub mod laws;
pub mod places;
pub mod sizes;
mod spelled;
mod versions;

pub use counts::rule_count;
pub use spelled::Spelled;
pub use versions::{OWN_VERSION, file_versions, is_version, version_text};
