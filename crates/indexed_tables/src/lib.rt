//! Indexes the tables of a compiled keyboard for what is looked up in them often.
//!
//! Depends on `kmn_base`, `virtual_keys`, `rule_model` and `indexmap`. The layers above create `IndexedTables` from `Tables`.
//! It computes once the option number of each store and the names of custom keys, and returns groups and elements as the tables
//! contain them. A layer that only needs to know which stores are used as options uses a flag for each store: `option_flags`
//! creates the flags, and `mark_options` sets them without allocating. A layer that reads a file in place counts option numbers
//! the same way: `mark` sets the flag of one store, and `numbers_by_flags` counts the flags (`specs/OptionFlags`, with the laws
//! of flags in `proofs/OptionFlags`). The stores of all tables are followed by the system options, the layer and the platform:
//! `system_elements` are their first values, and `has_words` checks whether the platform has the words of a value. To check
//! whether names could be in a source, a layer takes their words by `first_word`.
//!
//! `StoreSets` contains the items of each store in a set, so that the time to find an item doesn't grow with the store
//! (`AreSetsOf`, `has`). A set represents items by numbers (`specs/Numbers`). It does not contain virtual keys, which are never
//! equal to an item. A caller that may not allocate uses `is_among`, which compares with each element.
#![tactic(auto)]

mod flags;
mod indexed_tables;
mod items;
mod numbers;
mod options;
mod own_keys;
mod platform;
mod store_sets;
mod system;

pub use flags::{flag_at, mark, number_at, numbers_by_flags};
pub use indexed_tables::IndexedTables;
pub use items::is_among;
pub use options::{mark_options, option_flags};
pub use own_keys::{element_text, first_word};
pub use platform::has_words;
pub use store_sets::StoreSets;
pub use system::system_elements;
