//! Reads the tables of a compiled keyboard in place, without copying: only a name allocates.
//!
//! Depends on `kmn_base` and `rule_model` for the types; `kmx_view`, which reads numbers and strings by position; `kmx_format`,
//! whose `tables_of` defines the tables of bytes; and `item_codec`, which iterates over the items of a string. The layer above
//! creates `FileTables` from bytes. Contracts model it as the tables of the bytes, and its stores, groups and key records are
//! those of these tables. Each part is found by its position in the bytes. A string is read by an iterator, which contracts
//! model as the list of its remaining parts. An item of a context is a `Pat` as in tables, or a `ContextItem`, which is the
//! same with the numbers of a file.
#![tactic(auto)]

mod context_item;
mod file;
mod groups;
mod kinds;
mod lists;
mod names;
mod records;
mod stores;
mod walks;

pub use context_item::ContextItem;
pub use file::FileTables;
pub use groups::FileGroup;
pub use kinds::StringPart;
pub use lists::{Groups, Rules, Stores};
pub use records::FileRule;
pub use stores::FileStore;
pub use walks::{ContextItems, Elements, Outputs, Patterns, StringParts};
