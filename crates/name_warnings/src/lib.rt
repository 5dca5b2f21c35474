//! Defines what is probably a mistake in a line of a source, and finds the mistakes in the names and values of a program.
//!
//! Depends on `source_uses`, which lists the names that statements use; `store_table` for tables of names; `indexmap`; `rule_model` and
//! `kmn_base`. A `Warning` has a line and a `WarningKind`, which has a variant for each kind, also for those that the layer above finds.
//! The layer above collects warnings by the functions that begin with `add`: each appends exactly the list that `specs` defines. Most of
//! these lists have the first use of each name that is not known (`lacking` of `specs/Named`). `keys_not_laid` returns those of a touch layout.
#![tactic(auto)]

mod groups;
mod laid;
mod marks;
mod named;
mod options;
mod stores;
mod values;
mod warning;

pub use groups::add_never_entered;
pub use laid::keys_not_laid;
pub use marks::add_mark_warnings;
pub use options::{add_never_asked, add_never_set, add_saved_never_set};
pub use stores::{add_second_systems, add_unused_stores};
pub use values::add_values_never_set;
pub use warning::{Warning, WarningKind};
