//! Lists what the statements of a program use: stores, options, deadkeys and groups, with the lines.
//!
//! Depends on `kmn_base`, `rule_model`, `store_table` and `indexmap`. `specs/Uses` defines the uses of names in a role and a part of the
//! statements, `specs/Elements` the elements of a store as the source names them, and `specs/Pairs` each `index` with its `any`. The
//! layer above calls `rule_uses`, `group_uses`, `begin_uses`, `store_uses`, `stated_stores`, `mark_uses` and `index_pairs`, which return
//! exactly these lists. It finds the first uses of names that are not in a `NameTable` by `new_uses` and `new_pairs`, the pairs of
//! different stores by `distinct_pairs`, fills such a table by `add_names` and `add_words`, and finds the elements of a store in
//! `Contents`. `specs/Lines` defines the order of lines for a list of any kind, and `proofs/InLines` has the lemma by which a stable sort
//! returns it. `specs/Choices` defines the values that conditions compare or that `set` sets; `program_choices` returns them, and a
//! `ChoiceTable` finds them.
#![tactic(auto)]

mod choice_table;
mod choices;
mod contents;
mod first;
pub mod laws;
mod marks;
mod pairs;
mod used;
mod walking;

pub use choice_table::ChoiceTable;
pub use choices::{Choice, program_choices};
pub use contents::{Contents, StoreElement};
pub use first::{add_names, add_words, new_uses};
pub use marks::mark_uses;
pub use pairs::{Pair, distinct_pairs, index_pairs, new_pairs};
pub use used::{Part, Role, Use};
pub use walking::{begin_uses, group_uses, rule_uses, stated_stores, store_uses};
