//! Reads the items of a compiled string from its bytes in place, and spells items as bytes.
//!
//! Depends on `kmn_base`, whose `specs/Spelling` defines the one spelling of each item and the faults. The layers above iterate
//! over bytes by `items_of`, which contracts model as the list `results_of` of its results, append the spelling of an item by
//! `spell`, and count its units by `unit_count`; `laws` states that spelled items are read again. `item_codes` names the codes
//! of items.
#![tactic(auto)]

mod codes;
pub mod item_codes;
pub mod laws;
mod spelled;
mod units;
mod walk;

pub use kmn_base::{BadKind, BadUnits, UnitItem};
pub use spelled::{char_unit_count, put_char, spell, unit_count};
pub use walk::{Items, items_of};
