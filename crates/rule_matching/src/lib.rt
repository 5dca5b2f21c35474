//! Finds the first record of a group that holds for a key press in the current state of a compiled keyboard, and what it
//! catches.
//!
//! Depends on `rule_model`, whose `specs` define when a rule holds; `kmx_parts`, which returns references to the parts of the
//! file in place; `rule_index`, which looks up what the tables contain; and `option_store`, which holds the values of options.
//! The layer above passes a `MatchState` (the keyboard with the content of its stores), an `EnteredGroup` (a group with its index
//! and the key press), the last items before the caret, a `PlaceMemory`, and a `MatchedItems`. `first_held` returns the first
//! record of the group that holds in this state, and writes what the record has caught to the `MatchedItems`.
//!
//! Contracts model a `MatchState` as a `MatchStateValue`; `content_at` is the content of each store. A `MatchState` contains for each store
//! whether the platform has its words (`truths_at`), so that no condition scans words. No store is defined with a text that an
//! option holds as a text of the host (`AreApart`), so that a condition on the elements of a store is one comparison. The
//! memory knows which stores contain the items before the caret, with a mark for each store and distance (`specs/StoreMarks`),
//! and the positions that were looked up (`specs/KnownPlaces`). What it knows doesn't matter to the layer above: `first_held`
//! begins by forgetting it. For each item of a context that is checked, only what it takes is kept (`TakenItem`). Positions are
//! looked up for an `index` and for the record that holds. Only `PlaceMemory::new` and the copy of a `StoreValue` allocate.
//!
//! An untrusted file can make one key press check three hundred million context items, so `takes_context` is kept a separate
//! function in the machine code: the test of an item against a store is inlined in it, and what is done once for each choice is
//! not.
#![tactic(auto)]

mod caught;
mod choice;
mod contents;
mod elements;
mod entered_group;
mod host_text;
mod known_places;
mod marked;
mod match_state;
mod matching;
mod place_memory;
mod places;
mod store_marks;
mod store_value;
mod taken;

pub use caught::{MatchedItem, MatchedItems};
pub use contents::{content, saved_of};
pub use elements::item_caught;
pub use entered_group::EnteredGroup;
pub use match_state::MatchState;
pub use matching::first_held;
pub use place_memory::PlaceMemory;
pub use store_value::StoreValue;
