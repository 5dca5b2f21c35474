//! The text before the caret while the rules of one event act on it.
//!
//! Depends on `kmn_base`; on `context_cache`, which contains the last 64 items and whose laws state that puts, takes and refills of the
//! cache are puts, takes and refills of the whole list; and on `rule_model`, whose `specs` define what a key takes and which edit an
//! event makes. The layer above begins a `Left` on its own text, with the cache and the buffer of the previous event, and finishes it
//! with the edit. Contracts model a `Left` as the whole left list (characters and marks) and its cached items (`specs/Texts`). It
//! borrows the text and copies only the cached items. A `CacheBox` has the cache on the heap, so an event moves it as a pointer.
//! Contracts model it as the items and the capacity for them (`specs/Boxed`). Only `with_capacity` and `copy` of a `CacheBox` and of
//! `Inserted` allocate.
#![tactic(auto)]

mod cache_box;
mod inserted;
mod left;
mod standing;

pub use cache_box::CacheBox;
pub use inserted::Inserted;
pub use left::{Edited, Left};
