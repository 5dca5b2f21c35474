//! Caches the last items before the caret, at most 64 of them, which are all that a rule sees of the text.
//!
//! Depends on `kmn_base`, whose `specs/Lists` defines the window, a put and reading again, and on `arrayvec` for its space: no
//! call allocates or fails.
//!
//! Contracts model a `Cache` as its items. A put appends an item and keeps the last 64 items. A take removes the last items, so
//! there can be fewer than 64 even if the text has more, until a refill inserts the items before them (`specs/Cached`). `laws`
//! states that the left list is its text and the items of the cache, and that puts, takes and refills of the cache are puts,
//! takes and refills of this list.
#![tactic(auto)]

mod cache;
pub mod laws;
mod texts;

pub use cache::Cache;
