//! Defines the types and the terms that all layers of the compiler and the engine share.
//!
//! Depends only on std and `thiserror`. `specs/Lists` defines the text before the caret (characters, window, soundness, put,
//! take, reading again), and `specs/Spelling` defines the one spelling of each item of a compiled string; `laws` proves the
//! properties of both. `specs/Names`, `specs/Bytes`, `specs/Digits`, `specs/Texts` and `specs/Rising` define names, bytes,
//! numbers in words, texts and rising lists. `specs/Answers` states the result of code that may refuse or run out of memory.
//! The layers above use `Seq`, which contracts model as its list, `LineSet`, which they model as its sorted lines, `slices`,
//! `names`, `bytes`, `digits`, `texts`, the flags of `keys`, `limits`, `end_marks` of items, and plain data.
#![tactic(auto)]

pub mod bytes;
mod codes;
pub mod digits;
mod events;
mod items;
pub mod keys;
pub mod laws;
pub mod limits;
mod lines;
mod memory;
pub mod names;
mod refusals;
mod sequence;
pub mod slices;
pub mod texts;
mod units;

pub use codes::Code;
pub use events::{Event, Outcome};
pub use items::{Element, Item, end_marks};
pub use keys::{KeyPress, RuleKey, SHIFT_FLAGS};
pub use lines::{LineSet, rising_lines};
pub use memory::Memory;
pub use refusals::{CompileError, Refusal};
pub use sequence::{Seq, Text};
pub use units::{BadKind, BadUnits, SENTINEL, UnitItem};
