//! Defines what a keyboard is, as a source states it and as a compiled keyboard contains it.
//!
//! Depends on `kmn_base` and `virtual_keys`. `Program` contains the statements of a source, `Tables` the records of a file,
//! `Entry` a line of a script, and `EventState` the state on which a key event acts. `specs/` defines their meaning
//! (`docs/MEANING.md` describes it in words): `src` and `tab` are the keyboards of a program and of tables, `trace` is the list
//! of steps of events, and `transcript` is what is printed of them. `step_laws` proves the laws of every step. The layers above
//! use the definitions and the laws. They compare two texts by `common_prefix`, and an item with elements and items by `items`.
//! They find the caret after an edit by `moved_caret` and an option by `has_name`. They test the kind of a `Pat`, print numbers
//! by `put_numbers`, and refer to system stores by the names in `system`, whose numbers `laws` states. `proofs/` has lemmas for
//! code that computes the meaning on tables: option numbers, groups and caught items.
#![tactic(auto)]

mod event_state;
mod items;
pub mod laws;
mod lines;
mod program;
mod script;
pub mod step_laws;
pub mod system;
mod tables;
mod texts;

pub use event_state::{Catch, Caught, EventState};
pub use items::{is_element, is_item, is_same, item_of, place_of};
pub use lines::put_numbers;
pub use program::{BeginDef, GroupDef, KeyName, Program, RuleDef, RuleKind, SrcItem, StoreDef};
pub use script::Entry;
pub use tables::{Group, Out, Pat, Rule, Store, Tables};
pub use texts::{common_prefix, has_name, moved_caret};
