//! Defines what Keyman's own engine, Keyman Core, does with a compiled keyboard, in versions 16.0.138 and 18.0.235.
//!
//! It depends on `virtual_keys` for the characters of key presses and on `rule_model` for tables, stores and the state of an event. It
//! contains only definitions and laws, so nothing of it runs. `specs/Events` defines the state of the engine, the window that rules see
//! and the queue of an event. `specs/Keys` defines which keys fit which presses, `specs/Contexts` which record is used, `specs/Outputs`
//! and `specs/Options` what outputs do, and `specs/Steps` what a press does. The layer above uses `core_texts`: the texts that presses
//! type in a version, for each first value of the flag that output has ended.
//!
//! The definitions describe the engine for files in which it reads only what is there and what it has set. These files have no offset 0
//! for a context, an output or the elements of a store, no U+0010, no mark 65535, and no virtual key with flags or code 16 in a store.
//! No event saves twice, and no store without a name is both set and reset. The expanded tables fit into the memory that the engine
//! reserves. The header has no flag for caps lock, which tables don't contain. A host passes only key presses, and reports the words of
//! `core_platform` as its platform.
//!
//! `laws` states plays that both versions typed, and first facts about the window and the keys. No proof shows that the definitions are
//! the engine: they were compared with it (`docs/PROVED.md`).
#![tactic(auto)]

pub mod laws;
