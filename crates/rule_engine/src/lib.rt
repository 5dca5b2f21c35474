//! The input engine: processes key presses on a compiled keyboard and returns the edit that each press makes in the text before
//! the caret.
//!
//! Depends on `kmx_verifier`, which opens the file; `rule_model`, whose `specs` define what a press does; `rule_matching`,
//! which selects the record; `rule_index`, which looks up what the tables contain; `kmx_parts`, which returns references to the
//! parts of the file in place; `event_text`, which holds the text before the caret and uses `context_cache` for its last items;
//! and `option_store`, which holds the values of options. At each call, the layer above passes the text before the caret. It
//! makes the edit in this text, and performs the editor's own default for a key that is passed on.
//!
//! Contracts model an engine as an `EngineState`. After `start` this is `first_engine` of the tables of the file. `key` returns
//! `press_outcome` and changes the engine to `press_leaves`. `preview` returns the same outcome and the characters that the
//! press would insert, and does not change the engine. `sync` changes the engine to `synced`, and `setting` changes it to
//! `set_by_host`. `fresh` returns `first_engine` again, and `copy` returns the same engine, both without scanning the file. If
//! a store is defined with the text that `setting` assigns to an option, the option holds that store and not the text. `start`,
//! `fresh` and `copy` allocate all memory that a press needs: `key` and `sync` do not allocate and cannot fail.
#![tactic(auto)]

mod defaults;
mod engine;
mod entering;
mod event;
mod naming;
mod outputs;
mod workspace;

pub use engine::{Engine, Preview};
pub use rule_matching::StoreValue;
