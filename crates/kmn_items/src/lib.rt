//! Reads the items of a line from its tokens, which `kmn_lines` describes: characters, virtual keys, and the forms that begin
//! with a word.
//!
//! Depends on `kmn_base`, on `kmn_lines` for the kinds of tokens, on `virtual_keys` for the names of keys, and on `rule_model`
//! for the items. `specs/Item` defines the items that tokens denote in four steps: the kind of an item by its first token
//! (`specs/Leads`), whether the item is allowed there (`specs/Standing`), its form (`specs/Forms`, `specs/Slots`), and what the
//! form denotes in its section. For instance, `layer` sets the layer in an output and is a condition in a context, and the name
//! after `&` of `if` and `set` is looked up among the system options. The layer above calls `read_items` for a section,
//! `read_key` for a key and `broken` for its own forms; `laws` states that items use up their tokens.
#![tactic(auto)]

mod brackets;
mod forms;
mod item;
mod items;
pub mod laws;
mod leads;
mod numbers;
mod slots;
mod standing;
mod syntax;
mod text;
mod words;

pub use items::{is_item_word, read_items, read_key};
pub use leads::token_lead;
pub use slots::broken;
pub use syntax::{ItemWord, Lead, LineError, Seen, Slot, Taken, TokenRefusal, Where};
pub use text::{LineTokens, begins_open, quoted, text_in};
pub use words::{bare_name, is_name, is_own_key, is_system_name};
