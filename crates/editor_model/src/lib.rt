//! Models an application's text and caret: how the edits of a keyboard, the keys that it passes on, caret moves and external edits
//! (edits by the application) change them.
//!
//! Depends on `kmn_base`, on `virtual_keys` and on `rule_model`. The layer above uses `Editor`, which contracts model as an
//! `EditorText`: the text before the caret, the text after it, and the spare room, which is the number of characters that can be
//! inserted without an allocation. Only `reserve`, `edit` and `copy` allocate. The contract of `apply` states what an edit of a keyboard
//! does. `specs/Event` of `rule_model` defines the other changes, and which caret moves and external edits are refused.
#![tactic(auto)]

mod editor;
mod error;

pub use editor::Editor;
pub use error::EditError;
