//! The calls that a program in another language makes to use an open keyboard: they map plain numbers and slices to plain numbers.
//!
//! Depends on `kmx_verifier`, which opens a file, and on `play_session`: an `OpenField` contains a `Session`, and contracts model it
//! as that session. Each call returns what the session's step returns. `specs/Calls` defines the edit of a key press, the session
//! that `before` leaves, and the code of a key name; `specs/Answers` defines the cause of each error. The layer above relies on this
//! contract: a call that returns an error leaves the session unchanged. `laws` states what remains before the caret after a call of
//! `before` with no characters.
//!
//! For such a program texts are plain numbers, and it passes buffers for them. `specs/Numbers` defines the numbers of items, elements
//! and rules, and what is written to a buffer. `put_characters` and the similar functions write as much as fits at the beginning of a
//! buffer, leave the rest unchanged, and return the full length. `characters` accepts exactly the numbers that are characters.
#![tactic(auto)]

mod errors;
mod field;
pub mod laws;
mod numbers;

pub use errors::CallError;
pub use field::{Edit, OpenField, key_code};
pub use numbers::{
    KEY, MARK, characters, put_bytes, put_characters, put_elements, put_items, put_options,
    put_utf8, rule_number,
};
