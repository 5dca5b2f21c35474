//! Rewrites the tokens of a line of the whole Keyman language: ranges are written out, and keys get the names that the compiler knows.
//!
//! Depends on `kmn_lines` and `kmn_tokens` for the tokens of a text, on `kmn_items` for what a token denotes, on `kmn_parser` for
//! the definitions of written tokens, and on `virtual_keys` for the names of keys. `specs/Scan` defines the tokens of a line in
//! which `..` is a token by itself, `specs/Bounds` what is before and after a `..`, `specs/Ranges` the tokens of a range, and
//! `specs/Keys` the names of keys that are given by their place on the board or by their character. The layer above calls
//! `tokens_of` for a line, `without_ranges` and `with_key_names` for its items, and `key_at` for the key at a place; `laws` states that a range has all
//! characters between its bounds, and that a written character is read as itself.
#![tactic(auto)]

mod bound;
mod bracket_state;
mod digits;
mod key_names;
pub mod laws;
mod owned_token;
mod ranges;
mod scan;
mod spelling;

pub use key_names::{key_at, with_key_names};
pub use owned_token::{OwnedToken, copies, text_at};
pub use ranges::without_ranges;
pub use scan::tokens_of;
pub use spelling::quoted_token;
