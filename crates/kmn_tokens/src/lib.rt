//! Splits a logical line into tokens, or returns the first fault among them.
//!
//! Depends on `kmn_base` and `kmn_lines`, whose `specs/Tokens` defines the tokens of a line and their first fault. The layer
//! above calls `tokens` for each line that `kmn_lines::lines` returns, and reads statements from the result. It can also
//! split a text that isn't in a source (`text_tokens`), and classify a text as a token on its own: `word_size`,
//! `starts_number`, `number`, `has_forbidden`.
#![tactic(auto)]

mod faults;
mod numbers;
mod scan;
mod sizes;
mod token_error;

pub use faults::has_forbidden;
pub use kmn_lines::{Token, TokenKind};
pub use numbers::number;
pub use scan::{text_tokens, tokens};
pub use sizes::{starts_number, word_size};
