//! Finds where each refusal of a source stands: its line and its column.
//!
//! Depends on the crates that read a line (`kmn_lines`, `kmn_tokens`, `kmn_items`, `kmn_parser`), and on `source_names` for the names that
//! lines lack. A refusal has only the number of its line, so its line is read again. The layer above calls `placed_in` for each refusal
//! that it prints, which returns exactly what `specs/Placed` defines: a refusal stands at the first token of its line that has a fault; if
//! no token has one, at the name that the line lacks (`specs/Names`), or at the token at which reading the line stops (`specs/Spots`); and
//! if the line is read whole, at its first token. A refusal of the whole source or program, and one without a token, stands at the start of
//! its line (`at_start`). A refusal of bytes that are not UTF-8 has the place of `behind_bytes` (`specs/Bytes`). `specs/Columns` defines how
//! columns count characters. `name_at` returns the name that a line lacks,
//! `faulty_spot` where the first token with a fault begins, and `stop_place` the token at which reading a line stops.
#![tactic(auto)]

mod bytes;
mod columns;
mod faulty;
mod names;
mod placed_refusal;
mod placing;
mod sizes;
mod spot;
mod spots;

pub use bytes::behind_bytes;
pub use faulty::faulty_spot;
pub use names::name_at;
pub use placed_refusal::{Placed, at_start};
pub use placing::placed_in;
pub use spot::Spot;
pub use spots::stop_place;
