//! Converts a compiled keyboard for Keyman's own engine, in its bytes and in its tables, and replaces words of a file in place.
//!
//! There are three conversions (`specs/Conversions`): a `nul` is moved before the conditions of its context (`specs/NulWords`), a key with
//! CTRL or ALT has none of its sides (`specs/PlainFlags`), and the output of a rule with an empty context becomes the `nomatch` of a group
//! without keys (`specs/NomatchWords`). Each of them keeps the number of bytes.
//!
//! It depends on `core_conversions`, which defines and makes the conversions of tables; `kmx_format` for the places of words; `kmx_view`,
//! which reads words; and `kmx_verifier`, which opens valid files. The layer above uses `converted_bytes` and `convert_tables`, which make
//! the same conversion in a copy of the bytes and in the tables. If parts of a file overlap, the converted bytes may have other tables, so
//! that layer compares them. `put_word` replaces one word (`specs/Words`).
#![tactic(auto)]

mod conversions;
mod nomatch_words;
mod nul_words;
mod plain_flags;
mod words;

pub use conversions::{Conversion, convert_tables, converted_bytes};
pub use words::put_word;
