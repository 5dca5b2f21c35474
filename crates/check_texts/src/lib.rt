//! Defines the texts of what a check finds: the meanings of codes, the details of refusals with advice, and the codes and the texts of
//! warnings.
//!
//! Depends on `kmn_base` for the codes and the texts, on `refusal_details` for the details, and on `name_warnings` for the warnings. The layer
//! above calls `put_meaning`, `put_detail`, `put_advice`, `warning_code`, `is_note` and `put_warning_text`, and `put_shown` for another word of
//! an input. They append or return exactly what `specs/Meanings`, `specs/Details`, `specs/Advice` and `specs/WarningTexts` define. An advice is
//! printed of a word that other languages write, for example a range, an old header or `//`: it says how this language writes what is meant.
//! `shown_text` is how a word of an input is printed: its first 80 characters, with a sign for each that a terminal obeys.
#![tactic(auto)]

mod advice;
mod advice_rows;
mod details;
mod line_lists;
mod meanings;
mod shown_words;
mod warning_texts;

pub use advice::put_advice;
pub use details::put_detail;
pub use meanings::put_meaning;
pub use shown_words::put_shown;
pub use warning_texts::{is_note, put_warning_text, warning_code};
