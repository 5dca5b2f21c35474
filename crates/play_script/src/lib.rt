//! Reads scripts of events, and writes the lines of a transcript.
//!
//! It depends on `virtual_keys` for the names of keys and on `rule_model`, which defines the `Entry` of a script and the printed
//! lines. `specs/Entries` defines the entries of a script, or its first refusal, line by line and word by word. The layer above
//! uses `read_script`, which returns exactly these, and one function for each line of a transcript. A script format with further
//! lines reads those with the readers of words, numbers and key presses, and passes all other lines to `read_line`.
#![tactic(auto)]

mod errors;
mod lines;
mod presses;
mod reader;
mod strings;
mod text_words;
mod transcript;
mod words;

pub use errors::ScriptError;
pub use lines::{first_line, read_line, read_script, script_text};
pub use presses::{first_piece, needed_press};
pub use reader::{Reader, needed_number, nothing_more, refused};
pub use transcript::{
    end_line, expect_line, line_of, put_characters, put_counts, refused_event_line, text_line,
    value_line,
};
pub use words::{first_word, rest_after_word, without_blanks};
