//! The entries of a script.

use kmn_base::{Event, Seq};

/// One line of a script, or one key press of a line, with the number of its line from 1.
#[derive(Drop)]
pub enum Entry {
    Act { line: u32, event: Event },
    /// Compares the whole text with this one.
    Expect { line: u32, text: Seq<char> },
}
