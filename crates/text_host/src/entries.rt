//! The entries of a script for several fields.

use kmn_base::{Event, KeyPress, Seq};

/// A line of a script for several fields, or one key press of such a line. Lines are numbered from 1.
#[derive(Drop)]
pub enum HostEntry {
    /// Opens a field after the open fields, and makes it the current field.
    Open { line: u32 },
    /// Makes the field with this number current. Fields are numbered from 1.
    Field { line: u32, field: u32 },
    /// Shows what a key press would do in the current field.
    Preview { line: u32, press: KeyPress },
    /// Performs an event in the current field.
    Act { line: u32, event: Event },
    /// Compares the whole text of the current field with this text.
    Expect { line: u32, text: Seq<char> },
}
