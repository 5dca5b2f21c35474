//! The events of a session, and what an event did.

use crate::{KeyPress, Seq, Text};

/// One event: the atomic step of a session. Positions count characters from the start of the whole text.
#[derive(Drop)]
pub enum Event {
    /// A key press.
    Key(KeyPress),
    /// The host sets an option store to a value, which becomes both its current and its saved value.
    Setting { name: Text, value: Seq<char> },
    /// The caret moves to a position.
    Caret(u32),
    /// The application replaces the characters between two positions.
    Edit { from: u32, to: u32, text: Seq<char> },
}

/// What one event did. Counters saturate at the maximum of their type.
#[derive(Clone, Copy, Debug, PartialEq, Eq)]
pub struct Outcome {
    /// The number of characters that are deleted before the caret, before the new text is inserted.
    pub delete: u32,
    /// Whether the key is passed on to the application.
    pub pass: bool,
    pub beeps: u32,
    /// The number of groups that were entered.
    pub entered: u32,
    /// The number of items that were put.
    pub put: u32,
    /// The number of `save` items that acted.
    pub saved: u32,
}
