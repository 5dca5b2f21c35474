//! An imported source and its changes.

use import_lines::ChangeKind;
use kmn_base::{Seq, Text};

/// A change of a line.
#[derive(Clone, Copy, Debug, PartialEq, Eq)]
pub struct Change {
    /// The number of the line's first physical line, from 1.
    pub line: u32,
    pub kind: ChangeKind,
}

/// A source that the compiler accepts, in UTF-8, and the changes of its lines, in rising order.
#[derive(Drop)]
pub struct Imported {
    pub text: Text,
    pub changes: Seq<Change>,
}
