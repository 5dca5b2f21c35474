//! What was changed in a line.

/// A change of a line.
#[derive(Clone, Copy, Debug, PartialEq, Eq)]
pub enum ChangeKind {
    /// The bytes of the source were UTF-16 and are UTF-8 now.
    Bytes,
    /// A range was written out.
    Range,
    /// A key that was given by its place or by its character got its name.
    Key,
    /// An old header became a system store.
    Header,
    /// A version that no file can have became a comment.
    Version,
    /// A statement for caps lock became a comment.
    Caps,
    /// The mnemonic layout became a comment.
    Mnemonic,
    /// `begin` without a word became `begin ANSI`.
    Begin,
    /// What is done without a key is skipped, or became a comment.
    Layer,
    /// A readonly group that keys reach became an ordinary group that changes no text.
    Readonly,
}
