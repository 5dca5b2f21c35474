//! The tokens of a line. They are defined here because `kmn_tokens` returns them and `kmn_items` reads them.

/// The kind of a token.
#[derive(Clone, Copy, Debug, PartialEq, Eq)]
pub enum TokenKind {
    /// Characters between two quotes of the same kind.
    Quoted,
    /// A character as `U+` and hexadecimal digits.
    Number(char),
    Word,
    Open,
    Close,
    BracketOpen,
    BracketClose,
    Arrow,
    Plus,
    Equal,
    Unequal,
    Comma,
}

/// A token: its kind, the number of its physical line, from 1, and the byte offsets of its text in the source.
#[derive(Clone, Copy, Debug, PartialEq, Eq)]
pub struct Token {
    pub kind: TokenKind,
    pub line: u32,
    pub from: u32,
    pub to: u32,
}
