//! Where logical lines and their parts are in a source.

/// A logical line: one physical line, or several that backslashes join. `from` and `to` are byte offsets in the source.
#[derive(Clone, Copy)]
pub struct Logical {
    /// The number of its first physical line, from 1.
    pub first_line: u32,
    pub from: u32,
    pub to: u32,
}

/// The part of a physical line in a logical line that is tokenized. `from` and `to` are byte offsets in the source.
#[derive(Clone, Copy)]
pub struct Part {
    /// The number of its physical line, from 1.
    pub line: u32,
    pub from: u32,
    pub to: u32,
}
