//! A physical line, and its state while its bytes are read.

/// The state of a physical line after its bytes so far. Positions are byte offsets in the source.
#[derive(Clone, Copy)]
pub struct LineState {
    /// The quote that is open, if any.
    pub quote: Option<u8>,
    /// Whether the previous byte is a blank, or the line begins here.
    pub after_blank: bool,
    /// The position of a backslash that only blanks have followed.
    pub slash: Option<usize>,
    /// The position of the comment, or of the CR of a CR LF: the bytes from here on are ignored.
    pub stop: Option<usize>,
}

/// A physical line. `from`, `to` and `next` are byte offsets in the source.
#[derive(Clone, Copy)]
pub struct PhysicalLine {
    /// The number of the line, from 1.
    pub line: u32,
    pub from: usize,
    /// The end of its text, which contains neither comment nor joining backslash.
    pub to: usize,
    /// The beginning of the next physical line.
    pub next: usize,
    /// Whether a backslash joins it with the next physical line.
    pub joined: bool,
}
