//! Where a token begins in a source.

/// Where a token begins: the number of its physical line, from 1, and a byte offset in the source.
#[derive(Clone, Copy)]
pub struct Spot {
    pub line: u32,
    pub at: usize,
}
