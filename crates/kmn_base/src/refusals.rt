//! A refusal, which is an error code with its line, and the error of a compilation.

use crate::{Code, Memory};
use thiserror::Error;

/// A named rule that a text breaks, with the number of the line, from 1.
#[derive(Clone, Copy, Debug, PartialEq, Eq)]
pub struct Refusal {
    pub line: u32,
    pub code: Code,
}

/// Why a source was not compiled.
#[derive(Debug, Drop, Error)]
pub enum CompileError {
    #[error("refused {} line {}", .0.code, .0.line)]
    Refused(Refusal),
    /// The bitmap or the file would exceed its limit. `size` is its size in bytes.
    #[error("refused {code} size {size}")]
    TooLarge { code: Code, size: u64 },
    #[error("out of memory")]
    Memory,
}

impl From<Memory> for CompileError {
    ghost use Rattle.std.specs.Prelude.{◌≡◌};
    ghost use Rattle.kmn_base.specs.declared.refusals.CompileError.TheVariants as variants;

    ghost from_gives = { λ _ e. e ≡ variants.Memory };

    fn from(_memory: Memory) -> CompileError {
        CompileError::Memory
    }
}
