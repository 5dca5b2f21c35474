//! The reason why a file is not decompiled.

use crate::NoSpelling;
use kmn_base::Memory;
use thiserror::Error;

/// The reason why a file was not decompiled.
#[derive(Clone, Copy, Debug, Error)]
pub enum DecompileError {
    /// The file has no text that is a source.
    #[error("refused {0}")]
    Refused(NoSpelling),
    #[error("out of memory")]
    Memory,
}

impl From<Memory> for DecompileError {
    ghost use Rattle.std.specs.Prelude.{◌≡◌};
    ghost use Rattle.kmx_decompiler.specs.declared.refusals.DecompileError.TheVariants as error;

    ghost from_gives = { λ _ given. given ≡ error.Memory };

    fn from(_memory: Memory) -> DecompileError {
        DecompileError::Memory
    }
}
