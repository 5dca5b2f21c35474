//! The error of a script that can't be read.

use kmn_base::{Memory, Refusal};
use thiserror::Error;

/// The error of a script that cannot be read.
#[derive(Debug, Drop, Error)]
pub enum ScriptError {
    /// The script breaks one of the rules P01 to P08.
    #[error("refused {} line {}", .0.code, .0.line)]
    Refused(Refusal),
    #[error("out of memory")]
    Memory,
}

impl From<Memory> for ScriptError {
    ghost use Rattle.std.specs.Prelude.{◌≡◌};
    ghost use Rattle.play_script.specs.declared.errors.ScriptError.TheVariants as error;

    ghost from_gives = { λ _ given. given ≡ error.Memory };

    fn from(_memory: Memory) -> ScriptError {
        ScriptError::Memory
    }
}
