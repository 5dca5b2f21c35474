//! Why a caret move or an edit is refused.

use kmn_base::Memory;
use thiserror::Error;

/// The error of a caret move or an edit.
#[derive(Debug, Drop, Error)]
pub enum EditError {
    /// A position is past the end of the text, or an edit ends before it begins.
    #[error("refused E1")]
    Place,
    /// The text would have more than 1,000,000 characters.
    #[error("refused E2")]
    Length,
    #[error("out of memory")]
    Memory,
}

impl From<Memory> for EditError {
    ghost use Rattle.std.specs.Prelude.{◌≡◌};
    ghost use Rattle.editor_model.specs.declared.error.EditError.TheVariants as error;

    ghost from_gives = { λ _ given. given ≡ error.Memory };

    fn from(_memory: Memory) -> EditError {
        EditError::Memory
    }
}
