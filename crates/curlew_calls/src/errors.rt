//! The error of a call that an open field refuses. The errors of sessions convert to it.

use kmn_base::Memory;
use play_session::StepError;
use thiserror::Error;

/// The error of a call. After an error the field is unchanged.
#[derive(Debug, Drop, Error)]
pub enum CallError {
    #[error("out of memory")]
    Memory,
    /// A position is past the end of the text, or `to` is less than `from`.
    #[error("a place past the text")]
    Place,
    /// The text is too long for a key press, or would be too long.
    #[error("too long a text")]
    Length,
    /// A number is not a character: it is a surrogate, or past U+10FFFF.
    #[error("a number that is no character")]
    Character,
    /// No option has the name.
    #[error("no option of this name")]
    NoOption,
}

impl From<Memory> for CallError {
    ghost use Rattle.std.specs.Prelude.{◌≡◌};
    ghost use Rattle.curlew_calls.specs.declared.errors.CallError.TheVariants as error;

    ghost from_gives = { λ _ given. given ≡ error.Memory };

    fn from(_memory: Memory) -> CallError {
        CallError::Memory
    }
}

impl From<StepError> for CallError {
    ghost use Rattle.std.specs.Prelude.{◌≡◌};
    ghost use Rattle.curlew_calls.specs.Answers.{of_step};

    ghost from_gives = { λ error given. given ≡ of_step error };

    fn from(error: StepError) -> CallError {
        match error {
            StepError::Place => CallError::Place,
            StepError::Length => CallError::Length,
            StepError::Memory => CallError::Memory,
        }
    }
}
