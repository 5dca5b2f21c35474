//! The error of a line that has no tokens, before the line's number is known.

use kmn_base::{Code, CompileError, Memory, Refusal};

/// Why a line has no tokens: the fault of one of them, or the program ran out of memory.
#[derive(Clone, Copy)]
pub(crate) enum TokenError {
    Fault(Code),
    NoMemory,
}

impl From<Code> for TokenError {
    ghost use Rattle.std.specs.Prelude.{◌≡◌};
    ghost use Rattle.kmn_tokens.specs.declared.token_error.TokenError.TheVariants as variants;

    ghost from_gives = { λ code e. e ≡ variants.Fault code };

    fn from(code: Code) -> TokenError {
        TokenError::Fault(code)
    }
}

impl From<Memory> for TokenError {
    ghost use Rattle.std.specs.Prelude.{◌≡◌};
    ghost use Rattle.kmn_tokens.specs.declared.token_error.TokenError.TheVariants as variants;

    ghost from_gives = { λ _ e. e ≡ variants.NoMemory };

    fn from(_memory: Memory) -> TokenError {
        TokenError::NoMemory
    }
}

impl TokenError {
    ghost use Rattle.std.specs.Prelude.{◌≡◌};
    ghost use Rattle.kmn_tokens.specs.Scanning.{error_at};

    /// Returns the error of the line with this number.
    pub(crate) fn at(self, line: u32) -> CompileError
        ensures { result ≡ error_at line self }
    {
        match self {
            TokenError::Fault(code) => CompileError::Refused(Refusal { line, code }),
            TokenError::NoMemory => CompileError::Memory,
        }
    }
}
