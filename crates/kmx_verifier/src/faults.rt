//! The faults of a file, and the kinds of strings and items that the rules distinguish.

ghost use Rattle.std.specs.Prelude.{◌≡◌};

use kmn_base::Code;
use thiserror::Error;

/// A fault of a file: the rule that the file breaks, the byte offset at which it breaks the rule, and the code that V14
/// names, or 0 for any other rule.
#[derive(Clone, Copy, Debug, PartialEq, Eq)]
pub struct Fault {
    pub code: Code,
    pub at: u32,
    pub unit: u16,
}

impl Fault {
    /// Returns a fault that does not name the code of an item.
    pub(crate) fn of(code: Code, at: u32) -> Fault
        ensures code { result.code ≡ code }
        ensures at { result.at ≡ at }
        ensures unit { result.unit ≡ 0 }
    {
        Fault { code, at, unit: 0 }
    }
}

/// An error of `verify`: the first fault of the file, or a failed allocation.
#[derive(Debug, Drop, Error)]
pub enum VerifyError {
    #[error("refused {} at {}", .0.code, .0.at)]
    Refused(Fault),
    #[error("out of memory")]
    Memory,
}

impl From<Fault> for VerifyError {
    ghost use Rattle.std.specs.Prelude.{◌≡◌};
    ghost use Rattle.kmx_verifier.specs.declared.faults.VerifyError.TheVariants as error;

    ghost from_gives = { λ fault given. given ≡ error.Refused fault };

    fn from(fault: Fault) -> VerifyError {
        VerifyError::Refused(fault)
    }
}

/// The kinds of strings whose items are checked.
#[derive(Clone, Copy, Debug, PartialEq, Eq)]
pub enum StringKind {
    Store,
    Context,
    Output,
    /// The output of match or nomatch, which acts without the context of a rule.
    Match,
}

/// What an offset finds in a context: an `any`, another item that matches text, or a condition or `nul`, at which
/// offsets are not allowed to point.
#[derive(Clone, Copy, Debug, PartialEq, Eq)]
pub enum Target {
    Any,
    Pattern,
    Nothing,
}
