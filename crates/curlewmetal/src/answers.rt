//! The result numbers of the calls.

ghost use Rattle.std.specs.Prelude.{◌≡◌};
ghost use Rattle.curlewmetal.specs.Answers.{error_number, fault_numbers};

use curlew_calls::{CallError, rule_number};
use kmx_verifier::Fault;

/// The call succeeded.
pub const OK: u32 = 0;
/// The file is not a valid keyboard.
pub const REFUSED: u32 = 1;

pub const MEMORY: u32 = 2;
/// A position is past the end of the text, or an edit ends before its start.
pub const PLACE: u32 = 3;
/// The text is too long for a key press, or would be too long.
pub const LENGTH: u32 = 4;
/// The field is not open.
pub const CLOSED: u32 = 5;
/// A number is not a character.
pub const CHARACTER: u32 = 6;
/// There is no such option, change or saved value.
pub const NONE: u32 = 7;

/// The fault of a file.
#[repr(C)]
#[derive(Clone, Copy, Debug, PartialEq, Eq)]
pub struct FaultNumbers {
    /// The rule that the file breaks: 14 means V14.
    pub rule: u32,
    /// The byte offset of the fault.
    pub at: u32,
    /// The code that V14 names, or 0 for another rule.
    pub unit: u32,
}

/// Returns the number of an error.
pub(crate) fn error_number(error: &CallError) -> u32
    ensures { result ≡ error_number error.now }
{
    match error {
        CallError::Memory => MEMORY,
        CallError::Place => PLACE,
        CallError::Length => LENGTH,
        CallError::Character => CHARACTER,
        CallError::NoOption => NONE,
    }
}

/// Returns a fault as numbers.
pub(crate) fn fault_numbers(fault: Fault) -> FaultNumbers
    ensures { result ≡ fault_numbers fault }
{
    FaultNumbers {
        rule: rule_number(fault.code),
        at: fault.at,
        unit: u32::from(fault.unit),
    }
}
