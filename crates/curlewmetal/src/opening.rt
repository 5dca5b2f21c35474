//! The exports that open and close fields.

ghost use Rattle.std.specs.Prelude.{◌≡◌, None, Some, MatchOption, MatchResult};
ghost use Rattle.kmx_format.specs.TablesOf.{tables_of};
ghost use Rattle.kmx_verifier.specs.FaultOf.{fault_of};
ghost use Rattle.play_session.specs.Session.{first_session};
ghost use Rattle.curlewmetal.specs.Answers.{ok_answer, refused_answer, closed_answer, UnlessMemory, fault_numbers};

use crate::answers::{CLOSED, FaultNumbers, MEMORY, OK, REFUSED, fault_numbers};
use crate::field::Field;
use curlew_calls::OpenField;
use kmn_base::Memory;
use kmx_verifier::VerifyError;
use std::alloc::Global;

/// The version of the library: 10,000 for each major, 100 for each minor and 1 for each patch number. A program compares it with
/// `CURLEW_VERSION` to detect that it was compiled with the header of another library.
const VERSION: u32 = 10_000;

/// Returns the version of the library, 10,000.
#[unsafe(no_mangle)]
pub extern "C" fn curlew_version() -> u32
    ensures { result ≡ 10000 }
{
    VERSION
}

/// Opens a file with an empty text, and closes what was open in the handle. Returns `OK`, `REFUSED` with the fault exactly when the
/// file has one, or `MEMORY`. The handle owns the field. The caller owns the bytes, and keeps them while a field is over them.
#[tactic(auto, using(crate::proofs::Opened::told_of_none, crate::proofs::Opened::told_of_some))]
#[unsafe(no_mangle)]
pub extern "C" fn curlew_open(
    alloc: Global,
    field: &mut Field,
    file: &'static [u8],
    fault: &mut FaultNumbers,
) -> u32
    ensures { UnlessMemory result ((field.new.held ≡ field.old.held) × (fault.new ≡ fault.old)) (MatchOption (fault_of file.now)
        ((result ≡ ok_answer) × (field.new.held ≡ Some (first_session (tables_of file.now))) × (fault.new ≡ fault.old))
        (λ found. (result ≡ refused_answer) × (field.new.held ≡ field.old.held) × (fault.new ≡ fault_numbers found))) }
{
    let held = match OpenField::open(alloc, file) {
        Ok(held) => held,
        Err(VerifyError::Refused(found)) => {
            *fault = fault_numbers(found);
            return REFUSED;
        }
        Err(VerifyError::Memory) => return MEMORY,
    };
    match put(alloc, field, held) {
        Ok(()) => OK,
        Err(_) => MEMORY,
    }
}

/// Puts a field into a handle, and closes the field that was open there.
fn put(alloc: Global, handle: &mut Field, field: OpenField) -> Result<(), Memory>
    ensures { MatchResult result (λ _. handle.new.held ≡ Some field) (λ _. handle.new.held ≡ handle.old.held) }
{
    let held = Box::new(alloc, field)?;
    *handle = Field::of(held);
    Ok(())
}

/// Opens a field over the same file in another handle, with the same text and options, and closes what was open there. The other
/// handle owns the new field. Returns `OK`, `MEMORY`, or `CLOSED` exactly when the first handle has no field.
#[tactic(auto, using(crate::proofs::Opened::told_of_closed, crate::proofs::Opened::told_of_opened))]
#[unsafe(no_mangle)]
pub extern "C" fn curlew_copy(alloc: Global, field: &mut Field, other: &mut Field) -> u32
    ensures stays { field.new.held ≡ field.old.held }
    ensures told { MatchOption field.old.held ((result ≡ closed_answer) × (other.new.held ≡ other.old.held))
        (λ session. UnlessMemory result (other.new.held ≡ other.old.held) ((result ≡ ok_answer) × (other.new.held ≡ Some session))) }
{
    let Some(held) = field.take(alloc) else {
        return CLOSED;
    };
    let copy = held.copy(alloc);
    *field = Field::of(held);
    match copy {
        Ok(copy) => match put(alloc, other, copy) {
            Ok(()) => OK,
            Err(_) => MEMORY,
        },
        Err(_) => MEMORY,
    }
}

/// Closes the field of a handle, if it has one, and leaves the handle null.
#[unsafe(no_mangle)]
pub extern "C" fn curlew_close(alloc: Global, field: &mut Field)
    ensures { field.new.held ≡ None }
{
    let _closed = field.take(alloc);
}
