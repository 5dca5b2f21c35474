//! The texts that compiled keyboards decompile to.

ghost use Rattle.std.specs.Prelude.{◌≡◌, IfOk, IsSomeAnd, IsTrue};
ghost use Rattle.keyman_run.specs.Inputs.{IsTextOf, text_of_file};
ghost use Rattle.keyman_run.specs.Orders.{text_work};
ghost use Rattle.keyman_run.specs.Steps.{Gives, States, itself};

use crate::preparing::{Stop, read_file};
use keyman_words::{FileName, Reason};
use kmn_base::Text;
use kmn_outside::Folder;
use kmx_decompiler::{DecompileError, decompile};
use kmx_verifier::verify;
use std::alloc::Global;

/// Reads a compiled keyboard by name and returns the source that it decompiles to.
pub fn read_text<F: Folder>(
    alloc: Global,
    name: &FileName<'_>,
    folder: &mut F,
) -> Result<Text, Stop>
    ensures gives { Gives itself (text_work name.now) F.Folder folder.old folder.new result }
    ensures text { IsTrue (F.told folder.old) → IfOk result (λ text. IsSomeAnd (F.files folder.old name.now) (λ bytes. IsTextOf bytes text)) }
{
    let bytes = read_file(alloc, name, folder)?;
    decompiled(alloc, bytes.as_slice())
}

/// Returns the source that the bytes of a file decompile to.
fn decompiled(alloc: Global, bytes: &[u8]) -> Result<Text, Stop>
    ensures states { States itself (text_of_file bytes.now) result }
    ensures text { IfOk result (λ text. IsTextOf bytes.now text) }
{
    let file = verify(alloc, bytes)?;
    Ok(decompile(alloc, &file)?)
}

impl From<DecompileError> for Stop {
    ghost use Rattle.keyman_run.specs.Steps.{text_stop};

    ghost from_gives = { λ error given. given ≡ text_stop error };

    fn from(error: DecompileError) -> Stop {
        match error {
            DecompileError::Refused(why) => Stop::Refused(Reason::Text(why)),
            DecompileError::Memory => Stop::Memory,
        }
    }
}
