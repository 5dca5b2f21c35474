//! Reads a file by name and exports it.

ghost use Rattle.std.specs.Prelude.{◌≡◌};
ghost use Rattle.export_run.specs.Reads.{Answers, Differs, Gives, States};

use core_constructs::Told;
use core_export::{ExportError, export, told_of};
use keyman_words::{FileName, LONG_FILE, read};
use kmn_base::limits::FILE_BYTES;
use kmn_base::{Memory, Seq};
use kmn_outside::{Folder, ReadError};
use kmx_verifier::{Fault, Verified, VerifyError, verify};
use std::alloc::Global;

/// Why a file isn't exported.
#[derive(Clone, Copy)]
pub enum ExportReason {
    /// The file isn't valid.
    File(Fault),
    /// An event may save twice, first at this line of the source.
    SavesTwice(u32),
    /// A store without a name is set and reset.
    Nameless,
    /// The other engine misreads an item of the rules, first at this line of the source, or an item that has no line.
    Unreadable(Option<u32>),
    /// The other engine does not have enough space for its tables of the file.
    Overfull,
    /// The file has no strings, so it has no zero unit to point to.
    NoZeroUnit,
    /// Parts of the file overlap.
    Overlapping,
}

/// The export of a file, and what Keyman's own engine treats differently in it.
#[derive(Drop)]
pub struct Export {
    pub bytes: Seq<u8>,
    pub differences: Told,
}

/// Why a run stops before it writes.
#[derive(Clone, Copy)]
pub enum ExportStop {
    Refused(ExportReason),
    ReadFault,
    Memory,
}

impl From<Memory> for ExportStop {
    ghost use Rattle.export_run.specs.declared.reading.ExportStop.TheVariants as stop;

    ghost from_gives = { λ _ given. given ≡ stop.Memory };

    fn from(_memory: Memory) -> ExportStop {
        ExportStop::Memory
    }
}

impl From<VerifyError> for ExportStop {
    ghost use Rattle.export_run.specs.Reads.{verify_stop};

    ghost from_gives = { λ error given. given ≡ verify_stop error };

    fn from(error: VerifyError) -> ExportStop {
        match error {
            VerifyError::Refused(fault) => ExportStop::Refused(ExportReason::File(fault)),
            VerifyError::Memory => ExportStop::Memory,
        }
    }
}

impl From<ExportError> for ExportStop {
    ghost use Rattle.export_run.specs.Reads.{export_stop};

    ghost from_gives = { λ error given. given ≡ export_stop error };

    fn from(error: ExportError) -> ExportStop {
        match error {
            ExportError::SavesTwice(line) => ExportStop::Refused(ExportReason::SavesTwice(line)),
            ExportError::Nameless => ExportStop::Refused(ExportReason::Nameless),
            ExportError::Unreadable(line) => ExportStop::Refused(ExportReason::Unreadable(line)),
            ExportError::Overfull => ExportStop::Refused(ExportReason::Overfull),
            ExportError::NoZeroUnit => ExportStop::Refused(ExportReason::NoZeroUnit),
            ExportError::Overlapping => ExportStop::Refused(ExportReason::Overlapping),
            ExportError::Memory => ExportStop::Memory,
        }
    }
}

/// Reads a file by name and exports it.
pub fn read_export<F: Folder>(
    alloc: Global,
    file: &FileName<'_>,
    folder: &mut F,
) -> Result<Export, ExportStop>
    ensures { Gives file.now F.Folder folder.old folder.new result }
{
    match read(alloc, file, FILE_BYTES, folder) {
        Ok(bytes) => export_bytes(alloc, bytes.as_slice()),
        Err(ReadError::Failed) => Err(ExportStop::ReadFault),
        Err(ReadError::Over(_)) => Err(ExportStop::Refused(ExportReason::File(LONG_FILE))),
        Err(ReadError::Memory) => Err(ExportStop::Memory),
    }
}

/// Verifies the bytes of a file and exports it.
#[tactic(auto, using(crate::proofs::Answered::states_answered))]
fn export_bytes(alloc: Global, bytes: &[u8]) -> Result<Export, ExportStop>
    ensures { States bytes.now result }
{
    let file = verify(alloc, bytes)?;
    export_file(alloc, &file)
}

/// Exports a valid file.
fn export_file(alloc: Global, file: &Verified<'_>) -> Result<Export, ExportStop>
    ensures { Answers file.now result }
{
    let bytes = export(alloc, file)?;
    let differences = told_in(alloc, bytes.as_slice())?;
    Ok(Export { bytes, differences })
}

/// Returns what Keyman's own engine treats differently in the bytes of a file.
#[tactic(auto, using(crate::proofs::Answered::fault_differs))]
fn told_in(alloc: Global, bytes: &[u8]) -> Result<Told, ExportStop>
    ensures { Differs bytes.now result }
{
    let file = verify(alloc, bytes)?;
    Ok(told_of(alloc, &file)?)
}
