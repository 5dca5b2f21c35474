//! Reads a source by name and imports it.

ghost use Rattle.import_run.specs.Orders.{source_work};
ghost use Rattle.keyman_run.specs.Steps.{Gives, itself};

use keyman_run::{Stop, at_line_one, read_stop};
use keyman_words::{FileName, read};
use kmn_base::Code;
use kmn_base::limits::TEXT_BYTES;
use kmn_import::{Imported, import};
use kmn_outside::Folder;
use std::alloc::Global;

/// The size limit of a source that is imported, in bytes. It is also the limit of a source in UTF-16, which begins with a mark of two
/// bytes and has at most two bytes for each byte of its text in UTF-8.
const WIDE_TEXT_BYTES: usize = 2 * TEXT_BYTES + 2;

/// Reads a source by name and imports it. A longer file than any source in UTF-16 is refused without being read whole.
pub(crate) fn read_import<F: Folder>(
    alloc: Global,
    source: &FileName<'_>,
    folder: &mut F,
) -> Result<Imported, Stop>
    ensures { Gives itself (source_work source.now) F.Folder folder.old folder.new result }
{
    let bytes = read(alloc, source, WIDE_TEXT_BYTES, folder).map_err(|error| read_stop(
        error,
        at_line_one(Code::L05),
    ))?;
    Ok(import(alloc, bytes.as_slice())?)
}
