//! What Keyman's own engine treats differently in a file.

ghost use Rattle.std.specs.Prelude.{◌≡◌, IfOk};
ghost use Rattle.core_export.specs.Told.{told_of};

use core_constructs::{Told, told};
use kmn_base::Memory;
use kmx_format::places::FLAGS_AT;
use kmx_verifier::Verified;
use kmx_view::word_at;
use std::alloc::Global;

/// Returns what Keyman's own engine treats differently in a file: by source line, by group, and once for the file.
///
/// Errors: `Memory` if an allocation fails.
pub fn told_of(alloc: Global, file: &Verified<'_>) -> Result<Told, Memory>
    ensures { IfOk result (λ all. all ≡ told_of file.now) }
{
    let flags = word_at(file.view().bytes, FLAGS_AT);
    let tables = file.copied_tables(alloc)?;
    told(alloc, flags, &tables)
}
