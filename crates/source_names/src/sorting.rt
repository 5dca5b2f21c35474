//! Sorts causes by line.

ghost use Rattle.std.specs.Prelude.{◌≡◌, IfOk};
ghost use Rattle.source_names.specs.Telling.{in_lines};

use crate::causes::NameFault;
use kmn_base::Memory;

/// Returns causes in the order of their lines. Those at one line stay in their order. Errors: `Memory` if an allocation fails.
pub fn sort_by_line(causes: Vec<NameFault>) -> Result<Vec<NameFault>, Memory>
    ensures { IfOk result (λ sorted. sorted.items ≡ in_lines causes.items) }
{
    let mut sorted = causes;
    sorted.sort_by_key(
        |fault: &NameFault| -> u32
            ensures { result ≡ fault.now.line }
        { fault.line },
    )?;
    Ok(sorted)
}
