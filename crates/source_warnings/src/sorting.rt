//! Sorts warnings by line.

ghost use Rattle.std.specs.Prelude.{◌≡◌, IfOk};
ghost use Rattle.source_uses.specs.Lines.{in_lines};
ghost use Rattle.source_warnings.specs.Warnings.{warning_line};

use kmn_base::Memory;
use name_warnings::Warning;

/// Returns warnings in the order of their lines. Those at one line stay in their order. Errors: `Memory` if an allocation fails.
pub(crate) fn sort_warnings(found: Vec<Warning>) -> Result<Vec<Warning>, Memory>
    ensures { IfOk result (λ sorted. sorted.items ≡ in_lines warning_line found.items) }
{
    let mut sorted = found;
    sorted.sort_by_key(
        |warning: &Warning| -> u32
            ensures { result ≡ warning.now.line }
        { warning.line },
    )?;
    Ok(sorted)
}
