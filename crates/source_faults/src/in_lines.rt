//! Sorts refusals by line.

ghost use Rattle.std.specs.Prelude.{◌≡◌, IfOk};
ghost use Rattle.source_faults.specs.Faults.{in_lines};

use kmn_base::{Memory, Refusal, Seq};
use std::alloc::Global;

/// Returns refusals in the order of their lines. Those at one line stay in their order. Errors: `Memory` if an allocation fails.
pub fn sort_by_line(alloc: Global, refusals: &[Refusal]) -> Result<Seq<Refusal>, Memory>
    ensures { IfOk result (λ sorted. sorted ≡ in_lines refusals.now) }
{
    let mut sorted = Vec::from_slice(alloc, refusals)?;
    sorted.sort_by_key(
        |refusal: &Refusal| -> u32
            ensures { result ≡ refusal.now.line }
        { refusal.line },
    )?;
    Ok(Seq::from_vec(sorted))
}
