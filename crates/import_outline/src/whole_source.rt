//! The groups of a source.

ghost use Rattle.std.specs.Prelude.{◌≡◌, ◌≤◌, length, IfOk};
ghost use Rattle.kmn_base.specs.declared.limits.TheConstants.{TEXT_BYTES};
ghost use Rattle.import_outline.specs.Outline.{source_outline};

use crate::groups::Groups;
use crate::outline::Outline;
use import_tokens::tokens_of;
use kmn_base::Memory;
use kmn_lines::lines;
use std::alloc::Global;

/// Returns the groups of a source. Errors: `Memory` if an allocation fails.
pub fn source_groups(alloc: Global, source: &str) -> Result<Groups, Memory>
    requires { length source.now ≤ TEXT_BYTES }
    ensures { IfOk result (λ groups. groups.outline ≡ source_outline source.now) }
{
    Groups::of(alloc, source_outline(alloc, source)?)
}

/// Returns the outline of a source. Errors: `Memory` if an allocation fails.
fn source_outline(alloc: Global, source: &str) -> Result<Outline, Memory>
    requires { length source.now ≤ TEXT_BYTES }
    ensures { IfOk result (λ outline. outline ≡ source_outline source.now) }
{
    let mut outline = Outline::new(alloc);
    for logical in lines(source) {
        let tokens = tokens_of(alloc, source, logical)?;
        outline.add_line(alloc, tokens.as_slice())?;
    }
    Ok(outline)
}
