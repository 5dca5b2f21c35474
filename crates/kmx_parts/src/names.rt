//! The names of a file, in UTF-8.

ghost use Rattle.std.specs.Prelude.{◌≡◌, IfOk};
ghost use Rattle.kmn_base.specs.Spelling.{whole_units};
ghost use Rattle.kmx_format.specs.TablesOf.{name_at};

use kmn_base::{Memory, Seq, Text};
use kmx_view::string_bytes;
use std::alloc::Global;

/// Returns the name at an offset, in UTF-8. Errors: `Memory` if an allocation fails.
#[tactic(auto, using(crate::proofs::Reading::units_again), unfolding(kmx_format::specs::TablesOf::name_at))]
pub(crate) fn name_at(alloc: Global, bytes: &[u8], offset: u32) -> Result<Text, Memory>
    ensures { IfOk result (λ name. name ≡ name_at bytes.now offset) }
{
    let units = units_of(alloc, string_bytes(bytes, offset))?;
    let name = String::from_utf16_lossy(alloc, &units)?;
    Ok(Seq::from_vec(name.into_bytes()))
}

/// Returns the whole units of bytes. Errors: `Memory` if an allocation fails.
fn units_of(alloc: Global, bytes: &[u8]) -> Result<Vec<u16>, Memory>
    ensures { IfOk result (λ units. units.items ≡ whole_units bytes.now) }
{
    let mut units = Vec::new(alloc);
    let mut rest = bytes;
    while let [low, high, behind @ ..] = rest {
        units.push(u16::from_le_bytes([*low, *high]))?;
        rest = behind;
    }
    Ok(units)
}
