//! The line that defines a name first, if a later line defines the name again.

ghost use Rattle.std.specs.Prelude.{◌≡◌, IfOk};
ghost use Rattle.refusal_details.specs.Defined.{defined, first_line, name_defined, name_in_line};

use crate::definitions::Definition;
use crate::detail::Detail;
use kmn_base::names::same_name;
use kmn_base::{Memory, Seq};
use std::alloc::Global;

/// Returns the name that a line defines, with the line that defines it first. Errors: `Memory` if an allocation fails.
#[tactic(auto, unfolding(crate::specs::Defined::defined))]
pub(crate) fn defined(
    alloc: Global,
    line: u32,
    definitions: &[Definition],
) -> Result<Detail, Memory>
    ensures { IfOk result (λ detail. detail ≡ defined line definitions.now) }
{
    name_defined(alloc, name_in_line(line, definitions), definitions)
}

/// Returns a name with the line that defines it first, or nothing for an empty name.
fn name_defined(alloc: Global, name: &[u8], definitions: &[Definition]) -> Result<Detail, Memory>
    ensures { IfOk result (λ detail. detail ≡ name_defined name.now definitions.now) }
{
    if name.is_empty() {
        return Ok(Detail::Nothing);
    }
    let line = first_line(name, definitions);
    let name = Seq::from_slice(alloc, name)?;
    Ok(Detail::Defined { name, line })
}

/// Returns the name that a line defines, or an empty name.
fn name_in_line(line: u32, definitions: &[Definition]) -> &[u8]
    ensures { result.now ≡ name_in_line line definitions.now }
{
    for definition in definitions {
        if definition.line == line {
            return definition.name.as_slice();
        }
    }
    &[]
}

/// Returns the line of the first definition of a name, or 0.
fn first_line(name: &[u8], definitions: &[Definition]) -> u32
    ensures { result ≡ first_line name.now definitions.now }
{
    for definition in definitions {
        if same_name(name, definition.name.as_slice()) {
            return definition.line;
        }
    }
    0
}
