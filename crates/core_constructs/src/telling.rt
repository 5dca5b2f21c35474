//! What is told of the tables of a compiled keyboard.

ghost use Rattle.std.specs.Prelude.{◌≡◌, IfOk};
ghost use Rattle.core_constructs.specs.Told.{told};

use crate::construct::Told;
use crate::facts::facts_of;
use crate::files::file_differences;
use crate::groups::group_differences;
use crate::line_list::line_differences;
use crate::spent::spent_in;
use kmn_base::Memory;
use rule_model::Tables;
use std::alloc::Global;

/// Returns what Keyman's own engine treats differently in these tables, for a file with these flags in its header.
///
/// Errors: `Memory` if an allocation fails.
#[tactic(auto, unfolding(crate::specs::Told::told))]
pub fn told(alloc: Global, flags: u32, tables: &Tables) -> Result<Told, Memory>
    ensures { IfOk result (λ told_now. told_now ≡ told flags tables.now) }
{
    let facts = facts_of(alloc, tables)?;
    let spent = spent_in(alloc, &facts, tables.groups.as_slice())?;
    let lines = line_differences(alloc, tables, &facts, spent.as_slice())?;
    let groups = group_differences(alloc, tables, &facts)?;
    let file = file_differences(alloc, flags, tables, &facts)?;
    Ok(Told {
        lines,
        groups,
        file,
    })
}
