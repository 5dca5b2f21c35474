//! W17: custom keys of rules that a touch layout lacks.

ghost use Rattle.std.specs.Prelude.{◌≡◌, IfOk};
ghost use Rattle.name_warnings.specs.Laid.{keys_not_laid};

use crate::named::{Concern, add_lacking};
use crate::warning::Warning;
use kmn_base::{Memory, Text};
use rule_model::Program;
use source_uses::{Part, Role, add_words, rule_uses};
use std::alloc::Global;
use store_table::NameTable;

/// Returns W17: a warning at the first rule with each custom key that is not among the ids of the keys of a touch layout. Errors: `Memory`
/// if an allocation fails.
pub fn keys_not_laid(alloc: Global, program: &Program, ids: &[Text]) -> Result<Vec<Warning>, Memory>
    ensures { IfOk result (λ found. found.items ≡ keys_not_laid program.now ids.now) }
{
    let mut known = NameTable::new(alloc);
    add_words(&mut known, ids)?;
    let uses = rule_uses(alloc, Role::OwnKey, Part::Key, program)?;
    let mut found = Vec::new(alloc);
    add_lacking(
        alloc,
        &mut found,
        Concern::KeyNotLaid,
        known,
        uses.as_slice(),
    )?;
    Ok(found)
}
