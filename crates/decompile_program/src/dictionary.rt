//! The names of the custom keys of tables.

ghost use Rattle.std.specs.Prelude.{◌≡◌, ◌≤◌, IfOk, length};
ghost use Rattle.kmn_base.specs.declared.limits.TheConstants.{KEY_NAMES};
ghost use Rattle.rule_model.specs.Tab.{tab};

use indexed_tables::IndexedTables;
use kmn_base::limits::KEY_NAMES;
use kmn_base::{Memory, Text};
use std::alloc::Global;
use virtual_keys::FIRST_OWN_CODE;

/// Returns the names of the custom keys of tables. There are at most as many names as codes.
#[tactic(auto, using(crate::proofs::OwnNames::next_name, crate::proofs::OwnNames::all_names, crate::proofs::OwnNames::names_ended))]
pub fn own_keys(alloc: Global, tables: &IndexedTables<'_>) -> Result<Vec<Text>, Memory>
    requires { length (tab tables.now).dictionary ≤ KEY_NAMES }
    ensures { IfOk result (λ keys. keys.items ≡ (tab tables.now).dictionary) }
{
    let mut keys = Vec::new(alloc);
    for place in 0..KEY_NAMES {
        let Some(name) = tables.own_key(FIRST_OWN_CODE + place as u16) else {
            return Ok(keys);
        };
        keys.push(Text::from_slice(alloc, name)?)?;
    }
    Ok(keys)
}
