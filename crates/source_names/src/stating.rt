//! The names that statements define.

ghost use Rattle.std.specs.Prelude.{◌≡◌, ◌++◌, [], ◌∷◌, IfOk, OnOk};
ghost use Rattle.store_table.specs.Names.{group_names, store_names};

use kmn_base::Memory;
use rule_model::system::DROPPED;
use rule_model::{GroupDef, StoreDef};
use std::alloc::Global;
use store_table::NameTable;

/// Returns the names of stores, without those that are read and dropped. Errors: `Memory` if an allocation fails.
#[tactic(auto, using(store_table::proofs::Firsts::names_step))]
pub fn store_names(alloc: Global, stores: &[StoreDef]) -> Result<NameTable, Memory>
    ensures { IfOk result (λ names. names ≡ store_names stores.now) }
{
    let mut names = NameTable::new(alloc);
    for store in stores {
        add_store(&mut names, store)?;
    }
    Ok(names)
}

/// Appends the name of a store, unless the statement is dropped. Errors: `Memory` if an allocation fails.
pub fn add_store(names: &mut NameTable, store: &StoreDef) -> Result<(), Memory>
    ensures { OnOk result (names.new ≡ names.old ++ store_names (store.now ∷ [])) }
{
    if store.system == DROPPED {
        Ok(())
    } else {
        names.push(store.name.as_slice())
    }
}

/// Returns the names of groups. Errors: `Memory` if an allocation fails.
#[tactic(auto, using(store_table::proofs::Firsts::groups_step))]
pub fn group_names(alloc: Global, groups: &[GroupDef]) -> Result<NameTable, Memory>
    ensures { IfOk result (λ names. names ≡ group_names groups.now) }
{
    let mut names = NameTable::new(alloc);
    for group in groups {
        names.push(group.name.as_slice())?;
    }
    Ok(names)
}
