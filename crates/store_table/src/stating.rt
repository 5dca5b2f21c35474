//! The names that a program defines.

ghost use Rattle.std.specs.Prelude.{◌≡◌, ◌++◌, [], ◌∷◌, IfOk, OnOk};
ghost use Rattle.store_table.specs.Names.{group_names, stated, store_names};

use crate::name_table::NameTable;
use kmn_base::Memory;
use rule_model::system::DROPPED;
use rule_model::{GroupDef, Program, StoreDef};
use std::alloc::Global;

/// The names of all stores and groups that a program defines, in order.
#[derive(Drop)]
pub struct Stated {
    pub stores: NameTable,
    pub groups: NameTable,
}

/// Appends the name of a store, unless the statement is dropped.
pub fn add_store(names: &mut NameTable, store: &StoreDef) -> Result<(), Memory>
    ensures { OnOk result (names.new ≡ names.old ++ store_names (store.now ∷ [])) }
{
    if store.system == DROPPED {
        Ok(())
    } else {
        names.push(store.name.as_slice())
    }
}

/// Returns the names that a program defines. Errors: `Memory` if an allocation fails.
pub fn stated_names(alloc: Global, program: &Program) -> Result<Stated, Memory>
    ensures { IfOk result (λ names. names ≡ stated program.now) }
{
    let stores = store_names(alloc, program.stores.as_slice())?;
    let groups = group_names(alloc, program.groups.as_slice())?;
    Ok(Stated { stores, groups })
}

/// Returns the names of stores. Errors: `Memory` if an allocation fails.
#[tactic(auto, using(crate::proofs::Firsts::names_step))]
fn store_names(alloc: Global, stores: &[StoreDef]) -> Result<NameTable, Memory>
    ensures { IfOk result (λ names. names ≡ store_names stores.now) }
{
    let mut names = NameTable::new(alloc);
    for store in stores {
        add_store(&mut names, store)?;
    }
    Ok(names)
}

/// Returns the names of groups. Errors: `Memory` if an allocation fails.
#[tactic(auto, using(crate::proofs::Firsts::groups_step))]
fn group_names(alloc: Global, groups: &[GroupDef]) -> Result<NameTable, Memory>
    ensures { IfOk result (λ names. names ≡ group_names groups.now) }
{
    let mut names = NameTable::new(alloc);
    for group in groups {
        names.push(group.name.as_slice())?;
    }
    Ok(names)
}
