//! All names of a text, computed from the file: the names of its stores and groups.

ghost use Rattle.std.specs.Prelude.{◌≡◌, [], codes, length, map, IfOk};
ghost use Rattle.rule_model.specs.declared.tables.Group.{Group};
ghost use Rattle.rule_model.specs.declared.tables.Store.{Store};
ghost use Rattle.decompile_program.specs.Back.{free_stores};
ghost use Rattle.decompile_program.specs.Names.{free_names, group_names};
ghost use Rattle.decompile_program.specs.AllNames.{called_by};

use crate::called::Called;
use crate::free_names::free_names;
use crate::naming::{group_names, store_names};
use indexed_tables::IndexedTables;
use kmn_base::{Memory, Text};
use kmx_parts::FileTables;
use rule_model::Store;
use std::alloc::Global;
use store_table::NameTable;

/// Returns the free names for stores: one for each store, and two more.
pub fn free_stores(alloc: Global, file: &FileTables<'_>) -> Result<Vec<Text>, Memory>
    ensures { IfOk result (λ free. free.items ≡ free_stores file.now) }
{
    let count = file.store_count() as usize;
    let taken = names_of_stores(alloc, file)?;
    free_names(alloc, b"s", &taken, count + 2, count + 2 + count)
}

/// Returns the own names of the stores of a file.
fn names_of_stores(alloc: Global, file: &FileTables<'_>) -> Result<NameTable, Memory>
    ensures { IfOk result (λ names. names ≡ map (λ (store : Store). store.name) file.now.stores) }
{
    let mut names = NameTable::new(alloc);
    for store in file.stores() {
        let name = store.name(alloc)?;
        names.push(name.as_slice())?;
    }
    Ok(names)
}

/// Returns the names of the text of a file, given a copy of its stores and the free names that are left for stores.
#[tactic(auto, unfolding(rule_model::specs::Tab::tab))]
pub fn called_by<'a>(
    alloc: Global,
    indexed: &'a IndexedTables<'a>,
    elements: &'a [Store],
    file: &FileTables<'_>,
    free: &[Text],
) -> Result<Called<'a>, Memory>
    requires same { indexed.now.stores ≡ file.now.stores }
    requires stores { elements.now ≡ file.now.stores }
    ensures { IfOk result (λ names. names ≡ called_by file.now free.now) }
{
    let stores = store_names(alloc, free, file, elements)?;
    let groups = called_groups(alloc, file)?;
    Ok(Called {
        tables: indexed,
        elements,
        stores,
        groups,
    })
}

/// Returns the names of the groups of a file.
fn called_groups(alloc: Global, file: &FileTables<'_>) -> Result<Vec<Text>, Memory>
    ensures { IfOk result (λ names. names.items ≡ group_names (free_names (codes "g") (map (λ (group : Group). group.name) file.now.groups) (length file.now.groups)) [] file.now.groups) }
{
    let taken = names_of_groups(alloc, file)?;
    let count = file.group_count() as usize;
    let free = free_names(alloc, b"g", &taken, count, count + count)?;
    group_names(alloc, free.as_slice(), file)
}

/// Returns the own names of the groups of a file.
fn names_of_groups(alloc: Global, file: &FileTables<'_>) -> Result<NameTable, Memory>
    ensures { IfOk result (λ names. names ≡ map (λ (group : Group). group.name) file.now.groups) }
{
    let mut names = NameTable::new(alloc);
    for group in file.groups() {
        let name = group.name(alloc)?;
        names.push(name.as_slice())?;
    }
    Ok(names)
}
