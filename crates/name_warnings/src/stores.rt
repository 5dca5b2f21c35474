//! W01 and W16: stores that are used nowhere, and system stores that are stated again.

ghost use Rattle.std.specs.Prelude.{◌≡◌, ◌++◌, [], OnOk, IfOk};
ghost use Rattle.name_warnings.specs.Stores.{is_supported_system, second_system, second_systems, unused_stores, used_names};

use crate::named::{Concern, add_lacking};
use crate::warning::{Warning, WarningKind};
use kmn_base::{LineSet, Memory, Text};
use rule_model::system::DROPPED;
use rule_model::{Program, StoreDef};
use source_uses::{Part, Role, add_names, add_words, rule_uses, stated_stores, store_uses};
use std::alloc::Global;
use store_table::NameTable;

/// Appends W01: a warning at each ordinary store that no statement uses, unless its name is among `aside`.
pub fn add_unused_stores(
    alloc: Global,
    found: &mut Vec<Warning>,
    program: &Program,
    aside: &[Text],
) -> Result<(), Memory>
    ensures { OnOk result (found.new.items ≡ found.old.items ++ unused_stores program.now aside.now) }
{
    let mut used = used_names(alloc, program)?;
    add_words(&mut used, aside)?;
    let stores = stated_stores(alloc, program.stores.as_slice())?;
    add_lacking(alloc, found, Concern::UnusedStore, used, stores.as_slice())
}

/// Returns the names of the stores that statements use.
fn used_names(alloc: Global, program: &Program) -> Result<NameTable, Memory>
    ensures { IfOk result (λ names. names ≡ used_names program.now) }
{
    let mut used = NameTable::new(alloc);
    let in_stores = store_uses(alloc, Role::Store, program.stores.as_slice())?;
    add_names(&mut used, in_stores.as_slice())?;
    let in_rules = rule_uses(alloc, Role::Store, Part::Whole, program)?;
    add_names(&mut used, in_rules.as_slice())?;
    Ok(used)
}

/// Appends W16: a warning at each statement of a system store that is stated before.
pub fn add_second_systems(
    alloc: Global,
    found: &mut Vec<Warning>,
    stores: &[StoreDef],
) -> Result<(), Memory>
    ensures { OnOk result (found.new.items ≡ found.old.items ++ second_systems [] stores.now) }
{
    let mut seen = LineSet::new(alloc);
    for store in stores {
        add_second_system(found, &seen, store)?;
        seen.add(store.system)?;
    }
    Ok(())
}

/// Appends a warning at a statement of a system store that is among those stated before.
fn add_second_system(
    found: &mut Vec<Warning>,
    seen: &LineSet,
    store: &StoreDef,
) -> Result<(), Memory>
    ensures { OnOk result (found.new.items ≡ found.old.items ++ second_system seen.now store.now) }
{
    if is_supported_system(store) && seen.has(store.system) {
        found.push(Warning {
            line: store.line,
            kind: WarningKind::SecondSystemStore,
        })?;
    }
    Ok(())
}

/// Returns whether a statement is of a system store that is not read and dropped.
fn is_supported_system(store: &StoreDef) -> bool
    ensures { result ≡ is_supported_system store.now }
{
    store.system != 0 && store.system != DROPPED
}
