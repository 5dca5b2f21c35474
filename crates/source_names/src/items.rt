//! The causes of items.

ghost use Rattle.std.specs.Prelude.{◌≡◌, ◌++◌, Some, option_copied, option_to_list, slice_get, IfOk, OnOk};
ghost use Rattle.store_table.specs.Names.{store_named, uses_later_store};
ghost use Rattle.source_names.specs.Causes.{broken_if, caused, group_cause, items_caused, no_group, no_store, rule_item_cause, store_item_cause};

use crate::causes::{Cause, NameFault};
use kmn_base::{Code, Memory, Text};
use rule_model::{BeginDef, SrcItem};
use std::alloc::Global;
use store_table::NameTable;

/// Appends a cause at a line, if there is one.
pub fn add_cause(causes: &mut Vec<NameFault>, line: u32, found: Option<Cause>) -> Result<(), Memory>
    ensures { OnOk result (causes.new.items ≡ causes.old.items ++ caused line found) }
{
    match found {
        Some(cause) => {
            causes.push(NameFault { line, cause })?;
            Ok(())
        }
        None => Ok(()),
    }
}

/// Returns the cause of another rule, if it is broken.
pub fn broken_if(broken: bool, code: Code) -> Option<Cause>
    ensures { result ≡ broken_if broken code }
{
    if broken {
        Some(Cause::Broken(code))
    } else {
        None
    }
}

/// Appends the causes of the items of a store at a line, after stores with the names `before`.
pub fn add_store_items(
    alloc: Global,
    causes: &mut Vec<NameFault>,
    stores: &NameTable,
    before: &NameTable,
    line: u32,
    items: &[SrcItem],
) -> Result<(), Memory>
    ensures { OnOk result (causes.new.items ≡ causes.old.items ++ items_caused line (store_item_cause stores.now before.now) items.now) }
{
    for item in items {
        let found = store_item_cause(alloc, stores, before, item)?;
        add_cause(causes, line, found)?;
    }
    Ok(())
}

/// Returns the cause of an item of a store, after stores with the names `before`.
fn store_item_cause(
    alloc: Global,
    stores: &NameTable,
    before: &NameTable,
    item: &SrcItem,
) -> Result<Option<Cause>, Memory>
    ensures { IfOk result (λ found. found ≡ store_item_cause stores.now before.now item.now) }
{
    match no_store(alloc, stores, item)? {
        Some(cause) => Ok(Some(cause)),
        None => Ok(broken_if(uses_later_store(before, item), Code::C07)),
    }
}

/// Returns whether an `outs` or `$` item names a store that is not among these.
fn uses_later_store(before: &NameTable, item: &SrcItem) -> bool
    ensures { result ≡ uses_later_store before.now item.now }
{
    match item {
        SrcItem::Outs(name) => !before.has(name.as_slice()),
        _ => false,
    }
}

/// Appends the causes of items of a rule at a line.
pub fn add_rule_items(
    alloc: Global,
    causes: &mut Vec<NameFault>,
    stores: &NameTable,
    groups: &NameTable,
    line: u32,
    items: &[SrcItem],
) -> Result<(), Memory>
    ensures { OnOk result (causes.new.items ≡ causes.old.items ++ items_caused line (rule_item_cause stores.now groups.now) items.now) }
{
    for item in items {
        let found = rule_item_cause(alloc, stores, groups, item)?;
        add_cause(causes, line, found)?;
    }
    Ok(())
}

/// Appends the cause of the key of a rule at a line.
pub fn add_rule_key(
    alloc: Global,
    causes: &mut Vec<NameFault>,
    stores: &NameTable,
    groups: &NameTable,
    line: u32,
    key: &Option<SrcItem>,
) -> Result<(), Memory>
    ensures { OnOk result (causes.new.items ≡ causes.old.items ++ items_caused line (rule_item_cause stores.now groups.now) (option_to_list key.now)) }
{
    match key {
        Some(item) => {
            let found = rule_item_cause(alloc, stores, groups, item)?;
            add_cause(causes, line, found)
        }
        None => Ok(()),
    }
}

/// Returns the cause of an item of a rule.
fn rule_item_cause(
    alloc: Global,
    stores: &NameTable,
    groups: &NameTable,
    item: &SrcItem,
) -> Result<Option<Cause>, Memory>
    ensures { IfOk result (λ found. found ≡ rule_item_cause stores.now groups.now item.now) }
{
    match no_store(alloc, stores, item)? {
        Some(cause) => Ok(Some(cause)),
        None => no_group(alloc, groups, item),
    }
}

/// Returns the cause of an item that names a store that is not among these.
fn no_store(alloc: Global, stores: &NameTable, item: &SrcItem) -> Result<Option<Cause>, Memory>
    ensures { IfOk result (λ found. found ≡ no_store stores.now item.now) }
{
    let Some(name) = store_named(item) else {
        return Ok(None);
    };
    if stores.has(name.as_slice()) {
        return Ok(None);
    }
    Ok(Some(Cause::NoStore(name.copy(alloc)?)))
}

/// Returns the store that an item names.
fn store_named(item: &SrcItem) -> Option<&Text>
    ensures { option_copied result ≡ slice_get (store_named item.now) 0 }
{
    match item {
        SrcItem::Any(name) => Some(name),
        SrcItem::NotAny(name) => Some(name),
        SrcItem::Index(name, _) => Some(name),
        SrcItem::Equal(name, _) => Some(name),
        SrcItem::Unequal(name, _) => Some(name),
        SrcItem::Outs(name) => Some(name),
        SrcItem::Set(name, _) => Some(name),
        SrcItem::Save(name) => Some(name),
        SrcItem::Reset(name) => Some(name),
        _ => None,
    }
}

/// Returns the cause of an item that names a group that is not among these.
fn no_group(alloc: Global, groups: &NameTable, item: &SrcItem) -> Result<Option<Cause>, Memory>
    ensures { IfOk result (λ found. found ≡ no_group groups.now item.now) }
{
    match item {
        SrcItem::Enter(name) => missing_group(alloc, groups, name),
        _ => Ok(None),
    }
}

/// Returns the cause of a begin statement whose group is not among these.
pub fn no_start(
    alloc: Global,
    groups: &NameTable,
    start: &BeginDef,
) -> Result<Option<Cause>, Memory>
    ensures { IfOk result (λ found. found ≡ group_cause groups.now (Some start.now.group)) }
{
    missing_group(alloc, groups, &start.group)
}

/// Returns the cause of a group name that is not among these.
fn missing_group(alloc: Global, groups: &NameTable, name: &Text) -> Result<Option<Cause>, Memory>
    ensures { IfOk result (λ found. found ≡ group_cause groups.now (Some name.now)) }
{
    if groups.has(name.as_slice()) {
        return Ok(None);
    }
    Ok(Some(Cause::NoGroup(name.copy(alloc)?)))
}
