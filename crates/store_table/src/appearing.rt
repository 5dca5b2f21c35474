//! The names of marks and keys by first appearance, over stores and rules in the order of their lines.

ghost use Rattle.std.specs.Prelude.{◌≡◌, ◌++◌, List, [], flat_map, IfOk, OnOk, option_to_list};
ghost use Rattle.rule_model.specs.declared.program.GroupDef.{GroupDef};
ghost use Rattle.rule_model.specs.declared.program.RuleDef.{RuleDef};
ghost use Rattle.rule_model.specs.Naming.{items_from, rule_items, source_items, store_items, stores_after, stores_before};
ghost use Rattle.store_table.specs.Numbering.{none_appeared, with_item, with_items, with_key};

use crate::by_line::parted_by_line;
use crate::name_table::NameTable;
use kmn_base::Memory;
use rule_model::{GroupDef, Program, RuleDef, SrcItem, StoreDef};
use std::alloc::Global;
use virtual_keys::KeyDictionary;

/// The names that appeared so far.
#[derive(Drop)]
pub struct Appeared {
    pub marks: NameTable,
    pub keys: KeyDictionary,
}

/// Returns the names of marks and keys that appear in a program. Errors: `Memory` if an allocation fails.
pub fn appeared_names(alloc: Global, program: &Program) -> Result<Appeared, Memory>
    ensures { IfOk result (λ appeared. appeared ≡ with_items none_appeared (source_items program.now)) }
{
    let mut appeared = Appeared {
        marks: NameTable::new(alloc),
        keys: KeyDictionary::new(alloc),
    };
    add_all(
        &mut appeared,
        program.stores.as_slice(),
        program.groups.as_slice(),
    )?;
    Ok(appeared)
}

/// Adds the names in all statements.
fn add_all(appeared: &mut Appeared, stores: &[StoreDef], groups: &[GroupDef]) -> Result<(), Memory>
    ensures { OnOk result (appeared.new ≡ with_items appeared.old (items_from stores.now (flat_map (λ (group : GroupDef). group.rules) groups.now))) }
{
    let mut waiting = stores;
    for group in groups {
        waiting = add_group(appeared, waiting, group.rules.as_slice())?;
    }
    add_stores(appeared, waiting)
}

/// Adds the names in the rules of a group, each after the stores before it, and returns the other stores.
#[tactic(auto, using(crate::proofs::ByAppearance::next_rule))]
fn add_group<'a>(
    appeared: &mut Appeared,
    stores: &'a [StoreDef],
    rules: &[RuleDef],
) -> Result<&'a [StoreDef], Memory>
    ensures { OnOk result (IfOk result (λ rest. (more : List RuleDef) → with_items appeared.new (items_from rest.now more) ≡ with_items appeared.old (items_from stores.now (rules.now ++ more)))) }
{
    let mut waiting = stores;
    for rule in rules {
        waiting = add_before(appeared, waiting, rule.line)?;
        add_rule(appeared, rule)?;
    }
    Ok(waiting)
}

/// Adds the names in the stores before a line, and returns the other stores.
fn add_before<'a>(
    appeared: &mut Appeared,
    stores: &'a [StoreDef],
    line: u32,
) -> Result<&'a [StoreDef], Memory>
    ensures rest { IfOk result (λ rest. rest.now ≡ stores_after line stores.now) }
    ensures added { OnOk result (appeared.new ≡ with_items appeared.old (store_items (stores_before line stores.now))) }
{
    let (before, others) = parted_by_line(stores, line);
    add_stores(appeared, before)?;
    Ok(others)
}

/// Adds the names in the items of stores.
#[tactic(auto, using(crate::proofs::ByAppearance::next_store))]
fn add_stores(appeared: &mut Appeared, stores: &[StoreDef]) -> Result<(), Memory>
    ensures { OnOk result (appeared.new ≡ with_items appeared.old (store_items stores.now)) }
{
    for store in stores {
        add_items(appeared, store.items.as_slice())?;
    }
    Ok(())
}

/// Adds the names in items.
fn add_items(appeared: &mut Appeared, items: &[SrcItem]) -> Result<(), Memory>
    ensures { OnOk result (appeared.new ≡ with_items appeared.old items.now) }
{
    for item in items {
        add_item(appeared, item)?;
    }
    Ok(())
}

/// Adds the names in an item.
fn add_item(appeared: &mut Appeared, item: &SrcItem) -> Result<(), Memory>
    ensures { OnOk result (appeared.new ≡ with_item appeared.old item.now) }
{
    match item {
        SrcItem::Dead(name) => appeared.marks.add_new(name.as_slice()),
        SrcItem::Key(key) => {
            if key.code == 0 {
                add_key(&mut appeared.keys, key.name.as_slice())
            } else {
                Ok(())
            }
        }
        _ => Ok(()),
    }
}

/// Adds the name of a key, if there is a code left. Errors: `Memory` if an allocation fails.
fn add_key(keys: &mut KeyDictionary, name: &[u8]) -> Result<(), Memory>
    ensures { OnOk result (keys.new ≡ with_key keys.old name.now) }
{
    if !keys.is_full() {
        keys.add(name)?;
    }
    Ok(())
}

/// Adds the names in the items of a rule.
#[tactic(auto, using(crate::proofs::ByAppearance::items_append))]
fn add_rule(appeared: &mut Appeared, rule: &RuleDef) -> Result<(), Memory>
    ensures { OnOk result (appeared.new ≡ with_items appeared.old (rule_items rule.now)) }
{
    add_items(appeared, rule.context.as_slice())?;
    add_rule_key(appeared, &rule.key)?;
    add_items(appeared, rule.output.as_slice())
}

/// Adds the names in the key of a rule.
fn add_rule_key(appeared: &mut Appeared, key: &Option<SrcItem>) -> Result<(), Memory>
    ensures { OnOk result (appeared.new ≡ with_items appeared.old (option_to_list key.now)) }
{
    match key {
        Some(item) => add_item(appeared, item),
        None => Ok(()),
    }
}
