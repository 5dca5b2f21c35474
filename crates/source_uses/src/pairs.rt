//! Each `index` with the `any` whose place it takes.

ghost use Rattle.std.specs.Prelude.{◌≡◌, ◌++◌, [], flat_map, IfOk, OnOk};
ghost use Rattle.std.specs.Option.{option_copied};
ghost use Rattle.source_uses.specs.Pairs.{any_named, distinct_pairs, item_pairs, items_pairs, new_pairs, pair_name, paired, pointed, program_pairs, rule_pairs};

use kmn_base::{Memory, Text};
use rule_model::{GroupDef, Program, RuleDef, SrcItem};
use std::alloc::Global;
use store_table::NameTable;

/// The store of an `index` and the store of the `any` whose place it takes, in a rule at a line. Lines count from 1.
#[derive(Drop)]
pub struct Pair {
    pub line: u32,
    pub index: Text,
    pub any: Text,
}

impl Pair {
    /// Returns the same pair. Errors: `Memory` if an allocation fails.
    pub fn copy(&self, alloc: Global) -> Result<Pair, Memory>
        ensures { IfOk result (λ copy. copy ≡ self.now) }
    {
        let index = self.index.copy(alloc)?;
        let any = self.any.copy(alloc)?;
        Ok(Pair {
            line: self.line,
            index,
            any,
        })
    }
}

/// Returns each `index` of a program with its `any`, in the order of the statements, without the stores that are options. Errors: `Memory`
/// if an allocation fails.
pub fn index_pairs(
    alloc: Global,
    options: &NameTable,
    program: &Program,
) -> Result<Vec<Pair>, Memory>
    ensures { IfOk result (λ pairs. pairs.items ≡ program_pairs options.now program.now) }
{
    let mut pairs = Vec::new(alloc);
    for group in program.groups.as_slice() {
        add_group_pairs(alloc, options, &mut pairs, group.rules.as_slice())?;
    }
    Ok(pairs)
}

/// Appends the pairs of the statements of a group.
fn add_group_pairs(
    alloc: Global,
    options: &NameTable,
    pairs: &mut Vec<Pair>,
    rules: &[RuleDef],
) -> Result<(), Memory>
    ensures { OnOk result (pairs.new.items ≡ pairs.old.items ++ flat_map (rule_pairs options.now) rules.now) }
{
    for rule in rules {
        add_rule_pairs(alloc, options, pairs, rule)?;
    }
    Ok(())
}

/// Appends the pairs of a statement.
fn add_rule_pairs(
    alloc: Global,
    options: &NameTable,
    pairs: &mut Vec<Pair>,
    rule: &RuleDef,
) -> Result<(), Memory>
    ensures { OnOk result (pairs.new.items ≡ pairs.old.items ++ rule_pairs options.now rule.now) }
{
    add_items_pairs(alloc, options, pairs, rule, rule.context.as_slice())?;
    add_items_pairs(alloc, options, pairs, rule, rule.output.as_slice())
}

/// Appends the pairs of items of a statement.
fn add_items_pairs(
    alloc: Global,
    options: &NameTable,
    pairs: &mut Vec<Pair>,
    rule: &RuleDef,
    items: &[SrcItem],
) -> Result<(), Memory>
    ensures { OnOk result (pairs.new.items ≡ pairs.old.items ++ items_pairs options.now rule.now items.now) }
{
    for item in items {
        add_item_pair(alloc, options, pairs, rule, item)?;
    }
    Ok(())
}

/// Appends the pair of an item of a statement, if it is an `index` at an `any`.
fn add_item_pair(
    alloc: Global,
    options: &NameTable,
    pairs: &mut Vec<Pair>,
    rule: &RuleDef,
    item: &SrcItem,
) -> Result<(), Memory>
    ensures { OnOk result (pairs.new.items ≡ pairs.old.items ++ item_pairs options.now rule.now item.now) }
{
    match item {
        SrcItem::Index(store, offset) => add_pair(
            alloc,
            options,
            pairs,
            rule.line,
            store,
            any_named(pointed(rule, *offset)),
        ),
        _ => Ok(()),
    }
}

/// Appends the pair of an `index` with an `any`, if there is one and no store is an option.
fn add_pair(
    alloc: Global,
    options: &NameTable,
    pairs: &mut Vec<Pair>,
    line: u32,
    index: &Text,
    any: Option<&Text>,
) -> Result<(), Memory>
    ensures { OnOk result (pairs.new.items ≡ pairs.old.items ++ paired options.now line index.now (option_copied any.entry)) }
{
    let Some(any) = any else {
        return Ok(());
    };
    if options.has(index.as_slice()) || options.has(any.as_slice()) {
        return Ok(());
    }
    let index = index.copy(alloc)?;
    let any = any.copy(alloc)?;
    pairs.push(Pair { line, index, any })?;
    Ok(())
}

/// Returns the store of an item, if it is an `any`.
fn any_named(item: Option<&SrcItem>) -> Option<&Text>
    ensures { option_copied result ≡ any_named (option_copied item.entry) }
{
    match item {
        Some(SrcItem::Any(store)) => Some(store),
        _ => None,
    }
}

/// Returns the item that an offset in a rule refers to: an item of the context, from 1, or the key after the last.
fn pointed(rule: &RuleDef, offset: u32) -> Option<&SrcItem>
    ensures { option_copied result ≡ pointed rule.now offset }
{
    let place = offset.checked_sub(1)? as usize;
    if place == rule.context.len() {
        rule.key.as_ref()
    } else {
        rule.context.as_slice().get(place)
    }
}

/// Returns the pairs whose `index` is not in a table, of each `index` the first. Errors: `Memory` if an allocation fails.
pub fn new_pairs(alloc: Global, mut known: NameTable, pairs: &[Pair]) -> Result<Vec<Pair>, Memory>
    ensures { IfOk result (λ new. new.items ≡ new_pairs known pairs.now) }
{
    let mut new = Vec::new(alloc);
    for pair in pairs {
        if !known.has(pair.index.as_slice()) {
            known.push(pair.index.as_slice())?;
            new.push(pair.copy(alloc)?)?;
        }
    }
    Ok(new)
}

/// Returns the pairs of which no earlier one has the same two stores. Errors: `Memory` if an allocation fails.
pub fn distinct_pairs(alloc: Global, pairs: &[Pair]) -> Result<Vec<Pair>, Memory>
    ensures { IfOk result (λ new. new.items ≡ distinct_pairs [] pairs.now) }
{
    let mut known = NameTable::new(alloc);
    let mut new = Vec::new(alloc);
    for pair in pairs {
        let name = pair_name(alloc, pair)?;
        if !known.has(name.as_slice()) {
            known.push(name.as_slice())?;
            new.push(pair.copy(alloc)?)?;
        }
    }
    Ok(new)
}

/// Returns the names of the two stores of a pair, with a comma between them.
#[tactic(auto, unfolding(crate::specs::Pairs::pair_name))]
fn pair_name(alloc: Global, pair: &Pair) -> Result<Text, Memory>
    ensures { IfOk result (λ name. name ≡ pair_name pair.now) }
{
    let mut name = pair.index.copy(alloc)?;
    name.extend_from_slice(b",")?;
    name.extend_from_slice(pair.any.as_slice())?;
    Ok(name)
}
