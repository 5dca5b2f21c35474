//! The causes of all statements.

ghost use Rattle.std.specs.Prelude.{◌≡◌, ◌++◌, ◌||◌, if◌then◌else◌, [], flat_map, IfOk, OnOk};
ghost use Rattle.rule_model.specs.Src.{is_on_match, is_on_nomatch};
ghost use Rattle.store_table.specs.Names.{is_group_again, is_second, is_store_again};
ghost use Rattle.source_names.specs.Causes.{begin_causes, begin_faults, causes_with, each_of, group_causes, group_faults, name_causes, rule_causes, rule_faults, rules_faults, store_causes, store_faults};

use crate::causes::NameFault;
use crate::items::{add_cause, add_rule_items, add_rule_key, add_store_items, broken_if, no_start};
use crate::stating::{add_store, group_names, store_names};
use kmn_base::{Code, Memory};
use rule_model::{BeginDef, GroupDef, Program, RuleDef, RuleKind, StoreDef};
use std::alloc::Global;
use store_table::NameTable;

/// Returns all causes for which names refuse the statements of a program. Errors: `Memory` if an allocation fails.
#[tactic(auto, unfolding(crate::specs::Causes::name_causes))]
pub fn name_causes(alloc: Global, program: &Program) -> Result<Vec<NameFault>, Memory>
    ensures { IfOk result (λ causes. causes.items ≡ name_causes program.now) }
{
    let stores = store_names(alloc, program.stores.as_slice())?;
    let groups = group_names(alloc, program.groups.as_slice())?;
    causes_with(alloc, &stores, &groups, program)
}

/// Returns all causes of a program that defines these names.
fn causes_with(
    alloc: Global,
    stores: &NameTable,
    groups: &NameTable,
    program: &Program,
) -> Result<Vec<NameFault>, Memory>
    ensures { IfOk result (λ causes. causes.items ≡ causes_with stores.now groups.now program.now) }
{
    let mut causes = Vec::new(alloc);
    add_begins(alloc, &mut causes, groups, program.begins.as_slice())?;
    add_stores(alloc, &mut causes, stores, program.stores.as_slice())?;
    add_groups(alloc, &mut causes, program.groups.as_slice())?;
    add_all_rules(
        alloc,
        &mut causes,
        stores,
        groups,
        program.groups.as_slice(),
    )?;
    Ok(causes)
}

/// Appends the causes of begin statements.
#[tactic(auto, using(crate::proofs::Each::each_kept, store_table::proofs::Firsts::any_step))]
fn add_begins(
    alloc: Global,
    causes: &mut Vec<NameFault>,
    groups: &NameTable,
    begins: &[BeginDef],
) -> Result<(), Memory>
    ensures { OnOk result (causes.new.items ≡ causes.old.items ++ each_of (begin_faults groups.now) [] begins.now) }
{
    let mut unicode = false;
    let mut ansi = false;
    for start in begins {
        add_begin(alloc, causes, groups, is_begun(start, unicode, ansi), start)?;
        unicode = either(unicode, start.unicode);
        ansi = either(ansi, !start.unicode);
    }
    Ok(())
}

/// Returns whether an earlier begin statement has the same kind.
fn is_begun(start: &BeginDef, unicode: bool, ansi: bool) -> bool
    ensures { result ≡ (if start.now.unicode then unicode else ansi) }
{
    if start.unicode { unicode } else { ansi }
}

/// Returns whether one of two conditions is true.
fn either(one: bool, other: bool) -> bool
    ensures { result ≡ (one || other) }
{
    one || other
}

/// Appends the causes of a begin statement, which may be the second of its kind.
#[tactic(auto, unfolding(crate::specs::Causes::begin_causes))]
fn add_begin(
    alloc: Global,
    causes: &mut Vec<NameFault>,
    groups: &NameTable,
    again: bool,
    start: &BeginDef,
) -> Result<(), Memory>
    ensures { OnOk result (causes.new.items ≡ causes.old.items ++ begin_causes groups.now again start.now) }
{
    add_cause(causes, start.line, broken_if(again, Code::C02))?;
    let found = no_start(alloc, groups, start)?;
    add_cause(causes, start.line, found)
}

/// Appends the causes of store statements.
#[tactic(auto, using(crate::proofs::Each::each_kept, store_table::proofs::Firsts::names_step))]
fn add_stores(
    alloc: Global,
    causes: &mut Vec<NameFault>,
    stores: &NameTable,
    statements: &[StoreDef],
) -> Result<(), Memory>
    ensures { OnOk result (causes.new.items ≡ causes.old.items ++ each_of (store_faults stores.now) [] statements.now) }
{
    let mut before = NameTable::new(alloc);
    for store in statements {
        add_store_causes(alloc, causes, stores, &before, store)?;
        add_store(&mut before, store)?;
    }
    Ok(())
}

/// Appends the causes of a store statement, after stores with the names `before`.
#[tactic(auto, unfolding(crate::specs::Causes::store_causes))]
fn add_store_causes(
    alloc: Global,
    causes: &mut Vec<NameFault>,
    stores: &NameTable,
    before: &NameTable,
    store: &StoreDef,
) -> Result<(), Memory>
    ensures { OnOk result (causes.new.items ≡ causes.old.items ++ store_causes stores.now before.now store.now) }
{
    let again = is_store_again(before, store);
    add_cause(causes, store.line, broken_if(again, Code::C03))?;
    add_store_items(
        alloc,
        causes,
        stores,
        before,
        store.line,
        store.items.as_slice(),
    )
}

/// Returns whether the name of an ordinary store is among those before it.
fn is_store_again(before: &NameTable, store: &StoreDef) -> bool
    ensures { result ≡ is_store_again before.now store.now }
{
    store.system == 0 && before.has(store.name.as_slice())
}

/// Appends the causes of group statements.
#[tactic(auto, using(crate::proofs::Each::each_kept, store_table::proofs::Firsts::groups_step))]
fn add_groups(alloc: Global, causes: &mut Vec<NameFault>, groups: &[GroupDef]) -> Result<(), Memory>
    ensures { OnOk result (causes.new.items ≡ causes.old.items ++ each_of group_faults [] groups.now) }
{
    let mut before = NameTable::new(alloc);
    for group in groups {
        add_group(causes, &before, group)?;
        before.push(group.name.as_slice())?;
    }
    Ok(())
}

/// Appends the cause of a group statement, after groups with the names `before`.
#[tactic(auto, unfolding(crate::specs::Causes::group_causes))]
fn add_group(
    causes: &mut Vec<NameFault>,
    before: &NameTable,
    group: &GroupDef,
) -> Result<(), Memory>
    ensures { OnOk result (causes.new.items ≡ causes.old.items ++ group_causes before.now group.now) }
{
    let again = is_group_again(before, group);
    add_cause(causes, group.line, broken_if(again, Code::C04))
}

/// Returns whether the name of a group is among those before it.
fn is_group_again(before: &NameTable, group: &GroupDef) -> bool
    ensures { result ≡ is_group_again before.now group.now }
{
    before.has(group.name.as_slice())
}

/// Appends the causes of the statements of all groups.
fn add_all_rules(
    alloc: Global,
    causes: &mut Vec<NameFault>,
    stores: &NameTable,
    groups: &NameTable,
    statements: &[GroupDef],
) -> Result<(), Memory>
    ensures { OnOk result (causes.new.items ≡ causes.old.items ++ flat_map (rules_faults stores.now groups.now) statements.now) }
{
    for group in statements {
        add_rules(alloc, causes, stores, groups, group.rules.as_slice())?;
    }
    Ok(())
}

/// Appends the causes of the statements of a group.
#[tactic(auto, using(crate::proofs::Each::each_kept, store_table::proofs::Firsts::any_step))]
fn add_rules(
    alloc: Global,
    causes: &mut Vec<NameFault>,
    stores: &NameTable,
    groups: &NameTable,
    rules: &[RuleDef],
) -> Result<(), Memory>
    ensures { OnOk result (causes.new.items ≡ causes.old.items ++ each_of (rule_faults stores.now groups.now) [] rules.now) }
{
    let mut matched = false;
    let mut unmatched = false;
    for rule in rules {
        add_rule(
            alloc,
            causes,
            stores,
            groups,
            is_second(rule, matched, unmatched),
            rule,
        )?;
        matched = either(matched, is_match(rule));
        unmatched = either(unmatched, is_nomatch(rule));
    }
    Ok(())
}

/// Returns whether a statement is the second match or nomatch, given whether there is a match and whether there is a nomatch before it.
fn is_second(rule: &RuleDef, matched: bool, unmatched: bool) -> bool
    ensures { result ≡ is_second matched unmatched rule.now.kind }
{
    match rule.kind {
        RuleKind::Plain => false,
        RuleKind::OnMatch => matched,
        RuleKind::OnNoMatch => unmatched,
    }
}

/// Returns whether a statement is a match statement.
fn is_match(rule: &RuleDef) -> bool
    ensures { result ≡ is_on_match rule.now }
{
    match rule.kind {
        RuleKind::OnMatch => true,
        _ => false,
    }
}

/// Returns whether a statement is a nomatch statement.
fn is_nomatch(rule: &RuleDef) -> bool
    ensures { result ≡ is_on_nomatch rule.now }
{
    match rule.kind {
        RuleKind::OnNoMatch => true,
        _ => false,
    }
}

/// Appends the causes of a rule, match or nomatch statement, which may be the second of its kind in its group.
#[tactic(auto, using(crate::proofs::Each::items_append), unfolding(crate::specs::Causes::rule_causes))]
fn add_rule(
    alloc: Global,
    causes: &mut Vec<NameFault>,
    stores: &NameTable,
    groups: &NameTable,
    again: bool,
    rule: &RuleDef,
) -> Result<(), Memory>
    ensures { OnOk result (causes.new.items ≡ causes.old.items ++ rule_causes stores.now groups.now again rule.now) }
{
    add_cause(causes, rule.line, broken_if(again, Code::C15))?;
    add_rule_items(
        alloc,
        causes,
        stores,
        groups,
        rule.line,
        rule.context.as_slice(),
    )?;
    add_rule_key(alloc, causes, stores, groups, rule.line, &rule.key)?;
    add_rule_items(
        alloc,
        causes,
        stores,
        groups,
        rule.line,
        rule.output.as_slice(),
    )
}
