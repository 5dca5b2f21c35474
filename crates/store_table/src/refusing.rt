//! The refusals for a program's names.

ghost use Rattle.std.specs.Prelude.{◌≡◌, IfOk, [], ◌||◌, option_to_list, if◌then◌else◌};
ghost use Rattle.rule_model.specs.Src.{is_on_match, is_on_nomatch};
ghost use Rattle.store_table.specs.First.{first_code, first_of};
ghost use Rattle.store_table.specs.Names.{begin_code, begin_refusal, group_code, group_refusal, is_second, is_store_again, lacks, names_refusal, uses_later_store, rule_code, rule_item_code, rule_refusal, rules_refusal, stated, store_code, store_item_code, store_named, store_refusal, group_named};

use crate::first::{at_line, earlier};
use crate::name_table::NameTable;
use crate::stating::{Stated, add_store};
use kmn_base::{Code, Memory, Refusal};
use rule_model::{BeginDef, GroupDef, Program, RuleDef, RuleKind, SrcItem, StoreDef};
use std::alloc::Global;

/// Returns the first refusal for names. Errors: `Memory` if an allocation fails.
#[tactic(auto, unfolding(crate::specs::Names::names_refusal))]
pub fn names_refusal(
    alloc: Global,
    names: &Stated,
    program: &Program,
) -> Result<Option<Refusal>, Memory>
    requires { names.now ≡ stated program.now }
    ensures { IfOk result (λ refusal. refusal ≡ names_refusal program.now) }
{
    let begins = begins_refusal(names, program.begins.as_slice());
    let stores = stores_refusal(alloc, names, program.stores.as_slice())?;
    let groups = groups_refusal(alloc, program.groups.as_slice())?;
    let rules = all_rules_refusal(names, program.groups.as_slice());
    Ok(earlier(begins, earlier(stores, earlier(groups, rules))))
}

/// Returns the first refusal of begin statements.
#[tactic(auto, using(crate::proofs::Firsts::first_kept, crate::proofs::Firsts::any_step))]
fn begins_refusal(stated: &Stated, begins: &[BeginDef]) -> Option<Refusal>
    ensures { result ≡ first_of (begin_refusal stated.now) [] begins.now }
{
    let mut unicode = false;
    let mut ansi = false;
    let mut first = None;
    for start in begins {
        let again = is_begun(start, unicode, ansi);
        let found = at_line(start.line, begin_code(stated, again, start));
        first = earlier(first, found);
        unicode = either(unicode, start.unicode);
        ansi = either(ansi, !start.unicode);
    }
    first
}

/// Returns whether an earlier begin statement has the same kind.
pub fn is_begun(start: &BeginDef, unicode: bool, ansi: bool) -> bool
    ensures { result ≡ (if start.now.unicode then unicode else ansi) }
{
    if start.unicode { unicode } else { ansi }
}

/// Returns the rule that a begin statement breaks.
pub fn begin_code(stated: &Stated, again: bool, start: &BeginDef) -> Option<Code>
    ensures { result ≡ begin_code stated.now again start.now }
{
    if again {
        Some(Code::C02)
    } else if !stated.groups.has(start.group.as_slice()) {
        Some(Code::C06)
    } else {
        None
    }
}

/// Returns whether one of two conditions is true.
pub fn either(one: bool, other: bool) -> bool
    ensures { result ≡ (one || other) }
{
    one || other
}

/// Returns the first refusal of store statements. Errors: `Memory` if an allocation fails.
#[tactic(auto, using(crate::proofs::Firsts::first_kept, crate::proofs::Firsts::names_step))]
fn stores_refusal(
    alloc: Global,
    stated: &Stated,
    stores: &[StoreDef],
) -> Result<Option<Refusal>, Memory>
    ensures { IfOk result (λ refusal. refusal ≡ first_of (store_refusal stated.now) [] stores.now) }
{
    let mut before = NameTable::new(alloc);
    let mut first = None;
    for store in stores {
        let found = at_line(store.line, store_code(stated, &before, store));
        first = earlier(first, found);
        add_store(&mut before, store)?;
    }
    Ok(first)
}

/// Returns the rule that a store statement breaks, after stores with these names.
pub fn store_code(stated: &Stated, before: &NameTable, store: &StoreDef) -> Option<Code>
    ensures { result ≡ store_code stated.now before.now store.now }
{
    if is_store_again(before, store) {
        Some(Code::C03)
    } else {
        store_items_code(stated, before, store.items.as_slice())
    }
}

/// Returns whether the name of an ordinary store is among those before it.
fn is_store_again(before: &NameTable, store: &StoreDef) -> bool
    ensures { result ≡ is_store_again before.now store.now }
{
    store.system == 0 && before.has(store.name.as_slice())
}

/// Returns the first code of the items of a store.
fn store_items_code(stated: &Stated, before: &NameTable, items: &[SrcItem]) -> Option<Code>
    ensures { result ≡ first_code (store_item_code stated.now before.now) items.now }
{
    for item in items {
        match store_item_code(stated, before, item) {
            Some(code) => return Some(code),
            None => {}
        }
    }
    None
}

/// Returns the rule that an item of a store breaks, after stores with these names.
fn store_item_code(stated: &Stated, before: &NameTable, item: &SrcItem) -> Option<Code>
    ensures { result ≡ store_item_code stated.now before.now item.now }
{
    let nowhere = names_no_store(&stated.stores, item);
    let later = uses_later_store(before, item);
    if nowhere {
        Some(Code::C05)
    } else if later {
        Some(Code::C07)
    } else {
        None
    }
}

/// Returns whether an item names a store that is not among these.
fn names_no_store(stores: &NameTable, item: &SrcItem) -> bool
    ensures { result ≡ lacks stores.now (store_named item.now) }
{
    match item {
        SrcItem::Any(name) => !stores.has(name.as_slice()),
        SrcItem::NotAny(name) => !stores.has(name.as_slice()),
        SrcItem::Index(name, _) => !stores.has(name.as_slice()),
        SrcItem::Equal(name, _) => !stores.has(name.as_slice()),
        SrcItem::Unequal(name, _) => !stores.has(name.as_slice()),
        SrcItem::Outs(name) => !stores.has(name.as_slice()),
        SrcItem::Set(name, _) => !stores.has(name.as_slice()),
        SrcItem::Save(name) => !stores.has(name.as_slice()),
        SrcItem::Reset(name) => !stores.has(name.as_slice()),
        _ => false,
    }
}

/// Returns whether an `outs` or `$` item names a store that isn't among these.
fn uses_later_store(before: &NameTable, item: &SrcItem) -> bool
    ensures { result ≡ uses_later_store before.now item.now }
{
    match item {
        SrcItem::Outs(name) => !before.has(name.as_slice()),
        _ => false,
    }
}

/// Returns the first refusal of group statements. Errors: `Memory` if an allocation fails.
#[tactic(auto, using(crate::proofs::Firsts::first_kept, crate::proofs::Firsts::groups_step))]
fn groups_refusal(alloc: Global, groups: &[GroupDef]) -> Result<Option<Refusal>, Memory>
    ensures { IfOk result (λ refusal. refusal ≡ first_of group_refusal [] groups.now) }
{
    let mut before = NameTable::new(alloc);
    let mut first = None;
    for group in groups {
        let found = at_line(group.line, group_code(&before, group));
        first = earlier(first, found);
        before.push(group.name.as_slice())?;
    }
    Ok(first)
}

/// Returns the rule that a group statement breaks, after groups with these names.
pub fn group_code(before: &NameTable, group: &GroupDef) -> Option<Code>
    ensures { result ≡ group_code before.now group.now }
{
    if before.has(group.name.as_slice()) {
        Some(Code::C04)
    } else {
        None
    }
}

/// Returns the first refusal of the statements of all groups.
#[tactic(auto, using(crate::proofs::Firsts::first_kept))]
fn all_rules_refusal(stated: &Stated, groups: &[GroupDef]) -> Option<Refusal>
    ensures { result ≡ first_of (rules_refusal stated.now) [] groups.now }
{
    let mut first = None;
    for group in groups {
        first = earlier(first, rules_refusal(stated, group.rules.as_slice()));
    }
    first
}

/// Returns the first refusal of the statements of a group.
#[tactic(auto, using(crate::proofs::Firsts::first_kept, crate::proofs::Firsts::any_step))]
fn rules_refusal(stated: &Stated, rules: &[RuleDef]) -> Option<Refusal>
    ensures { result ≡ first_of (rule_refusal stated.now) [] rules.now }
{
    let mut matched = false;
    let mut unmatched = false;
    let mut first = None;
    for rule in rules {
        let again = is_second(rule, matched, unmatched);
        first = earlier(first, at_line(rule.line, rule_code(stated, again, rule)));
        matched = either(matched, is_match(rule));
        unmatched = either(unmatched, is_nomatch(rule));
    }
    first
}

/// Returns whether a statement is the second match or nomatch, given whether there is a match and whether there is a nomatch before it.
pub fn is_second(rule: &RuleDef, matched: bool, unmatched: bool) -> bool
    ensures { result ≡ is_second matched unmatched rule.now.kind }
{
    match rule.kind {
        RuleKind::Plain => false,
        RuleKind::OnMatch => matched,
        RuleKind::OnNoMatch => unmatched,
    }
}

/// Returns the rule that a rule, match or nomatch statement breaks.
#[tactic(auto, using(crate::proofs::Firsts::first_code_append))]
pub fn rule_code(stated: &Stated, again: bool, rule: &RuleDef) -> Option<Code>
    ensures { result ≡ rule_code stated.now again rule.now }
{
    if again {
        return Some(Code::C15);
    }
    match rule_items_code(stated, rule.context.as_slice()) {
        Some(code) => return Some(code),
        None => {}
    }
    match rule_key_code(stated, &rule.key) {
        Some(code) => return Some(code),
        None => {}
    }
    rule_items_code(stated, rule.output.as_slice())
}

/// Returns the first code of items of a rule.
fn rule_items_code(stated: &Stated, items: &[SrcItem]) -> Option<Code>
    ensures { result ≡ first_code (rule_item_code stated.now) items.now }
{
    for item in items {
        match rule_item_code(stated, item) {
            Some(code) => return Some(code),
            None => {}
        }
    }
    None
}

/// Returns the rule that an item of a rule, match or nomatch statement breaks.
fn rule_item_code(stated: &Stated, item: &SrcItem) -> Option<Code>
    ensures { result ≡ rule_item_code stated.now item.now }
{
    if names_no_store(&stated.stores, item) {
        Some(Code::C05)
    } else if names_no_group(&stated.groups, item) {
        Some(Code::C06)
    } else {
        None
    }
}

/// Returns whether an item names a group that is not among these.
fn names_no_group(groups: &NameTable, item: &SrcItem) -> bool
    ensures { result ≡ lacks groups.now (group_named item.now) }
{
    match item {
        SrcItem::Enter(name) => !groups.has(name.as_slice()),
        _ => false,
    }
}

/// Returns the rule that the key of a rule breaks.
fn rule_key_code(stated: &Stated, key: &Option<SrcItem>) -> Option<Code>
    ensures { result ≡ first_code (rule_item_code stated.now) (option_to_list key.now) }
{
    match key {
        Some(item) => rule_item_code(stated, item),
        None => None,
    }
}

/// Returns whether a statement is a match statement.
pub fn is_match(rule: &RuleDef) -> bool
    ensures { result ≡ is_on_match rule.now }
{
    match rule.kind {
        RuleKind::OnMatch => true,
        _ => false,
    }
}

/// Returns whether a statement is a nomatch statement.
pub fn is_nomatch(rule: &RuleDef) -> bool
    ensures { result ≡ is_on_nomatch rule.now }
{
    match rule.kind {
        RuleKind::OnNoMatch => true,
        _ => false,
    }
}
