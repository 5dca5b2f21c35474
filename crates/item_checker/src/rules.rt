//! The items of rules, match and nomatch statements.

ghost use Rattle.std.specs.Prelude.{◌≡◌, ◌++◌, [], ◌∷◌, OnOk, flat_map, if◌then◌else◌};
ghost use Rattle.kmn_base.specs.declared.codes.Code.TheVariants.{C10, C12, C13};
ghost use Rattle.store_table.specs.First.{all_of, broken, first_code, first_of};
ghost use Rattle.item_checker.specs.Items.{index_code, is_any_key, is_far, is_key_place, is_option, is_unfit_store, key_code, key_index_code, match_output_code, output_code, plain_code, has_virtual_key, rule_code, rule_output_code, rule_refusal, rules_refusal, rules_refusals};

use crate::facts::Facts;
use crate::offsets::{context_at_code, context_code, index_code, is_any_item, offset_code};
use kmn_base::{Code, Memory, Refusal, Seq};
use rule_model::{GroupDef, RuleDef, RuleKind, SrcItem};
use store_table::{add_refusal, at_line, earlier};

/// Returns the first refusal of the statements of all groups.
#[tactic(auto, using(store_table::proofs::Firsts::first_kept))]
pub fn groups_refusal(facts: &Facts<'_>, groups: &[GroupDef]) -> Option<Refusal>
    ensures { result ≡ first_of (rules_refusal facts.now) [] groups.now }
{
    let mut first = None;
    for group in groups {
        first = earlier(first, rules_refusal(facts, group.rules.as_slice()));
    }
    first
}

/// Returns the first refusal of the statements of a group.
#[tactic(auto, using(store_table::proofs::Firsts::first_kept))]
fn rules_refusal(facts: &Facts<'_>, rules: &[RuleDef]) -> Option<Refusal>
    ensures { result ≡ first_of (rule_refusal facts.now) [] rules.now }
{
    let mut first = None;
    for rule in rules {
        first = earlier(first, at_line(rule.line, rule_code(facts, rule)));
    }
    first
}

/// Appends all refusals of the statements of all groups.
pub fn add_groups_refusals(
    refusals: &mut Seq<Refusal>,
    facts: &Facts<'_>,
    groups: &[GroupDef],
) -> Result<(), Memory>
    ensures { OnOk result (refusals.new ≡ refusals.old ++ flat_map (rules_refusals facts.now) groups.now) }
{
    for group in groups {
        add_rules_refusals(refusals, facts, group.rules.as_slice())?;
    }
    Ok(())
}

/// Appends all refusals of the statements of a group.
#[tactic(auto, using(store_table::proofs::Firsts::all_kept))]
fn add_rules_refusals(
    refusals: &mut Seq<Refusal>,
    facts: &Facts<'_>,
    rules: &[RuleDef],
) -> Result<(), Memory>
    ensures { OnOk result (refusals.new ≡ refusals.old ++ all_of (rule_refusal facts.now) [] rules.now) }
{
    for rule in rules {
        add_refusal(refusals, at_line(rule.line, rule_code(facts, rule)))?;
    }
    Ok(())
}

/// Returns the rule that a rule, match or nomatch statement breaks.
fn rule_code(facts: &Facts<'_>, rule: &RuleDef) -> Option<Code>
    ensures { result ≡ rule_code facts.now rule.now.kind rule.now }
{
    match rule.kind {
        RuleKind::Plain => plain_code(facts, rule),
        _ => match_outputs_code(facts, rule.output.as_slice()),
    }
}

/// Returns the rule of the language that a rule breaks.
fn plain_code(facts: &Facts<'_>, rule: &RuleDef) -> Option<Code>
    ensures { result ≡ plain_code facts.now rule.now }
{
    match context_code(rule.context.as_slice()) {
        Some(code) => return Some(code),
        None => {}
    }
    match key_code(facts, &rule.key) {
        Some(code) => return Some(code),
        None => {}
    }
    rule_outputs_code(facts, rule)
}

/// Returns the rule that the key of a rule breaks.
fn key_code(facts: &Facts<'_>, key: &Option<SrcItem>) -> Option<Code>
    ensures { result ≡ key_code facts.now key.now }
{
    match key {
        Some(SrcItem::Char(character)) => character_key_code(*character),
        Some(SrcItem::Any(store)) => key_store_code(facts, store.as_slice()),
        _ => None,
    }
}

/// Returns the rule that a character breaks as a key.
fn character_key_code(character: char) -> Option<Code>
    ensures { result ≡ broken ((C10, is_far character) ∷ []) }
{
    if character > '\u{FFFF}' {
        Some(Code::C10)
    } else {
        None
    }
}

/// Returns the rule that a key store breaks.
fn key_store_code(facts: &Facts<'_>, store: &[u8]) -> Option<Code>
    ensures { result ≡ broken ((C10, is_unfit_store facts.now store.now) ∷ (C13, is_option facts.now store.now) ∷ []) }
{
    if facts.is_unfit_store(store) {
        Some(Code::C10)
    } else if facts.is_option(store) {
        Some(Code::C13)
    } else {
        None
    }
}

/// Returns the first code of the output of a rule.
fn rule_outputs_code(facts: &Facts<'_>, rule: &RuleDef) -> Option<Code>
    ensures { result ≡ first_code (rule_output_code facts.now rule.now) rule.now.output }
{
    for item in rule.output.as_slice() {
        match rule_output_code(facts, rule, item) {
            Some(code) => return Some(code),
            None => {}
        }
    }
    None
}

/// Returns the rule that an item of a rule's output breaks.
fn rule_output_code(facts: &Facts<'_>, rule: &RuleDef, item: &SrcItem) -> Option<Code>
    ensures { result ≡ rule_output_code facts.now rule.now item.now }
{
    match item {
        SrcItem::Index(store, offset) => rule_index_code(facts, rule, store.as_slice(), *offset),
        SrcItem::ContextAt(offset) => context_at_code(rule.context.as_slice(), *offset),
        _ => output_code(facts, item),
    }
}

/// Returns the rule that `index` in the output of a rule breaks.
fn rule_index_code(facts: &Facts<'_>, rule: &RuleDef, store: &[u8], offset: u32) -> Option<Code>
    ensures { result ≡ (if is_key_place rule.now offset then key_index_code facts.now rule.now store.now else index_code rule.now.context offset) }
{
    if is_key_place(rule, offset) {
        key_index_code(facts, rule, store)
    } else {
        index_code(rule.context.as_slice(), offset)
    }
}

/// Returns whether an offset is the offset of a rule's key.
fn is_key_place(rule: &RuleDef, offset: u32) -> bool
    ensures { result ≡ is_key_place rule.now offset }
{
    let count = rule.context.len();
    rule.key.is_some() && offset as usize > count && offset as usize - count == 1
}

/// Returns the rule that `index` at the key's offset breaks.
fn key_index_code(facts: &Facts<'_>, rule: &RuleDef, store: &[u8]) -> Option<Code>
    ensures { result ≡ key_index_code facts.now rule.now store.now }
{
    if !is_any_key(&rule.key) {
        Some(Code::C09)
    } else if facts.is_option(store) {
        Some(Code::C13)
    } else {
        None
    }
}

/// Returns whether the key of a rule is `any`.
fn is_any_key(key: &Option<SrcItem>) -> bool
    ensures { result ≡ is_any_key key.now }
{
    match key {
        Some(item) => is_any_item(item),
        None => false,
    }
}

/// Returns the rule that an item of an output that does not refer to the context breaks.
fn output_code(facts: &Facts<'_>, item: &SrcItem) -> Option<Code>
    ensures { result ≡ output_code facts.now item.now }
{
    match item {
        SrcItem::Call(_) => Some(Code::C11),
        SrcItem::OutOfProfile => Some(Code::C12),
        SrcItem::Outs(store) => put_code(facts, store.as_slice()),
        _ => None,
    }
}

/// Returns the rule that `outs` or `$` breaks in an output.
fn put_code(facts: &Facts<'_>, store: &[u8]) -> Option<Code>
    ensures { result ≡ broken ((C12, has_virtual_key facts.now store.now) ∷ (C13, is_option facts.now store.now) ∷ []) }
{
    if facts.has_virtual_key(store) {
        Some(Code::C12)
    } else if facts.is_option(store) {
        Some(Code::C13)
    } else {
        None
    }
}

/// Returns the first code of the output of match or nomatch.
fn match_outputs_code(facts: &Facts<'_>, output: &[SrcItem]) -> Option<Code>
    ensures { result ≡ first_code (match_output_code facts.now) output.now }
{
    for item in output {
        match match_output_code(facts, item) {
            Some(code) => return Some(code),
            None => {}
        }
    }
    None
}

/// Returns the rule that an item of match or nomatch breaks.
fn match_output_code(facts: &Facts<'_>, item: &SrcItem) -> Option<Code>
    ensures { result ≡ match_output_code facts.now item.now }
{
    match item {
        SrcItem::Index(_, offset) => offset_code(*offset),
        SrcItem::ContextAt(offset) => offset_code(*offset),
        SrcItem::Context => Some(Code::C12),
        _ => output_code(facts, item),
    }
}
