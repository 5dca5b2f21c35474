//! W09: rules whose conditions are never true together.

ghost use Rattle.std.specs.Prelude.{◌≡◌, ◌++◌, flat_map, OnOk};
ghost use Rattle.std.specs.List.{list_any};
ghost use Rattle.std.specs.Str.{bytes_eq};
ghost use Rattle.source_warnings.specs.Conditions.{contradictions, contradicts, has_contradiction, option_contradicts, rule_contradiction, system_contradicts};

use kmn_base::Memory;
use kmn_base::names::same_name;
use name_warnings::{Warning, WarningKind};
use rule_model::system::PLATFORM;
use rule_model::{GroupDef, RuleDef, SrcItem};

/// Appends W09: a warning at each rule whose conditions are never true together.
pub(crate) fn add_contradictions(
    found: &mut Vec<Warning>,
    groups: &[GroupDef],
) -> Result<(), Memory>
    ensures { OnOk result (found.new.items ≡ found.old.items ++ contradictions groups.now) }
{
    for group in groups {
        add_group_contradictions(found, group.rules.as_slice())?;
    }
    Ok(())
}

/// Appends the warnings of a group.
fn add_group_contradictions(found: &mut Vec<Warning>, rules: &[RuleDef]) -> Result<(), Memory>
    ensures { OnOk result (found.new.items ≡ found.old.items ++ flat_map rule_contradiction rules.now) }
{
    for rule in rules {
        add_contradiction(found, rule)?;
    }
    Ok(())
}

/// Appends a warning at a rule, if its conditions are never true together.
fn add_contradiction(found: &mut Vec<Warning>, rule: &RuleDef) -> Result<(), Memory>
    ensures { OnOk result (found.new.items ≡ found.old.items ++ rule_contradiction rule.now) }
{
    if has_contradiction(rule.context.as_slice()) {
        found.push(Warning {
            line: rule.line,
            kind: WarningKind::ContradictoryConditions,
        })?;
    }
    Ok(())
}

/// Returns whether two items of a context are conditions that are never true together.
fn has_contradiction(context: &[SrcItem]) -> bool
    ensures { result ≡ has_contradiction context.now }
{
    context.iter().any(|item| contradicts_one(item, context))
}

/// Returns whether an item contradicts one of others.
fn contradicts_one(item: &SrcItem, others: &[SrcItem]) -> bool
    ensures { result ≡ list_any (contradicts item.now) others.now }
{
    others.iter().any(|other| contradicts(item, other))
}

/// Returns whether an item requires one value, and another item is never true then.
fn contradicts(item: &SrcItem, other: &SrcItem) -> bool
    ensures { result ≡ contradicts item.now other.now }
{
    match item {
        SrcItem::Equal(option, value) => {
            option_contradicts(option.as_slice(), value.as_slice(), other)
        }
        SrcItem::SystemEqual(id, value) => system_contradicts(*id, value.as_slice(), other),
        _ => false,
    }
}

/// Returns whether an item is never true if an option has a value.
fn option_contradicts(option: &[u8], value: &[char], item: &SrcItem) -> bool
    ensures { result ≡ option_contradicts option.now value.now item.now }
{
    match item {
        SrcItem::Equal(name, other) => {
            same_name(option, name.as_slice()) && !is_same_value(value, other.as_slice())
        }
        SrcItem::Unequal(name, other) => {
            same_name(option, name.as_slice()) && is_same_value(value, other.as_slice())
        }
        _ => false,
    }
}

/// Returns whether an item is never true if a system option has a value. The platform may have several values.
fn system_contradicts(id: u32, value: &[char], item: &SrcItem) -> bool
    ensures { result ≡ system_contradicts id value.now item.now }
{
    match item {
        SrcItem::SystemEqual(other_id, other) => {
            id != PLATFORM && id == *other_id && !is_same_value(value, other.as_slice())
        }
        SrcItem::SystemUnequal(other_id, other) => {
            id == *other_id && is_same_value(value, other.as_slice())
        }
        _ => false,
    }
}

/// Returns whether two values are the same.
fn is_same_value(value: &[char], other: &[char]) -> bool
    ensures { result ≡ bytes_eq value.now other.now }
{
    value == other
}
