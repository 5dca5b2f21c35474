//! The conversion of groups without keys: the output of the first rule with an empty context becomes the nomatch output too.

ghost use Rattle.std.specs.Prelude.{◌≡◌, map, OnOk};
ghost use Rattle.std.specs.List.{list_all, list_any, position_or_len};
ghost use Rattle.core_conversions.specs.Conversions.{has_effect, is_stop, reads_matched, can_be_nomatch, has_empty_context, can_have_nomatch, nomatch_rule, group_with_nomatch, empty_as_nomatch};

use kmn_base::Memory;
use kmn_base::slices::behind;
use rule_model::{Group, Out, Rule, Tables};
use std::alloc::Global;

/// In each group without keys and without a nomatch output, sets the nomatch output to the output of the first rule with an empty
/// context, if this means the same.
///
/// Errors: `Memory` if an allocation fails; some groups may be converted then.
pub fn empty_as_nomatch(alloc: Global, tables: &mut Tables) -> Result<(), Memory>
    ensures { OnOk result (tables.new ≡ empty_as_nomatch tables.old) }
{
    convert_groups(alloc, tables.groups.as_mut_slice())
}

/// Converts groups in this way.
fn convert_groups(alloc: Global, groups: &mut [Group]) -> Result<(), Memory>
    ensures { OnOk result (groups.new ≡ map group_with_nomatch groups.old) }
{
    for group in groups.iter_mut() {
        convert_group(alloc, group)?;
    }
    Ok(())
}

/// Converts a group in this way.
#[tactic(auto, using(crate::proofs::NomatchRule::found_within, crate::proofs::NomatchRule::found_output, crate::proofs::NomatchRule::unchanged))]
fn convert_group(alloc: Global, group: &mut Group) -> Result<(), Memory>
    ensures { OnOk result (group.new ≡ group_with_nomatch group.old) }
{
    if let Some(rule) = nomatch_rule(group) {
        group.on_nomatch = group.rules.as_slice()[rule].output.copy(alloc)?;
    }
    Ok(())
}

/// Returns the number of the rule whose output becomes the nomatch output of its group, if any.
pub fn nomatch_rule(group: &Group) -> Option<usize>
    ensures { result ≡ nomatch_rule group.now }
{
    if group.using_keys || !group.on_nomatch.is_empty() {
        return None;
    }
    let rule = first_empty(group.rules.as_slice());
    if can_have_nomatch(
        group.on_match.as_slice(),
        behind(group.rules.as_slice(), rule),
    ) {
        Some(rule)
    } else {
        None
    }
}

/// Returns the number of rules before the first one with an empty context.
fn first_empty(rules: &[Rule]) -> usize
    ensures { result ≡ position_or_len has_empty_context rules.now }
{
    for i in 0..rules.len() {
        if has_empty_context(&rules[i]) {
            return i;
        }
    }
    rules.len()
}

/// Returns whether a rule has an empty context.
fn has_empty_context(rule: &Rule) -> bool
    ensures { result ≡ has_empty_context rule.now }
{
    rule.context.is_empty()
}

/// Returns whether the output of the first rule can be a nomatch output, and no later rule has a context.
fn can_have_nomatch(on_match: &[Out], rules: &[Rule]) -> bool
    ensures { result ≡ can_have_nomatch on_match.now rules.now }
{
    match rules {
        [rule, rest @ ..] => all_empty(rest) && can_be_nomatch(on_match, rule.output.as_slice()),
        [] => false,
    }
}

/// Returns whether all rules have an empty context.
fn all_empty(rules: &[Rule]) -> bool
    ensures { result ≡ list_all has_empty_context rules.now }
{
    rules.iter().all(|rule| has_empty_context(rule))
}

/// Returns whether an output can be the nomatch output of a group with a match output.
fn can_be_nomatch(on_match: &[Out], outputs: &[Out]) -> bool
    ensures { result ≡ can_be_nomatch on_match.now outputs.now }
{
    !outputs.is_empty()
        && !some_reads_matched(outputs)
        && (some_stop(outputs) || !has_effect(on_match))
}

/// Returns whether an item of an output depends on what the rule matched.
fn some_reads_matched(outputs: &[Out]) -> bool
    ensures { result ≡ list_any reads_matched outputs.now }
{
    outputs.iter().any(|item| reads_matched(item))
}

/// Returns whether an item depends on what the rule matched.
fn reads_matched(item: &Out) -> bool
    ensures { result ≡ reads_matched item.now }
{
    matches!(item, Out::Context | Out::ContextAt(_) | Out::Index(..))
}

/// Returns whether an output has a `return`.
fn some_stop(outputs: &[Out]) -> bool
    ensures { result ≡ list_any is_stop outputs.now }
{
    outputs.iter().any(|item| is_stop(item))
}

/// Returns whether an item is a `return`.
fn is_stop(item: &Out) -> bool
    ensures { result ≡ is_stop item.now }
{
    matches!(item, Out::Stop)
}

/// Returns whether an output has an effect.
fn has_effect(outputs: &[Out]) -> bool
    ensures { result ≡ has_effect outputs.now }
{
    for item in outputs {
        match item {
            Out::Stop => return false,
            Out::Nul => {}
            _ => return true,
        }
    }
    false
}
