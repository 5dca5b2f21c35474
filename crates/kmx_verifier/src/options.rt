//! Finds the options of a file: a store is an option if a condition, `set`, `save` or `reset` names it.

ghost use Rattle.std.specs.Prelude.{◌≡◌, nat_eq};
ghost use Rattle.std.specs.List.{list_any};
ghost use Rattle.rule_model.specs.Tab.{pattern_options, output_options, tab_options};
ghost use Rattle.kmx_verifier.specs.Options.{used_in, used_in_rule, used_in_group};

use kmx_parts::{FileGroup, FileRule, FileTables, Outputs, Patterns};
use rule_model::{Out, Pat};

/// Returns whether a store is an option.
pub(crate) fn is_option(file: &FileTables<'_>, store: u32) -> bool
    ensures { result ≡ list_any (nat_eq store) (tab_options file.now) }
{
    groups_use(file, store)
}

fn groups_use(file: &FileTables<'_>, store: u32) -> bool
    ensures { result ≡ list_any (λ group. used_in_group store group) file.now.groups }
{
    for group in file.groups() {
        if group_uses(&group, store) {
            return true;
        }
    }
    false
}

fn group_uses(group: &FileGroup<'_>, store: u32) -> bool
    ensures { result ≡ used_in_group store group.now }
{
    rules_use(group, store)
        || outputs_use(group.on_match(), store)
        || outputs_use(group.on_nomatch(), store)
}

fn rules_use(group: &FileGroup<'_>, store: u32) -> bool
    ensures { result ≡ list_any (λ rule. used_in_rule store rule) group.now.rules }
{
    for rule in group.rules() {
        if rule_uses(&rule, store) {
            return true;
        }
    }
    false
}

fn rule_uses(rule: &FileRule<'_>, store: u32) -> bool
    ensures { result ≡ used_in_rule store rule.now }
{
    context_uses(rule.context(), store) || outputs_use(rule.output(), store)
}

fn context_uses(context: Patterns<'_>, store: u32) -> bool
    ensures { result ≡ used_in pattern_options store context.entry }
{
    for pattern in context {
        if pattern_uses(&pattern, store) {
            return true;
        }
    }
    false
}

fn pattern_uses(pattern: &Pat, store: u32) -> bool
    ensures { result ≡ list_any (nat_eq store) (pattern_options pattern.now) }
{
    match pattern {
        Pat::Equal(option, _) | Pat::Unequal(option, _) => store == *option,
        _ => false,
    }
}

fn outputs_use(outputs: Outputs<'_>, store: u32) -> bool
    ensures { result ≡ used_in output_options store outputs.entry }
{
    for output in outputs {
        if output_uses(&output, store) {
            return true;
        }
    }
    false
}

fn output_uses(output: &Out, store: u32) -> bool
    ensures { result ≡ list_any (nat_eq store) (output_options output.now) }
{
    match output {
        Out::Set(option, _) | Out::Save(option) | Out::Reset(option) => store == *option,
        _ => false,
    }
}
