//! The conversion of contexts: moves each `nul` before the conditions.

ghost use Rattle.std.specs.Prelude.{◌≡◌, ◌≤◌, length, map};
ghost use Rattle.std.specs.List.{position_or_len};
ghost use Rattle.rule_model.specs.Patterns.{is_matched};
ghost use Rattle.core_conversions.specs.Conversions.{context_with_nul_first, rule_with_nul_first, group_with_nul_first, nul_first};

use rule_model::{Group, Pat, Rule, Tables};

/// Moves each `nul` before the first matched item of a context before the conditions, in all contexts of tables.
pub fn nul_first(tables: &mut Tables)
    ensures { tables.new ≡ nul_first tables.old }
{
    convert_groups(tables.groups.as_mut_slice());
}

/// Moves each such `nul` in the contexts of groups.
fn convert_groups(groups: &mut [Group])
    ensures { groups.new ≡ map group_with_nul_first groups.old }
{
    for group in groups.iter_mut() {
        convert_group(group);
    }
}

/// Moves each such `nul` in the contexts of a group.
fn convert_group(group: &mut Group)
    ensures { group.new ≡ group_with_nul_first group.old }
{
    convert_rules(group.rules.as_mut_slice());
}

/// Moves each such `nul` in the contexts of rules.
fn convert_rules(rules: &mut [Rule])
    ensures { rules.new ≡ map rule_with_nul_first rules.old }
{
    for rule in rules.iter_mut() {
        convert_rule(rule);
    }
}

/// Moves each such `nul` in the context of a rule.
fn convert_rule(rule: &mut Rule)
    ensures { rule.new ≡ rule_with_nul_first rule.old }
{
    convert_context(rule.context.as_mut_slice());
}

/// Moves each `nul` before the first matched item of a context before the conditions. From the last of these items to the first, a
/// condition and the last `nul` after it exchange places.
#[tactic(auto, using(crate::proofs::NulMoved::down_nul))]
fn convert_context(context: &mut [Pat])
    ensures { context.new ≡ context_with_nul_first context.old }
{
    let mut i = unmatched_count(context);
    let mut nuls = 0;
    while i > 0 {
        i -= 1;
        if context[i].is_nul() {
            nuls += 1;
        } else {
            context.swap(i, i + nuls);
        }
    }
}

/// Returns the number of items before the first matched item of a context.
#[tactic(auto, using(std::proofs::lemmas::List::Sums::prefix_len_is))]
fn unmatched_count(context: &[Pat]) -> usize
    ensures count { result ≡ position_or_len is_matched context.now }
    ensures few { result ≤ length context.now }
{
    for i in 0..context.len() {
        if context[i].is_matched() {
            return i;
        }
    }
    context.len()
}
