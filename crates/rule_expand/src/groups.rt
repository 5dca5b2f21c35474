//! Builds the groups of a file, with their records in the order of the rules.

ghost use Rattle.std.specs.Prelude.{◌≡◌, ◌++◌, true, None, map, flat_map, filter, find, option_copied, IfOk, OnOk};
ghost use Rattle.std.specs.List.{list_all};
ghost use Rattle.rule_model.specs.Src.{is_plain, is_on_match, is_on_nomatch};
ghost use Rattle.compile_laws.specs.Compiles.{file_outputs, statement_outputs, rule_records, file_group};
ghost use Rattle.rule_expand.specs.Groups.{has_unit_key, have_unit_keys, plain_records};
ghost use Rattle.rule_expand.specs.Sizes.{outline_group, without_rules};

use crate::lookups::Lookups;
use crate::pieces::{outputs_at, pieces_of};
use crate::records::add_records;
use kmn_base::{Memory, Seq};
use rule_model::{Group, GroupDef, Out, Rule, RuleDef, RuleKind};
use std::alloc::Global;

/// Returns the groups of statements.
#[tactic(auto, using(crate::proofs::RuleRecords::unit_group))]
pub fn groups_of(
    alloc: Global,
    numbers: &Lookups<'_>,
    groups: &[GroupDef],
) -> Result<Seq<Group>, Memory>
    requires { list_all (have_unit_keys numbers.now.stores) groups.now ≡ true }
    ensures { IfOk result (λ made. made ≡ map (file_group numbers.now) groups.now) }
{
    let mut made = Vec::with_capacity(alloc, groups.len())?;
    for group in groups {
        made.push(group_of(alloc, numbers, group)?)?;
    }
    Ok(Seq::from_vec(made))
}

/// Returns the group of a statement.
fn group_of(alloc: Global, numbers: &Lookups<'_>, group: &GroupDef) -> Result<Group, Memory>
    requires { have_unit_keys numbers.now.stores group.now ≡ true }
    ensures { IfOk result (λ made. made ≡ file_group numbers.now group.now) }
{
    let rules = group.rules.as_slice();
    Ok(Group {
        name: group.name.copy(alloc)?,
        using_keys: group.using_keys,
        rules: records_of(alloc, numbers, rules)?,
        on_match: statement_outputs(alloc, numbers, match_statement(rules))?,
        on_nomatch: statement_outputs(alloc, numbers, nomatch_statement(rules))?,
    })
}

/// Returns the records of rules.
#[tactic(auto, using(crate::proofs::RuleRecords::unit_rule))]
fn records_of(alloc: Global, numbers: &Lookups<'_>, rules: &[RuleDef]) -> Result<Seq<Rule>, Memory>
    requires { list_all (has_unit_key numbers.now.stores) rules.now ≡ true }
    ensures { IfOk result (λ records. records ≡ flat_map (rule_records numbers.now) (filter is_plain rules.now)) }
{
    let mut records = Vec::with_capacity(alloc, rules.len())?;
    for rule in rules {
        add_rule(alloc, &mut records, numbers, rule)?;
    }
    Ok(Seq::from_vec(records))
}

/// Appends the records of a rule. A match or nomatch statement has no records.
fn add_rule(
    alloc: Global,
    records: &mut Vec<Rule>,
    numbers: &Lookups<'_>,
    rule: &RuleDef,
) -> Result<(), Memory>
    requires { has_unit_key numbers.now.stores rule.now ≡ true }
    ensures { OnOk result (records.new.items ≡ records.old.items ++ plain_records numbers.now rule.now) }
{
    if rule.kind == RuleKind::Plain {
        add_records(alloc, records, numbers, rule)
    } else {
        Ok(())
    }
}

/// Returns the output of a match or nomatch statement, or an empty one if there is no statement.
fn statement_outputs(
    alloc: Global,
    numbers: &Lookups<'_>,
    statement: Option<&RuleDef>,
) -> Result<Seq<Out>, Memory>
    ensures { IfOk result (λ output. output ≡ statement_outputs numbers.now (option_copied statement.entry)) }
{
    match statement {
        Some(rule) => outputs_of(alloc, numbers, rule),
        None => Ok(Seq::new(alloc)),
    }
}

/// Returns the output of a match or nomatch statement.
#[tactic(auto, using(crate::proofs::PieceLaws::pieces_put))]
fn outputs_of(alloc: Global, numbers: &Lookups<'_>, rule: &RuleDef) -> Result<Seq<Out>, Memory>
    ensures { IfOk result (λ output. output ≡ file_outputs numbers.now 0 None rule.now.output) }
{
    let pieces = pieces_of(alloc, numbers, 0, rule.output.as_slice())?;
    outputs_at(alloc, numbers, pieces.as_slice(), None)
}

/// Returns the first match statement.
fn match_statement(rules: &[RuleDef]) -> Option<&RuleDef>
    ensures { option_copied result ≡ find is_on_match rules.now }
{
    for rule in rules {
        if rule.kind == RuleKind::OnMatch {
            return Some(rule);
        }
    }
    None
}

/// Returns the first nomatch statement.
fn nomatch_statement(rules: &[RuleDef]) -> Option<&RuleDef>
    ensures { option_copied result ≡ find is_on_nomatch rules.now }
{
    for rule in rules {
        if rule.kind == RuleKind::OnNoMatch {
            return Some(rule);
        }
    }
    None
}

/// Returns the groups of statements without their records.
pub fn outlines_of(
    alloc: Global,
    numbers: &Lookups<'_>,
    groups: &[GroupDef],
) -> Result<Seq<Group>, Memory>
    ensures { IfOk result (λ made. made ≡ map (outline_group numbers.now) groups.now) }
{
    let mut made = Vec::with_capacity(alloc, groups.len())?;
    for group in groups {
        made.push(group_outline(alloc, numbers, group)?)?;
    }
    Ok(Seq::from_vec(made))
}

/// Returns the group of a statement without its records.
fn group_outline(alloc: Global, numbers: &Lookups<'_>, group: &GroupDef) -> Result<Group, Memory>
    ensures { IfOk result (λ made. made ≡ without_rules (file_group numbers.now group.now)) }
{
    let rules = group.rules.as_slice();
    Ok(Group {
        name: group.name.copy(alloc)?,
        using_keys: group.using_keys,
        rules: Seq::new(alloc),
        on_match: statement_outputs(alloc, numbers, match_statement(rules))?,
        on_nomatch: statement_outputs(alloc, numbers, nomatch_statement(rules))?,
    })
}
