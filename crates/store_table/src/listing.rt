//! All refusals for a program's names.

ghost use Rattle.std.specs.Prelude.{◌≡◌, ◌++◌, IfOk, OnOk, [], flat_map, option_to_list};
ghost use Rattle.store_table.specs.First.{all_of, first_among};
ghost use Rattle.store_table.specs.Names.{begin_refusal, group_refusal, names_refusal, names_refusals, rule_refusal, rules_refusals, stated, store_refusal};

use crate::first::at_line;
use crate::name_table::NameTable;
use crate::refusing::{
    begin_code, either, group_code, is_begun, is_match, is_nomatch, is_second, rule_code,
    store_code,
};
use crate::stating::{Stated, add_store, stated_names};
use kmn_base::{Memory, Refusal, Seq};
use rule_model::{BeginDef, GroupDef, Program, RuleDef, StoreDef};
use std::alloc::Global;

/// Returns all refusals for names, C02 to C07 and C15: of begin statements, of stores, of groups, then of the statements of each
/// group. A statement has at most one. Errors: `Memory` if an allocation fails.
#[tactic(auto, using(crate::proofs::FirstAmong::names_least))]
pub fn names_refusals(alloc: Global, program: &Program) -> Result<Seq<Refusal>, Memory>
    ensures all { IfOk result (λ refusals. refusals ≡ names_refusals program.now) }
    ensures first { IfOk result (λ refusals. names_refusal program.now ≡ first_among refusals) }
{
    let stated = stated_names(alloc, program)?;
    let refusals = listed_refusals(alloc, &stated, program)?;
    Ok(refusals)
}

/// Returns all refusals of a program that states these names. Errors: `Memory` if an allocation fails.
#[tactic(auto, unfolding(crate::specs::Names::names_refusals))]
fn listed_refusals(alloc: Global, names: &Stated, program: &Program) -> Result<Seq<Refusal>, Memory>
    requires { names.now ≡ stated program.now }
    ensures { IfOk result (λ refusals. refusals ≡ names_refusals program.now) }
{
    let mut refusals = Seq::new(alloc);
    add_begins_refusals(&mut refusals, names, program.begins.as_slice())?;
    add_stores_refusals(alloc, &mut refusals, names, program.stores.as_slice())?;
    add_groups_refusals(alloc, &mut refusals, program.groups.as_slice())?;
    add_group_rules_refusals(&mut refusals, names, program.groups.as_slice())?;
    Ok(refusals)
}

/// Appends a refusal if there is one.
pub fn add_refusal(refusals: &mut Seq<Refusal>, found: Option<Refusal>) -> Result<(), Memory>
    ensures { OnOk result (refusals.new ≡ refusals.old ++ option_to_list found) }
{
    match found {
        Some(refusal) => refusals.add(refusal),
        None => Ok(()),
    }
}

/// Appends all refusals of begin statements.
#[tactic(auto, using(crate::proofs::Firsts::all_kept, crate::proofs::Firsts::any_step))]
fn add_begins_refusals(
    refusals: &mut Seq<Refusal>,
    stated: &Stated,
    begins: &[BeginDef],
) -> Result<(), Memory>
    ensures { OnOk result (refusals.new ≡ refusals.old ++ all_of (begin_refusal stated.now) [] begins.now) }
{
    let mut unicode = false;
    let mut ansi = false;
    for start in begins {
        let again = is_begun(start, unicode, ansi);
        add_refusal(
            refusals,
            at_line(start.line, begin_code(stated, again, start)),
        )?;
        unicode = either(unicode, start.unicode);
        ansi = either(ansi, !start.unicode);
    }
    Ok(())
}

/// Appends all refusals of store statements.
#[tactic(auto, using(crate::proofs::Firsts::all_kept, crate::proofs::Firsts::names_step))]
fn add_stores_refusals(
    alloc: Global,
    refusals: &mut Seq<Refusal>,
    stated: &Stated,
    stores: &[StoreDef],
) -> Result<(), Memory>
    ensures { OnOk result (refusals.new ≡ refusals.old ++ all_of (store_refusal stated.now) [] stores.now) }
{
    let mut before = NameTable::new(alloc);
    for store in stores {
        add_refusal(
            refusals,
            at_line(store.line, store_code(stated, &before, store)),
        )?;
        add_store(&mut before, store)?;
    }
    Ok(())
}

/// Appends all refusals of group statements.
#[tactic(auto, using(crate::proofs::Firsts::all_kept, crate::proofs::Firsts::groups_step))]
fn add_groups_refusals(
    alloc: Global,
    refusals: &mut Seq<Refusal>,
    groups: &[GroupDef],
) -> Result<(), Memory>
    ensures { OnOk result (refusals.new ≡ refusals.old ++ all_of group_refusal [] groups.now) }
{
    let mut before = NameTable::new(alloc);
    for group in groups {
        add_refusal(refusals, at_line(group.line, group_code(&before, group)))?;
        before.push(group.name.as_slice())?;
    }
    Ok(())
}

/// Appends all refusals of the statements of all groups.
fn add_group_rules_refusals(
    refusals: &mut Seq<Refusal>,
    stated: &Stated,
    groups: &[GroupDef],
) -> Result<(), Memory>
    ensures { OnOk result (refusals.new ≡ refusals.old ++ flat_map (rules_refusals stated.now) groups.now) }
{
    for group in groups {
        add_rules_refusals(refusals, stated, group.rules.as_slice())?;
    }
    Ok(())
}

/// Appends all refusals of the statements of a group.
#[tactic(auto, using(crate::proofs::Firsts::all_kept, crate::proofs::Firsts::any_step))]
fn add_rules_refusals(
    refusals: &mut Seq<Refusal>,
    stated: &Stated,
    rules: &[RuleDef],
) -> Result<(), Memory>
    ensures { OnOk result (refusals.new ≡ refusals.old ++ all_of (rule_refusal stated.now) [] rules.now) }
{
    let mut matched = false;
    let mut unmatched = false;
    for rule in rules {
        let again = is_second(rule, matched, unmatched);
        add_refusal(refusals, at_line(rule.line, rule_code(stated, again, rule)))?;
        matched = either(matched, is_match(rule));
        unmatched = either(unmatched, is_nomatch(rule));
    }
    Ok(())
}
