//! Checks the limits statement by statement, in the order of lines.

ghost use Rattle.std.specs.Prelude.{◌≡◌, ◌++◌, List, map, flat_map, IfOk, OnOk};
ghost use Rattle.rule_model.specs.declared.program.RuleDef.{RuleDef};
ghost use Rattle.rule_model.specs.declared.program.GroupDef.{GroupDef};
ghost use Rattle.rule_model.specs.Naming.{all_rules, stores_after, stores_before};
ghost use Rattle.rule_checker.specs.Limits.{in_line_order, OfStore};
ghost use Rattle.rule_checker.specs.Walking.{after_rule_walk, after_store_walk, no_walk, walked};

use crate::counting::{StoreCounts, is_long_output};
use crate::totals::{Totals, add_rule, add_store, totals_code};
use kmn_base::limits::CONTEXT_ITEMS;
use kmn_base::{Memory, Refusal};
use rule_model::{GroupDef, Program, RuleDef, StoreDef};
use std::alloc::Global;
use store_table::{at_line, earlier, parted_by_line};

/// The counts up to a statement, and the first refusal so far.
#[derive(Drop)]
pub struct Walk {
    pub totals: Totals,
    pub first: Option<Refusal>,
}

/// Returns the first refusal for a limit that a statement passes.
pub(crate) fn first_passed(
    alloc: Global,
    counted: &StoreCounts,
    program: &Program,
) -> Result<Option<Refusal>, Memory>
    ensures { IfOk result (λ first. first ≡ (walked counted.now no_walk (in_line_order program.now.stores (all_rules program.now))).first) }
{
    let mut walk = Walk {
        totals: Totals::new(alloc),
        first: None,
    };
    walk_all(
        &mut walk,
        counted,
        program.stores.as_slice(),
        program.groups.as_slice(),
    )?;
    Ok(walk.first)
}

/// Counts stores and the rules of groups.
fn walk_all(
    walk: &mut Walk,
    counted: &StoreCounts,
    stores: &[StoreDef],
    groups: &[GroupDef],
) -> Result<(), Memory>
    ensures { OnOk result (walk.new ≡ walked counted.now walk.old (in_line_order stores.now (flat_map (λ (group : GroupDef). group.rules) groups.now))) }
{
    let mut waiting = stores;
    for group in groups {
        waiting = walk_group(walk, counted, waiting, group.rules.as_slice())?;
    }
    walk_stores(walk, counted, waiting)
}

/// Counts the rules of a group, each after the stores before its line, and returns the other stores.
#[tactic(auto, using(crate::proofs::Walked::walked_rule))]
fn walk_group<'a>(
    walk: &mut Walk,
    counted: &StoreCounts,
    stores: &'a [StoreDef],
    rules: &[RuleDef],
) -> Result<&'a [StoreDef], Memory>
    ensures { OnOk result (IfOk result (λ rest. (more : List RuleDef) → walked counted.now walk.new (in_line_order rest.now more) ≡ walked counted.now walk.old (in_line_order stores.now (rules.now ++ more)))) }
{
    let mut waiting = stores;
    for rule in rules {
        waiting = walk_before(walk, counted, waiting, rule.line)?;
        walk_rule(walk, counted, rule)?;
    }
    Ok(waiting)
}

/// Counts the stores before a line and returns the others.
fn walk_before<'a>(
    walk: &mut Walk,
    counted: &StoreCounts,
    stores: &'a [StoreDef],
    line: u32,
) -> Result<&'a [StoreDef], Memory>
    ensures rest { IfOk result (λ rest. rest.now ≡ stores_after line stores.now) }
    ensures walked { OnOk result (walk.new ≡ walked counted.now walk.old (map OfStore (stores_before line stores.now))) }
{
    let (before, others) = parted_by_line(stores, line);
    walk_stores(walk, counted, before)?;
    Ok(others)
}

/// Counts store statements.
#[tactic(auto, using(crate::proofs::Walked::walked_store))]
fn walk_stores(walk: &mut Walk, counted: &StoreCounts, stores: &[StoreDef]) -> Result<(), Memory>
    ensures { OnOk result (walk.new ≡ walked counted.now walk.old (map OfStore stores.now)) }
{
    for store in stores {
        walk_store(walk, counted, store)?;
    }
    Ok(())
}

/// Counts a store statement.
fn walk_store(walk: &mut Walk, counted: &StoreCounts, store: &StoreDef) -> Result<(), Memory>
    ensures { OnOk result (walk.new ≡ after_store_walk counted.now walk.old store.now) }
{
    add_store(&mut walk.totals, counted, store)?;
    let code = totals_code(&walk.totals, false, false);
    walk.first = earlier(walk.first, at_line(store.line, code));
    Ok(())
}

/// Counts a rule, match or nomatch statement.
fn walk_rule(walk: &mut Walk, counted: &StoreCounts, rule: &RuleDef) -> Result<(), Memory>
    ensures { OnOk result (walk.new ≡ after_rule_walk counted.now walk.old rule.now) }
{
    add_rule(&mut walk.totals, counted, rule)?;
    let context = CONTEXT_ITEMS < rule.context.len();
    let output = is_long_output(counted, rule.output.as_slice());
    let code = totals_code(&walk.totals, context, output);
    walk.first = earlier(walk.first, at_line(rule.line, code));
    Ok(())
}
