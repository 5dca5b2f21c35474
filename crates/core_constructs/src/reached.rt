//! The groups that an event can enter.

ghost use Rattle.std.specs.Prelude.{◌≡◌, flat_map, option_to_list, IfOk, OnOk};
ghost use Rattle.std.specs.List.{fold};
ghost use Rattle.std.specs.Ordering.{nat_cmp};
ghost use Rattle.std.specs.BTreeSet.{insert_key};
ghost use Rattle.core_constructs.specs.Outputs.{live};
ghost use Rattle.core_constructs.specs.Reached.{entered, rule_entered, group_entered, entered_from, reached_groups};

use crate::outputs::{ends, live};
use crate::sets::{add_some, same_numbers};
use kmn_base::limits::EVENT_ENTRIES;
use kmn_base::{LineSet, Memory, Seq};
use rule_model::{Group, Out, Rule, Tables};
use std::alloc::Global;

/// Returns the groups that an event can enter, in rising order. It stops at the first depth that adds no group.
#[tactic(auto, using(crate::proofs::Depths::reached_none, crate::proofs::Depths::reached_more))]
pub(crate) fn reached_groups(alloc: Global, tables: &Tables) -> Result<Seq<u32>, Memory>
    ensures { IfOk result (λ reached. reached ≡ reached_groups tables.now) }
{
    let groups = tables.groups.as_slice();
    let mut reached = LineSet::new(alloc);
    reached.add(tables.start_unicode)?;
    let mut numbers = reached.listed(alloc)?;
    for _entry in 0..EVENT_ENTRIES {
        add_entered_from(&mut reached, groups, numbers.as_slice())?;
        let next = reached.listed(alloc)?;
        if same_numbers(numbers.as_slice(), next.as_slice()) {
            return Ok(numbers);
        }
        numbers = next;
    }
    Ok(numbers)
}

/// Adds the groups that a `use` of the groups of these numbers enters.
#[tactic(auto, using(crate::proofs::Folds::folds))]
fn add_entered_from(reached: &mut LineSet, groups: &[Group], numbers: &[u32]) -> Result<(), Memory>
    ensures { OnOk result (reached.new ≡ fold (insert_key nat_cmp) reached.old (flat_map (entered_from groups.now) numbers.now)) }
{
    for number in numbers {
        add_entered_at(reached, groups, *number)?;
    }
    Ok(())
}

/// Adds the groups that a `use` of the group of a number enters, if there is one.
fn add_entered_at(reached: &mut LineSet, groups: &[Group], number: u32) -> Result<(), Memory>
    ensures { OnOk result (reached.new ≡ fold (insert_key nat_cmp) reached.old (entered_from groups.now number)) }
{
    match groups.get(number as usize) {
        Some(group) => add_group(reached, group),
        None => Ok(()),
    }
}

/// Adds the groups that a `use` of a group enters.
#[tactic(auto, using(crate::proofs::Folds::folds))]
fn add_group(reached: &mut LineSet, group: &Group) -> Result<(), Memory>
    ensures { OnOk result (reached.new ≡ fold (insert_key nat_cmp) reached.old (group_entered group.now)) }
{
    add_rules(reached, group)?;
    add_items(reached, live(group.on_nomatch.as_slice()))
}

/// Adds the groups that a `use` of the records of a group, with its match output, enters.
#[tactic(auto, using(crate::proofs::Folds::folds))]
fn add_rules(reached: &mut LineSet, group: &Group) -> Result<(), Memory>
    ensures { OnOk result (reached.new ≡ fold (insert_key nat_cmp) reached.old (flat_map (rule_entered group.now) group.now.rules)) }
{
    let rules = group.rules.as_slice();
    for rule in rules {
        add_played(reached, group, rule)?;
    }
    Ok(())
}

/// Adds the groups that a `use` of a record, with the match output of its group, enters.
#[tactic(auto, using(crate::proofs::Live::entered_ended, crate::proofs::Live::entered_on))]
fn add_played(reached: &mut LineSet, group: &Group, rule: &Rule) -> Result<(), Memory>
    ensures { OnOk result (reached.new ≡ fold (insert_key nat_cmp) reached.old (rule_entered group.now rule.now)) }
{
    let output = rule.output.as_slice();
    add_items(reached, live(output))?;
    if ends(output) {
        Ok(())
    } else {
        add_items(reached, live(group.on_match.as_slice()))
    }
}

/// Adds the groups that these items enter.
#[tactic(auto, using(crate::proofs::Folds::folds))]
fn add_items(reached: &mut LineSet, items: &[Out]) -> Result<(), Memory>
    ensures { OnOk result (reached.new ≡ fold (insert_key nat_cmp) reached.old (flat_map entered items.now)) }
{
    for item in items {
        add_some(reached, entered(item))?;
    }
    Ok(())
}

/// Returns the group that an item enters, if any.
pub(crate) fn entered(item: &Out) -> Option<u32>
    ensures { option_to_list result ≡ entered item.now }
{
    match item {
        Out::Enter(group) => Some(*group),
        _ => None,
    }
}
