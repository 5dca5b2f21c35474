//! The units that the window of Keyman's own engine can have lost when an event enters a group.

ghost use Rattle.std.specs.Prelude.{◌≡◌, ◌-◌, flat_map, length, slice_get, sum_by, unwrap_or, IfOk};
ghost use Rattle.std.specs.List.{fold};
ghost use Rattle.core_constructs.specs.Outputs.{live};
ghost use Rattle.core_constructs.specs.Reached.{entered};
ghost use Rattle.core_constructs.specs.Spent.{least_width, put_units, spent_after, spent_by, begins_with_context, is_context, raised, raised_by, after_match, after_rule, after_group, after_number, after_groups, spent_in};

use crate::facts::Facts;
use crate::outputs::{ends, is_use, live};
use crate::sets::same_numbers;
use crate::widths::{MARK_UNITS, char_units, with_context};
use kmn_base::limits::EVENT_ENTRIES;
use kmn_base::slices::behind;
use kmn_base::{Memory, Seq};
use rule_model::{Group, Out, Pat, Rule};
use std::alloc::Global;

/// Returns the units that can be spent when an event enters each group. It stops at the first depth that raises none.
#[tactic(auto, using(crate::proofs::Depths::spent_none, crate::proofs::Depths::spent_more))]
pub(crate) fn spent_in(alloc: Global, facts: &Facts, groups: &[Group]) -> Result<Seq<u32>, Memory>
    ensures { IfOk result (λ spent. spent ≡ spent_in facts.now groups.now) }
{
    let mut spent = Seq::from_vec(vec![in alloc; 0; groups.len()]?);
    for _entry in 0..EVENT_ENTRIES {
        let next = next_spent(alloc, facts, groups, spent.as_slice())?;
        if same_numbers(spent.as_slice(), next.as_slice()) {
            return Ok(spent);
        }
        spent = next;
    }
    Ok(spent)
}

/// Returns the units of each group, given those at a depth less.
fn next_spent(
    alloc: Global,
    facts: &Facts,
    groups: &[Group],
    before: &[u32],
) -> Result<Seq<u32>, Memory>
    ensures { IfOk result (λ next. next ≡ after_groups facts.now groups.now before.now) }
{
    let mut next = Seq::from_slice(alloc, before)?;
    raise_groups(facts, groups, before, next.as_mut_slice());
    Ok(next)
}

/// Raises the units of each group that a group which an event can enter uses.
fn raise_groups(facts: &Facts, groups: &[Group], before: &[u32], units: &mut [u32])
    ensures { units.new ≡ fold (after_number facts.now groups.now before.now) units.old facts.now.reached }
{
    let reached = facts.reached.as_slice();
    for number in reached {
        raise_number(facts, groups, before, *number, units);
    }
}

/// Raises the units of the groups that the group of a number uses, if there is one.
fn raise_number(facts: &Facts, groups: &[Group], before: &[u32], number: u32, units: &mut [u32])
    ensures { units.new ≡ after_number facts.now groups.now before.now units.old number }
{
    match groups.get(number as usize) {
        Some(group) => raise_group(facts, units_at(before, number), group, units),
        None => {}
    }
}

/// Returns the units of a group.
pub(crate) fn units_at(units: &[u32], number: u32) -> u32
    ensures { result ≡ unwrap_or (slice_get units.now number) 0 }
{
    match units.get(number as usize) {
        Some(units) => *units,
        None => 0,
    }
}

/// Raises the units of the groups that a group uses.
fn raise_group(facts: &Facts, spent: u32, group: &Group, units: &mut [u32])
    ensures { units.new ≡ after_group facts.now spent units.old group.now }
{
    let rules = group.rules.as_slice();
    for rule in rules {
        raise_rule(facts, spent, group, rule, units);
    }
    let on_nomatch = live(group.on_nomatch.as_slice());
    raise(spent_after(&[], on_nomatch, spent), on_nomatch, units);
}

/// Raises the units of the groups that a record uses, and the match output after it.
#[tactic(auto, unfolding(crate::specs::Spent::after_rule))]
fn raise_rule(facts: &Facts, spent: u32, group: &Group, rule: &Rule, units: &mut [u32])
    ensures { units.new ≡ after_rule facts.now spent group.now units.old rule.now }
{
    let items = live(rule.output.as_slice());
    let left = spent_by(facts, rule.context.as_slice(), items, spent);
    raise(left, items, units);
    raise_match(left, group, rule, units);
}

/// Raises the units of the groups that the match output uses after a record, if its output has no `return`.
fn raise_match(spent: u32, group: &Group, rule: &Rule, units: &mut [u32])
    ensures { units.new ≡ after_match spent group.now rule.now units.old }
{
    if !ends(rule.output.as_slice()) {
        let on_match = live(group.on_match.as_slice());
        raise(spent_after(&[], on_match, spent), on_match, units);
    }
}

/// Raises the units of the groups that these items enter.
#[tactic(auto, using(crate::proofs::Folds::folds))]
fn raise(spent: u32, items: &[Out], units: &mut [u32])
    ensures { units.new ≡ raised_by spent items.now units.old }
{
    for item in items {
        raise_entered(spent, item, units);
    }
}

/// Raises the units of the group that an item enters, if any.
fn raise_entered(spent: u32, item: &Out, units: &mut [u32])
    ensures { units.new ≡ fold (raised spent) units.old (entered item.now) }
{
    match item {
        Out::Enter(group) => raise_one(spent, *group, units),
        _ => {}
    }
}

/// Raises the units of a group.
#[tactic(auto, using(crate::proofs::Folds::slots))]
fn raise_one(spent: u32, group: u32, units: &mut [u32])
    ensures { units.new ≡ raised spent units.old group }
{
    let place = group as usize;
    if place < units.len() {
        units[place] = units[place].max(spent);
    }
}

/// Returns the units that are spent after a record's items before the first `use`.
fn spent_by(facts: &Facts, context: &[Pat], items: &[Out], spent: u32) -> u32
    ensures { result ≡ spent_by facts.now context.now items.now spent }
{
    if begins_with_context(items) {
        spent_after(context, behind(items, 1), spent)
    } else {
        spent_after(context, items, with_context(facts, context, spent))
    }
}

/// Returns whether an output begins with `context`.
fn begins_with_context(items: &[Out]) -> bool
    ensures { result ≡ begins_with_context items.now }
{
    match items {
        [item, ..] => is_context(item),
        [] => false,
    }
}

fn is_context(item: &Out) -> bool
    ensures { result ≡ is_context item.now }
{
    matches!(item, Out::Context)
}

/// Returns the units that are still spent after the items before the first `use`, or after all items.
fn spent_after(context: &[Pat], items: &[Out], spent: u32) -> u32
    ensures { result ≡ spent_after context.now items.now spent }
{
    let mut left = spent;
    for item in items {
        if is_use(item) {
            return left;
        }
        left = without_put(context, item, left);
    }
    left
}

/// Returns units without the least that an item of an output puts after a context.
fn without_put(context: &[Pat], item: &Out, units: u32) -> u32
    ensures { result ≡ units - put_units context.now item.now }
{
    match item {
        Out::Char(c) => units.saturating_sub(char_units(*c)),
        Out::Mark(_) => units.saturating_sub(MARK_UNITS),
        Out::Context => without_context(context, units),
        Out::ContextAt(offset) => match context.get((*offset as usize).saturating_sub(1)) {
            Some(repeated) => units.saturating_sub(least_width(repeated)),
            None => units,
        },
        _ => units,
    }
}

/// Returns units without the least that a context matches.
fn without_context(context: &[Pat], units: u32) -> u32
    ensures { result ≡ units - sum_by least_width context.now }
{
    let mut left = units;
    for item in context {
        left = left.saturating_sub(least_width(item));
    }
    left
}

/// Returns the least units that an item of a context matches.
fn least_width(item: &Pat) -> u32
    ensures { result ≡ least_width item.now }
{
    match item {
        Pat::Char(c) => char_units(*c),
        Pat::Mark(_) => MARK_UNITS,
        Pat::Any(_) | Pat::NotAny(_) | Pat::Index(_, _) | Pat::ContextAt(_) => 1,
        _ => 0,
    }
}
