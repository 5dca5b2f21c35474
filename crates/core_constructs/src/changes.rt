//! The options that an event may set or reset once it enters a group.

ghost use Rattle.std.specs.Prelude.{◌≡◌, ◌++◌, flat_map, map, IfOk, OnOk};
ghost use Rattle.std.specs.Bool.{Decides};
ghost use Rattle.std.specs.List.{fold, list_any};
ghost use Rattle.std.specs.Ordering.{nat_cmp};
ghost use Rattle.std.specs.BTreeSet.{insert_key};
ghost use Rattle.core_constructs.specs.Marks.{rule_items};
ghost use Rattle.core_constructs.specs.Changes.{item_changes, group_changes, may_change, changes_option, is_saved_early, saves_early, saves_before};

use crate::outputs::live;
use crate::sets::same_numbers;
use kmn_base::limits::EVENT_ENTRIES;
use kmn_base::slices::behind;
use kmn_base::{LineSet, Memory, Seq};
use rule_model::{Group, Out, Rule, Tables};
use std::alloc::Global;

/// Returns the options that each group may change. It stops at the first depth that adds none.
#[tactic(auto, using(crate::proofs::Depths::changes_none, crate::proofs::Depths::changes_more))]
pub(crate) fn may_change(alloc: Global, tables: &Tables) -> Result<Seq<LineSet>, Memory>
    ensures { IfOk result (λ changes. changes ≡ may_change tables.now) }
{
    let groups = tables.groups.as_slice();
    let mut changes = Seq::new(alloc);
    for _entry in 0..EVENT_ENTRIES {
        let next = next_changes(alloc, changes.as_slice(), groups)?;
        let same = same_changes(alloc, changes.as_slice(), next.as_slice())?;
        if same {
            return Ok(changes);
        }
        changes = next;
    }
    Ok(changes)
}

/// Returns whether two lists of sets are the same.
fn same_changes(alloc: Global, a: &[LineSet], b: &[LineSet]) -> Result<bool, Memory>
    ensures { IfOk result (λ same. Decides same (a.now ≡ b.now)) }
{
    if a.len() != b.len() {
        return Ok(false);
    }
    for i in 0..a.len() {
        let same = same_set(alloc, &a[i], &b[i])?;
        if !same {
            return Ok(false);
        }
    }
    Ok(true)
}

/// Returns whether two sets are the same.
fn same_set(alloc: Global, a: &LineSet, b: &LineSet) -> Result<bool, Memory>
    ensures { IfOk result (λ same. Decides same (a.now ≡ b.now)) }
{
    let numbers = a.listed(alloc)?;
    let others = b.listed(alloc)?;
    Ok(same_numbers(numbers.as_slice(), others.as_slice()))
}

/// Returns the options that each group may change, given those that the groups it uses may change.
fn next_changes(alloc: Global, used: &[LineSet], groups: &[Group]) -> Result<Seq<LineSet>, Memory>
    ensures { IfOk result (λ next. next ≡ map (group_changes used.now) groups.now) }
{
    let mut next = Seq::new(alloc);
    for group in groups {
        let changes = group_changes(alloc, used, group)?;
        next.add(changes)?;
    }
    Ok(next)
}

/// Returns the options that a group may change.
#[tactic(auto, using(crate::proofs::Folds::folds))]
fn group_changes(alloc: Global, used: &[LineSet], group: &Group) -> Result<LineSet, Memory>
    ensures { IfOk result (λ changes. changes ≡ group_changes used.now group.now) }
{
    let mut changes = LineSet::new(alloc);
    add_rules(&mut changes, used, group.rules.as_slice())?;
    add_items(&mut changes, used, live(group.on_match.as_slice()))?;
    add_items(&mut changes, used, live(group.on_nomatch.as_slice()))?;
    Ok(changes)
}

/// Adds the options that records may change.
#[tactic(auto, using(crate::proofs::Folds::folds))]
fn add_rules(changes: &mut LineSet, used: &[LineSet], rules: &[Rule]) -> Result<(), Memory>
    ensures { OnOk result (changes.new ≡ fold (insert_key nat_cmp) changes.old (flat_map (item_changes used.now) (flat_map rule_items rules.now))) }
{
    for rule in rules {
        add_items(changes, used, live(rule.output.as_slice()))?;
    }
    Ok(())
}

/// Adds the options that these items may change.
#[tactic(auto, using(crate::proofs::Folds::folds))]
fn add_items(changes: &mut LineSet, used: &[LineSet], items: &[Out]) -> Result<(), Memory>
    ensures { OnOk result (changes.new ≡ fold (insert_key nat_cmp) changes.old (flat_map (item_changes used.now) items.now)) }
{
    for item in items {
        add_item(changes, used, item)?;
    }
    Ok(())
}

/// Adds the options that an item may change.
fn add_item(changes: &mut LineSet, used: &[LineSet], item: &Out) -> Result<(), Memory>
    ensures { OnOk result (changes.new ≡ fold (insert_key nat_cmp) changes.old (item_changes used.now item.now)) }
{
    match item {
        Out::Set(store, _) | Out::Reset(store) => changes.add(*store),
        Out::Enter(group) => match used.get(*group as usize) {
            Some(others) => changes.add_all(others),
            None => Ok(()),
        },
        _ => Ok(()),
    }
}

/// Returns whether one of the items, or of more items after them, saves an option that an item after it may change.
#[tactic(auto, using(crate::proofs::Saved::saves_in_both))]
pub(crate) fn saves_early(changes: &[LineSet], items: &[Out], more: &[Out]) -> bool
    ensures { result ≡ saves_early changes.now (items.now ++ more.now) }
{
    saves_before(changes, items, more) || saves_before(changes, more, &[])
}

/// Returns whether one of the items saves an option that an item after it, or one of `more`, may change.
fn saves_before(changes: &[LineSet], items: &[Out], more: &[Out]) -> bool
    ensures { result ≡ saves_before changes.now items.now more.now }
{
    for i in 0..items.len() {
        if is_saved_early(changes, &items[i], behind(items, i + 1), more) {
            return true;
        }
    }
    false
}

/// Returns whether an item saves an option that one of `items` or `more` may change.
#[tactic(auto, using(crate::proofs::Saved::any_in_both))]
fn is_saved_early(changes: &[LineSet], item: &Out, items: &[Out], more: &[Out]) -> bool
    ensures { result ≡ is_saved_early changes.now item.now (items.now ++ more.now) }
{
    match item {
        Out::Save(option) => {
            some_changes(changes, *option, items) || some_changes(changes, *option, more)
        }
        _ => false,
    }
}

/// Returns whether one of the items may change an option.
fn some_changes(changes: &[LineSet], option: u32, items: &[Out]) -> bool
    ensures { result ≡ list_any (changes_option changes.now option) items.now }
{
    items
        .iter()
        .any(|item| changes_option(changes, option, item))
}

/// Returns whether an item may change an option.
fn changes_option(changes: &[LineSet], option: u32, item: &Out) -> bool
    ensures { result ≡ changes_option changes.now option item.now }
{
    match item {
        Out::Set(store, _) | Out::Reset(store) => *store == option,
        Out::Enter(group) => match changes.get(*group as usize) {
            Some(others) => others.has(option),
            None => false,
        },
        _ => false,
    }
}
