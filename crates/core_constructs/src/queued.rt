//! The effects that an event can queue in Keyman's own engine.

ghost use Rattle.std.specs.Prelude.{◌≡◌, flat_map, map, max, slice_get, unwrap_or, IfOk};
ghost use Rattle.std.specs.Bool.{Decides};
ghost use Rattle.std.specs.List.{fold};
ghost use Rattle.kmn_base.specs.declared.limits.TheConstants.{EVENT_ENTRIES};
ghost use Rattle.core_constructs.specs.Marks.{rule_items, group_items};
ghost use Rattle.core_constructs.specs.Queued.{counted, item_effects, with_effects, rule_effects, group_effects, entered_effects, chain_effects, effects_within, overflows};

use crate::outputs::live;
use kmn_base::limits::EVENT_ENTRIES;
use kmn_base::{Memory, Seq};
use rule_model::{Group, Out, Rule, Tables};
use std::alloc::Global;

/// One more than the places of the queue, up to which effects are counted.
const MOST_EFFECTS: usize = 1_025;
/// The marks and the character that K_BKSP deletes at most.
const DELETED_ITEMS: usize = 22;

/// Returns whether an event can queue more than 1,024 effects in a chain of groups.
pub(crate) fn overflows(alloc: Global, tables: &Tables) -> Result<bool, Memory>
    ensures { IfOk result (λ is. is ≡ overflows tables.now) }
{
    let effects = effects_of(alloc, tables.groups.as_slice())?;
    Ok(MOST_EFFECTS - 1 < effects_at(effects.as_slice(), tables.start_unicode))
}

/// Returns the most effects of a chain of groups from each group on. It stops at the first depth that changes none.
#[tactic(auto, using(crate::proofs::Depths::effects_none, crate::proofs::Depths::effects_more))]
fn effects_of(alloc: Global, groups: &[Group]) -> Result<Seq<usize>, Memory>
    ensures { IfOk result (λ effects. effects ≡ effects_within EVENT_ENTRIES groups.now) }
{
    let mut effects = Seq::new(alloc);
    for _entry in 0..EVENT_ENTRIES {
        let next = next_effects(alloc, effects.as_slice(), groups)?;
        if same_counts(effects.as_slice(), next.as_slice()) {
            return Ok(effects);
        }
        effects = next;
    }
    Ok(effects)
}

/// Returns whether two lists of counts are the same.
fn same_counts(a: &[usize], b: &[usize]) -> bool
    ensures { Decides result (a.now ≡ b.now) }
{
    a == b
}

/// Returns the effects of the chains of groups from each group on, given those from the groups that it uses on.
fn next_effects(alloc: Global, used: &[usize], groups: &[Group]) -> Result<Seq<usize>, Memory>
    ensures { IfOk result (λ next. next ≡ map (chain_effects used.now) groups.now) }
{
    let mut next = Seq::new(alloc);
    for group in groups {
        next.add(chain_effects(used, group))?;
    }
    Ok(next)
}

/// Returns the most effects of a chain of groups from a group on.
#[tactic(auto, using(crate::proofs::Folds::entered_most))]
fn chain_effects(used: &[usize], group: &Group) -> usize
    ensures { result ≡ chain_effects used.now group.now }
{
    let most = entered_in_rules(used, group.rules.as_slice());
    let most = most_entered(used, live(group.on_match.as_slice()), most);
    let most = most_entered(used, live(group.on_nomatch.as_slice()), most);
    counted(group_effects(group), most)
}

/// Returns the most effects of the groups that the outputs of records enter.
#[tactic(auto, using(crate::proofs::Folds::entered_most))]
fn entered_in_rules(used: &[usize], rules: &[Rule]) -> usize
    ensures { result ≡ fold max 0 (map (entered_effects used.now) (flat_map rule_items rules.now)) }
{
    let mut most = 0;
    for rule in rules {
        most = most_entered(used, live(rule.output.as_slice()), most);
    }
    most
}

/// Returns the most effects of the groups that these items enter, and at least `least`.
fn most_entered(used: &[usize], items: &[Out], least: usize) -> usize
    ensures { result ≡ fold max least (map (entered_effects used.now) items.now) }
{
    let mut most = least;
    for item in items {
        most = most.max(entered_effects(used, item));
    }
    most
}

/// Returns the effects of the group that an item enters.
fn entered_effects(used: &[usize], item: &Out) -> usize
    ensures { result ≡ entered_effects used.now item.now }
{
    match item {
        Out::Enter(group) => effects_at(used, *group),
        _ => 0,
    }
}

/// Returns the effects from a group on.
fn effects_at(effects: &[usize], group: u32) -> usize
    ensures { result ≡ unwrap_or (slice_get effects.now group) 0 }
{
    match effects.get(group as usize) {
        Some(effects) => *effects,
        None => 0,
    }
}

/// Returns the effects of a group.
fn group_effects(group: &Group) -> usize
    ensures { result ≡ group_effects group.now }
{
    let nomatch = with_effects(0, live(group.on_nomatch.as_slice()), 1);
    let mut most = DELETED_ITEMS.max(nomatch);
    let rules = group.rules.as_slice();
    for rule in rules {
        most = most.max(rule_effects(group, rule));
    }
    most
}

/// Returns the effects of a record.
#[tactic(auto, unfolding(crate::specs::Queued::rule_effects))]
fn rule_effects(group: &Group, rule: &Rule) -> usize
    ensures { result ≡ rule_effects group.now rule.now }
{
    let length = rule.context.len();
    let deleted = counted(0, length);
    let put = with_effects(length, live(rule.output.as_slice()), deleted);
    with_effects(0, live(group.on_match.as_slice()), put)
}

/// Returns a count with the effects of these items, after a context of a length.
fn with_effects(length: usize, items: &[Out], count: usize) -> usize
    ensures { result ≡ with_effects length items.now count }
{
    let mut total = count.min(MOST_EFFECTS);
    for item in items {
        total = counted(total, item_effects(length, item));
    }
    total
}

/// Returns the effects of an item, after a context of a length.
fn item_effects(length: usize, item: &Out) -> usize
    ensures { result ≡ item_effects length item.now }
{
    match item {
        Out::Context => length,
        Out::Enter(_)
        | Out::Set(_, _)
        | Out::SetSystem(_, _)
        | Out::Reset(_)
        | Out::Nul
        | Out::Stop => 0,
        _ => 1,
    }
}

/// Returns the sum of two counts, up to 1,025.
fn counted(a: usize, b: usize) -> usize
    ensures { result ≡ counted a b }
{
    (a.min(MOST_EFFECTS) + b.min(MOST_EFFECTS)).min(MOST_EFFECTS)
}
