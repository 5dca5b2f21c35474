//! The groups whose match or nomatch output Keyman's own engine treats differently.

ghost use Rattle.std.specs.Prelude.{◌≡◌, ◌++◌, filter, map, slice_get, IfOk, OnOk};
ghost use Rattle.core_constructs.specs.Changes.{saves_early};
ghost use Rattle.core_constructs.specs.Told.{group_has, group_difference, differences_of, differences_in, differences_at, group_differences};

use crate::changes::saves_early;
use crate::construct::{GROUP_CONSTRUCTS, GroupConstruct, GroupDifference};
use crate::facts::Facts;
use crate::outputs::{acts_after_use, live, some_sets_layer};
use kmn_base::{Memory, Seq};
use rule_model::{Group, Out, Tables};
use std::alloc::Global;

/// Returns the constructs of the groups that an event can enter, in rising order of the groups.
#[tactic(auto, unfolding(crate::specs::Told::group_differences))]
pub(crate) fn group_differences(
    alloc: Global,
    tables: &Tables,
    facts: &Facts,
) -> Result<Seq<GroupDifference>, Memory>
    ensures { IfOk result (λ list. list ≡ group_differences tables.now facts.now) }
{
    let mut list = Seq::new(alloc);
    let groups = tables.groups.as_slice();
    let reached = facts.reached.as_slice();
    for number in reached {
        add_at(&mut list, groups, facts, *number)?;
    }
    Ok(list)
}

/// Adds the constructs of the group of a number, if there is one.
fn add_at(
    list: &mut Seq<GroupDifference>,
    groups: &[Group],
    facts: &Facts,
    number: u32,
) -> Result<(), Memory>
    ensures { OnOk result (list.new ≡ list.old ++ differences_in facts.now number (slice_get groups.now number)) }
{
    match groups.get(number as usize) {
        Some(group) => add_group(list, facts, number, group, &GROUP_CONSTRUCTS),
        None => Ok(()),
    }
}

/// Adds those of these constructs that a group has.
fn add_group(
    list: &mut Seq<GroupDifference>,
    facts: &Facts,
    number: u32,
    group: &Group,
    constructs: &[GroupConstruct],
) -> Result<(), Memory>
    ensures { OnOk result (list.new ≡ list.old ++ map (group_difference number) (filter (group_has facts.now group.now) constructs.now)) }
{
    for construct in constructs {
        if group_has(facts, group, *construct) {
            list.add(GroupDifference {
                group: number,
                construct: *construct,
            })?;
        }
    }
    Ok(())
}

/// Returns whether the match or the nomatch output of a group has a construct.
fn group_has(facts: &Facts, group: &Group, construct: GroupConstruct) -> bool
    ensures { result ≡ group_has facts.now group.now construct }
{
    let on_match = live(group.on_match.as_slice());
    let on_nomatch = live(group.on_nomatch.as_slice());
    match construct {
        GroupConstruct::Use => acts_after_use(on_match) || acts_after_use(on_nomatch),
        GroupConstruct::Save => saves_alone(facts, on_match) || saves_alone(facts, on_nomatch),
        GroupConstruct::Layer => some_sets_layer(on_match) || some_sets_layer(on_nomatch),
        GroupConstruct::Nomatch => group.using_keys && !group.on_nomatch.is_empty(),
    }
}

/// Returns whether one of the items saves an option that an item after it may change.
#[tactic(auto, using(crate::proofs::Saved::append_none))]
fn saves_alone(facts: &Facts, items: &[Out]) -> bool
    ensures { result ≡ saves_early facts.now.changes items.now }
{
    saves_early(facts.changes.as_slice(), items, &[])
}
