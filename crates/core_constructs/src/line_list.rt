//! The source lines that Keyman's own engine treats differently.

ghost use Rattle.std.specs.Prelude.{◌≡◌, filter, flat_map, map, IfOk, OnOk};
ghost use Rattle.std.specs.List.{fold};
ghost use Rattle.std.specs.Ordering.{nat_cmp};
ghost use Rattle.std.specs.BTreeSet.{insert_key};
ghost use Rattle.kmn_base.specs.Rising.{rising};
ghost use Rattle.core_constructs.specs.Records.{is_told};
ghost use Rattle.core_constructs.specs.Told.{line_of, group_lines, lines_at, lines_with, line_differences};
ghost use Rattle.core_constructs.specs.Found.{found_of, found_lines, found_at, told_at};

use crate::construct::{CONSTRUCTS, Construct, Difference};
use crate::empty::is_empty_converted;
use crate::facts::{Facts, GroupFacts};
use crate::records::is_told;
use crate::spent::units_at;
use kmn_base::{LineSet, Memory, Seq};
use rule_model::{Group, Tables};
use std::alloc::Global;

/// A construct with the lines of the records that have it.
#[derive(Drop)]
struct ConstructLines {
    construct: Construct,
    lines: LineSet,
}

/// Returns the lines of all constructs, in rising order, each with those that it has.
pub(crate) fn line_differences(
    alloc: Global,
    tables: &Tables,
    facts: &Facts,
    spent: &[u32],
) -> Result<Seq<Difference>, Memory>
    ensures { IfOk result (λ list. list ≡ line_differences tables.now facts.now spent.now) }
{
    let all = found_of(alloc, tables, facts, spent, &CONSTRUCTS)?;
    let lines = all_lines(alloc, all.as_slice())?;
    let lines = lines.listed(alloc)?;
    told(alloc, all.as_slice(), lines.as_slice())
}

/// Returns each construct with the lines of the records that have it.
fn found_of(
    alloc: Global,
    tables: &Tables,
    facts: &Facts,
    spent: &[u32],
    constructs: &[Construct],
) -> Result<Seq<ConstructLines>, Memory>
    ensures { IfOk result (λ all. all ≡ map (found_of tables.now facts.now spent.now) constructs.now) }
{
    let mut all = Seq::new(alloc);
    for construct in constructs {
        let lines = lines_with(alloc, tables, facts, spent, *construct)?;
        all.add(ConstructLines {
            construct: *construct,
            lines,
        })?;
    }
    Ok(all)
}

/// Returns the lines of a construct in the groups that an event can enter.
#[tactic(auto, using(crate::proofs::Folds::folds))]
fn lines_with(
    alloc: Global,
    tables: &Tables,
    facts: &Facts,
    spent: &[u32],
    construct: Construct,
) -> Result<LineSet, Memory>
    ensures { IfOk result (λ lines. lines ≡ lines_with tables.now facts.now spent.now construct) }
{
    let mut lines = LineSet::new(alloc);
    let reached = facts.reached.as_slice();
    for number in reached {
        add_lines_at(&mut lines, construct, tables, facts, spent, *number)?;
    }
    Ok(lines)
}

/// Adds the lines of a construct in the group of a number, if there is one.
fn add_lines_at(
    lines: &mut LineSet,
    construct: Construct,
    tables: &Tables,
    facts: &Facts,
    spent: &[u32],
    number: u32,
) -> Result<(), Memory>
    ensures { OnOk result (lines.new ≡ fold (insert_key nat_cmp) lines.old (lines_at construct tables.now facts.now spent.now number)) }
{
    match tables.groups.as_slice().get(number as usize) {
        Some(group) => {
            let known = GroupFacts {
                spent: units_at(spent, number),
                converted: is_empty_converted(group),
            };
            add_group_lines(lines, construct, tables, facts, known, group)
        }
        None => Ok(()),
    }
}

/// Adds the lines of the records of a group of which a construct is told.
#[tactic(auto, unfolding(crate::specs::Told::group_lines))]
fn add_group_lines(
    lines: &mut LineSet,
    construct: Construct,
    tables: &Tables,
    facts: &Facts,
    known: GroupFacts,
    group: &Group,
) -> Result<(), Memory>
    ensures { OnOk result (lines.new ≡ fold (insert_key nat_cmp) lines.old (group_lines construct tables.now facts.now known group.now)) }
{
    let rules = group.rules.as_slice();
    for rule in rules {
        if is_told(construct, tables, facts, known, group, rule) {
            lines.add(rule.line)?;
        }
    }
    Ok(())
}

/// Returns all lines that some of these constructs have.
#[tactic(auto, using(crate::proofs::Folds::folds))]
fn all_lines(alloc: Global, all: &[ConstructLines]) -> Result<LineSet, Memory>
    ensures { IfOk result (λ lines. lines ≡ rising (flat_map found_lines all.now)) }
{
    let mut lines = LineSet::new(alloc);
    for found in all {
        lines.add_all(&found.lines)?;
    }
    Ok(lines)
}

/// Returns each line with the constructs that have it.
fn told(alloc: Global, all: &[ConstructLines], lines: &[u32]) -> Result<Seq<Difference>, Memory>
    ensures { IfOk result (λ told. told ≡ map (told_at all.now) lines.now) }
{
    let mut told = Seq::new(alloc);
    for line in lines {
        let constructs = constructs_at(alloc, all, *line)?;
        told.add(Difference {
            line: *line,
            constructs,
        })?;
    }
    Ok(told)
}

/// Returns the constructs that have a line.
fn constructs_at(alloc: Global, all: &[ConstructLines], line: u32) -> Result<Seq<Construct>, Memory>
    ensures { IfOk result (λ constructs. constructs ≡ found_at all.now line) }
{
    let mut constructs = Seq::new(alloc);
    for found in all {
        if found.lines.has(line) {
            constructs.add(found.construct)?;
        }
    }
    Ok(constructs)
}
