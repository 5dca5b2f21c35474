//! W04: groups that no key press enters.

ghost use Rattle.std.specs.Prelude.{◌≡◌, ◌++◌, slice_get, IfOk, OnOk};
ghost use Rattle.store_table.specs.Names.{group_names};
ghost use Rattle.name_warnings.specs.Groups.{groups_never_entered, is_reached, reached_groups, unentered, unreached_group, unreached_groups, visited, with_number, with_uses};

use crate::warning::{Warning, WarningKind};
use indexmap::IndexSet;
use kmn_base::{Memory, Text};
use rule_model::{GroupDef, Program};
use source_uses::{Part, Role, Use, add_words, begin_uses, group_uses};
use std::alloc::Global;
use store_table::NameTable;

/// Appends W04: a warning at each group that is not reached from a begin statement by the `use` items of reached groups. Names among
/// `aside` are left out.
pub fn add_never_entered(
    alloc: Global,
    found: &mut Vec<Warning>,
    program: &Program,
    aside: &[Text],
) -> Result<(), Memory>
    ensures { OnOk result (found.new.items ≡ found.old.items ++ groups_never_entered program.now aside.now) }
{
    let names = group_names(alloc, program.groups.as_slice())?;
    let mut others = NameTable::new(alloc);
    add_words(&mut others, aside)?;
    add_unentered(alloc, found, &names, &others, program)
}

/// Appends a warning at each group that is not reached and whose name is not among others, of a program whose groups have these names.
fn add_unentered(
    alloc: Global,
    found: &mut Vec<Warning>,
    names: &NameTable,
    others: &NameTable,
    program: &Program,
) -> Result<(), Memory>
    ensures { OnOk result (found.new.items ≡ found.old.items ++ unentered names.now others.now program.now) }
{
    let reached = reached_groups(alloc, names, program)?;
    add_unreached(
        alloc,
        found,
        names,
        &reached,
        others,
        program.groups.as_slice(),
    )
}

/// Returns the names of groups.
#[tactic(auto, using(store_table::proofs::Firsts::groups_step))]
fn group_names(alloc: Global, groups: &[GroupDef]) -> Result<NameTable, Memory>
    ensures { IfOk result (λ names. names ≡ group_names groups.now) }
{
    let mut names = NameTable::new(alloc);
    for group in groups {
        names.push(group.name.as_slice())?;
    }
    Ok(names)
}

/// Returns the numbers of the groups that are reached from begin statements.
#[tactic(auto, using(crate::proofs::Reached::reached_none, crate::proofs::Reached::reached_more))]
fn reached_groups(
    alloc: Global,
    names: &NameTable,
    program: &Program,
) -> Result<IndexSet<usize>, Memory>
    ensures { IfOk result (λ reached. reached.keys ≡ reached_groups names.now program.now) }
{
    let groups = program.groups.as_slice();
    let mut reached = IndexSet::new(alloc);
    let starts = begin_uses(alloc, program.begins.as_slice())?;
    add_entered(&mut reached, names, starts.as_slice())?;
    for place in 0..groups.len() {
        visit(alloc, &mut reached, names, groups, place)?;
    }
    Ok(reached)
}

/// Adds the groups that the statements of the reached group at a place enter, if there is one.
fn visit(
    alloc: Global,
    reached: &mut IndexSet<usize>,
    names: &NameTable,
    groups: &[GroupDef],
    place: usize,
) -> Result<(), Memory>
    ensures { OnOk result (reached.new.keys ≡ visited names.now groups.now place reached.old.keys) }
{
    let Some(number) = reached_at(reached, place) else {
        return Ok(());
    };
    match groups.get(number) {
        Some(group) => {
            let uses = group_uses(alloc, Role::Group, Part::Output, group)?;
            add_entered(reached, names, uses.as_slice())
        }
        None => Ok(()),
    }
}

/// Returns the number of the reached group at a place.
fn reached_at(reached: &IndexSet<usize>, place: usize) -> Option<usize>
    ensures { result ≡ slice_get reached.now.keys place }
{
    let number = reached.get_index(place)?;
    Some(*number)
}

/// Adds the groups with the names of these uses.
fn add_entered(reached: &mut IndexSet<usize>, names: &NameTable, uses: &[Use]) -> Result<(), Memory>
    ensures { OnOk result (reached.new.keys ≡ with_uses names.now reached.old.keys uses.now) }
{
    for found in uses {
        add_number(reached, names.place_of(found.name.as_slice()))?;
    }
    Ok(())
}

/// Adds the number of a group, if there is one and it is new.
fn add_number(reached: &mut IndexSet<usize>, number: Option<usize>) -> Result<(), Memory>
    ensures { OnOk result (reached.new.keys ≡ with_number reached.old.keys number) }
{
    match number {
        Some(number) => {
            reached.insert(number)?;
            Ok(())
        }
        None => Ok(()),
    }
}

/// Appends a warning at each group that is not reached and whose name is not among others.
fn add_unreached(
    alloc: Global,
    found: &mut Vec<Warning>,
    names: &NameTable,
    reached: &IndexSet<usize>,
    others: &NameTable,
    groups: &[GroupDef],
) -> Result<(), Memory>
    ensures { OnOk result (found.new.items ≡ found.old.items ++ unreached_groups names.now reached.now.keys others.now groups.now) }
{
    for group in groups {
        add_unreached_group(alloc, found, names, reached, others, group)?;
    }
    Ok(())
}

/// Appends a warning at a group that is not reached and whose name is not among others.
fn add_unreached_group(
    alloc: Global,
    found: &mut Vec<Warning>,
    names: &NameTable,
    reached: &IndexSet<usize>,
    others: &NameTable,
    group: &GroupDef,
) -> Result<(), Memory>
    ensures { OnOk result (found.new.items ≡ found.old.items ++ unreached_group names.now reached.now.keys others.now group.now) }
{
    let name = group.name.as_slice();
    if is_reached(reached, names.place_of(name)) || others.has(name) {
        return Ok(());
    }
    let group_name = group.name.copy(alloc)?;
    found.push(Warning {
        line: group.line,
        kind: WarningKind::GroupNeverEntered { group: group_name },
    })?;
    Ok(())
}

/// Returns whether the group of a number is reached.
fn is_reached(reached: &IndexSet<usize>, number: Option<usize>) -> bool
    ensures { result ≡ is_reached reached.now.keys number }
{
    match number {
        Some(number) => reached.contains(&number),
        None => false,
    }
}
