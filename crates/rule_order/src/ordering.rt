//! The order of records: the longer context first, then the earlier line, then the smaller position, which is the key's
//! position in a key store and the order of the two records of a cased key.
//!
//! The first record that holds is selected, so this is the order of precedence. The three numbers are one sort key. If the
//! rules of a program have distinct lines, no two records have the same key, so an unstable sort has only one possible result
//! (`program_has_its_tables` of `compile_laws`). Sorting the n records of a group costs O(n log n) and does not allocate.

ghost use Rattle.std.specs.List.Sorted.{IsPermutation, IsSortedBy};
ghost use Rattle.compile_laws.specs.Compiles.{precedes, IsOrderedGroup, AreOrderedGroups};
ghost use Rattle.rule_order.specs.Order.{IsOrdered};

use rule_model::{Group, Rule, Tables};
use std::cmp::Reverse;

/// Sorts the records of each group: by falling length of the context, then by rising line, then by rising position. Version,
/// start groups and stores are unchanged.
pub fn order(tables: &mut Tables)
    ensures { IsOrdered tables.old tables.new }
{
    order_groups(tables.groups.as_mut_slice());
}

/// Sorts the records of each group.
fn order_groups(groups: &mut [Group])
    ensures { AreOrderedGroups groups.old groups.new }
{
    for group in groups.iter_mut() {
        order_group(group);
    }
}

/// Sorts the records of a group.
fn order_group(group: &mut Group)
    ensures { IsOrderedGroup group.old group.new }
{
    order_records(group.rules.as_mut_slice());
}

/// Sorts records.
fn order_records(records: &mut [Rule])
    ensures records { IsPermutation records.old records.new }
    ensures in_order { IsSortedBy precedes records.new }
{
    records.sort_unstable_by_key(|record| {
        (Reverse(record.context.len()), record.line, record.place)
    });
}
