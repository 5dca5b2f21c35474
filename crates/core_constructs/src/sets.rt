//! Sets that grow by a number that may be missing, and lists of numbers that are compared.

ghost use Rattle.std.specs.Prelude.{◌≡◌, option_to_list, OnOk};
ghost use Rattle.std.specs.Bool.{Decides};
ghost use Rattle.std.specs.List.{fold};
ghost use Rattle.std.specs.Ordering.{nat_cmp};
ghost use Rattle.std.specs.BTreeSet.{insert_key};

use kmn_base::{LineSet, Memory};

/// Adds a number to a set, if there is one.
pub(crate) fn add_some(set: &mut LineSet, number: Option<u32>) -> Result<(), Memory>
    ensures { OnOk result (set.new ≡ fold (insert_key nat_cmp) set.old (option_to_list number)) }
{
    match number {
        Some(number) => set.add(number),
        None => Ok(()),
    }
}

/// Returns whether two lists of numbers are the same.
pub(crate) fn same_numbers(a: &[u32], b: &[u32]) -> bool
    ensures { Decides result (a.now ≡ b.now) }
{
    a == b
}
