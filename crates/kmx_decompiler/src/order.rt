//! Finds the first record whose context is longer than the context of the record before it.

ghost use Rattle.std.specs.Prelude.{◌≡◌};
ghost use Rattle.kmx_decompiler.specs.Unspelled.{first_longer, disorder};

use crate::NoSpelling;
use crate::items::item_count;
use kmx_parts::{FileGroup, FileTables};

/// Returns the refusal of the first record of all groups that has a longer context than the record before it, if any.
pub(crate) fn disorder(file: &FileTables<'_>) -> Option<NoSpelling>
    ensures { result ≡ disorder 0 file.now.groups }
{
    for group in 0..file.group_count() {
        let records = file.group(group)?;
        if let Some(rule) = first_longer(&records) {
            return Some(NoSpelling::Order { group, rule });
        }
    }
    None
}

/// Returns the number of the first record of a group that has a longer context than the record before it, if any. Records are counted
/// from 0.
#[tactic(auto, using(crate::proofs::OrderSteps::none_longer))]
fn first_longer(group: &FileGroup<'_>) -> Option<u32>
    ensures { result ≡ first_longer group.now.rules }
{
    let first = group.rule(0)?;
    let mut previous = item_count(first.context());
    for number in 1..group.rule_count() {
        let rule = group.rule(number)?;
        let length = item_count(rule.context());
        if previous < length {
            return Some(number);
        }
        previous = length;
    }
    None
}
