//! The record that is examined, with all that its search reads.

ghost use Rattle.std.specs.Prelude.{◌≡◌, ◌<◌, ◌^◌, length, take};

use crate::flagged::FlaggedTables;
use kmn_base::slices::before;
use rule_model::{Group, Rule};

/// The record that is examined: its number in its group, and the tables that it belongs to.
#[derive(Clone, Copy)]
pub struct Subject<'a> {
    pub tables: &'a FlaggedTables<'a>,
    pub group: &'a Group,
    /// From 0.
    pub number: u32,
    pub rule: &'a Rule,
}

impl<'a> Subject<'a> {
    /// Returns the earlier records of its group.
    pub(crate) fn rules_before(&self) -> &'a [Rule]
        ensures rules { result.now ≡ take self.now.number self.now.group.now.rules }
        ensures few { length result.now < 2 ^ 32 }
    {
        before(self.group.rules.as_slice(), self.number as usize)
    }
}
