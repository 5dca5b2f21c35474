//! A row of an index: a record or an element by its class and its number.

ghost use Rattle.std.specs.Prelude.{◌<◌};
ghost use Rattle.rule_index.specs.declared.row.TheConstants.{NO_ROW};

use crate::class::Class;

/// A number that is greater than the number of each row.
pub(crate) const NO_ROW: u32 = 131_072;

/// A record or an element: its class, and its index in the group or the store.
#[derive(Clone, Copy, Drop)]
pub struct Row {
    pub class: Class,
    pub number: u32,
    ghost small: { number < NO_ROW },
}
