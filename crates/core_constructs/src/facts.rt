//! What is known of a keyboard before its records are judged.

ghost use Rattle.std.specs.Prelude.{◌≡◌, IfOk};
ghost use Rattle.core_constructs.specs.Facts.{facts_of};

use crate::changes::may_change;
use crate::marks::put_marks;
use crate::options::options;
use crate::reached::reached_groups;
use crate::widths::units_of;
use kmn_base::{LineSet, Memory, Seq};
use rule_model::Tables;
use std::alloc::Global;

/// What is known of a keyboard.
#[derive(Drop)]
pub struct Facts {
    /// The stores that are options.
    pub options: LineSet,
    /// The units of the widest element of each store.
    pub units: Seq<u32>,
    /// The marks that outputs put.
    pub marks: LineSet,
    /// The groups that an event can enter, in rising order.
    pub reached: Seq<u32>,
    /// The options that each group may change.
    pub changes: Seq<LineSet>,
}

/// What is known of a group.
#[derive(Clone, Copy)]
pub struct GroupFacts {
    /// The units that can be spent when an event enters it.
    pub spent: u32,
    /// Whether its nomatch output does what its records with an empty context do.
    pub converted: bool,
}

/// Returns what is known of a keyboard.
pub(crate) fn facts_of(alloc: Global, tables: &Tables) -> Result<Facts, Memory>
    ensures { IfOk result (λ facts. facts ≡ facts_of tables.now) }
{
    let options = options(alloc, tables)?;
    let units = units_of(alloc, tables.stores.as_slice())?;
    let marks = put_marks(alloc, tables)?;
    let reached = reached_groups(alloc, tables)?;
    let changes = may_change(alloc, tables)?;
    Ok(Facts {
        options,
        units,
        marks,
        reached,
        changes,
    })
}
