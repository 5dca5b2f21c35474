//! Reads the ids of the keys of a touch layout.

ghost use Rattle.check_run.specs.Orders.{ids_work};
ghost use Rattle.keyman_run.specs.Steps.{Gives, itself};

use keyman_run::{Stop, read_stop};
use keyman_words::{FileName, Reason, read};
use kmn_base::limits::TEXT_BYTES;
use kmn_base::{Code, Seq, Text};
use kmn_outside::Folder;
use rule_model::Tables;
use std::alloc::Global;
use touch_layout::{LayoutFault, LayoutPlace, check_layout, layout_ids};

/// The reason for refusing a layout over the size limit. Its place is the whole layout.
const LONG_LAYOUT: Reason = Reason::Layout(LayoutFault {
    code: Code::T7,
    place: LayoutPlace {
        platform: 0,
        layer: 0,
        row: 0,
        key: 0,
    },
});

/// Reads a touch layout by name, checks it against the keyboard of the tables, and returns the ids of its keys.
pub(crate) fn read_ids<F: Folder>(
    alloc: Global,
    tables: &Tables,
    name: &FileName<'_>,
    folder: &mut F,
) -> Result<Seq<Text>, Stop>
    ensures { Gives itself (ids_work tables.now name.now) F.Folder folder.old folder.new result }
{
    let layout = read(alloc, name, TEXT_BYTES, folder).map_err(|error| read_stop(
        error,
        LONG_LAYOUT,
    ))?;
    let bytes = layout.as_slice();
    check_layout(alloc, bytes, tables)?;
    Ok(layout_ids(alloc, bytes)?)
}
