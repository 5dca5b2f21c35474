//! Reads and checks touch layouts.

ghost use Rattle.std.specs.Prelude.{◌≡◌};
ghost use Rattle.keyman_run.specs.Orders.{keys_work};
ghost use Rattle.keyman_run.specs.Steps.{Gives, itself};

use crate::preparing::{Stop, read_stop};
use keyman_words::{FileName, Reason, read};
use kmn_base::Code;
use kmn_base::limits::TEXT_BYTES;
use kmn_outside::Folder;
use rule_model::Tables;
use std::alloc::Global;
use touch_layout::{LayoutError, LayoutFault, LayoutPlace, check_layout};

/// The reason for refusing a layout over the size limit. Its place is the whole layout.
const LONG_LAYOUT: Reason = Reason::Layout(LayoutFault {
    code: Code::T7,
    place: LayoutPlace {
        platform: 0,
        layer: 0,
        row: 0,
        key: 0,
    },
});

/// Reads a touch layout by name, checks it against the keyboard of the tables, and returns the number of its keys.
pub fn read_keys<F: Folder>(
    alloc: Global,
    name: &FileName<'_>,
    tables: &Tables,
    folder: &mut F,
) -> Result<u32, Stop>
    ensures { Gives itself (keys_work tables.now name.now) F.Folder folder.old folder.new result }
{
    let layout = read(alloc, name, TEXT_BYTES, folder).map_err(|error| read_stop(
        error,
        LONG_LAYOUT,
    ))?;
    Ok(check_layout(alloc, layout.as_slice(), tables)?)
}

impl From<LayoutError> for Stop {
    ghost use Rattle.keyman_run.specs.Steps.{layout_stop};

    ghost from_gives = { λ error given. given ≡ layout_stop error };

    fn from(error: LayoutError) -> Stop {
        match error {
            LayoutError::Refused(fault) => Stop::Refused(Reason::Layout(fault)),
            LayoutError::Memory => Stop::Memory,
        }
    }
}
