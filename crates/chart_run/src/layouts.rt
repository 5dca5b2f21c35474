//! Reads touch layouts by name.

ghost use Rattle.std.specs.Prelude.{◌≡◌, option_map};
ghost use Rattle.rule_model.specs.Tab.{tab};
ghost use Rattle.keyman_run.specs.Steps.{Gives, itself};
ghost use Rattle.chart_run.specs.Orders.{layers_work, layout_work};

use keyman_run::{Stop, read_stop};
use keyman_words::{FileName, Reason, read};
use kmn_base::limits::TEXT_BYTES;
use kmn_base::{Code, Seq, Text};
use kmn_outside::Folder;
use play_session::Session;
use rule_model::Tables;
use std::alloc::Global;
use touch_board::{TouchLayer, touch_layers};
use touch_layout::{LayoutFault, LayoutPlace, check_layout};
use virtual_keys::KeyDictionary;

/// The reason for refusing a layout over the size limit. Its place is the whole layout.
const LONG_LAYOUT: Reason = Reason::Layout(LayoutFault {
    code: Code::T7,
    place: LayoutPlace {
        platform: 0,
        layer: 0,
        row: 0,
        key: 0,
    },
});

/// Reads the touch layout for the keyboard of a session, given the tables of its file. Without a layout there are no layers.
pub(crate) fn read_layers<F: Folder>(
    alloc: Global,
    session: &Session<'_>,
    tables: &Tables,
    layout: Option<&Text>,
    folder: &mut F,
) -> Result<Seq<TouchLayer>, Stop>
    requires { session.now.tables ≡ tables.now }
    ensures { Gives itself (layers_work tables.now (option_map (λ name. name.now) layout.entry)) F.Folder folder.old folder.new result }
{
    let names = session.engine().names();
    match layout {
        Some(layout) => read_layout(alloc, names, tables, &FileName::of(layout), folder),
        None => Ok(Seq::new(alloc)),
    }
}

/// Reads a touch layout by name, checks it against the keyboard of the tables, and returns its layers.
fn read_layout<F: Folder>(
    alloc: Global,
    names: &KeyDictionary,
    tables: &Tables,
    name: &FileName<'_>,
    folder: &mut F,
) -> Result<Seq<TouchLayer>, Stop>
    requires { names.now ≡ (tab tables.now).dictionary }
    ensures { Gives itself (layout_work tables.now name.now) F.Folder folder.old folder.new result }
{
    let layout = read(alloc, name, TEXT_BYTES, folder).map_err(|error| read_stop(
        error,
        LONG_LAYOUT,
    ))?;
    let bytes = layout.as_slice();
    check_layout(alloc, bytes, tables)?;
    Ok(touch_layers(alloc, names, bytes)?)
}
