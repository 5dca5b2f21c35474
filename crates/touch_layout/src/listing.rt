//! Lists the ids of the keys of a layout.

ghost use Rattle.std.specs.Prelude.{◌≡◌, map, Some, IfOk};
ghost use Rattle.serde_json.specs.View.{view};
ghost use Rattle.touch_layout.specs.Keys.{keys_view};
ghost use Rattle.touch_layout.specs.Layout.{id_of, ids_of, layout_ids, read_layout};

use crate::check::read_value;
use crate::keys::TouchKey;
use crate::layers::{Unfit, layout};
use kmn_base::limits::TEXT_BYTES;
use kmn_base::texts::without_bom;
use kmn_base::{Memory, Seq, Text};
use serde_json::Value;
use std::alloc::Global;

/// Returns the ids of all keys of a layout, including subkeys, in the order of their places. The id of a key without an id is empty. Bytes
/// that are not a layout have no ids. Errors: `Memory` if an allocation fails.
pub fn layout_ids(alloc: Global, bytes: &[u8]) -> Result<Seq<Text>, Memory>
    ensures { IfOk result (λ ids. ids ≡ layout_ids bytes.now) }
{
    if bytes.len() > TEXT_BYTES {
        return Ok(Seq::new(alloc));
    }
    match read_value(alloc, without_bom(bytes))? {
        Some(root) => value_ids(alloc, &root),
        None => Ok(Seq::new(alloc)),
    }
}

/// Returns the ids of the keys of the layout of a value.
fn value_ids(alloc: Global, root: &Value) -> Result<Seq<Text>, Memory>
    ensures { IfOk result (λ ids. ids ≡ ids_of (read_layout (Some (view root.now)))) }
{
    match layout(alloc, root) {
        Ok(found) => key_ids(alloc, found.keys.as_slice()),
        Err(Unfit::Shape(_)) => Ok(Seq::new(alloc)),
        Err(Unfit::Memory) => Err(Memory),
    }
}

/// Returns the ids of keys.
fn key_ids(alloc: Global, keys: &[TouchKey<'_>]) -> Result<Seq<Text>, Memory>
    ensures { IfOk result (λ ids. ids ≡ map id_of (keys_view keys.now)) }
{
    let mut ids = Seq::new(alloc);
    for key in keys {
        ids.add(Seq::from_slice(alloc, key.id.as_bytes())?)?;
    }
    Ok(ids)
}
