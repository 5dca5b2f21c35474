//! Reads the bytes of a layout.

ghost use Rattle.std.specs.Prelude.{◌≡◌, IfOk, option_map};
ghost use Rattle.serde_json.specs.View.{view};
ghost use Rattle.touch_board.specs.Layers.{value_of, touch_layers};

use crate::layers::{TouchLayer, root_layers};
use kmn_base::texts::without_bom;
use kmn_base::{Memory, Seq};
use serde_json::Value;
use std::alloc::Global;
use std::str;
use virtual_keys::KeyDictionary;

/// Returns the layers of the bytes of a layout, for a keyboard with these custom keys. Whatever is absent or has another shape
/// is left out, so bytes that aren't JSON have no layers. Errors: `Memory` if an allocation fails.
#[tactic(auto, unfolding(crate::specs::Layers::touch_layers))]
pub fn touch_layers(
    alloc: Global,
    names: &KeyDictionary,
    bytes: &[u8],
) -> Result<Seq<TouchLayer>, Memory>
    ensures { IfOk result (λ layers. layers ≡ touch_layers names.now bytes.now) }
{
    match read_value(alloc, without_bom(bytes))? {
        Some(root) => root_layers(alloc, names, &root),
        None => Ok(Seq::new(alloc)),
    }
}

/// Returns the JSON value of bytes, or `None` if they are not JSON in UTF-8.
fn read_value(alloc: Global, bytes: &[u8]) -> Result<Option<Value>, Memory>
    ensures { IfOk result (λ value. option_map view value ≡ value_of bytes.now) }
{
    let Ok(text) = str::from_utf8(bytes) else {
        return Ok(None);
    };
    match Value::from_str(alloc, text) {
        Ok(value) => Ok(Some(value)),
        Err(error) => if error.is_memory() {
            Err(Memory)
        } else {
            Ok(None)
        },
    }
}
