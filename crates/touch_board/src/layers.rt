//! Reads the layers of a layout, with the places and sizes of their keys.

ghost use Rattle.std.specs.Prelude.{◌≡◌, ◌++◌, ◌≤◌, ◌∷◌, [], IfOk, option_map, codes};
ghost use Rattle.serde_json.specs.View.{view, items_view};
ghost use Rattle.touch_board.specs.Layers.{code_of, touch_key, drawn_key, row_keys, row_end, keys_at, end_at, below, rows_keys, rows_height, rows_width, layer_with, layer_of, layers_in, platform_layers, root_layers, left_of, right_of};

use crate::caps::{cap_of, id_of, list_in, put_more};
use crate::sizes::{is_spacer, pad_of, width_of};
use chart_board::Key;
use kmn_base::{Memory, Seq, Text};
use serde_json::Value;
use std::alloc::Global;
use virtual_keys::{KeyDictionary, key_named};

/// A place that is farther away counts as this one.
const FARTHEST: u32 = 60_000;

/// The height of a row, with the space below its keys.
const ROW: u32 = 76;

/// A key of a touch layout. Its code is 0 if the keyboard doesn't know its id. `more` is what else it can do, in words.
#[derive(Drop)]
pub struct TouchKey {
    pub id: Text,
    pub key: Key,
    pub more: Text,
}

/// A layer of a touch layout, with its keys that are drawn. The width is that of its widest row.
#[derive(Drop)]
pub struct TouchLayer {
    pub platform: Text,
    pub id: Text,
    pub keys: Seq<TouchKey>,
    pub height: u32,
    pub width: u32,
}

/// Returns the layers of a value: those of a phone, of a tablet and of a desktop.
pub(crate) fn root_layers(
    alloc: Global,
    names: &KeyDictionary,
    root: &Value,
) -> Result<Seq<TouchLayer>, Memory>
    ensures { IfOk result (λ layers. layers ≡ root_layers names.now (view root.now)) }
{
    let mut layers = Seq::new(alloc);
    add_platform(alloc, names, "phone", root, &mut layers)?;
    add_platform(alloc, names, "tablet", root, &mut layers)?;
    add_platform(alloc, names, "desktop", root, &mut layers)?;
    Ok(layers)
}

/// Appends the layers of a platform, if the value has it.
fn add_platform(
    alloc: Global,
    names: &KeyDictionary,
    platform: &str,
    root: &Value,
    layers: &mut Seq<TouchLayer>,
) -> Result<(), Memory>
    ensures { IfOk result (λ _. layers.new ≡ layers.old ++ layers_in names.now platform.now (view root.now)) }
{
    let Some(value) = root.get(platform) else {
        return Ok(());
    };
    match list_in(value, "layer") {
        Some(items) => add_layers(alloc, names, platform, items, layers),
        None => Ok(()),
    }
}

/// Appends the layers of a list.
fn add_layers(
    alloc: Global,
    names: &KeyDictionary,
    platform: &str,
    items: &Vec<Value>,
    layers: &mut Seq<TouchLayer>,
) -> Result<(), Memory>
    ensures { IfOk result (λ _. layers.new ≡ layers.old ++ platform_layers names.now platform.now (items_view items.now.items)) }
{
    for layer in items {
        layers.add(layer_of(alloc, names, platform, layer)?)?;
    }
    Ok(())
}

/// Returns a layer of a platform. A layer without rows has no keys.
fn layer_of(
    alloc: Global,
    names: &KeyDictionary,
    platform: &str,
    layer: &Value,
) -> Result<TouchLayer, Memory>
    ensures { IfOk result (λ made. made ≡ layer_of names.now platform.now (view layer.now)) }
{
    match list_in(layer, "row") {
        Some(rows) => layer_with(alloc, names, platform, id_of(layer), rows),
        None => layer_with(alloc, names, platform, id_of(layer), &Vec::new(alloc)),
    }
}

/// Returns the layer of these rows.
fn layer_with(
    alloc: Global,
    names: &KeyDictionary,
    platform: &str,
    id: &str,
    rows: &Vec<Value>,
) -> Result<TouchLayer, Memory>
    ensures { IfOk result (λ made. made ≡ layer_with names.now platform.now id.now (items_view rows.now.items)) }
{
    let mut keys = Seq::new(alloc);
    let height = add_rows(alloc, names, rows, &mut keys)?;
    Ok(TouchLayer {
        platform: Seq::from_slice(alloc, platform.as_bytes())?,
        id: Seq::from_slice(alloc, id.as_bytes())?,
        keys,
        height,
        width: rows_width(rows),
    })
}

/// Returns the width of the widest of these rows.
fn rows_width(rows: &Vec<Value>) -> u32
    ensures { result ≡ rows_width 0 (items_view rows.now.items) }
{
    let mut width = 0;
    for row in rows {
        width = width.max(end_at(list_in(row, "key")));
    }
    width
}

/// Returns the place after the keys of an optional list.
fn end_at(keys: Option<&Vec<Value>>) -> u32
    ensures { result ≡ end_at (option_map (λ v. items_view v.now.items) keys.entry) }
{
    match keys {
        Some(keys) => row_end(keys),
        None => 0,
    }
}

/// Returns the place after the keys of a row.
fn row_end(keys: &Vec<Value>) -> u32
    ensures { result ≡ row_end 0 (items_view keys.now.items) }
{
    let mut place = 0;
    for key in keys {
        place = right_of(place, key);
    }
    place
}

/// Appends the keys of rows, and returns the height of the rows.
fn add_rows(
    alloc: Global,
    names: &KeyDictionary,
    rows: &Vec<Value>,
    keys: &mut Seq<TouchKey>,
) -> Result<u32, Memory>
    ensures keys { IfOk result (λ _. keys.new ≡ keys.old ++ rows_keys names.now 0 (items_view rows.now.items)) }
    ensures height { IfOk result (λ height. height ≡ rows_height 0 (items_view rows.now.items)) }
{
    let mut top = 0;
    for row in rows {
        add_keys_at(alloc, names, top, list_in(row, "key"), keys)?;
        top = below(top);
    }
    Ok(top)
}

/// Appends the keys of an optional list, at a height.
fn add_keys_at(
    alloc: Global,
    names: &KeyDictionary,
    top: u32,
    row: Option<&Vec<Value>>,
    keys: &mut Seq<TouchKey>,
) -> Result<(), Memory>
    ensures { IfOk result (λ _. keys.new ≡ keys.old ++ keys_at names.now top (option_map (λ v. items_view v.now.items) row.entry)) }
{
    match row {
        Some(row) => add_row(alloc, names, top, row, keys),
        None => Ok(()),
    }
}

/// Appends the keys of a row, at a height.
fn add_row(
    alloc: Global,
    names: &KeyDictionary,
    top: u32,
    row: &Vec<Value>,
    keys: &mut Seq<TouchKey>,
) -> Result<(), Memory>
    ensures { IfOk result (λ _. keys.new ≡ keys.old ++ row_keys names.now top 0 (items_view row.now.items)) }
{
    let mut place = 0;
    for key in row {
        add_key(alloc, names, top, left_of(place, key), key, keys)?;
        place = right_of(place, key);
    }
    Ok(())
}

/// Appends a key at a place, unless it is a spacer.
fn add_key(
    alloc: Global,
    names: &KeyDictionary,
    top: u32,
    left: u32,
    key: &Value,
    keys: &mut Seq<TouchKey>,
) -> Result<(), Memory>
    ensures { IfOk result (λ _. keys.new ≡ keys.old ++ drawn_key names.now top left (view key.now)) }
{
    if is_spacer(key) {
        return Ok(());
    }
    keys.add(touch_key(alloc, names, top, left, key)?)
}

/// Returns a key at a place.
fn touch_key(
    alloc: Global,
    names: &KeyDictionary,
    top: u32,
    left: u32,
    key: &Value,
) -> Result<TouchKey, Memory>
    ensures { IfOk result (λ made. made ≡ touch_key names.now top left (view key.now)) }
{
    let mut more = Seq::new(alloc);
    put_more(&mut more, key)?;
    let id = id_of(key);
    Ok(TouchKey {
        id: Seq::from_slice(alloc, id.as_bytes())?,
        key: Key {
            cap: Seq::from_slice(alloc, cap_of(key).as_bytes())?,
            code: code_of(names, id.as_bytes()),
            left,
            top,
            width: width_of(key),
        },
        more,
    })
}

/// Returns the code of a key by its id, or 0 if no key of the keyboard has the id.
fn code_of(names: &KeyDictionary, id: &[u8]) -> u16
    ensures { result ≡ code_of names.now id.now }
{
    match key_named(id) {
        Some(code) => code,
        None => names.code_of(id).unwrap_or(0),
    }
}

/// Returns the left side of a key that follows a place.
fn left_of(place: u32, key: &Value) -> u32
    ensures is { result ≡ left_of place (view key.now) }
    ensures most { result ≤ 60_600 }
{
    place.min(FARTHEST) + pad_of(key)
}

/// Returns the place after a key that follows a place.
fn right_of(place: u32, key: &Value) -> u32
    ensures { result ≡ right_of place (view key.now) }
{
    left_of(place, key) + width_of(key)
}

/// Returns the height below a row at a height.
fn below(top: u32) -> u32
    ensures { result ≡ below top }
{
    top.min(FARTHEST) + ROW
}
