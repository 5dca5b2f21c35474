//! Reads the layers of a layout, with their keys.

ghost use Rattle.std.specs.Prelude.{◌≡◌, MatchResult, Ok, Err, option_map};
ghost use Rattle.serde_json.specs.View.{view, items_view};
ghost use Rattle.serde_json.specs.Find.{get};
ghost use Rattle.touch_layout.specs.Keys.{keys_view};
ghost use Rattle.touch_layout.specs.Layers.{row_keys, layer_rows, layer_onto, platform_layers, platform_onto, list_in, text_in, layout_of, layout_view};
ghost use Rattle.touch_layout.specs.declared.layers.Unfit.TheVariants.{Shape};

use crate::faults::{LayoutPlace, whole_layout};
use crate::keys::{TouchKey, Unread, add_key};
use serde_json::Value;
use std::alloc::Global;

/// The error of a layout that cannot be read: something at a place has another shape, or an allocation fails.
#[derive(Clone, Copy, Debug, PartialEq, Eq)]
pub enum Unfit {
    Shape(LayoutPlace),
    Memory,
}

/// A layer with its place.
#[derive(Clone, Copy)]
pub struct TouchLayer<'v> {
    pub place: LayoutPlace,
    pub id: &'v str,
}

/// Reads a layout.
pub(crate) fn layout<'v>(alloc: Global, root: &'v Value) -> Result<FoundKeys<'v>, Unfit>
    ensures { MatchResult result (λ found. layout_of (view root.now)
        ≡ Ok (layout_view found.layers.items found.keys.items))
        (λ e. (place : _) → e ≡ Shape place → layout_of (view root.now) ≡ Err place) }
{
    let mut found = FoundKeys {
        layers: Vec::new(alloc),
        keys: Vec::new(alloc),
    };
    if !root.is_object() {
        return Err(Unfit::Shape(whole_layout()));
    }
    add_platform(root, "phone", 1, &mut found)?;
    add_platform(root, "tablet", 2, &mut found)?;
    add_platform(root, "desktop", 3, &mut found)?;
    Ok(found)
}

/// Adds a platform, if it is present.
fn add_platform<'v>(
    root: &'v Value,
    name: &str,
    platform: u32,
    found: &mut FoundKeys<'v>,
) -> Result<(), Unfit>
    ensures { MatchResult result (λ _.
        platform_onto platform (layout_view found.old.layers.items found.old.keys.items) (get name.now (view root.now))
        ≡ Ok (layout_view found.new.layers.items found.new.keys.items))
        (λ e. (place : _) → e ≡ Shape place →
        platform_onto platform (layout_view found.old.layers.items found.old.keys.items) (get name.now (view root.now))
        ≡ Err place) }
{
    let Some(value) = root.get(name) else {
        return Ok(());
    };
    match list_in(value, "layer") {
        Some(layers) => add_layers(layers, platform, found),
        None => Err(Unfit::Shape(LayoutPlace {
            platform,
            layer: 0,
            row: 0,
            key: 0,
        })),
    }
}

/// Returns the list in a member, if any.
fn list_in<'v>(value: &'v Value, name: &str) -> Option<&'v Vec<Value>>
    ensures { option_map (λ v. items_view v.now.items) result ≡ list_in name.now (view value.now) }
{
    value.get(name)?.as_array()
}

/// The layers and the keys of a layout, each in the order of their places.
#[derive(Drop)]
pub struct FoundKeys<'v> {
    pub layers: Vec<TouchLayer<'v>>,
    pub keys: Vec<TouchKey<'v>>,
}

/// Adds the layers of a platform.
fn add_layers<'v>(
    layers: &'v Vec<Value>,
    platform: u32,
    found: &mut FoundKeys<'v>,
) -> Result<(), Unfit>
    ensures { MatchResult result (λ _.
        platform_layers platform 1 (layout_view found.old.layers.items found.old.keys.items) (items_view layers.now.items)
        ≡ Ok (layout_view found.new.layers.items found.new.keys.items))
        (λ e. (place : _) → e ≡ Shape place →
        platform_layers platform 1 (layout_view found.old.layers.items found.old.keys.items) (items_view layers.now.items)
        ≡ Err place) }
{
    let mut layer = 1;
    for value in layers {
        add_layer(value, platform, layer, found)?;
        layer += 1;
    }
    Ok(())
}

/// Adds a layer with its keys.
fn add_layer<'v>(
    value: &'v Value,
    platform: u32,
    layer: usize,
    found: &mut FoundKeys<'v>,
) -> Result<(), Unfit>
    ensures { MatchResult result (λ _.
        layer_onto platform layer (layout_view found.old.layers.items found.old.keys.items) (view value.now)
        ≡ Ok (layout_view found.new.layers.items found.new.keys.items))
        (λ e. (place : _) → e ≡ Shape place →
        layer_onto platform layer (layout_view found.old.layers.items found.old.keys.items) (view value.now)
        ≡ Err place) }
{
    let place = LayoutPlace {
        platform,
        layer,
        row: 0,
        key: 0,
    };
    let Some(id) = text_in(value, "id") else {
        return Err(Unfit::Shape(place));
    };
    let Some(rows) = list_in(value, "row") else {
        return Err(Unfit::Shape(place));
    };
    add_rows(rows, platform, layer, &mut found.keys)?;
    found
        .layers
        .push(TouchLayer { place, id })
        .map_err(|_| Unfit::Memory)
}

/// Returns the text in a member, if any.
fn text_in<'v>(value: &'v Value, name: &str) -> Option<&'v str>
    ensures { option_map (λ s. s.now) result ≡ text_in name.now (view value.now) }
{
    value.get(name)?.as_str()
}

/// Adds the keys of the rows of a layer.
fn add_rows<'v>(
    rows: &'v Vec<Value>,
    platform: u32,
    layer: usize,
    found: &mut Vec<TouchKey<'v>>,
) -> Result<(), Unfit>
    ensures { MatchResult result (λ _.
        layer_rows platform layer 1 (keys_view found.old.items) (items_view rows.now.items)
        ≡ Ok (keys_view found.new.items))
        (λ e. (place : _) → e ≡ Shape place →
        layer_rows platform layer 1 (keys_view found.old.items) (items_view rows.now.items)
        ≡ Err place) }
{
    let mut row = 1;
    for value in rows {
        let Some(keys) = list_in(value, "key") else {
            return Err(Unfit::Shape(LayoutPlace {
                platform,
                layer,
                row,
                key: 0,
            }));
        };
        add_row(keys, platform, layer, row, found)?;
        row += 1;
    }
    Ok(())
}

/// Adds the keys of a row.
fn add_row<'v>(
    keys: &'v Vec<Value>,
    platform: u32,
    layer: usize,
    row: usize,
    found: &mut Vec<TouchKey<'v>>,
) -> Result<(), Unfit>
    ensures { MatchResult result (λ _.
        row_keys platform layer row 1 (keys_view found.old.items) (items_view keys.now.items)
        ≡ Ok (keys_view found.new.items))
        (λ e. (place : _) → e ≡ Shape place →
        row_keys platform layer row 1 (keys_view found.old.items) (items_view keys.now.items)
        ≡ Err place) }
{
    let mut key = 1;
    for value in keys {
        let place = LayoutPlace {
            platform,
            layer,
            row,
            key,
        };
        match add_key(value, place, found) {
            Ok(()) => {}
            Err(Unread::Shape) => return Err(Unfit::Shape(place)),
            Err(Unread::Memory) => return Err(Unfit::Memory),
        }
        key += 1;
    }
    Ok(())
}
