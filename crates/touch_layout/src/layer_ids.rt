//! Tables of the ids of layers, each with its platform.

ghost use Rattle.std.specs.Prelude.{◌≡◌, not, true, List, [], ◌∷◌, ◌++◌, map, IfOk, OnOk};
ghost use Rattle.std.specs.List.{list_any};
ghost use Rattle.touch_layout.specs.Keys.{key_view};
ghost use Rattle.touch_layout.specs.Layers.{Layer, layer_view, layers_view};
ghost use Rattle.touch_layout.specs.LayerIds.{FindsSame, folded, is_equal_layer, layer_of};
ghost use Rattle.touch_layout.specs.Layout.{is_next_layer, layers_fault};

use crate::faults::LayoutFault;
use crate::keys::TouchKey;
use crate::layers::TouchLayer;
use indexmap::IndexSet;
use kmn_base::names::in_lower_case;
use kmn_base::{Code, Memory};
use std::alloc::Global;

/// Returns the layers of a layout, for look-ups by platform and id.
pub(crate) fn layer_ids<'v>(
    alloc: Global,
    layers: &[TouchLayer<'v>],
) -> Result<IndexSet<(u32, &'v str)>, Memory>
    ensures { IfOk result (λ ids. FindsSame (map (λ id. layer_of id.0 id.1.now) ids.keys) (layers_view layers.now)) }
{
    let mut ids = IndexSet::new(alloc);
    for layer in layers {
        add_id(&mut ids, layer)?;
    }
    Ok(ids)
}

/// Adds a layer to the layers that a key can find.
fn add_id<'v>(ids: &mut IndexSet<(u32, &'v str)>, layer: &TouchLayer<'v>) -> Result<(), Memory>
    ensures { OnOk result ((others : List Layer)
        → FindsSame (map (λ id. layer_of id.0 id.1.now) ids.old.keys) others
        → FindsSame (map (λ id. layer_of id.0 id.1.now) ids.new.keys) (others ++ layer_view layer.now ∷ [])) }
{
    ids.insert((layer.place.platform, layer.id))?;
    Ok(())
}

/// Returns whether the platform of a key has the layer that the key leads to.
pub(crate) fn has_next_layer<'v>(ids: &IndexSet<(u32, &'v str)>, key: &TouchKey<'v>) -> bool
    ensures { result ≡ list_any (is_next_layer (key_view key.now)) (map (λ id. layer_of id.0 id.1.now) ids.now.keys) }
{
    ids.contains(&(key.place.platform, key.next_layer))
}

/// Returns the fault of the first layer whose id an earlier layer of its platform has, if any.
pub(crate) fn layers_fault(
    alloc: Global,
    layers: &[TouchLayer<'_>],
) -> Result<Option<LayoutFault>, Memory>
    ensures { IfOk result (λ fault. fault ≡ layers_fault [] (layers_view layers.now)) }
{
    let mut ids = IndexSet::new(alloc);
    for layer in layers {
        if !add_layer(alloc, &mut ids, layer)? {
            return Ok(Some(LayoutFault {
                code: Code::T6,
                place: layer.place,
            }));
        }
    }
    Ok(None)
}

/// Adds the id of a layer and returns whether the id is new on its platform. Ids compare without ASCII case.
fn add_layer(
    alloc: Global,
    ids: &mut IndexSet<(u32, Vec<u8>)>,
    layer: &TouchLayer<'_>,
) -> Result<bool, Memory>
    ensures new { IfOk result (λ new. new ≡ not (list_any (is_equal_layer (folded (layer_view layer.now)))
        (map (λ id. layer_of id.0 id.1.items) ids.old.keys))) }
    ensures added { IfOk result (λ new. new ≡ true → map (λ id. layer_of id.0 id.1.items) ids.new.keys
        ≡ map (λ id. layer_of id.0 id.1.items) ids.old.keys ++ folded (layer_view layer.now) ∷ []) }
{
    let id = in_lower_case(alloc, layer.id.as_bytes())?;
    let new = ids.insert((layer.place.platform, id))?;
    Ok(new)
}
