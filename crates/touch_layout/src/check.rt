//! The rules of a layout, in the order in which they are checked.
//!
//! `serde_json` parses the text to a tree. `layers` flattens the tree to a list of layers and a list of keys, in the order of
//! their places, and reports the first part that has another shape. The remaining rules are then tests of one list element
//! against tables: the ids of layers, and the names of the keys that records have. So the first element that breaks a rule is
//! the first place of a fault. The lists borrow the texts of the tree. Tables are looked up by hash, so the expected time is
//! linear in the sizes of the text and of the keyboard's tables.

ghost use Rattle.std.specs.Prelude.{◌≡◌, IfOk, IfErr, Some, None, Ok, option_map, map};
ghost use Rattle.serde_json.specs.View.{view};
ghost use Rattle.rule_model.specs.Tab.{tab};
ghost use Rattle.store_table.specs.Names.{is_named};
ghost use Rattle.touch_layout.specs.Ids.{has_record};
ghost use Rattle.touch_layout.specs.Keys.{key_view, keys_view};
ghost use Rattle.touch_layout.specs.LayerIds.{layer_of};
ghost use Rattle.touch_layout.specs.Layers.{layers_view, layout_view};
ghost use Rattle.touch_layout.specs.Layout.{leads_nowhere, does_nothing, has_strange_id, key_code, keys_fault, value_of, read_layout, rules_fault, count_of, layout_fault, key_count};
ghost use Rattle.touch_layout.specs.declared.faults.LayoutError.TheVariants.{Refused};

use crate::faults::{LayoutError, LayoutFault, whole_layout};
use crate::ids::{is_key_id, is_touch_name};
use crate::keys::TouchKey;
use crate::layer_ids::{has_next_layer, layer_ids, layers_fault};
use crate::layers::{FoundKeys, Unfit, layout};
use crate::ruled::recorded_names;
use indexed_tables::IndexedTables;
use indexmap::IndexSet;
use kmn_base::limits::TEXT_BYTES;
use kmn_base::texts::without_bom;
use kmn_base::{Code, Memory};
use rule_model::{Group, Tables};
use serde_json::Value;
use std::alloc::Global;
use std::str;
use store_table::NameTable;

/// Checks a layout for the keyboard of the tables and returns the number of its keys, including subkeys. The format is the
/// format of Keyman's touch layouts; the rules are our own choice.
///
/// Errors: `Refused` with the first rule that the layout breaks, in the order T7, T1, T2, T6 and then key by key T3, T4, T5, and
/// for one rule the first by place; `Memory` if an allocation fails.
pub fn check_layout(alloc: Global, bytes: &[u8], tables: &Tables) -> Result<u32, LayoutError>
    ensures count { IfOk result (λ count. (layout_fault bytes.now tables.now ≡ None) × (count ≡ key_count bytes.now)) }
    ensures refused { IfErr result (λ e. (fault : _) → e ≡ Refused fault
        → layout_fault bytes.now tables.now ≡ Some fault) }
{
    if bytes.len() > TEXT_BYTES {
        return Err(LayoutError::Refused(LayoutFault {
            code: Code::T7,
            place: whole_layout(),
        }));
    }
    let Some(root) = read_value(alloc, without_bom(bytes))? else {
        return Err(LayoutError::Refused(LayoutFault {
            code: Code::T1,
            place: whole_layout(),
        }));
    };
    let keyboard = IndexedTables::new(alloc, tables)?;
    let count = check_value(alloc, &root, &keyboard, tables.groups.as_slice())?;
    // A layout has at most one more key than bytes, so the cast does not truncate.
    Ok(count as u32)
}

/// Returns the JSON value of bytes, or `None` if they are not JSON in UTF-8.
pub(crate) fn read_value(alloc: Global, bytes: &[u8]) -> Result<Option<Value>, Memory>
    ensures { IfOk result (λ value. option_map view value ≡ value_of bytes.now) }
{
    let Ok(text) = str::from_utf8(bytes) else {
        return Ok(None);
    };
    match Value::from_str(alloc, text) {
        Ok(value) => Ok(Some(value)),
        Err(error) => if error.is_memory() {
            Err(Memory)
        } else {
            Ok(None)
        },
    }
}

/// Returns the number of keys of a layout.
///
/// Errors: `Refused` with the first rule that the layout breaks; `Memory` if an allocation fails.
fn check_value(
    alloc: Global,
    root: &Value,
    keyboard: &IndexedTables<'_>,
    groups: &[Group],
) -> Result<usize, LayoutError>
    ensures count { IfOk result (λ count.
        (rules_fault (has_record (tab keyboard.now).dictionary groups.now) (read_layout (Some (view root.now))) ≡ None)
        × (count ≡ count_of (read_layout (Some (view root.now))))) }
    ensures refused { IfErr result (λ e. (fault : _) → e ≡ Refused fault
        → rules_fault (has_record (tab keyboard.now).dictionary groups.now) (read_layout (Some (view root.now))) ≡ Some fault) }
{
    let found = match layout(alloc, root) {
        Ok(found) => found,
        Err(Unfit::Shape(place)) => return Err(LayoutError::Refused(LayoutFault {
            code: Code::T2,
            place,
        })),
        Err(Unfit::Memory) => return Err(LayoutError::Memory),
    };
    if let Some(fault) = rules_fault(alloc, keyboard, groups, &found)? {
        return Err(LayoutError::Refused(fault));
    }
    Ok(found.keys.len())
}

/// Returns the first rule that a layout breaks, if any: the rule of layers precedes the rules of keys.
fn rules_fault(
    alloc: Global,
    keyboard: &IndexedTables<'_>,
    groups: &[Group],
    found: &FoundKeys<'_>,
) -> Result<Option<LayoutFault>, Memory>
    ensures { IfOk result (λ fault. fault ≡ rules_fault (has_record (tab keyboard.now).dictionary groups.now)
        (Ok (layout_view found.now.layers.items found.now.keys.items))) }
{
    match layers_fault(alloc, found.layers.as_slice())? {
        Some(fault) => Ok(Some(fault)),
        None => found_keys_fault(alloc, keyboard, groups, found),
    }
}

/// Returns the fault of the first key of a layout that breaks a rule, if any.
#[tactic(auto, using(crate::proofs::FoundLayers::same_keys_fault))]
fn found_keys_fault(
    alloc: Global,
    keyboard: &IndexedTables<'_>,
    groups: &[Group],
    found: &FoundKeys<'_>,
) -> Result<Option<LayoutFault>, Memory>
    ensures { IfOk result (λ fault. fault ≡ keys_fault (has_record (tab keyboard.now).dictionary groups.now)
        (layers_view found.now.layers.items) (keys_view found.now.keys.items)) }
{
    let names = recorded_names(alloc, keyboard, groups)?;
    let ids = layer_ids(alloc, found.layers.as_slice())?;
    Ok(keys_fault(&names, &ids, found.keys.as_slice()))
}

/// Returns the fault of the first key that breaks a rule, if any.
fn keys_fault<'v>(
    names: &NameTable,
    ids: &IndexSet<(u32, &'v str)>,
    keys: &[TouchKey<'v>],
) -> Option<LayoutFault>
    ensures { result ≡ keys_fault (is_named names.now) (map (λ id. layer_of id.0 id.1.now) ids.now.keys) (keys_view keys.now) }
{
    for key in keys {
        if let Some(code) = key_code(names, ids, key) {
            return Some(LayoutFault {
                code,
                place: key.place,
            });
        }
    }
    None
}

/// Returns the first rule that a key breaks, if any.
fn key_code<'v>(
    names: &NameTable,
    ids: &IndexSet<(u32, &'v str)>,
    key: &TouchKey<'v>,
) -> Option<Code>
    ensures { result ≡ key_code (is_named names.now) (map (λ id. layer_of id.0 id.1.now) ids.now.keys) (key_view key.now) }
{
    if has_strange_id(key) {
        return Some(Code::T3);
    }
    if leads_nowhere(ids, key) {
        return Some(Code::T4);
    }
    if does_nothing(names, key) {
        return Some(Code::T5);
    }
    None
}

/// Returns whether the id of a key isn't empty and no key can have it.
fn has_strange_id(key: &TouchKey<'_>) -> bool
    ensures { result ≡ has_strange_id (key_view key.now) }
{
    key.id.len() > 0 && !is_key_id(key.id.as_bytes())
}

/// Returns whether a key leads to a layer that its platform doesn't have.
fn leads_nowhere<'v>(ids: &IndexSet<(u32, &'v str)>, key: &TouchKey<'v>) -> bool
    ensures { result ≡ leads_nowhere (map (λ id. layer_of id.0 id.1.now) ids.now.keys) (key_view key.now) }
{
    key.next_layer.len() > 0 && !has_next_layer(ids, key)
}

/// Returns whether a T_ key has no record, leads to no layer and is not a spacer.
fn does_nothing(names: &NameTable, key: &TouchKey<'_>) -> bool
    ensures { result ≡ does_nothing (is_named names.now) (key_view key.now) }
{
    let id = key.id.as_bytes();
    is_touch_name(id) && key.next_layer.len() == 0 && !key.is_spacer && !names.has(id)
}
