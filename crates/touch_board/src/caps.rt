//! Reads the texts of a key.

ghost use Rattle.std.specs.Prelude.{◌≡◌, ◌++◌, IfOk, [], codes, map, option_map, unwrap_or};
ghost use Rattle.serde_json.specs.View.{view, items_view};
ghost use Rattle.serde_json.specs.Find.{get};
ghost use Rattle.touch_board.specs.Caps.{text_in, list_in, id_of, cap_of, cap_behind, caps_behind, caps_at, flick_cap, flick_caps, flicks_at, next_layer, more_of};

use kmn_base::{Memory, Text};
use serde_json::Value;

/// The members of a flick that are keys.
const DIRECTIONS: &[&str] = &["n", "ne", "e", "se", "s", "sw", "w", "nw"];

/// Returns the id of a key or of a layer, or an empty text if it has none.
pub(crate) fn id_of<'v>(value: &'v Value) -> &'v str
    ensures { result.now ≡ id_of (view value.now) }
{
    match text_in(value, "id") {
        Some(id) => id,
        None => "",
    }
}

/// Returns the key cap of a key: its text, or its id if it has no text.
pub(crate) fn cap_of<'v>(key: &'v Value) -> &'v str
    ensures { result.now ≡ cap_of (view key.now) }
{
    match text_in(key, "text") {
        Some(text) => text,
        None => id_of(key),
    }
}

/// Appends what else a key can do: the layer that it shows, and the key caps of its long press, of its flick and of its multitap. A flick
/// has its direction before it, and a multitap the word `tap`.
#[tactic(auto, unfolding(crate::specs::Caps::more_of))]
pub(crate) fn put_more(text: &mut Text, key: &Value) -> Result<(), Memory>
    ensures { IfOk result (λ _. text.new ≡ text.old ++ more_of (view key.now)) }
{
    put_next_layer(text, next_of(key))?;
    put_caps_at(text, "", list_in(key, "sk"))?;
    put_flicks_at(text, key.get("flick"))?;
    put_caps_at(text, "tap:", list_in(key, "multitap"))
}

/// Returns the layer that a key shows, or an empty text if it shows none.
fn next_of<'v>(key: &'v Value) -> &'v str
    ensures { result.now ≡ unwrap_or (text_in (codes "nextlayer") (view key.now)) [] }
{
    match text_in(key, "nextlayer") {
        Some(name) => name,
        None => "",
    }
}

/// Appends the name of the layer that a key shows, if it shows one.
#[tactic(auto, unfolding(crate::specs::Caps::next_layer))]
fn put_next_layer(text: &mut Text, name: &str) -> Result<(), Memory>
    ensures { IfOk result (λ _. text.new ≡ text.old ++ next_layer name.now) }
{
    if name.len() == 0 {
        return Ok(());
    }
    text.extend_from_slice(b">")?;
    text.extend_from_slice(name.as_bytes())?;
    text.extend_from_slice(b" ")
}

/// Appends the key caps of an optional list of keys, each after a sign.
fn put_caps_at(text: &mut Text, sign: &str, keys: Option<&Vec<Value>>) -> Result<(), Memory>
    ensures { IfOk result (λ _. text.new ≡ text.old ++ caps_at sign.now (option_map (λ v. items_view v.now.items) keys.entry)) }
{
    match keys {
        None => Ok(()),
        Some(keys) => put_caps(text, sign, keys),
    }
}

/// Appends the key caps of a list of keys, each after a sign.
fn put_caps(text: &mut Text, sign: &str, keys: &Vec<Value>) -> Result<(), Memory>
    ensures { IfOk result (λ _. text.new ≡ text.old ++ caps_behind sign.now (items_view keys.now.items)) }
{
    for key in keys {
        put_cap(text, sign, key)?;
    }
    Ok(())
}

/// Appends the key cap of a key after a sign.
#[tactic(auto, unfolding(crate::specs::Caps::cap_behind))]
fn put_cap(text: &mut Text, sign: &str, key: &Value) -> Result<(), Memory>
    ensures { IfOk result (λ _. text.new ≡ text.old ++ cap_behind sign.now (view key.now)) }
{
    text.extend_from_slice(sign.as_bytes())?;
    text.extend_from_slice(cap_of(key).as_bytes())?;
    text.extend_from_slice(b" ")
}

/// Appends the key caps of an optional flick.
#[tactic(auto, unfolding(crate::specs::Caps::directions))]
fn put_flicks_at(text: &mut Text, flick: Option<&Value>) -> Result<(), Memory>
    ensures { IfOk result (λ _. text.new ≡ text.old ++ flicks_at (option_map (λ v. view v.now) flick.entry)) }
{
    match flick {
        None => Ok(()),
        Some(flick) => put_flicks(text, flick, DIRECTIONS),
    }
}

/// Appends the key caps of a flick in these directions.
fn put_flicks(text: &mut Text, flick: &Value, directions: &[&str]) -> Result<(), Memory>
    ensures { IfOk result (λ _. text.new ≡ text.old ++ flick_caps (view flick.now) (map (λ direction. direction.now) directions.now)) }
{
    for direction in directions {
        put_flick(text, flick, direction)?;
    }
    Ok(())
}

/// Appends a direction and the key cap of its key, if there is one.
#[tactic(auto, unfolding(crate::specs::Caps::flick_cap))]
fn put_flick(text: &mut Text, flick: &Value, direction: &str) -> Result<(), Memory>
    ensures { IfOk result (λ _. text.new ≡ text.old ++ flick_cap direction.now (get direction.now (view flick.now))) }
{
    match flick.get(direction) {
        None => Ok(()),
        Some(key) => {
            text.extend_from_slice(direction.as_bytes())?;
            put_cap(text, ":", key)
        }
    }
}

/// Returns the text in a member, if any.
fn text_in<'v>(value: &'v Value, name: &str) -> Option<&'v str>
    ensures { option_map (λ s. s.now) result ≡ text_in name.now (view value.now) }
{
    value.get(name)?.as_str()
}

/// Returns the list in a member, if any.
pub(crate) fn list_in<'v>(value: &'v Value, name: &str) -> Option<&'v Vec<Value>>
    ensures { option_map (λ v. items_view v.now.items) result ≡ list_in name.now (view value.now) }
{
    value.get(name)?.as_array()
}
