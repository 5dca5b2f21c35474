//! Reads the keys of a layout: each key is followed by its subkeys.

ghost use Rattle.std.specs.Prelude.{◌≡◌, MatchResult, Some, None, map, option_map, codes};
ghost use Rattle.serde_json.specs.View.{view};
ghost use Rattle.serde_json.specs.Find.{get};
ghost use Rattle.touch_layout.specs.Keys.{keys_view, key_view, own_key, own_onto, key_onto, list_onto, directions_onto, list_at, flick_at, key_at, names_onto, optional_text, optional_spacer, spacer_of};
ghost use Rattle.touch_layout.specs.declared.keys.Unread.TheVariants.{Shape};

use crate::faults::LayoutPlace;
use serde_json::Value;

/// The members of a flick, in the order in which their keys are read.
const DIRECTIONS: &[&str] = &["n", "ne", "e", "se", "s", "sw", "w", "nw"];

/// The members of a key. A text is empty if it is omitted.
#[derive(Clone, Copy)]
pub struct TouchKey<'v> {
    pub place: LayoutPlace,
    pub id: &'v str,
    pub next_layer: &'v str,
    pub is_spacer: bool,
}

/// The error of a key that cannot be read: part of it has another shape, or an allocation fails.
#[derive(Clone, Copy, Debug, PartialEq, Eq)]
pub enum Unread {
    Shape,
    Memory,
}

/// Adds a key and its subkeys.
#[cycle(add_key)]
#[tactic(auto, using(crate::proofs::Members::key_step))]
pub(crate) fn add_key<'v>(
    value: &'v Value,
    place: LayoutPlace,
    found: &mut Vec<TouchKey<'v>>,
) -> Result<(), Unread>
    ensures { MatchResult result (λ _. key_onto place (keys_view found.old.items) (view value.now)
        ≡ Some (keys_view found.new.items))
        (λ e. e ≡ Shape → key_onto place (keys_view found.old.items) (view value.now) ≡ None) }
{
    if !value.is_object() {
        return Err(Unread::Shape);
    }
    add_own(value, place, found)?;
    add_list(value, "sk", place, found)?;
    add_flick(value, place, found)?;
    add_list(value, "multitap", place, found)
}

/// Adds the key itself.
fn add_own<'v>(
    value: &'v Value,
    place: LayoutPlace,
    found: &mut Vec<TouchKey<'v>>,
) -> Result<(), Unread>
    ensures { MatchResult result (λ _. own_onto place (keys_view found.old.items) (view value.now)
        ≡ Some (keys_view found.new.items))
        (λ e. e ≡ Shape → own_onto place (keys_view found.old.items) (view value.now) ≡ None) }
{
    let Some(key) = own_key(value, place) else {
        return Err(Unread::Shape);
    };
    found.push(key).map_err(|_| Unread::Memory)
}

/// Returns the key of an object without its subkeys, or `None` if a member has another shape.
fn own_key<'v>(value: &'v Value, place: LayoutPlace) -> Option<TouchKey<'v>>
    ensures { option_map key_view result ≡ own_key place (view value.now) }
{
    let id = optional_text(value.get("id"))?;
    let next_layer = optional_text(value.get("nextlayer"))?;
    let is_spacer = optional_spacer(value.get("sp"))?;
    Some(TouchKey {
        place,
        id,
        next_layer,
        is_spacer,
    })
}

/// Returns the text of an optional member, or `None` if the member is not a text.
fn optional_text<'v>(member: Option<&'v Value>) -> Option<&'v str>
    ensures { option_map (λ s. s.now) result ≡ optional_text (option_map (λ v. view v.now) member.entry) }
{
    match member {
        None => Some(""),
        Some(value) => value.as_str(),
    }
}

/// Returns whether an optional `sp` is 9 or 10, or `None` if it is neither a number nor a text.
fn optional_spacer(member: Option<&Value>) -> Option<bool>
    ensures { result ≡ optional_spacer (option_map (λ v. view v.now) member.entry) }
{
    match member {
        None => Some(false),
        Some(value) => spacer_of(value),
    }
}

/// Returns whether an `sp` is 9 or 10, as a whole number or a text, or `None` if it is neither a number nor a text.
fn spacer_of(value: &Value) -> Option<bool>
    ensures { result ≡ spacer_of (view value.now) }
{
    if let Some(text) = value.as_str() {
        return Some(text == "9" || text == "10");
    }
    let number = value.as_number()?;
    match number.as_u64() {
        Some(n) => Some(n == 9 || n == 10),
        None => Some(false),
    }
}

/// Adds the keys of the list in a member, if the member is present.
#[cycle(add_key)]
fn add_list<'v>(
    value: &'v Value,
    name: &str,
    place: LayoutPlace,
    found: &mut Vec<TouchKey<'v>>,
) -> Result<(), Unread>
    ensures { MatchResult result (λ _. list_at place (keys_view found.old.items) (get name.now (view value.now))
        ≡ Some (keys_view found.new.items))
        (λ e. e ≡ Shape → list_at place (keys_view found.old.items) (get name.now (view value.now)) ≡ None) }
{
    match value.get(name) {
        None => Ok(()),
        Some(list) => add_items(list, place, found),
    }
}

/// Adds the keys of a list.
#[cycle(add_key)]
#[tactic(auto, using(crate::proofs::Members::list_step))]
fn add_items<'v>(
    list: &'v Value,
    place: LayoutPlace,
    found: &mut Vec<TouchKey<'v>>,
) -> Result<(), Unread>
    ensures { MatchResult result (λ _. list_onto place (keys_view found.old.items) (view list.now)
        ≡ Some (keys_view found.new.items))
        (λ e. e ≡ Shape → list_onto place (keys_view found.old.items) (view list.now) ≡ None) }
{
    let Some(items) = list.as_array() else {
        return Err(Unread::Shape);
    };
    for item in items {
        add_key(item, place, found)?;
    }
    Ok(())
}

/// Adds the keys of the flick, if it is present.
#[cycle(add_key)]
fn add_flick<'v>(
    value: &'v Value,
    place: LayoutPlace,
    found: &mut Vec<TouchKey<'v>>,
) -> Result<(), Unread>
    ensures { MatchResult result (λ _. flick_at place (keys_view found.old.items) (get (codes "flick") (view value.now))
        ≡ Some (keys_view found.new.items))
        (λ e. e ≡ Shape → flick_at place (keys_view found.old.items) (get (codes "flick") (view value.now)) ≡ None) }
{
    match value.get("flick") {
        None => Ok(()),
        Some(flick) => add_directions(flick, place, found),
    }
}

/// Adds the keys of a flick.
#[cycle(add_key)]
#[tactic(auto, using(crate::proofs::Members::flick_step), unfolding(crate::specs::Keys::directions))]
fn add_directions<'v>(
    flick: &'v Value,
    place: LayoutPlace,
    found: &mut Vec<TouchKey<'v>>,
) -> Result<(), Unread>
    ensures { MatchResult result (λ _. directions_onto place (keys_view found.old.items) (view flick.now)
        ≡ Some (keys_view found.new.items))
        (λ e. e ≡ Shape → directions_onto place (keys_view found.old.items) (view flick.now) ≡ None) }
{
    if !flick.is_object() {
        return Err(Unread::Shape);
    }
    add_members(flick, DIRECTIONS, place, found)
}

/// Adds the keys in the members with these names, if they are present.
#[cycle(add_key)]
fn add_members<'v>(
    flick: &'v Value,
    names: &[&str],
    place: LayoutPlace,
    found: &mut Vec<TouchKey<'v>>,
) -> Result<(), Unread>
    ensures { MatchResult result (λ _. names_onto place (view flick.now) (map (λ name. name.now) names.now) (keys_view found.old.items)
        ≡ Some (keys_view found.new.items))
        (λ e. e ≡ Shape → names_onto place (view flick.now) (map (λ name. name.now) names.now) (keys_view found.old.items) ≡ None) }
{
    for name in names {
        add_direction(flick, name, place, found)?;
    }
    Ok(())
}

/// Adds the key of one direction, if it is present.
#[cycle(add_key)]
fn add_direction<'v>(
    flick: &'v Value,
    name: &str,
    place: LayoutPlace,
    found: &mut Vec<TouchKey<'v>>,
) -> Result<(), Unread>
    ensures { MatchResult result (λ _. key_at place (keys_view found.old.items) (get name.now (view flick.now))
        ≡ Some (keys_view found.new.items))
        (λ e. e ≡ Shape → key_at place (keys_view found.old.items) (get name.now (view flick.now)) ≡ None) }
{
    match flick.get(name) {
        None => Ok(()),
        Some(key) => add_key(key, place, found),
    }
}
