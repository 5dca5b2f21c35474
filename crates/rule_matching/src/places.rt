//! The positions of the items before the caret in the content of stores. A position that was looked up is remembered for the
//! rest of the choice.

ghost use Rattle.std.specs.Prelude.{◌≡◌, ◌≤◌, ◌<◌, Some, is_some, length, map};
ghost use Rattle.kmn_base.specs.declared.limits.TheConstants.{CONTEXT_ITEMS};
ghost use Rattle.rule_model.specs.Match.{place_caught};
ghost use Rattle.rule_matching.specs.Choices.{all_caught, caught_in, content_of, RemembersFor};
ghost use Rattle.rule_matching.specs.Matching.{item_before, place_before};
ghost use Rattle.rule_matching.specs.PlaceMemory.{rooms};

use crate::caught::{MatchedItem, MatchedItems};
use crate::choice::Choice;
use crate::marked::is_marked;
use crate::place_memory::PlaceMemory;
use crate::taken::{TakenItem, taken_at};
use kmn_base::Item;
use kmn_base::limits::WINDOW_ITEMS;

/// Returns the item at a distance from the caret. The distance is the number of items after it.
#[tactic(auto, using(crate::proofs::KnownPlaces::item_within))]
pub fn item_before(left: &[Item], distance: usize) -> Item
    requires { distance < length left.now }
    ensures { Some result ≡ item_before left.now distance }
{
    left[left.len() - (distance + 1)]
}

/// Returns the item at a distance from the caret, or `None` if there is no such item.
pub fn item_at(left: &[Item], distance: usize) -> Option<Item>
    ensures { result ≡ item_before left.now distance }
{
    if distance < left.len() {
        Some(item_before(left, distance))
    } else {
        None
    }
}

/// Returns whether the content of a store contains the item at a distance.
#[inline(always)]
#[tactic(auto, using(crate::proofs::Holders::in_what_is_held))]
pub fn is_in_store(
    choice: &Choice<'_>,
    distance: usize,
    store: u32,
    places: &mut PlaceMemory,
) -> bool
    requires within { distance < length choice.now.left.now }
    requires right { RemembersFor choice.now places.old }
    ensures value { result ≡ is_some (place_before (content_of choice.now) choice.now.left.now store distance) }
    ensures right { RemembersFor choice.now places.new }
    ensures rooms { rooms places.new ≡ rooms places.old }
{
    match choice.moment.held_store(store) {
        Some(value) if distance < WINDOW_ITEMS && places.marks.has_room(value) => {
            is_marked(choice, distance, value, places)
        }
        _ => place_before(choice, distance, store, places).is_some(),
    }
}

/// Returns the first position of the item at a distance in the content of a store, or `None` if there is no such item. Looks it
/// up unless it is remembered.
#[tactic(auto, using(crate::proofs::KnownPlaces::place_beyond))]
fn place_before(
    choice: &Choice<'_>,
    distance: usize,
    store: u32,
    places: &mut PlaceMemory,
) -> Option<usize>
    requires { RemembersFor choice.now places.old }
    ensures place { result ≡ place_before (content_of choice.now) choice.now.left.now store distance }
    ensures right { RemembersFor choice.now places.new }
    ensures rooms { rooms places.new ≡ rooms places.old }
{
    if distance >= choice.left.len() {
        return None;
    }
    match places.found.known(store, distance) {
        Some(place) => place,
        None => look_for(choice, distance, store, places),
    }
}

/// Looks up the first position of the item at a distance in the content of a store, and remembers it for the rest of the
/// choice.
#[inline(never)]
fn look_for(
    choice: &Choice<'_>,
    distance: usize,
    store: u32,
    places: &mut PlaceMemory,
) -> Option<usize>
    requires within { distance < length choice.now.left.now }
    requires right { RemembersFor choice.now places.old }
    ensures place { result ≡ place_before (content_of choice.now) choice.now.left.now store distance }
    ensures right { RemembersFor choice.now places.new }
    ensures rooms { rooms places.new ≡ rooms places.old }
{
    let place = choice
        .moment
        .place_of(store, item_before(choice.left, distance));
    places.found.remember(store, distance, place);
    place
}

/// Returns the position in its store of the item taken at an offset, if an `any` took it.
#[tactic(auto, using(crate::proofs::TakenItems::place_is_caught))]
pub fn place_taken(
    choice: &Choice<'_>,
    taken: &[TakenItem],
    offset: u16,
    places: &mut PlaceMemory,
) -> Option<usize>
    requires { RemembersFor choice.now places.old }
    ensures place { result ≡ place_caught (map (caught_in choice.now) taken.now) offset }
    ensures right { RemembersFor choice.now places.new }
    ensures rooms { rooms places.new ≡ rooms places.old }
{
    place_of_taken(choice, taken_at(taken, offset)?, places)
}

/// Returns the position in its store of a taken item, if an `any` took it.
fn place_of_taken(choice: &Choice<'_>, taken: TakenItem, places: &mut PlaceMemory) -> Option<usize>
    requires { RemembersFor choice.now places.old }
    ensures place { result ≡ (caught_in choice.now taken).place }
    ensures right { RemembersFor choice.now places.new }
    ensures rooms { rooms places.new ≡ rooms places.old }
{
    place_before(choice, taken.distance, taken.store?, places)
}

/// Writes to `caught` what was taken: each item, and for each `any` also the position in its store.
pub fn catch_taken(
    choice: &Choice<'_>,
    taken: &[TakenItem],
    places: &mut PlaceMemory,
    caught: &mut MatchedItems,
)
    requires few { length taken.now ≤ CONTEXT_ITEMS }
    requires right { RemembersFor choice.now places.old }
    ensures caught { caught.new ≡ all_caught choice.now taken.now }
    ensures right { RemembersFor choice.now places.new }
    ensures rooms { rooms places.new ≡ rooms places.old }
{
    caught.clear();
    for one in taken {
        let place = place_of_taken(choice, *one, places);
        caught.push(MatchedItem {
            item: item_at(choice.left, one.distance),
            place,
        });
    }
}
