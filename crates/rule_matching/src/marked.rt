//! Tests by marks whether a store is defined with an item. The marks of an item are set at its first test in a choice.

ghost use Rattle.std.specs.Prelude.{◌≡◌, ◌<◌, true, length, is_some};
ghost use Rattle.kmn_base.specs.declared.limits.TheConstants.{WINDOW_ITEMS};
ghost use Rattle.rule_matching.specs.Choices.{RemembersFor};
ghost use Rattle.rule_matching.specs.Matching.{place_in_stated, IsMarkedRight};
ghost use Rattle.rule_matching.specs.PlaceMemory.{rooms};
ghost use Rattle.rule_matching.specs.StoreMarks.{is_known, marked_len};

use crate::choice::Choice;
use crate::place_memory::PlaceMemory;
use crate::places::item_before;
use crate::store_marks::StoreMarks;
use kmn_base::Item;

/// Returns whether a store is defined with the item at a distance from the caret. There must be marks for the store.
#[inline(always)]
pub fn is_marked(choice: &Choice<'_>, distance: usize, store: u32, places: &mut PlaceMemory) -> bool
    requires within { distance < length choice.now.left.now }
    requires near { distance < WINDOW_ITEMS }
    requires room { store < marked_len places.old.marks }
    requires right { RemembersFor choice.now places.old }
    ensures value { result ≡ is_some (place_in_stated choice.now.moment.now.tables choice.now.left.now store distance) }
    ensures right { RemembersFor choice.now places.new }
    ensures rooms { rooms places.new ≡ rooms places.old }
{
    mark_distance(choice, distance, &mut places.marks);
    places.marks.is_marked(store, distance)
}

/// Marks the stores that are defined with the item at a distance from the caret, unless that is already done for this choice.
#[inline(always)]
fn mark_distance(choice: &Choice<'_>, distance: usize, marks: &mut StoreMarks)
    requires within { distance < length choice.now.left.now }
    requires near { distance < WINDOW_ITEMS }
    requires right { IsMarkedRight choice.now.moment.now.tables choice.now.left.now marks.old }
    ensures known { is_known marks.new distance ≡ true }
    ensures room { marked_len marks.new ≡ marked_len marks.old }
    ensures right { IsMarkedRight choice.now.moment.now.tables choice.now.left.now marks.new }
{
    if marks.is_known(distance) {
        return;
    }
    marks.mark(
        distance,
        choice.moment.holders(item_before(choice.left, distance)),
    );
}
