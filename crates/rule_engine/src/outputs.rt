//! Performs the items of an output that insert items into the text.

ghost use Rattle.std.specs.Prelude.{◌≡◌, length, nat_eq};
ghost use Rattle.rule_model.specs.Keyboard.{Numbered};
ghost use Rattle.rule_model.specs.Match.{element_at};
ghost use Rattle.rule_model.specs.Act.{put_items, item_list, put_element, items_caught, place_for_index};
ghost use Rattle.rule_engine.specs.Event.{content_in};

use crate::event::PressEvent;
use kmn_base::{Element, Item};
use kmx_parts::Outputs;
use rule_matching::MatchedItems;
use rule_model::item_of;

/// Returns whether an output has no items.
pub fn is_empty(outputs: Outputs<'_>) -> bool
    ensures { result ≡ nat_eq (length outputs.entry) 0 }
{
    let mut outputs = outputs;
    outputs.next().is_none()
}

/// Outputs an item, if there is one.
pub fn put_any(item: Option<Item>, event: &mut PressEvent)
    ensures { event.new ≡ record event.old { state = put_items (item_list item) event.old.state } }
{
    if let Some(item) = item {
        event.put_item(item);
    }
}

/// Performs `index`: outputs the element of a store at the position that was caught at an offset.
pub fn put_index(caught: &MatchedItems, store: u32, offset: u32, event: &mut PressEvent)
    ensures { event.new ≡ record event.old {
      state = put_element
          (element_at (content_in event.old (Numbered store)) (place_for_index caught.now offset)) event.old.state;
    } }
{
    let place = caught.place_for_index(offset);
    let element = event.moment().element_at(store, place);
    put_element(element, event);
}

/// Outputs the item of an element, if there is one. A virtual key has no item.
fn put_element(element: Option<Element>, event: &mut PressEvent)
    ensures { event.new ≡ record event.old { state = put_element element event.old.state } }
{
    if let Some(element) = element {
        put_any(item_of(element), event);
    }
}

/// Performs `context`: outputs all items that were matched.
pub fn put_context(caught: &MatchedItems, event: &mut PressEvent)
    ensures { event.new ≡ record event.old { state = put_items (items_caught caught.now) event.old.state } }
{
    for found in caught.found() {
        put_any(found.item, event);
    }
}
