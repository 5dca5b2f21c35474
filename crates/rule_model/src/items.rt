//! Compares items with the elements of stores.

ghost use Rattle.std.specs.Prelude.{◌≡◌, Some};
ghost use Rattle.rule_model.specs.Match.{is_item, is_element, is_same, item_of, place_of, same_item};

use kmn_base::{Element, Item};

/// Returns the item that an element denotes. A virtual key denotes none.
pub fn item_of(element: Element) -> Option<Item>
    ensures { result ≡ item_of element }
{
    match element {
        Element::Char(c) => Some(Item::Char(c)),
        Element::Mark(mark) => Some(Item::Mark(mark)),
        Element::Key { .. } => None,
    }
}

/// Returns whether an item is the same as an element.
pub fn is_item(item: Item, element: Element) -> bool
    ensures { result ≡ is_item item element }
{
    match item {
        Item::Char(c) => element == Element::Char(c),
        Item::Mark(mark) => element == Element::Mark(mark),
    }
}

/// Returns the first position of an item in a store's content.
pub fn place_of(item: Item, elements: &[Element]) -> Option<usize>
    ensures { result ≡ place_of item elements.now }
{
    elements.iter().position(|element| is_item(item, *element))
}

/// Returns whether an item is the same as an optional element. It is not the same as None.
pub fn is_element(item: Item, wanted: Option<Element>) -> bool
    ensures { result ≡ is_element item wanted }
{
    wanted.is_some_and(|element| is_item(item, element))
}

/// Returns whether an item is the same as an optional item. It is not the same as None.
pub fn is_same(item: Item, wanted: Option<Item>) -> bool
    ensures { result ≡ is_same item wanted }
{
    wanted == Some(item)
}
