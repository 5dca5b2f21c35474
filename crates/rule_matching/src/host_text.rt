//! A text of the host as the content of a store.

ghost use Rattle.std.specs.Prelude.{◌≡◌, map, position, slice_get};
ghost use Rattle.rule_model.specs.Match.{is_item};

use kmn_base::{Element, Item};
use rule_model::is_item;

/// Returns the first position of an item among the characters of a text.
pub fn place_in_text(item: Item, text: &[char]) -> Option<usize>
    ensures { result ≡ position (λ c. is_item item (Element.Char c)) text.now }
{
    text.iter().position(|c| is_item(item, Element::Char(*c)))
}

/// Returns the character at a position of a text, as an element.
#[tactic(auto, using(crate::proofs::Lying::element_in_text))]
pub fn element_in_text(text: &[char], place: usize) -> Option<Element>
    ensures { result ≡ slice_get (map Element.Char text.now) place }
{
    match text.get(place) {
        Some(c) => Some(Element::Char(*c)),
        None => None,
    }
}
