//! Finds an item among elements one by one, for callers that may not allocate a `StoreSets`.

ghost use Rattle.std.specs.Prelude.{◌≡◌, is_some};
ghost use Rattle.rule_model.specs.Match.{place_of};

use kmn_base::{Element, Item};
use rule_model::place_of;

/// Returns whether some element is the same as an item, by comparing with each element.
pub fn is_among(item: Item, elements: &[Element]) -> bool
    ensures { result ≡ is_some (place_of item elements.now) }
{
    place_of(item, elements).is_some()
}
