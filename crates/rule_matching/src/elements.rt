//! Compares elements, and looks up what was caught at an offset.

ghost use Rattle.std.specs.Prelude.{◌≡◌};
ghost use Rattle.rule_model.specs.Match.{same_element, catch_at, item_caught, place_caught};

use crate::caught::MatchedItem;
use kmn_base::{Element, Item};

/// Returns whether two elements are equal.
#[tactic(auto, using(rule_model::proofs::SameElements::equal_elements))]
pub fn same_element(element: Element, other: Element) -> bool
    ensures { result ≡ same_element element other }
{
    element == other
}

/// Returns the item that was caught at an offset.
pub fn item_caught(seen: &[MatchedItem], offset: u32) -> Option<Item>
    ensures { result ≡ item_caught seen.now offset }
{
    found_at(seen, offset)?.item
}

/// Returns the catch at an offset, which counts from 1.
fn found_at(seen: &[MatchedItem], offset: u32) -> Option<MatchedItem>
    ensures { result ≡ catch_at seen.now offset }
{
    seen.get((offset as usize).checked_sub(1)?).copied()
}

/// Returns the position that was caught at an offset.
pub fn place_caught(seen: &[MatchedItem], offset: u32) -> Option<usize>
    ensures { result ≡ place_caught seen.now offset }
{
    found_at(seen, offset)?.place
}
