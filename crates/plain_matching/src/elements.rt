//! Compares values, and looks up what was caught at an offset.

ghost use Rattle.std.specs.Prelude.{◌≡◌};
ghost use Rattle.rule_model.specs.Match.{same_value, catch_at, item_caught, place_caught};

use kmn_base::{Element, Item};
use rule_model::Catch;

/// Returns whether two values are the same, element by element.
#[tactic(auto, using(rule_model::proofs::SameElements::equal_values))]
pub fn same_value(value: &[Element], other: &[Element]) -> bool
    ensures { result ≡ same_value value.now other.now }
{
    value == other
}

/// Returns the item that was caught at an offset.
pub fn item_caught(catches: &[Catch], offset: u32) -> Option<Item>
    ensures { result ≡ item_caught catches.now offset }
{
    catch_at(catches, offset)?.item
}

/// Returns the catch at an offset, which counts from 1.
fn catch_at(catches: &[Catch], offset: u32) -> Option<Catch>
    ensures { result ≡ catch_at catches.now offset }
{
    catches.get((offset as usize).checked_sub(1)?).copied()
}

/// Returns the position that was caught at an offset.
pub fn place_caught(catches: &[Catch], offset: u32) -> Option<usize>
    ensures { result ≡ place_caught catches.now offset }
{
    catch_at(catches, offset)?.place
}
