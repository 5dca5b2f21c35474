//! What the items of a context take, as distances from the caret. Positions in stores are looked up only if an `index` of the
//! context needs them, and for the record that is selected.

ghost use Rattle.std.specs.Prelude.{◌≡◌, option_and_then};
ghost use Rattle.rule_matching.specs.Matching.{item_before, taken_at};

use crate::places::item_at;
use kmn_base::Item;

/// What an item of a context takes: the distance of the taken item from the caret, which is the number of items after it, and
/// for an `any` also the store that contains it. If the item takes none, the distance is the length of the list, at which there
/// is no item.
#[derive(Clone, Copy, Default, Drop)]
pub struct TakenItem {
    /// 0 for the item directly before the caret.
    pub distance: usize,
    pub store: Option<u32>,
}

/// Returns what was taken at an offset, which counts from 1.
pub fn taken_at(taken: &[TakenItem], offset: u16) -> Option<TakenItem>
    ensures { result ≡ taken_at taken.now offset }
{
    taken.get((usize::from(offset)).checked_sub(1)?).copied()
}

/// Returns the item that was taken at an offset.
pub fn item_taken(left: &[Item], taken: &[TakenItem], offset: u16) -> Option<Item>
    ensures { result ≡ option_and_then (λ one. item_before left.now one.distance) (taken_at taken.now offset) }
{
    item_at(left, taken_at(taken, offset)?.distance)
}
