//! Comparing items with the characters of a text.

ghost use Rattle.std.specs.Prelude.{◌≡◌, ◌≤◌, ◌<◌, ◌+◌, ◌++◌, length, map, take, drop, slice_index, nat_eq};
ghost use Rattle.std.specs.List.{ends_with};
ghost use Rattle.kmn_base.specs.declared.items.Item.TheVariants as item;
ghost use Rattle.kmn_base.specs.declared.limits.TheConstants.{WINDOW_ITEMS};
ghost use Rattle.kmn_base.specs.Lists.{characters, is_still_suffix};

use arrayvec::ArrayVec;
use kmn_base::Item;
use kmn_base::limits::WINDOW_ITEMS;

/// Appends `count` characters of one text followed by another, from a position on.
pub fn push_characters(
    items: &mut ArrayVec<Item, WINDOW_ITEMS>,
    older: &[char],
    newer: &[char],
    from: usize,
    count: usize,
)
    requires within { from + count ≤ length older.now + length newer.now }
    requires room { length items.old.items + count ≤ WINDOW_ITEMS }
    ensures items { items.new.items ≡ items.old.items ++ map item.Char (take count (drop from (older.now ++ newer.now))) }
    ensures count { length items.new.items ≡ length items.old.items + count }
{
    for place in from..from + count {
        items.push(Item::Char(char_at(older, newer, place)));
    }
}

/// Returns the character at a position of one text followed by another.
fn char_at(older: &[char], newer: &[char], place: usize) -> char
    requires { place < length older.now + length newer.now }
    ensures { result ≡ slice_index (older.now ++ newer.now) place }
{
    if place < older.len() {
        older[place]
    } else {
        newer[place - older.len()]
    }
}

/// Appends items.
pub fn push_items(items: &mut ArrayVec<Item, WINDOW_ITEMS>, others: &[Item])
    requires { length items.old.items + length others.now ≤ WINDOW_ITEMS }
    ensures { items.new.items ≡ items.old.items ++ others.now }
{
    for other in others {
        items.push(*other);
    }
}

/// Returns the number of characters among the items.
pub fn character_count(items: &[Item]) -> usize
    ensures { result ≡ length (characters items.now) }
{
    let mut count = 0;
    for item in items {
        if let Item::Char(_) = item {
            count += 1;
        }
    }
    count
}

/// Returns whether a text still ends with items, and the text before them is known.
pub fn is_still_suffix(items: &[Item], text: &[char]) -> bool
    ensures { result ≡ is_still_suffix items.now text.now }
{
    ends_with(text, items) && (items.len() == WINDOW_ITEMS || text.len() == character_count(items))
}

/// Returns whether a text ends with the characters of items.
#[tactic(auto, using(crate::proofs::Windows::ends_short))]
fn ends_with(text: &[char], items: &[Item]) -> bool
    ensures { result ≡ ends_with nat_eq text.now (characters items.now) }
{
    let count = character_count(items);
    if text.len() < count {
        return false;
    }
    let mut place = text.len() - count;
    for item in items {
        if let Item::Char(c) = item {
            if text[place] != *c {
                return false;
            }
            place += 1;
        }
    }
    true
}
