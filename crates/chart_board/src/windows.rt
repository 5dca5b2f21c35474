//! The items that a press put, found in the cached contexts before and after the press.

ghost use Rattle.std.specs.Prelude.{◌≡◌, ◌≤◌, length, map, IfOk};
ghost use Rattle.std.specs.List.{common_prefix_len};
ghost use Rattle.kmn_base.specs.declared.items.Item.TheVariants as item;
ghost use Rattle.kmn_base.specs.Lists.{characters};
ghost use Rattle.rule_model.specs.Match.{same_item};
ghost use Rattle.chart_board.specs.Cells.{is_char, characters_left, items_after, without_common};
ghost use Rattle.chart_board.specs.Windows.{end_items, put_between};

use kmn_base::{Item, Memory, Seq};
use rule_model::is_same;
use std::alloc::Global;

/// Returns the items that a press put, given the characters that it deleted and those that it inserted, and the cached contexts before and
/// after it. By the law `contexts_show_put_items` these are the items of the cell.
#[tactic(auto, unfolding(crate::specs::Windows::put_between))]
pub fn put_between(
    alloc: Global,
    deleted: &[char],
    inserted: &[char],
    before: &[Item],
    after: &[Item],
) -> Result<Seq<Item>, Memory>
    ensures { IfOk result (λ items. items ≡ put_between deleted.now inserted.now before.now after.now) }
{
    let old = end_items(alloc, deleted, before)?;
    let new = end_items(alloc, inserted, after)?;
    without_common(alloc, old.as_slice(), new.as_slice())
}

/// Returns the items at the end of a list, given their characters and the cached context of the list.
fn end_items(alloc: Global, chars: &[char], context: &[Item]) -> Result<Seq<Item>, Memory>
    ensures { IfOk result (λ items. items ≡ end_items chars.now context.now) }
{
    let count = character_count(context);
    if count <= chars.len() {
        let mut items = char_items(alloc, &chars[..chars.len() - count])?;
        items.extend_from_slice(context)?;
        Ok(items)
    } else {
        Seq::from_slice(alloc, items_after(count - chars.len(), context))
    }
}

/// Returns the number of characters among items.
fn character_count(items: &[Item]) -> usize
    ensures { result ≡ length (characters items.now) }
{
    let mut count = 0;
    for item in items {
        if is_char(*item) {
            count += 1;
        }
    }
    count
}

/// Returns whether an item is a character.
fn is_char(item: Item) -> bool
    ensures { result ≡ is_char item }
{
    matches!(item, Item::Char(_))
}

/// Returns characters as items. Errors: `Memory` if an allocation fails.
pub fn char_items(alloc: Global, chars: &[char]) -> Result<Seq<Item>, Memory>
    ensures { IfOk result (λ items. items ≡ map item.Char chars.now) }
{
    let mut items = Seq::new(alloc);
    for c in chars {
        items.add(Item::Char(*c))?;
    }
    Ok(items)
}

/// Returns the items after the first characters, as many as a count says.
fn items_after(count: usize, items: &[Item]) -> &[Item]
    ensures { result.now ≡ items_after count items.now }
{
    let mut left = count;
    let mut place = 0;
    for item in items {
        if left == 0 {
            return &items[place..];
        }
        left = characters_left(left, *item);
        place += 1;
    }
    &[]
}

/// Returns a number of characters, less one if an item is a character.
fn characters_left(count: usize, item: Item) -> usize
    requires { 1 ≤ count }
    ensures { result ≡ characters_left count item }
{
    match item {
        Item::Char(_) => count - 1,
        Item::Mark(_) => count,
    }
}

/// Returns the items of the second list after what both begin with.
fn without_common(alloc: Global, old: &[Item], new: &[Item]) -> Result<Seq<Item>, Memory>
    ensures { IfOk result (λ items. items ≡ without_common old.now new.now) }
{
    Seq::from_slice(alloc, &new[common_count(old, new)..])
}

/// Returns how many items two lists begin with in common.
#[tactic(auto, using(crate::proofs::Contexts::common_ended, crate::proofs::Contexts::common_other_ended))]
fn common_count(old: &[Item], new: &[Item]) -> usize
    ensures value { result ≡ common_prefix_len same_item old.now new.now }
    ensures within { result ≤ length new.now }
{
    let mut count = 0;
    while count < old.len() && count < new.len() && is_same(old[count], Some(new[count])) {
        count += 1;
    }
    count
}
