//! Converts between items and characters, and reads the text before the caret again.

ghost use Rattle.std.specs.Prelude.{◌≡◌, IfOk, map};
ghost use Rattle.kmn_base.specs.Lists.{characters, without_last, window, is_still_suffix, read_again};

use kmn_base::limits::WINDOW_ITEMS;
use kmn_base::slices::{before, behind};
use kmn_base::{Item, Memory};
use std::alloc::Global;

/// Returns the characters of items, without the marks.
pub fn characters(alloc: Global, items: &[Item]) -> Result<Vec<char>, Memory>
    ensures { IfOk result (λ text. text.items ≡ characters items.now) }
{
    let mut text = Vec::new(alloc);
    for item in items {
        if let Item::Char(c) = item {
            text.push(*c)?;
        }
    }
    Ok(text)
}

/// Returns characters as items.
pub fn as_items(alloc: Global, text: &[char]) -> Result<Vec<Item>, Memory>
    ensures { IfOk result (λ items. items.items ≡ map Item.Char text.now) }
{
    Ok(text.iter().map(|c| Item::Char(*c)).collect(alloc)?)
}

/// Returns all items except the last `count`.
pub fn without_last(count: usize, items: &[Item]) -> &[Item]
    ensures { result.now ≡ without_last count items.now }
{
    before(items, items.len().saturating_sub(count))
}

/// Returns the last `WINDOW_ITEMS` items, to which marks are confined.
pub fn window(items: &[Item]) -> &[Item]
    ensures { result.now ≡ window items.now }
{
    behind(items, items.len().saturating_sub(WINDOW_ITEMS))
}

/// Returns the items of a text that is read again, with the marks that keep their positions.
pub fn read_again(alloc: Global, items: &[Item], text: &[char]) -> Result<Vec<Item>, Memory>
    ensures { IfOk result (λ left. left.items ≡ read_again items.now text.now) }
{
    let kept = window(items);
    let last = characters(alloc, kept)?;
    if !is_still_suffix(kept, last.as_slice(), text) {
        return as_items(alloc, text);
    }
    let mut left = as_items(alloc, &text[..text.len() - last.len()])?;
    left.extend_from_slice(kept)?;
    Ok(left)
}

/// Returns whether a text ends with the characters of the kept items, and these items fill the window or are the whole text.
fn is_still_suffix(kept: &[Item], last: &[char], text: &[char]) -> bool
    requires { last.now ≡ characters kept.now }
    ensures { result ≡ is_still_suffix kept.now text.now }
{
    text.ends_with(last) && (kept.len() == WINDOW_ITEMS || text.len() == last.len())
}
