//! The text before the caret while keys act on it.

ghost use Rattle.std.specs.Prelude.{◌≡◌, ◌++◌, IfOk, map};
ghost use Rattle.kmn_base.specs.declared.limits.TheConstants.{WINDOW_ITEMS};
ghost use Rattle.kmn_base.specs.Lists.{characters, without_last, window, put};
ghost use Rattle.rule_model.specs.Enter.{without_last_character};

use crate::texts::{as_items, characters, window, without_last};
use kmn_base::limits::WINDOW_ITEMS;
use kmn_base::{Item, Memory, Seq, end_marks};
use std::alloc::Global;

/// Returns the items with one more item, without the marks that are then before the window.
pub fn with_item(alloc: Global, items: &[Item], item: Item) -> Result<Vec<Item>, Memory>
    ensures { IfOk result (λ after. after.items ≡ put items.now item) }
{
    let mut more = Vec::from_slice(alloc, items)?;
    more.push(item)?;
    without_old_marks(alloc, more.as_slice())
}

/// Returns the items without the marks before the window.
fn without_old_marks(alloc: Global, items: &[Item]) -> Result<Vec<Item>, Memory>
    ensures { IfOk result (λ after. after.items ≡ map Item.Char (characters (without_last WINDOW_ITEMS items.now)) ++ window items.now) }
{
    let before = characters(alloc, without_last(WINDOW_ITEMS, items))?;
    let mut after = as_items(alloc, before.as_slice())?;
    after.extend_from_slice(window(items))?;
    Ok(after)
}

/// Removes the last `count` items.
#[tactic(auto, using(std::proofs::lemmas::List::take_all, crate::proofs::Lefts::kept_when_taken))]
pub fn take(left: &mut Seq<Item>, count: usize)
    ensures { left.new ≡ without_last count left.old }
{
    let kept = left.len().saturating_sub(count);
    while left.len() > kept {
        left.pop();
    }
}

/// Removes the last character and the marks around it.
pub fn take_character(left: &mut Seq<Item>)
    ensures { left.new ≡ without_last_character left.old }
{
    take(left, end_marks(left.as_slice()));
    take(left, 1);
    take(left, end_marks(left.as_slice()));
}
