//! The items of the text before the caret, and the elements of stores.

ghost use Rattle.std.specs.Prelude.{◌≡◌, ◌≤◌, length};
ghost use Rattle.std.specs.List.{suffix_len};
ghost use Rattle.kmn_base.specs.Lists.{is_mark};

/// An item before the caret: a character, or a mark (a deadkey in the item list), which applications do not see.
#[derive(Clone, Copy, Debug, PartialEq, Eq)]
pub enum Item {
    Char(char),
    /// The number of the deadkey, from 1.
    Mark(u16),
}

/// Only arrays of a fixed capacity need this value; no definition uses it.
impl Default for Item {
    ghost use Rattle.std.specs.Prelude.{◌≡◌};
    ghost use Rattle.kmn_base.specs.declared.items.Item.TheVariants.{Char};

    ghost is_default = { λ item. item ≡ Char 0 };

    fn default() -> Item {
        Item::Char('\0')
    }
}

/// One element of a store: a character, a deadkey's mark, or a virtual key, which is never equal to an item.
#[derive(Clone, Copy, Debug, PartialEq, Eq)]
pub enum Element {
    Char(char),
    /// The number of the deadkey, from 1.
    Mark(u16),
    /// Shift flags as in the file, and the key's code.
    Key { flags: u16, code: u16 },
}

/// Returns the number of marks at the end of the items.
pub fn end_marks(items: &[Item]) -> usize
    ensures value { result ≡ suffix_len is_mark items.now }
    ensures within { result ≤ length items.now }
{
    let mut count = items.len();
    while count > 0 && is_mark(items[count - 1]) {
        count -= 1;
    }
    items.len() - count
}

/// Returns whether an item is a mark.
fn is_mark(item: Item) -> bool
    ensures { result ≡ is_mark item }
{
    matches!(item, Item::Mark(_))
}
