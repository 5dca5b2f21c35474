//! The number of an item, by which a `StoreSets` stores it.

ghost use Rattle.std.specs.Prelude.{◌≡◌};
ghost use Rattle.indexed_tables.specs.Numbers.{number_of};

use kmn_base::Item;

/// Returns the number of an item.
pub fn number_of(item: Item) -> u32
    ensures { result ≡ number_of item }
{
    match item {
        Item::Char(c) => 2 * u32::from(c),
        Item::Mark(m) => 1 + 2 * u32::from(m),
    }
}
