//! The spelling of elements, context items and output items in the strings of a file.

ghost use Rattle.std.specs.Prelude.{◌≡◌, ◌+◌, ◌<◌, ◌^◌};
ghost use Rattle.kmn_base.specs.declared.units.UnitItem.{UnitItem};
ghost use Rattle.kmn_base.specs.Spelling.{IsSpellable};
ghost use Rattle.kmx_format.specs.FileUnits.{unit_item_of_element, unit_item_of_pattern, unit_item_of_output};

use item_codec::item_codes::{EQUAL, UNEQUAL};
use kmn_base::{Element, UnitItem};
use rule_model::{Out, Pat};

/// An item that a string can contain.
pub trait Spelled {
    ghost spelled: { Self → UnitItem };

    /// Returns the unit item that the string contains for this item.
    fn unit_item(&self) -> UnitItem
        requires { IsSpellable (spelled self.now) }
        ensures { result ≡ spelled self.now };
}

impl Spelled for Element {
    ghost spelled = { unit_item_of_element };

    fn unit_item(&self) -> UnitItem {
        match *self {
            Element::Char(c) => UnitItem::Char(c),
            Element::Mark(mark) => UnitItem::Dead(mark),
            Element::Key { flags, code } => UnitItem::Key(flags, code),
        }
    }
}

/// Returns a store or group number as in a file, counted from 1.
fn from_one(number: u32) -> u16
    requires { number + 1 < 2 ^ 16 }
    ensures { result ≡ number + 1 }
{
    number as u16 + 1
}

impl Spelled for Pat {
    ghost spelled = { unit_item_of_pattern };

    fn unit_item(&self) -> UnitItem {
        match *self {
            Pat::Char(c) => UnitItem::Char(c),
            Pat::Mark(mark) => UnitItem::Dead(mark),
            Pat::Any(store) => UnitItem::Any(from_one(store)),
            Pat::NotAny(store) => UnitItem::NotAny(from_one(store)),
            Pat::Index(store, offset) => UnitItem::Index(from_one(store), offset as u16),
            Pat::ContextAt(offset) => UnitItem::ContextAt(offset as u16),
            Pat::Equal(store, value) => UnitItem::Test(from_one(store), EQUAL, from_one(value)),
            Pat::Unequal(store, value) => UnitItem::Test(from_one(store), UNEQUAL, from_one(value)),
            Pat::SystemEqual(id, value) => UnitItem::SystemTest(
                from_one(id),
                EQUAL,
                from_one(value),
            ),
            Pat::SystemUnequal(id, value) => UnitItem::SystemTest(
                from_one(id),
                UNEQUAL,
                from_one(value),
            ),
            Pat::Nul => UnitItem::Nul,
        }
    }
}

impl Spelled for Out {
    ghost spelled = { unit_item_of_output };

    fn unit_item(&self) -> UnitItem {
        match *self {
            Out::Char(c) => UnitItem::Char(c),
            Out::Mark(mark) => UnitItem::Dead(mark),
            Out::Index(store, offset) => UnitItem::Index(from_one(store), offset as u16),
            Out::Context => UnitItem::Context,
            Out::ContextAt(offset) => UnitItem::ContextAt(offset as u16),
            Out::Enter(group) => UnitItem::Enter(from_one(group)),
            Out::Set(store, value) => UnitItem::Set(from_one(store), from_one(value)),
            Out::SetSystem(id, value) => UnitItem::SetSystem(from_one(id), from_one(value)),
            Out::Save(store) => UnitItem::Save(from_one(store)),
            Out::Reset(store) => UnitItem::Reset(from_one(store)),
            Out::Nul => UnitItem::Nul,
            Out::Beep => UnitItem::Beep,
            Out::Stop => UnitItem::Stop,
        }
    }
}
