//! The items of a string as elements of a store, as context items and as output items.

ghost use Rattle.std.specs.Prelude.{◌≡◌, ◌-◌, option_map};
ghost use Rattle.kmx_format.specs.TablesOf.{comparison_of, system_comparison_of};
ghost use Rattle.kmx_parts.specs.ContextItems.{item_of};

use crate::context_item::ContextItem;
use item_codec::item_codes::{EQUAL, UNEQUAL};
use kmn_base::{Element, UnitItem};
use rule_model::{Out, Pat};

/// A kind of parts that items of a string are read as.
pub trait StringPart: Drop {
    ghost use Rattle.std.specs.Prelude.{Option};
    ghost use Rattle.kmn_base.specs.declared.units.UnitItem.{UnitItem};

    ghost of_unit_item: { UnitItem → Option Self };

    /// Returns the part that an item spells, and None if the item is not allowed in such a string.
    fn of_unit_item(item: UnitItem) -> Option<Self>
        ensures { result ≡ of_unit_item item };
}

/// Returns a number of a store, a group or a system option counted from 0. A file counts them from 1.
fn from_zero(number: u16) -> u16
    ensures { result ≡ number - 1 }
{
    number.saturating_sub(1)
}

/// Returns the same number as in tables.
fn table_number(number: u16) -> u32
    ensures { result ≡ number - 1 }
{
    u32::from(from_zero(number))
}

fn comparison_of(store: u16, comparison: u16, value: u16) -> Option<ContextItem>
    ensures { result ≡ option_map item_of (comparison_of store comparison value) }
{
    match comparison {
        UNEQUAL => Some(ContextItem::Unequal(from_zero(store), from_zero(value))),
        EQUAL => Some(ContextItem::Equal(from_zero(store), from_zero(value))),
        _ => None,
    }
}

fn system_comparison_of(system: u16, comparison: u16, value: u16) -> Option<ContextItem>
    ensures { result ≡ option_map item_of (system_comparison_of system comparison value) }
{
    match comparison {
        UNEQUAL => Some(ContextItem::SystemUnequal(from_zero(system), from_zero(value))),
        EQUAL => Some(ContextItem::SystemEqual(from_zero(system), from_zero(value))),
        _ => None,
    }
}

impl StringPart for Element {
    ghost use Rattle.kmx_format.specs.TablesOf.{element_of_unit_item};

    ghost of_unit_item = { element_of_unit_item };

    fn of_unit_item(item: UnitItem) -> Option<Element> {
        match item {
            UnitItem::Char(c) => Some(Element::Char(c)),
            UnitItem::Dead(mark) => Some(Element::Mark(mark)),
            UnitItem::Key(flags, code) => Some(Element::Key { flags, code }),
            _ => None,
        }
    }
}

impl StringPart for ContextItem {
    ghost use Rattle.kmx_parts.specs.ContextItems.{item_of_unit_item};

    ghost of_unit_item = { item_of_unit_item };

    fn of_unit_item(item: UnitItem) -> Option<ContextItem> {
        match item {
            UnitItem::Char(c) => Some(ContextItem::Char(c)),
            UnitItem::Dead(mark) => Some(ContextItem::Mark(mark)),
            UnitItem::Any(store) => Some(ContextItem::Any(from_zero(store))),
            UnitItem::NotAny(store) => Some(ContextItem::NotAny(from_zero(store))),
            UnitItem::Index(store, offset) => Some(ContextItem::Index(from_zero(store), offset)),
            UnitItem::ContextAt(offset) => Some(ContextItem::ContextAt(offset)),
            UnitItem::Test(store, comparison, value) => comparison_of(store, comparison, value),
            UnitItem::SystemTest(system, comparison, value) => system_comparison_of(
                system, comparison, value,
            ),
            UnitItem::Nul => Some(ContextItem::Nul),
            _ => None,
        }
    }
}

impl StringPart for Pat {
    ghost use Rattle.kmx_format.specs.TablesOf.{pattern_of_unit_item};

    ghost of_unit_item = { pattern_of_unit_item };

    #[tactic(auto, using(crate::proofs::ContextItems::pattern_read))]
    fn of_unit_item(item: UnitItem) -> Option<Pat> {
        let item = ContextItem::of_unit_item(item)?;
        Some(item.pattern())
    }
}

impl StringPart for Out {
    ghost use Rattle.kmx_format.specs.TablesOf.{output_of_unit_item};

    ghost of_unit_item = { output_of_unit_item };

    fn of_unit_item(item: UnitItem) -> Option<Out> {
        match item {
            UnitItem::Char(c) => Some(Out::Char(c)),
            UnitItem::Dead(mark) => Some(Out::Mark(mark)),
            UnitItem::Index(store, offset) => Some(Out::Index(
                table_number(store),
                u32::from(offset),
            )),
            UnitItem::Context => Some(Out::Context),
            UnitItem::ContextAt(offset) => Some(Out::ContextAt(u32::from(offset))),
            UnitItem::Enter(group) => Some(Out::Enter(table_number(group))),
            UnitItem::Set(store, value) => Some(Out::Set(table_number(store), table_number(value))),
            UnitItem::SetSystem(system, value) => Some(Out::SetSystem(
                table_number(system),
                table_number(value),
            )),
            UnitItem::Save(store) => Some(Out::Save(table_number(store))),
            UnitItem::Reset(store) => Some(Out::Reset(table_number(store))),
            UnitItem::Nul => Some(Out::Nul),
            UnitItem::Beep => Some(Out::Beep),
            UnitItem::Stop => Some(Out::Stop),
            _ => None,
        }
    }
}
