//! A context item of eight bytes, for indexes that keep the contexts of all records.

ghost use Rattle.std.specs.Prelude.{◌≡◌, []};
ghost use Rattle.rule_model.specs.Match.{takes_item};
ghost use Rattle.rule_model.specs.Tab.{tab_pattern};
ghost use Rattle.kmx_parts.specs.ContextItems.{pattern_of};

use rule_model::Pat;

/// An item of a compiled context with the numbers of 16 bits that a file has, so that it needs eight bytes. Stores count from
/// 0, offsets from 1.
#[derive(Clone, Copy, PartialEq, Eq)]
pub enum ContextItem {
    Char(char),
    Mark(u16),
    Any(u16),
    NotAny(u16),
    /// Store and offset.
    Index(u16, u16),
    ContextAt(u16),
    /// Store and value store.
    Equal(u16, u16),
    Unequal(u16, u16),
    /// System id and value store.
    SystemEqual(u16, u16),
    SystemUnequal(u16, u16),
    Nul,
}

impl ContextItem {
    /// Returns the pattern of the item.
    pub fn pattern(self) -> Pat
        ensures { result ≡ pattern_of self }
    {
        match self {
            ContextItem::Char(c) => Pat::Char(c),
            ContextItem::Mark(mark) => Pat::Mark(mark),
            ContextItem::Any(store) => Pat::Any(u32::from(store)),
            ContextItem::NotAny(store) => Pat::NotAny(u32::from(store)),
            ContextItem::Index(store, offset) => Pat::Index(u32::from(store), u32::from(offset)),
            ContextItem::ContextAt(offset) => Pat::ContextAt(u32::from(offset)),
            ContextItem::Equal(store, value) => Pat::Equal(u32::from(store), u32::from(value)),
            ContextItem::Unequal(store, value) => Pat::Unequal(u32::from(store), u32::from(value)),
            ContextItem::SystemEqual(id, value) => Pat::SystemEqual(
                u32::from(id),
                u32::from(value),
            ),
            ContextItem::SystemUnequal(id, value) => Pat::SystemUnequal(
                u32::from(id),
                u32::from(value),
            ),
            ContextItem::Nul => Pat::Nul,
        }
    }

    /// Returns whether the item matches an item of the text, whatever the stores are.
    #[inline(always)]
    pub fn takes_item(self) -> bool
        ensures { result ≡ takes_item (tab_pattern [] (pattern_of self)) }
    {
        !matches!(
            &self,
            ContextItem::Equal(..)
                | ContextItem::Unequal(..)
                | ContextItem::SystemEqual(..)
                | ContextItem::SystemUnequal(..)
                | ContextItem::Nul
        )
    }
}
