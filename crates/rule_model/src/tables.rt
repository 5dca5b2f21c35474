//! A keyboard as a compiled keyboard contains it, with numbers instead of names.

ghost use Rattle.std.specs.Prelude.{◌≡◌};
ghost use Rattle.rule_model.specs.Patterns.{is_condition, is_matched, is_nul};
ghost use Rattle.rule_model.specs.Tab.{elements_of};

use kmn_base::{Element, RuleKey, Seq, Text};

/// An item of a compiled context. Stores count from 0, offsets from 1.
#[derive(Clone, Copy, Debug, PartialEq, Eq)]
pub enum Pat {
    Char(char),
    Mark(u16),
    Any(u32),
    NotAny(u32),
    /// Store and offset.
    Index(u32, u32),
    ContextAt(u32),
    /// Store and value store.
    Equal(u32, u32),
    Unequal(u32, u32),
    /// System id and value store.
    SystemEqual(u32, u32),
    SystemUnequal(u32, u32),
    Nul,
}

impl Pat {
    /// Returns whether the item is a condition on a store or a system option.
    pub fn is_condition(self) -> bool
        ensures { result ≡ is_condition self }
    {
        matches!(
            self,
            Pat::Equal(..) | Pat::Unequal(..) | Pat::SystemEqual(..) | Pat::SystemUnequal(..)
        )
    }

    /// Returns whether the item is `nul`, the start of the text.
    pub fn is_nul(self) -> bool
        ensures { result ≡ is_nul self }
    {
        matches!(self, Pat::Nul)
    }

    /// Returns whether the item is matched with an item of the text. Conditions and `nul` are not.
    pub fn is_matched(self) -> bool
        ensures { result ≡ is_matched self }
    {
        !self.is_condition() && !self.is_nul()
    }
}

/// An item of a compiled output. Stores and groups count from 0, offsets from 1.
#[derive(Clone, Copy, Debug, PartialEq, Eq)]
pub enum Out {
    Char(char),
    Mark(u16),
    /// Store and offset.
    Index(u32, u32),
    Context,
    ContextAt(u32),
    Enter(u32),
    /// Store and value store.
    Set(u32, u32),
    /// System id and value store.
    SetSystem(u32, u32),
    Save(u32),
    Reset(u32),
    Nul,
    Beep,
    Stop,
}

/// A key record. `line` is the source's line. `place` is twice the position in the key store of the source, else 0, and is 1
/// larger for the second record of a cased key. A file does not contain `place`, so it is 0 in the tables of a file.
#[derive(Drop)]
pub struct Rule {
    /// From 1 in the tables of a source; any number in a file.
    pub line: u32,
    pub place: u32,
    pub key: RuleKey,
    pub context: Seq<Pat>,
    pub output: Seq<Out>,
}

/// A store of a file. `system` is its system id, or 0 for an ordinary store.
#[derive(Drop)]
pub struct Store {
    pub system: u32,
    /// Empty if the store has no name.
    pub name: Text,
    pub elements: Seq<Element>,
}

/// A group of a file. An empty `on_match` or `on_nomatch` is absent.
#[derive(Drop)]
pub struct Group {
    /// Empty if the group has no name.
    pub name: Text,
    pub using_keys: bool,
    pub rules: Seq<Rule>,
    pub on_match: Seq<Out>,
    pub on_nomatch: Seq<Out>,
}

/// All that a compiled keyboard contains. A start group of `0xFFFF_FFFF` means no start group.
#[derive(Drop)]
pub struct Tables {
    /// As in a file: `0x0A00` is version 10.0.
    pub version: u16,
    /// The number of the group, from 0.
    pub start_ansi: u32,
    /// The number of the group, from 0.
    pub start_unicode: u32,
    pub stores: Seq<Store>,
    pub groups: Seq<Group>,
}

impl Tables {
    /// Returns the elements of a store, or none if there is no such store.
    pub fn elements(&self, store: u32) -> &[Element]
        ensures { result.now ≡ elements_of self.now.stores store }
    {
        match self.stores.as_slice().get(store as usize) {
            Some(store) => store.elements.as_slice(),
            None => &[],
        }
    }
}
