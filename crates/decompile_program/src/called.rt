//! The names of the stores, groups and keys of tables in a text.

ghost use Rattle.std.specs.Prelude.{◌≡◌, [], None, option_copied, nat_lt, if◌then◌else◌, slice_get, unwrap_or};
ghost use Rattle.virtual_keys.specs.declared.dictionary.TheConstants.{FIRST_OWN_CODE};
ghost use Rattle.virtual_keys.specs.Dictionary.{name_in};
ghost use Rattle.virtual_keys.specs.Keys.{key_name};
ghost use Rattle.rule_model.specs.Tab.{elements_of};
ghost use Rattle.decompile_program.specs.Items.{store_called, group_called};

use indexed_tables::IndexedTables;
use kmn_base::{Element, Text};
use rule_model::Store;
use std::marker::Model;
use virtual_keys::{FIRST_OWN_CODE, name_of};

/// The names of a text: of each store (`None` if the store is omitted), of each group, and of the custom keys.
#[derive(Drop)]
pub struct Called<'a> {
    pub(crate) tables: &'a IndexedTables<'a>,
    pub(crate) elements: &'a [Store],
    pub(crate) stores: Vec<Option<Text>>,
    pub(crate) groups: Vec<Text>,
}

impl<'a> Model for Called<'a> {
    ghost use Rattle.std.specs.Prelude.{◌≡◌};
    ghost use Rattle.rule_model.specs.Tab.{tab_dictionary};
    ghost use Rattle.decompile_program.specs.Items.{Names};

    ghost Value = { Names };

    ghost view = { λ called. record {
      stores = called.stores.items;
      groups = called.groups.items;
      keys = tab_dictionary called.tables.now.stores;
      elements = called.elements.now;
    } };

    ghost invariant = { λ called. called.elements.now ≡ called.tables.now.stores };
}

impl<'a> Called<'a> {
    /// Returns the name of a store, or an empty name if it has none.
    pub fn store(&self, number: u32) -> &[u8]
        ensures { result.now ≡ store_called self.now number }
    {
        match self.stores.as_slice().get(number as usize) {
            Some(Some(name)) => name.as_slice(),
            _ => &[],
        }
    }

    /// Returns the name of the store at an index, or `None` if the store is omitted or does not exist.
    pub fn store_at(&self, number: usize) -> Option<&[u8]>
        ensures { option_copied result ≡ unwrap_or (slice_get self.now.stores number) None }
    {
        match self.stores.as_slice().get(number) {
            Some(Some(name)) => Some(name.as_slice()),
            Some(None) => None,
            None => None,
        }
    }

    /// Returns the name of a group, or an empty name if there is no such group.
    pub fn group(&self, number: u32) -> &[u8]
        ensures { result.now ≡ group_called self.now number }
    {
        self.group_at(number as usize)
    }

    /// Returns the name of the group at an index, or an empty name if there is no such group.
    pub fn group_at(&self, number: usize) -> &[u8]
        ensures { result.now ≡ group_called self.now number }
    {
        match self.groups.as_slice().get(number) {
            Some(name) => name.as_slice(),
            None => &[],
        }
    }

    /// Returns the stores of the tables, by number.
    pub fn elements(&self) -> &[Store]
        ensures { result.now ≡ self.now.elements }
    {
        self.elements
    }

    /// Returns the elements of a store that is a value.
    pub fn value(&self, number: u32) -> &[Element]
        ensures { result.now ≡ elements_of self.now.elements number }
    {
        self.tables.elements(number)
    }

    /// Returns the name of a key by its code, or an empty name if it has none.
    pub fn key_name(&self, code: u16) -> &[u8]
        ensures { result.now ≡ unwrap_or (if nat_lt code FIRST_OWN_CODE then key_name code else name_in self.now.keys code) [] }
    {
        match self.key(code) {
            Some(name) => name,
            None => &[],
        }
    }

    /// Returns the name of a key by its code, if it has one. The key is one of every keyboard or a custom key.
    #[tactic(auto, unfolding(rule_model::specs::Tab::tab))]
    pub fn key(&self, code: u16) -> Option<&[u8]>
        ensures { option_copied result ≡ (if nat_lt code FIRST_OWN_CODE then key_name code else name_in self.now.keys code) }
    {
        if code < FIRST_OWN_CODE {
            name_of(code)
        } else {
            self.tables.own_key(code)
        }
    }
}
