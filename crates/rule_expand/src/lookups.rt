//! The numbers of names and values.
//!
//! Each name and value of a program that isn't refused has a number. The definitions also assign a number to a name or value that has
//! none, so they need no case that never occurs: 1 for a mark, the number of the first value for a value, and 0 for any other name.
//! The functions here return the same numbers, so they need no precondition that the program was checked. `store_place` returns
//! `None` for a store name that has no number.

ghost use Rattle.std.specs.Prelude.{◌≡◌, nat_eq};
ghost use Rattle.std.specs.List.{list_any};
ghost use Rattle.rule_model.specs.Naming.{mark_number, key_number, elements_named};
ghost use Rattle.store_table.specs.Numbering.{number_in};
ghost use Rattle.compile_laws.specs.Numbers.{number_of_store, number_of_group, number_of_value};
ghost use Rattle.rule_expand.specs.CasedCodes.{cased_codes};
ghost use Rattle.rule_expand.specs.Lookups.{source_names, AreFew, BeginWith, AreNumbers, place_of_store, elements_at};

use crate::values::Values;
use indexmap::IndexSet;
use kmn_base::Element;
use rule_model::{KeyName, Store};
use std::marker::Model;
use store_table::Names;

/// Returns the number of a deadkey's mark, 1 for a name that has none.
#[tactic(auto, using(crate::proofs::NumberLaws::mark_found))]
pub fn mark_number(names: &Names, name: &[u8]) -> u16
    requires { AreFew names.now }
    ensures { result ≡ mark_number (source_names names.now) name.now }
{
    names.mark(name).unwrap_or(1)
}

/// Returns the code of a virtual key, 0 for a name that has none.
pub fn key_number(names: &Names, key: &KeyName) -> u16
    ensures { result ≡ key_number (source_names names.now) key.now }
{
    if key.code == 0 {
        names.keys().code_of(key.name.as_slice()).unwrap_or(0)
    } else {
        key.code
    }
}

/// Returns the elements of the store at a position, or no elements if there is no such store.
pub fn elements_at(stores: &[Store], place: Option<u32>) -> &[Element]
    ensures { result.now ≡ elements_at stores.now place }
{
    let Some(place) = place else {
        return &[];
    };
    match stores.get(place as usize) {
        Some(store) => store.elements.as_slice(),
        None => &[],
    }
}

/// Returns the number of the store that the definitions find by a name, which is the first. By the empty name, which no item has,
/// they find the first system store.
pub fn store_number(names: &Names, name: &[u8]) -> Option<u32>
    ensures { result ≡ number_in names.now.stores name.now }
{
    if name.is_empty() {
        names.system_store()
    } else {
        names.store(name)
    }
}

/// Returns the elements of the store of a name. `stores` are the first stores of `names`; a later store has no elements here.
#[tactic(auto, using(crate::proofs::NumberLaws::elements_found))]
pub fn elements_named<'a>(names: &Names, stores: &'a [Store], name: &[u8]) -> &'a [Element]
    requires few { AreFew names.now }
    requires first { BeginWith stores.now names.now.stores }
    ensures { result.now ≡ elements_named stores.now name.now }
{
    elements_at(stores, store_number(names, name))
}

/// An index that finds the numbers and the cased keys of a program in time that doesn't grow with the program. Contracts model
/// it as the numbers.
#[derive(Drop)]
pub struct Lookups<'a> {
    names: &'a Names,
    stores: &'a [Store],
    values: &'a Values<'a>,
    first_value: u32,
    cased: &'a IndexSet<u16>,
}

impl<'a> Model for Lookups<'a> {
    ghost use Rattle.compile_laws.specs.Numbers.{Numbers};
    ghost use Rattle.rule_expand.specs.CasedCodes.{cased_codes};
    ghost use Rattle.rule_expand.specs.Lookups.{source_names, AreNumbers};

    ghost Value = { Numbers };

    ghost view = { λ l. record {
      names = source_names l.names.now;
      stores = l.stores.now;
      groups = l.names.now.groups;
      values = l.values.now;
      first_value = l.first_value;
      cased = cased_codes l.stores.now;
    } };

    ghost invariant = { λ l. AreNumbers l.names.now l.cased.now.keys (record {
      names = source_names l.names.now;
      stores = l.stores.now;
      groups = l.names.now.groups;
      values = l.values.now;
      first_value = l.first_value;
      cased = cased_codes l.stores.now;
    }) };
}

impl<'a> Lookups<'a> {
    /// Creates an index of these names, stores and values, and of the codes of the cased keys. `stores` are all stores that `names`
    /// lists, and the values are numbered from `first_value` on.
    pub fn new(
        names: &'a Names,
        stores: &'a [Store],
        values: &'a Values<'a>,
        first_value: u32,
        cased: &'a IndexSet<u16>,
    ) -> Lookups<'a>
        requires { AreNumbers names.now cased.now.keys (record { names = source_names names.now; stores = stores.now; groups = names.now.groups; values = values.now; first_value = first_value; cased = cased_codes stores.now }) }
        ensures { result ≡ record { names = source_names names.now; stores = stores.now; groups = names.now.groups; values = values.now; first_value = first_value; cased = cased_codes stores.now } }
    {
        Lookups {
            names,
            stores,
            values,
            first_value,
            cased,
        }
    }

    /// Returns the number of a deadkey's mark, 1 for a name that has none.
    pub fn mark(&self, name: &[u8]) -> u16
        ensures { result ≡ mark_number self.now.names name.now }
    {
        mark_number(self.names, name)
    }

    /// Returns the code of a virtual key, 0 for a name that has none.
    pub fn key(&self, key: &KeyName) -> u16
        ensures { result ≡ key_number self.now.names key.now }
    {
        key_number(self.names, key)
    }

    /// Returns the number of a store, or `None` if no store has the name.
    #[tactic(auto, using(crate::proofs::NumberLaws::store_found))]
    pub fn store_place(&self, name: &[u8]) -> Option<u32>
        ensures { result ≡ place_of_store self.now.stores name.now }
    {
        store_number(self.names, name)
    }

    /// Returns the number of a store, 0 for a name that has none.
    pub fn store(&self, name: &[u8]) -> u32
        ensures { result ≡ number_of_store self.now name.now }
    {
        self.store_place(name).unwrap_or(0)
    }

    /// Returns the number of a group, 0 for a name that has none.
    #[tactic(auto, using(crate::proofs::NumberLaws::group_found))]
    pub fn group(&self, name: &[u8]) -> u32
        ensures { result ≡ number_of_group self.now name.now }
    {
        self.names.group(name).unwrap_or(0)
    }

    /// Returns the number of the store of a value, or the number of the first value if the value has none.
    #[tactic(auto, using(crate::proofs::NumberLaws::value_within))]
    pub fn value(&self, value: &[char]) -> u32
        ensures { result ≡ number_of_value self.now value.now }
    {
        match self.values.place_of(value) {
            Some(place) => self.first_value + place as u32,
            None => self.first_value,
        }
    }

    /// Returns whether a code is the code of a cased key.
    pub fn is_cased(&self, code: u16) -> bool
        ensures { result ≡ list_any (nat_eq code) self.now.cased }
    {
        self.cased.contains(&code)
    }

    /// Returns the elements of the store at a position, or no elements if there is no such store.
    pub fn elements_at(&self, place: Option<u32>) -> &'a [Element]
        ensures { result.now ≡ elements_at self.now.stores place }
    {
        elements_at(self.stores, place)
    }

    /// Returns the elements of the store of a name.
    #[tactic(auto, using(crate::proofs::NumberLaws::all_begin))]
    pub fn elements(&self, name: &[u8]) -> &'a [Element]
        ensures { result.now ≡ elements_named self.now.stores name.now }
    {
        elements_named(self.names, self.stores, name)
    }
}
