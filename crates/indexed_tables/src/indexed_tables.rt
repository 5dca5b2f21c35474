//! Tables with the indexes that events use: the option number of each store, and the names of custom keys.

ghost use Rattle.std.specs.Prelude.{◌≡◌, ◌+◌, ◌-◌, Some, IfOk, if◌then◌else◌, nat_eq, length, option_copied, option_map, slice_get, position};
ghost use Rattle.virtual_keys.specs.Dictionary.{name_in};
ghost use Rattle.rule_model.specs.Keyboard.{Numbered};
ghost use Rattle.rule_model.specs.Content.{option_number, elements_at};
ghost use Rattle.rule_model.specs.Event.{has_name};
ghost use Rattle.rule_model.specs.Plain.{option_numbers, option_names, option_named};
ghost use Rattle.rule_model.specs.declared.system.TheConstants.{PLATFORM};
ghost use Rattle.rule_model.specs.System.{system_ref, system_options};
ghost use Rattle.rule_model.specs.Tab.{elements_of, tab, tab_options, with_options};

use crate::flags::number_at;
use crate::options::option_numbers;
use crate::own_keys::own_keys;
use crate::system::{system_elements, system_number};
use kmn_base::{Element, Memory, Text};
use rule_model::system::{LAYER, PLATFORM};
use rule_model::{Group, Store, Tables, has_name};
use std::alloc::Global;
use std::marker::Model;
use virtual_keys::FIRST_OWN_CODE;

/// Tables with the indexes that events use: the option number of each store, and the names of the key dictionary.
pub struct IndexedTables<'a> {
    alloc: Global,
    tables: &'a Tables,
    numbers: Vec<Option<usize>>,
    names: Vec<Text>,
}

/// One call in proofs. A derived drop would be written out in each exit.
impl Drop for IndexedTables<'_> {
    fn drop(self) {
        let IndexedTables {
            alloc: _,
            tables: _,
            numbers: _,
            names: _,
        } = self;
    }
}

impl<'a> Model for IndexedTables<'a> {
    ghost use Rattle.std.specs.Prelude.{◌≡◌};
    ghost use Rattle.rule_model.specs.declared.tables.Tables.{Tables};
    ghost use Rattle.rule_model.specs.Plain.{option_numbers};
    ghost use Rattle.rule_model.specs.Tab.{tab};

    ghost Value = { Tables };

    ghost view = { λ indexed. indexed.tables.now };

    ghost invariant = { λ indexed.
        (indexed.numbers.items ≡ option_numbers 0 (tab indexed.tables.now).stores)
        × (indexed.names.items ≡ (tab indexed.tables.now).dictionary) };
}

impl<'a> IndexedTables<'a> {
    /// Creates the indexes of tables. Errors: `Memory` if an allocation fails.
    #[tactic(auto, unfolding(rule_model::specs::Tab::tab))]
    pub fn new(alloc: Global, tables: &'a Tables) -> Result<IndexedTables<'a>, Memory>
        ensures { IfOk result (λ indexed. indexed ≡ tables.now) }
    {
        let numbers = option_numbers(alloc, tables)?;
        let names = own_keys(alloc, tables.stores.as_slice())?;
        Ok(IndexedTables {
            alloc,
            tables,
            numbers,
            names,
        })
    }

    /// Returns the allocator.
    pub fn alloc(&self) -> Global {
        self.alloc
    }

    /// Returns the number of the Unicode start group.
    pub fn start(&self) -> u32
        ensures { result ≡ self.now.start_unicode }
    {
        self.tables.start_unicode
    }

    /// Returns the option number of each store.
    pub fn numbers(&self) -> &[Option<usize>]
        ensures { result.now ≡ option_numbers 0 (tab self.now).stores }
    {
        self.numbers.as_slice()
    }

    /// Returns the elements of a store, or none if there is no such store.
    pub fn elements(&self, store: u32) -> &[Element]
        ensures { result.now ≡ elements_of self.now.stores store }
    {
        self.tables.elements(store)
    }

    /// Returns the elements of a store as the keyboard defines them. The system options come after its stores.
    #[tactic(auto, using(crate::proofs::SystemNumbers::own_stated, crate::proofs::SystemNumbers::system_stated))]
    pub fn stated(&self, store: u32) -> &[Element]
        ensures { result.now ≡ elements_at (tab self.now).stores (Some store) }
    {
        let count = self.tables.stores.len();
        if (store as usize) < count {
            self.elements(store)
        } else {
            system_elements(store as usize - count)
        }
    }

    /// Returns the option number of a store.
    #[tactic(auto, using(rule_model::proofs::PlainOptions::number_found))]
    pub fn option_number(&self, store: u32) -> Option<usize>
        ensures { result ≡ option_number (tab self.now).stores (Numbered store) }
    {
        number_at(self.numbers.as_slice(), store)
    }

    /// Returns the number of the first option with a name. A store without a name is never found.
    #[tactic(auto, using(rule_model::proofs::SystemOptions::first_named_of_all), unfolding(rule_model::specs::Tab::tab))]
    pub fn option_named(&self, name: &[u8]) -> Option<usize>
        ensures { result ≡ position (has_name name.now) (option_names (tab self.now).stores) }
    {
        match option_named(name, self.numbers.as_slice(), self.tables.stores.as_slice()) {
            Some(option) => Some(option),
            None => self.system_named(name),
        }
    }

    /// Returns the option number of the system option with a name.
    #[tactic(auto, using(rule_model::proofs::SystemOptions::system_place), unfolding(rule_model::specs::Tab::tab))]
    fn system_named(&self, name: &[u8]) -> Option<usize>
        ensures { result ≡ option_map (λ i. length (option_names (with_options (tab_options self.now) 0 self.now.stores)) + i) (position (has_name name.now) (option_names system_options)) }
    {
        if has_name(name, b"&layer") {
            Some(self.system_option(LAYER))
        } else if has_name(name, b"&platform") {
            Some(self.system_option(PLATFORM))
        } else {
            None
        }
    }

    /// Returns the option number of the system option with an id.
    #[tactic(auto, using(crate::proofs::SystemNumbers::system_read, crate::proofs::SystemNumbers::system_counted))]
    pub fn system_option(&self, id: u32) -> usize
        ensures is { option_number (tab self.now).stores (system_ref id) ≡ Some result }
        ensures number { result ≡ length (option_names (with_options (tab_options self.now) 0 self.now.stores)) + (if nat_eq id PLATFORM then 1 else 0) }
    {
        match system_number(self.numbers.as_slice(), id) {
            Some(option) => option,
            None => unreachable!(),
        }
    }

    /// Returns the group with a number.
    pub fn group(&self, group: u32) -> Option<&Group>
        ensures { option_copied result ≡ slice_get self.now.groups group }
    {
        self.tables.groups.as_slice().get(group as usize)
    }

    /// Returns the name of a code in the key dictionary.
    pub fn own_key(&self, code: u16) -> Option<&[u8]>
        ensures { option_copied result ≡ name_in (tab self.now).dictionary code }
    {
        if code < FIRST_OWN_CODE {
            return None;
        }
        match self
            .names
            .as_slice()
            .get(code as usize - FIRST_OWN_CODE as usize)
        {
            Some(name) => Some(name.as_slice()),
            None => None,
        }
    }
}

/// Returns the option number of the first store with a name and an option number.
#[tactic(auto, using(crate::proofs::Ends::named_ended))]
fn option_named(name: &[u8], numbers: &[Option<usize>], stores: &[Store]) -> Option<usize>
    ensures { result ≡ option_named name.now numbers.now stores.now }
{
    for n in 0..numbers.len().min(stores.len()) {
        let store = &stores[n];
        if numbers[n].is_some() && has_name(name, store.name.as_slice()) {
            return numbers[n];
        }
    }
    None
}
