//! The names of a program, with their numbers in its file.

ghost use Rattle.std.specs.Prelude.{◌≡◌, []};
ghost use Rattle.kmn_base.specs.Answers.{Answers};
ghost use Rattle.store_table.specs.Numbering.{mark_in, named_store, number_in, numbered};

use crate::appearing::appeared_names;
use crate::name_table::NameTable;
use crate::refusing::names_refusal;
use crate::stating::stated_names;
use kmn_base::{CompileError, Refusal};
use rule_model::Program;
use std::alloc::Global;
use std::marker::Model;
use virtual_keys::KeyDictionary;

/// The names of a program, which are found without ASCII case. Contracts model them as lists, each in the order of its numbers.
pub struct Names {
    stores: NameTable,
    groups: NameTable,
    marks: NameTable,
    keys: KeyDictionary,
}

/// One call in proofs. A derived drop would be written out in each exit.
impl Drop for Names {
    fn drop(self) {
        let Names {
            stores: _,
            groups: _,
            marks: _,
            keys: _,
        } = self;
    }
}

impl Model for Names {
    ghost use Rattle.store_table.specs.Numbering.{NameLists};

    ghost Value = { NameLists };

    ghost view = { λ n. record { stores = n.stores; groups = n.groups; marks = n.marks; keys = n.keys } };
}

impl Names {
    /// Returns the number in the file of the first store with a name, from 0. Statements that are read and dropped are not
    /// stores, and system stores have no name.
    pub fn store(&self, name: &[u8]) -> Option<u32>
        ensures { result ≡ named_store self.now.stores name.now }
    {
        if name.is_empty() {
            return None;
        }
        number_in(&self.stores, name)
    }

    /// Returns the number in the file of the first system store, from 0.
    pub fn system_store(&self) -> Option<u32>
        ensures { result ≡ number_in self.now.stores [] }
    {
        number_in(&self.stores, b"")
    }

    /// Returns the number in the file of the first group with a name, from 0.
    pub fn group(&self, name: &[u8]) -> Option<u32>
        ensures { result ≡ number_in self.now.groups name.now }
    {
        number_in(&self.groups, name)
    }

    /// Returns the number of a mark (a deadkey in the item list), from 1. Names past the 65,535th have none.
    pub fn mark(&self, name: &[u8]) -> Option<u16>
        ensures { result ≡ mark_in self.now.marks name.now }
    {
        let place = self.marks.place_of(name)?;
        u16::try_from(place).ok()?.checked_add(1)
    }

    /// Returns the first 65,280 names of keys, with their codes.
    pub fn keys(&self) -> &KeyDictionary
        ensures { result.now ≡ self.now.keys }
    {
        &self.keys
    }
}

/// Returns the names of a program. Errors: its first refusal for names, C02 to C07 and C15; `Memory` if an allocation fails.
pub fn number(alloc: Global, program: &Program) -> Result<Names, CompileError>
    ensures { Answers (numbered program.now) result }
{
    let stated = stated_names(alloc, program)?;
    match names_refusal(alloc, &stated, program)? {
        Some(refusal) => return Err(CompileError::Refused(refusal)),
        None => {}
    }
    let appeared = appeared_names(alloc, program)?;
    Ok(Names {
        stores: stated.stores,
        groups: stated.groups,
        marks: appeared.marks,
        keys: appeared.keys,
    })
}

/// Returns the index of the first name of a table that is the same, if it has 32 bits.
fn number_in(names: &NameTable, name: &[u8]) -> Option<u32>
    ensures { result ≡ number_in names.now name.now }
{
    let place = names.place_of(name)?;
    u32::try_from(place).ok()
}
