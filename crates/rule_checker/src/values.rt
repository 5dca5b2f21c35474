//! A table of option values that finds a value by hash.

ghost use Rattle.std.specs.Prelude.{◌≡◌, false, [], ◌∷◌, ◌++◌, length, OnOk};
ghost use Rattle.rule_checker.specs.Walking.{is_value};

use indexmap::IndexSet;
use kmn_base::Memory;
use std::alloc::Global;
use std::marker::Model;

/// The values of options, each once. Contracts model them as their list, in the order in which they were appended.
#[derive(Drop)]
pub struct ValueTable {
    alloc: Global,
    values: IndexSet<Vec<char>>,
}

impl Model for ValueTable {
    ghost use Rattle.std.specs.Prelude.{List, ℕ, map};

    ghost Value = { List (List ℕ) };

    ghost view = { λ t. map (λ value. value.items) t.values.keys };
}

impl ValueTable {
    /// Creates a table without values.
    pub fn new(alloc: Global) -> ValueTable
        ensures { result ≡ [] }
    {
        ValueTable {
            alloc,
            values: IndexSet::new(alloc),
        }
    }

    /// Returns the number of values.
    pub fn len(&self) -> usize
        ensures { result ≡ length self.now }
    {
        self.values.len()
    }

    /// Returns whether a value is in the table.
    pub fn has(&self, value: &[char]) -> bool
        ensures { result ≡ is_value self.now value.now }
    {
        self.values.contains(value)
    }

    /// Appends a new value.
    pub fn push(&mut self, value: &[char]) -> Result<(), Memory>
        requires { is_value self.old value.now ≡ false }
        ensures { OnOk result (self.new ≡ self.old ++ value.now ∷ []) }
    {
        let copy = Vec::from_slice(self.alloc, value)?;
        self.values.insert(copy)?;
        Ok(())
    }
}
