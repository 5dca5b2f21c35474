//! A table of values of options that finds a value by hash.

ghost use Rattle.std.specs.Prelude.{◌≡◌, [], IfOk, OnOk};
ghost use Rattle.std.specs.Str.{str_to_ascii_lowercase};
ghost use Rattle.source_uses.specs.Choices.{choice_key, is_chosen, with_choice};

use indexmap::IndexSet;
use kmn_base::Memory;
use kmn_base::names::in_lower_case;
use std::alloc::Global;
use std::marker::Model;

/// Values of options, each once. Options are found without ASCII case, values exactly. Contracts model it as the list of the options in
/// lower case with their values.
#[derive(Drop)]
pub struct ChoiceTable {
    alloc: Global,
    keys: IndexSet<(Vec<u8>, Vec<char>)>,
}

impl Model for ChoiceTable {
    ghost use Rattle.std.specs.Prelude.{List, ℕ, map};

    ghost Value = { List (List ℕ × List ℕ) };

    ghost view = { λ t. map (λ key. (key.0.items, key.1.items)) t.keys.keys };
}

impl ChoiceTable {
    /// Creates an empty table.
    pub fn new(alloc: Global) -> ChoiceTable
        ensures { result ≡ [] }
    {
        ChoiceTable {
            alloc,
            keys: IndexSet::new(alloc),
        }
    }

    /// Returns whether a value of an option is in the table. Errors: `Memory` if an allocation fails.
    pub fn has(&self, option: &[u8], value: &[char]) -> Result<bool, Memory>
        ensures { IfOk result (λ has. has ≡ is_chosen self.now option.now value.now) }
    {
        let name = in_lower_case(self.alloc, option)?;
        let value = Vec::from_slice(self.alloc, value)?;
        Ok(self.keys.contains(&(name, value)))
    }

    /// Adds a value of an option, if it is new. Errors: `Memory` if an allocation fails.
    pub fn add(&mut self, option: &[u8], value: &[char]) -> Result<(), Memory>
        ensures { OnOk result (self.new ≡ with_choice self.old option.now value.now) }
    {
        let name = in_lower_case(self.alloc, option)?;
        let value = Vec::from_slice(self.alloc, value)?;
        self.keys.insert((name, value))?;
        Ok(())
    }
}
