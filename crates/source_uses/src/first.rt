//! The first uses of names.

ghost use Rattle.std.specs.Prelude.{◌≡◌, ◌++◌, IfOk, OnOk};
ghost use Rattle.source_uses.specs.Uses.{names_of, new_uses};

use crate::used::Use;
use kmn_base::{Memory, Text};
use std::alloc::Global;
use store_table::NameTable;

/// Returns the uses of names that are not in a table, of each name the first. Errors: `Memory` if an allocation fails.
pub fn new_uses(alloc: Global, mut known: NameTable, uses: &[Use]) -> Result<Vec<Use>, Memory>
    ensures { IfOk result (λ new. new.items ≡ new_uses known uses.now) }
{
    let mut new = Vec::new(alloc);
    for found in uses {
        if !known.has(found.name.as_slice()) {
            known.push(found.name.as_slice())?;
            new.push(found.copy(alloc)?)?;
        }
    }
    Ok(new)
}

/// Appends the names of uses to a table. Errors: `Memory` if an allocation fails.
pub fn add_names(names: &mut NameTable, uses: &[Use]) -> Result<(), Memory>
    ensures { OnOk result (names.new ≡ names.old ++ names_of uses.now) }
{
    for found in uses {
        names.push(found.name.as_slice())?;
    }
    Ok(())
}

/// Appends words to a table. Errors: `Memory` if an allocation fails.
pub fn add_words(names: &mut NameTable, words: &[Text]) -> Result<(), Memory>
    ensures { OnOk result (names.new ≡ names.old ++ words.now) }
{
    for word in words {
        names.push(word.as_slice())?;
    }
    Ok(())
}
