//! Names that no store or group has.

ghost use Rattle.std.specs.Prelude.{◌≡◌, ◌+◌, ◌<◌, ◌^◌, ◌≤◌, ◌++◌, length, IfOk, OnOk};
ghost use Rattle.decompile_program.specs.Names.{numbered_name, is_free, free_names};
ghost use Rattle.decompile_program.specs.Free.{one_if_free};

use kmn_base::{Memory, Text};
use std::alloc::Global;
use store_table::NameTable;

/// Returns the first `count` names of a letter and a number, from 1 on, that are not taken. Testing `tries` numbers is enough.
#[tactic(auto, using(crate::proofs::FreeNames::none_free, crate::proofs::FreeNames::enough_free, crate::proofs::FreeNames::all_taken), unfolding(crate::specs::Names::free_names))]
pub(crate) fn free_names(
    alloc: Global,
    letter: &[u8],
    taken: &NameTable,
    count: usize,
    tries: usize,
) -> Result<Vec<Text>, Memory>
    requires enough { tries ≡ count + length taken.now }
    requires few { tries < 2 ^ 63 }
    ensures { IfOk result (λ names. names.items ≡ free_names letter.now taken.now count) }
{
    let mut free = Vec::new(alloc);
    for before in 0..tries {
        if free.len() == count {
            break;
        }
        let name = numbered_name(alloc, letter, before + 1)?;
        add_free(&mut free, taken, name)?;
    }
    Ok(free)
}

/// Returns a letter followed by a number.
fn numbered_name(alloc: Global, letter: &[u8], number: usize) -> Result<Text, Memory>
    ensures { IfOk result (λ name. name ≡ numbered_name letter.now number) }
{
    let mut name = Text::from_slice(alloc, letter)?;
    let digits = format!(in alloc; "{number}")?;
    name.extend_from_slice(digits.as_bytes())?;
    Ok(name)
}

/// Appends a name if it is free.
#[tactic(auto, using(crate::proofs::FreeNames::one_more, crate::proofs::FreeNames::none_more))]
fn add_free(free: &mut Vec<Text>, taken: &NameTable, name: Text) -> Result<(), Memory>
    ensures names { OnOk result (free.new.items ≡ free.old.items ++ one_if_free taken.now name) }
    ensures few { OnOk result (length free.new.items ≤ length free.old.items + 1) }
{
    if is_free(taken, name.as_slice()) {
        free.push(name)?;
    }
    Ok(())
}

/// Returns whether a name differs from all of these.
#[tactic(auto, using(virtual_keys::proofs::NamePlaces::some_place), unfolding(store_table::specs::Names::is_named))]
fn is_free(taken: &NameTable, name: &[u8]) -> bool
    ensures { result ≡ is_free taken.now name.now }
{
    !taken.has(name)
}
