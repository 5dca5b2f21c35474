//! The names of stores and groups in a text: their own names if these can be kept, otherwise the next free names.

ghost use Rattle.std.specs.Prelude.{◌≡◌, ◌<◌, nat_eq, ◌++◌, ◌∷◌, [], false, length, replicate, drop, if◌then◌else◌, unwrap_or, slice_get, IfOk, OnOk, Some};
ghost use Rattle.std.specs.List.{list_any};
ghost use Rattle.kmn_items.specs.Words.{is_system_name};
ghost use Rattle.decompile_program.specs.Names.{keeps_name, keeps_store_name, is_written, written_ids, store_names, group_names, named_stores};
ghost use Rattle.decompile_program.specs.Calling.{store_call, free_left, names_met};
ghost use Rattle.indexed_tables.specs.OptionFlags.{with_flags};

use crate::source_names::is_source_name;
use crate::used::named_flags;
use indexed_tables::flag_at;
use kmn_base::{Memory, Text};
use kmx_parts::FileTables;
use rule_model::Store;
use rule_model::system::{BITMAP, MNEMONIC_LAYOUT};
use std::alloc::Global;
use store_table::NameTable;

/// Returns the names of the groups of a file, given the free names.
pub(crate) fn group_names(
    alloc: Global,
    free: &[Text],
    file: &FileTables<'_>,
) -> Result<Vec<Text>, Memory>
    ensures { IfOk result (λ names. names.items ≡ group_names free.now [] file.now.groups) }
{
    let mut naming = Naming {
        alloc,
        earlier: NameTable::new(alloc),
        free,
    };
    naming.group_names(file)
}

/// Returns the names of the stores of a file, given the free names.
pub(crate) fn store_names(
    alloc: Global,
    free: &[Text],
    file: &FileTables<'_>,
    stores: &[Store],
) -> Result<Vec<Option<Text>>, Memory>
    requires { stores.now ≡ file.now.stores }
    ensures { IfOk result (λ names. names.items ≡ store_names (named_stores file.now) free.now [] 0 file.now.stores) }
{
    let flags = named_flags(alloc, file)?;
    let mut naming = Naming {
        alloc,
        earlier: NameTable::new(alloc),
        free,
    };
    let mut names = Vec::new(alloc);
    for (number, store) in stores.iter().enumerate() {
        let written = is_written(flags.as_slice(), number, store, file);
        let name = naming.store_name(written, store)?;
        names.push(name)?;
    }
    Ok(names)
}

/// Returns whether the store of a number is written, given the flags of the stores that are named.
#[tactic(auto, using(indexed_tables::proofs::OptionFlags::flag_is))]
fn is_written(flags: &[bool], number: usize, store: &Store, file: &FileTables<'_>) -> bool
    requires flags { flags.now ≡ with_flags (replicate (length file.now.stores) false) (named_stores file.now) }
    requires within { number < length file.now.stores }
    ensures { result ≡ is_written (named_stores file.now) number store.now }
{
    if store.system == 0 {
        flag_at(flags, number)
    } else {
        is_written_system(store.system)
    }
}

/// The own names of the stores or groups so far, and the free names that are left.
#[derive(Drop)]
struct Naming<'a> {
    alloc: Global,
    earlier: NameTable,
    free: &'a [Text],
}

impl<'a> Naming<'a> {
    /// Removes and returns the next free name, or returns an empty name if none is left.
    fn next_free(&mut self) -> Result<Text, Memory>
        ensures name { IfOk result (λ name. name ≡ unwrap_or (slice_get self.old.free.now 0) []) }
        ensures left { OnOk result (self.new.free.now ≡ drop 1 self.old.free.now) }
        ensures earlier { OnOk result (self.new.earlier ≡ self.old.earlier) }
    {
        match self.free {
            [first, others @ ..] => {
                let name = first.copy(self.alloc)?;
                self.free = others;
                Ok(name)
            }
            [] => Ok(Text::new(self.alloc)),
        }
    }

    /// Returns the own name of a store or group if it is kept, otherwise the next free name.
    fn name(&mut self, own: &[u8], kept: bool) -> Result<Text, Memory>
        ensures name { IfOk result (λ name. name ≡ (if kept then own.now else unwrap_or (slice_get self.old.free.now 0) [])) }
        ensures left { OnOk result (self.new.free.now ≡ (if kept then self.old.free.now else drop 1 self.old.free.now)) }
        ensures earlier { OnOk result (self.new.earlier ≡ self.old.earlier ++ own.now ∷ []) }
    {
        self.earlier.push(own)?;
        if kept {
            Text::from_slice(self.alloc, own)
        } else {
            self.next_free()
        }
    }

    /// Returns the names of the groups of a file.
    fn group_names(&mut self, file: &FileTables<'_>) -> Result<Vec<Text>, Memory>
        ensures { IfOk result (λ names. names.items ≡ group_names self.old.free.now self.old.earlier file.now.groups) }
    {
        let mut names = Vec::new(self.alloc);
        for group in file.groups() {
            let own = group.name(self.alloc)?;
            let kept = keeps_name(&self.earlier, own.as_slice());
            names.push(self.name(own.as_slice(), kept)?)?;
        }
        Ok(names)
    }

    /// Returns the name of an ordinary store that is written.
    fn ordinary_name(&mut self, store: &Store) -> Result<Option<Text>, Memory>
        ensures name { IfOk result (λ name. name ≡ Some (if keeps_store_name self.old.earlier store.now.name then store.now.name else unwrap_or (slice_get self.old.free.now 0) [])) }
        ensures left { OnOk result (self.new.free.now ≡ (if keeps_store_name self.old.earlier store.now.name then self.old.free.now else drop 1 self.old.free.now)) }
        ensures earlier { OnOk result (self.new.earlier ≡ self.old.earlier ++ store.now.name ∷ []) }
    {
        let kept = keeps_store_name(&self.earlier, store.name.as_slice());
        Ok(Some(self.name(store.name.as_slice(), kept)?))
    }

    /// Returns the name of a store: `None` if it isn't written, and an empty name for a system store.
    fn store_name(&mut self, written: bool, store: &Store) -> Result<Option<Text>, Memory>
        ensures name { IfOk result (λ name. name ≡ store_call written self.old.free.now self.old.earlier store.now) }
        ensures left { OnOk result (self.new.free.now ≡ free_left written self.old.free.now self.old.earlier store.now) }
        ensures met { OnOk result (self.new.earlier ≡ names_met written self.old.earlier store.now) }
    {
        if !written {
            return Ok(None);
        }
        if store.system != 0 {
            return Ok(Some(Text::new(self.alloc)));
        }
        self.ordinary_name(store)
    }
}

/// Returns whether a system store is written.
fn is_written_system(system: u32) -> bool
    ensures { result ≡ list_any (nat_eq system) written_ids }
{
    matches!(
        system,
        BITMAP | 2 | 3 | 6 | 7 | MNEMONIC_LAYOUT | 24 | 35 | 36 | 38
    )
}

/// Returns whether a store's name can be kept after these earlier names.
fn keeps_store_name(earlier: &NameTable, name: &[u8]) -> bool
    ensures { result ≡ keeps_store_name earlier.now name.now }
{
    !is_system_name(name) && keeps_name(earlier, name)
}

/// Returns whether a name is that of a system store.
fn is_system_name(name: &[u8]) -> bool
    ensures { result ≡ is_system_name name.now }
{
    match name {
        [first, ..] => *first == b'&',
        [] => false,
    }
}

/// Returns whether a name can be kept after these earlier names.
#[tactic(auto, using(virtual_keys::proofs::NamePlaces::some_place), unfolding(store_table::specs::Names::is_named))]
fn keeps_name(earlier: &NameTable, name: &[u8]) -> bool
    ensures { result ≡ keeps_name earlier.now name.now }
{
    is_source_name(name) && !earlier.has(name)
}
