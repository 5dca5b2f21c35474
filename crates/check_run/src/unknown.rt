//! Finds the options that a script sets and that a keyboard does not have.

ghost use Rattle.std.specs.Prelude.{◌≡◌, ◌++◌, flat_map, IfOk, OnOk};
ghost use Rattle.check_run.specs.Inputs.{unknown_entry, unknown_event, unknown_named, unknown_options};

use crate::findings::UnknownOption;
use indexed_tables::IndexedTables;
use kmn_base::{Event, Memory, Seq, Text};
use rule_model::{Entry, Tables};
use std::alloc::Global;

/// Finds the options that entries set and that the keyboard of the tables does not have, in the order of the entries.
pub(crate) fn unknown_options(
    alloc: Global,
    tables: &Tables,
    entries: &[Entry],
) -> Result<Seq<UnknownOption>, Memory>
    ensures { IfOk result (λ found. found ≡ unknown_options tables.now entries.now) }
{
    let keyboard = IndexedTables::new(alloc, tables)?;
    let mut found = Vec::new(alloc);
    add_unknown(alloc, &mut found, &keyboard, entries)?;
    Ok(Seq::from_vec(found))
}

/// Appends the unknown options that entries set.
fn add_unknown(
    alloc: Global,
    found: &mut Vec<UnknownOption>,
    keyboard: &IndexedTables<'_>,
    entries: &[Entry],
) -> Result<(), Memory>
    ensures { OnOk result (found.new.items ≡ found.old.items ++ flat_map (unknown_entry keyboard.now) entries.now) }
{
    for entry in entries {
        add_entry(alloc, found, keyboard, entry)?;
    }
    Ok(())
}

/// Appends the unknown option that an entry sets, if there is one.
fn add_entry(
    alloc: Global,
    found: &mut Vec<UnknownOption>,
    keyboard: &IndexedTables<'_>,
    entry: &Entry,
) -> Result<(), Memory>
    ensures { OnOk result (found.new.items ≡ found.old.items ++ unknown_entry keyboard.now entry.now) }
{
    match entry {
        Entry::Act { line, event } => add_event(alloc, found, keyboard, *line, event),
        Entry::Expect { .. } => Ok(()),
    }
}

/// Appends the unknown option that an event of a line sets, if there is one.
fn add_event(
    alloc: Global,
    found: &mut Vec<UnknownOption>,
    keyboard: &IndexedTables<'_>,
    line: u32,
    event: &Event,
) -> Result<(), Memory>
    ensures { OnOk result (found.new.items ≡ found.old.items ++ unknown_event keyboard.now line event.now) }
{
    match event {
        Event::Setting { name, .. } => add_named(alloc, found, keyboard, line, name),
        _ => Ok(()),
    }
}

/// Appends the name that a line sets, if no option has it.
fn add_named(
    alloc: Global,
    found: &mut Vec<UnknownOption>,
    keyboard: &IndexedTables<'_>,
    line: u32,
    name: &Text,
) -> Result<(), Memory>
    ensures { OnOk result (found.new.items ≡ found.old.items ++ unknown_named keyboard.now line name.now) }
{
    if keyboard.option_named(name.as_slice()).is_some() {
        return Ok(());
    }
    let name = name.copy(alloc)?;
    found.push(UnknownOption { line, name })?;
    Ok(())
}
