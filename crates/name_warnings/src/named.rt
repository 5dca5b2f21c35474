//! Warnings of names.

ghost use Rattle.std.specs.Prelude.{◌≡◌, ◌++◌, map, IfOk, OnOk};
ghost use Rattle.source_uses.specs.Uses.{names_of};
ghost use Rattle.name_warnings.specs.Named.{kind_of, lacking, warned};

use crate::warning::{Warning, WarningKind};
use kmn_base::{Memory, Text};
use source_uses::{Use, add_names, add_words, new_uses};
use std::alloc::Global;
use store_table::NameTable;

/// What is warned of a name.
#[derive(Clone, Copy)]
pub(crate) enum Concern {
    UnusedStore,
    MarkNeverSought,
    MarkNeverPut,
    GroupNeverEntered,
    OptionNeverAsked,
    OptionNeverSet,
    SavedNeverSet,
    KeyNotLaid,
}

/// Appends a warning at the first use of each name that is not in a table.
pub(crate) fn add_lacking(
    alloc: Global,
    found: &mut Vec<Warning>,
    concern: Concern,
    known: NameTable,
    uses: &[Use],
) -> Result<(), Memory>
    ensures { OnOk result (found.new.items ≡ found.old.items ++ lacking concern known uses.now) }
{
    let new = new_uses(alloc, known, uses)?;
    add_warned(alloc, found, concern, new.as_slice())
}

/// Appends a warning at each use of a name.
fn add_warned(
    alloc: Global,
    found: &mut Vec<Warning>,
    concern: Concern,
    uses: &[Use],
) -> Result<(), Memory>
    ensures { OnOk result (found.new.items ≡ found.old.items ++ map (warned concern) uses.now) }
{
    for place in uses {
        found.push(warned(alloc, concern, place)?)?;
    }
    Ok(())
}

/// Returns the warning at the use of a name.
fn warned(alloc: Global, concern: Concern, place: &Use) -> Result<Warning, Memory>
    ensures { IfOk result (λ warning. warning ≡ warned concern place.now) }
{
    let name = place.name.copy(alloc)?;
    Ok(Warning {
        line: place.line,
        kind: kind_of(concern, name),
    })
}

/// Returns what a warning of a name says.
fn kind_of(concern: Concern, name: Text) -> WarningKind
    ensures { result ≡ kind_of concern name }
{
    match concern {
        Concern::UnusedStore => WarningKind::UnusedStore { store: name },
        Concern::MarkNeverSought => WarningKind::MarkNeverSought { mark: name },
        Concern::MarkNeverPut => WarningKind::MarkNeverPut { mark: name },
        Concern::GroupNeverEntered => WarningKind::GroupNeverEntered { group: name },
        Concern::OptionNeverAsked => WarningKind::OptionNeverAsked { option: name },
        Concern::OptionNeverSet => WarningKind::OptionNeverSet { option: name },
        Concern::SavedNeverSet => WarningKind::SavedNeverSet { option: name },
        Concern::KeyNotLaid => WarningKind::KeyNotLaid { key: name },
    }
}

/// Returns a table with the names of uses and the words that other programs use. Errors: `Memory` if an allocation fails.
pub(crate) fn known_names(alloc: Global, uses: &[Use], aside: &[Text]) -> Result<NameTable, Memory>
    ensures { IfOk result (λ names. names ≡ names_of uses.now ++ aside.now) }
{
    let mut names = NameTable::new(alloc);
    add_names(&mut names, uses)?;
    add_words(&mut names, aside)?;
    Ok(names)
}
