//! W05 and W18: stores of `index` that are shorter or longer than the store of their `any`.

ghost use Rattle.std.specs.Prelude.{◌≡◌, ◌++◌, map, IfOk, OnOk};
ghost use Rattle.source_warnings.specs.Indexes.{fitting_names, fitting_pair, longer_indexes, longer_warning, shorter_index, shorter_indexes, size_of};

use kmn_base::Memory;
use name_warnings::{Warning, WarningKind};
use source_uses::{Contents, Pair, new_pairs};
use std::alloc::Global;
use store_table::NameTable;

/// Appends W05: a warning at each `index` whose store has fewer elements than that of its `any`.
pub(crate) fn add_shorter_indexes(
    alloc: Global,
    found: &mut Vec<Warning>,
    contents: &Contents,
    pairs: &[Pair],
) -> Result<(), Memory>
    ensures { OnOk result (found.new.items ≡ found.old.items ++ shorter_indexes contents.now pairs.now) }
{
    for pair in pairs {
        add_shorter_index(alloc, found, contents, pair)?;
    }
    Ok(())
}

/// Appends a warning at an `index` whose store has fewer elements than that of its `any`.
fn add_shorter_index(
    alloc: Global,
    found: &mut Vec<Warning>,
    contents: &Contents,
    pair: &Pair,
) -> Result<(), Memory>
    ensures { OnOk result (found.new.items ≡ found.old.items ++ shorter_index contents.now pair.now) }
{
    let elements = size_of(contents, pair.index.as_slice());
    let any_elements = size_of(contents, pair.any.as_slice());
    if elements < any_elements {
        let index = pair.index.copy(alloc)?;
        let any = pair.any.copy(alloc)?;
        found.push(Warning {
            line: pair.line,
            kind: WarningKind::ShorterIndex {
                index,
                elements,
                any,
                any_elements,
            },
        })?;
    }
    Ok(())
}

/// Returns the number of elements of the store with a name.
fn size_of(contents: &Contents, name: &[u8]) -> usize
    ensures { result ≡ size_of contents.now name.now }
{
    contents.named(name).len()
}

/// Appends W18: a note at the first use of each store of `index` that has more elements than the store of each of its `any`.
pub(crate) fn add_longer_indexes(
    alloc: Global,
    found: &mut Vec<Warning>,
    contents: &Contents,
    pairs: &[Pair],
) -> Result<(), Memory>
    ensures { OnOk result (found.new.items ≡ found.old.items ++ longer_indexes contents.now pairs.now) }
{
    let fitting = fitting_names(alloc, contents, pairs)?;
    let longer = new_pairs(alloc, fitting, pairs)?;
    add_longer(alloc, found, longer.as_slice())
}

/// Returns the names of the stores of `index` that have at most as many elements as the store of one of their `any`.
fn fitting_names(alloc: Global, contents: &Contents, pairs: &[Pair]) -> Result<NameTable, Memory>
    ensures { IfOk result (λ names. names ≡ fitting_names contents.now pairs.now) }
{
    let mut names = NameTable::new(alloc);
    for pair in pairs {
        add_fitting(&mut names, contents, pair)?;
    }
    Ok(names)
}

/// Appends the name of the store of an `index`, if it has at most as many elements as the store of its `any`.
fn add_fitting(names: &mut NameTable, contents: &Contents, pair: &Pair) -> Result<(), Memory>
    ensures { OnOk result (names.new ≡ names.old ++ fitting_pair contents.now pair.now) }
{
    if size_of(contents, pair.any.as_slice()) < size_of(contents, pair.index.as_slice()) {
        Ok(())
    } else {
        names.push(pair.index.as_slice())
    }
}

/// Appends a note at each of these pairs.
fn add_longer(alloc: Global, found: &mut Vec<Warning>, pairs: &[Pair]) -> Result<(), Memory>
    ensures { OnOk result (found.new.items ≡ found.old.items ++ map longer_warning pairs.now) }
{
    for pair in pairs {
        let index = pair.index.copy(alloc)?;
        let any = pair.any.copy(alloc)?;
        found.push(Warning {
            line: pair.line,
            kind: WarningKind::LongerIndex { index, any },
        })?;
    }
    Ok(())
}
