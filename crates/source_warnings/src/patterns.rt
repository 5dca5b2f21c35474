//! W14: `any` and `index` with a store that has no character and no deadkey.

ghost use Rattle.std.specs.Prelude.{◌≡◌, ◌++◌, flat_map, false, true, IfOk, OnOk};
ghost use Rattle.std.specs.List.{list_any};
ghost use Rattle.source_uses.specs.Uses.{rule_uses};
ghost use Rattle.source_uses.specs.declared.used.Part.TheVariants as part;
ghost use Rattle.source_uses.specs.declared.used.Role.TheVariants as role;
ghost use Rattle.source_warnings.specs.Patterns.{bare_name, bare_names, empty_pattern, empty_patterns, is_bare, is_text};

use kmn_base::Memory;
use name_warnings::{Warning, WarningKind};
use rule_model::{Program, StoreDef};
use source_uses::{Contents, Part, Role, StoreElement, Use, rule_uses};
use std::alloc::Global;
use store_table::NameTable;

/// Appends W14: a warning at each `any` or `index` of a context whose store has no character and no deadkey, and at each `index` of an
/// output whose store has virtual keys only. Options are left out.
pub(crate) fn add_empty_patterns(
    alloc: Global,
    found: &mut Vec<Warning>,
    contents: &Contents,
    options: &NameTable,
    program: &Program,
) -> Result<(), Memory>
    ensures { OnOk result (found.new.items ≡ found.old.items ++ empty_patterns contents.now options.now program.now) }
{
    add_matched_patterns(alloc, found, contents, options, program)?;
    add_keyed_patterns(alloc, found, contents, options, program)
}

/// Appends the warnings at each `any` or `index` of a context.
fn add_matched_patterns(
    alloc: Global,
    found: &mut Vec<Warning>,
    contents: &Contents,
    options: &NameTable,
    program: &Program,
) -> Result<(), Memory>
    ensures { OnOk result (found.new.items ≡ found.old.items ++ flat_map (empty_pattern (bare_names contents.now options.now false program.now.stores)) (rule_uses role.Matched part.Context program.now)) }
{
    let matched = rule_uses(alloc, Role::Matched, Part::Context, program)?;
    let bare = bare_names(alloc, contents, options, false, program.stores.as_slice())?;
    add_among(alloc, found, &bare, matched.as_slice())
}

/// Appends the warnings at each `index` of an output.
fn add_keyed_patterns(
    alloc: Global,
    found: &mut Vec<Warning>,
    contents: &Contents,
    options: &NameTable,
    program: &Program,
) -> Result<(), Memory>
    ensures { OnOk result (found.new.items ≡ found.old.items ++ flat_map (empty_pattern (bare_names contents.now options.now true program.now.stores)) (rule_uses role.Index part.Output program.now)) }
{
    let put = rule_uses(alloc, Role::Index, Part::Output, program)?;
    let bare = bare_names(alloc, contents, options, true, program.stores.as_slice())?;
    add_among(alloc, found, &bare, put.as_slice())
}

/// Returns the names of the ordinary stores without characters and deadkeys that are not options, only those with virtual keys if
/// `filled`.
fn bare_names(
    alloc: Global,
    contents: &Contents,
    options: &NameTable,
    filled: bool,
    stores: &[StoreDef],
) -> Result<NameTable, Memory>
    ensures { IfOk result (λ names. names ≡ bare_names contents.now options.now filled stores.now) }
{
    let mut names = NameTable::new(alloc);
    for store in stores {
        add_bare(&mut names, contents, options, filled, store)?;
    }
    Ok(names)
}

/// Appends the name of a store that has no character and no deadkey.
fn add_bare(
    names: &mut NameTable,
    contents: &Contents,
    options: &NameTable,
    filled: bool,
    store: &StoreDef,
) -> Result<(), Memory>
    ensures { OnOk result (names.new ≡ names.old ++ bare_name contents.now options.now filled store.now) }
{
    let name = store.name.as_slice();
    if store.system == 0 && !options.has(name) && is_bare(filled, contents.named(name)) {
        names.push(name)?;
    }
    Ok(())
}

/// Returns whether no element is a character or a deadkey, and whether there is an element if `filled`.
fn is_bare(filled: bool, elements: &[StoreElement]) -> bool
    ensures { result ≡ is_bare filled elements.now }
{
    match elements {
        [] => !filled,
        [first, rest @ ..] => !(is_text(first) || has_text(rest)),
    }
}

/// Returns whether an element is a character or a deadkey.
fn has_text(elements: &[StoreElement]) -> bool
    ensures { result ≡ list_any is_text elements.now }
{
    elements.iter().any(|element| is_text(element))
}

/// Returns whether an element is a character or a deadkey.
fn is_text(element: &StoreElement) -> bool
    ensures { result ≡ is_text element.now }
{
    match element {
        StoreElement::Char(_) => true,
        StoreElement::Mark(_) => true,
        StoreElement::Key(_) => false,
    }
}

/// Appends a warning at each use of a name in a table.
fn add_among(
    alloc: Global,
    found: &mut Vec<Warning>,
    names: &NameTable,
    uses: &[Use],
) -> Result<(), Memory>
    ensures { OnOk result (found.new.items ≡ found.old.items ++ flat_map (empty_pattern names.now) uses.now) }
{
    for place in uses {
        add_empty_pattern(alloc, found, names, place)?;
    }
    Ok(())
}

/// Appends a warning at the use of a name, if it is in a table.
fn add_empty_pattern(
    alloc: Global,
    found: &mut Vec<Warning>,
    names: &NameTable,
    place: &Use,
) -> Result<(), Memory>
    ensures { OnOk result (found.new.items ≡ found.old.items ++ empty_pattern names.now place.now) }
{
    if names.has(place.name.as_slice()) {
        let store = place.name.copy(alloc)?;
        found.push(Warning {
            line: place.line,
            kind: WarningKind::PatternWithoutElements { store },
        })?;
    }
    Ok(())
}
