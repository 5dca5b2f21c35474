//! The warnings of a program.

ghost use Rattle.std.specs.Prelude.{◌≡◌, ◌++◌, IfOk, OnOk};
ghost use Rattle.source_warnings.specs.Warnings.{all_warnings, condition_warnings, index_warnings, named_warnings, option_names, store_warnings, warnings, warnings_with};

use crate::conditions::add_contradictions;
use crate::indexes::{add_longer_indexes, add_shorter_indexes};
use crate::keys::add_never_pressed;
use crate::patterns::add_empty_patterns;
use crate::repeated::add_repeated_elements;
use crate::same_keys::add_same_keys;
use crate::sorting::sort_warnings;
use kmn_base::{Memory, Text};
use name_warnings::{
    Warning, add_mark_warnings, add_never_asked, add_never_entered, add_never_set,
    add_saved_never_set, add_second_systems, add_unused_stores, add_values_never_set,
};
use rule_model::Program;
use source_uses::{Contents, Pair, Part, Role, add_names, index_pairs, rule_uses};
use std::alloc::Global;
use store_table::NameTable;

/// Returns what compiles but is probably a mistake in an accepted program, in the order of lines, and at a line in the order of codes.
/// Names among `aside` are known to other programs, so no warning says that a statement lacks for them. Errors: `Memory` if an
/// allocation fails.
#[tactic(auto, unfolding(crate::specs::Warnings::warnings))]
pub fn warnings(alloc: Global, program: &Program, aside: &[Text]) -> Result<Vec<Warning>, Memory>
    ensures { IfOk result (λ found. found.items ≡ warnings program.now aside.now) }
{
    let found = all_warnings(alloc, program, aside)?;
    let sorted = sort_warnings(found)?;
    Ok(sorted)
}

/// Returns all warnings of a program, in the order of codes.
#[tactic(auto, unfolding(crate::specs::Warnings::all_warnings))]
fn all_warnings(alloc: Global, program: &Program, aside: &[Text]) -> Result<Vec<Warning>, Memory>
    ensures { IfOk result (λ found. found.items ≡ all_warnings program.now aside.now) }
{
    let contents = Contents::of(alloc, program)?;
    let options = option_names(alloc, program)?;
    let pairs = index_pairs(alloc, &options, program)?;
    let found = warnings_with(alloc, &contents, &options, pairs.as_slice(), program, aside)?;
    Ok(found)
}

/// Returns all warnings of a program with these elements of stores, options and pairs of `index` and `any`.
#[tactic(auto, unfolding(crate::specs::Warnings::warnings_with))]
fn warnings_with(
    alloc: Global,
    contents: &Contents,
    options: &NameTable,
    pairs: &[Pair],
    program: &Program,
    aside: &[Text],
) -> Result<Vec<Warning>, Memory>
    ensures { IfOk result (λ found. found.items ≡ warnings_with contents.now options.now pairs.now program.now aside.now) }
{
    let mut found = Vec::new(alloc);
    add_name_warnings(alloc, &mut found, contents, program, aside)?;
    add_index_warnings(alloc, &mut found, contents, pairs, program)?;
    add_condition_warnings(alloc, &mut found, contents, program, aside)?;
    add_store_warnings(alloc, &mut found, contents, options, pairs, program)?;
    Ok(found)
}

/// Appends the warnings of names that are used nowhere, W01 to W04.
fn add_name_warnings(
    alloc: Global,
    found: &mut Vec<Warning>,
    contents: &Contents,
    program: &Program,
    aside: &[Text],
) -> Result<(), Memory>
    ensures { OnOk result (found.new.items ≡ found.old.items ++ named_warnings contents.now program.now aside.now) }
{
    add_unused_stores(alloc, found, program, aside)?;
    add_mark_warnings(alloc, found, contents, program, aside)?;
    add_never_entered(alloc, found, program, aside)
}

/// Returns the names of the stores that statements use as options.
fn option_names(alloc: Global, program: &Program) -> Result<NameTable, Memory>
    ensures { IfOk result (λ names. names ≡ option_names program.now) }
{
    let mut names = NameTable::new(alloc);
    let uses = rule_uses(alloc, Role::OptionStore, Part::Whole, program)?;
    add_names(&mut names, uses.as_slice())?;
    Ok(names)
}

/// Appends the warnings of the stores of `index` and `any`, W05 and W06.
#[tactic(auto, unfolding(crate::specs::Warnings::index_warnings))]
fn add_index_warnings(
    alloc: Global,
    found: &mut Vec<Warning>,
    contents: &Contents,
    pairs: &[Pair],
    program: &Program,
) -> Result<(), Memory>
    ensures { OnOk result (found.new.items ≡ found.old.items ++ index_warnings contents.now pairs.now program.now) }
{
    add_shorter_indexes(alloc, found, contents, pairs)?;
    add_repeated_elements(alloc, found, contents, program.stores.as_slice(), pairs)
}

/// Appends the warnings of options and conditions, W08 to W12.
fn add_condition_warnings(
    alloc: Global,
    found: &mut Vec<Warning>,
    contents: &Contents,
    program: &Program,
    aside: &[Text],
) -> Result<(), Memory>
    ensures { OnOk result (found.new.items ≡ found.old.items ++ condition_warnings contents.now program.now aside.now) }
{
    add_never_asked(alloc, found, program, aside)?;
    add_contradictions(found, program.groups.as_slice())?;
    add_never_set(alloc, found, program, aside)?;
    add_values_never_set(alloc, found, contents, program, aside)?;
    add_saved_never_set(alloc, found, program, aside)
}

/// Appends the warnings of stores and their elements, W13 to W18.
fn add_store_warnings(
    alloc: Global,
    found: &mut Vec<Warning>,
    contents: &Contents,
    options: &NameTable,
    pairs: &[Pair],
    program: &Program,
) -> Result<(), Memory>
    ensures { OnOk result (found.new.items ≡ found.old.items ++ store_warnings contents.now options.now pairs.now program.now) }
{
    add_never_pressed(alloc, found, contents, program)?;
    add_empty_patterns(alloc, found, contents, options, program)?;
    add_same_keys(alloc, found, contents, program.groups.as_slice())?;
    add_second_systems(alloc, found, program.stores.as_slice())?;
    add_longer_indexes(alloc, found, contents, pairs)
}
