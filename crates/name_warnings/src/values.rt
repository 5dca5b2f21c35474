//! W11: values that a condition compares and that an option never has.

ghost use Rattle.std.specs.Prelude.{◌≡◌, ◌++◌, IfOk, OnOk};
ghost use Rattle.name_warnings.specs.Values.{characters, element_characters, given_values, is_doubtful, never_given, set_names, value_warning, values_never_set, with_choices, with_own_value, with_own_values};

use crate::warning::{Warning, WarningKind};
use kmn_base::{Memory, Seq, Text};
use rule_model::{Program, StoreDef};
use source_uses::{
    Choice, ChoiceTable, Contents, Part, Role, StoreElement, add_names, add_words, program_choices,
    rule_uses,
};
use std::alloc::Global;
use store_table::NameTable;

/// Appends W11: a note at the first `if` for each value of an option that some statement sets, if no statement sets it to this value and its
/// store has another one. Names among `aside` are left out.
pub fn add_values_never_set(
    alloc: Global,
    found: &mut Vec<Warning>,
    contents: &Contents,
    program: &Program,
    aside: &[Text],
) -> Result<(), Memory>
    ensures { OnOk result (found.new.items ≡ found.old.items ++ values_never_set contents.now program.now aside.now) }
{
    let options = set_names(alloc, program)?;
    let given = given_values(alloc, contents, &options, program)?;
    let mut others = NameTable::new(alloc);
    add_words(&mut others, aside)?;
    let asked = program_choices(alloc, true, program)?;
    add_never_given(alloc, found, &options, &others, given, asked.as_slice())
}

/// Returns the names of the options that statements set.
fn set_names(alloc: Global, program: &Program) -> Result<NameTable, Memory>
    ensures { IfOk result (λ names. names ≡ set_names program.now) }
{
    let mut names = NameTable::new(alloc);
    let uses = rule_uses(alloc, Role::Set, Part::Whole, program)?;
    add_names(&mut names, uses.as_slice())?;
    Ok(names)
}

/// Returns the values that the options of a program have at times: those that statements set, and those of their stores.
fn given_values(
    alloc: Global,
    contents: &Contents,
    options: &NameTable,
    program: &Program,
) -> Result<ChoiceTable, Memory>
    ensures { IfOk result (λ given. given ≡ given_values contents.now options.now program.now) }
{
    let mut given = ChoiceTable::new(alloc);
    let set = program_choices(alloc, false, program)?;
    add_set(&mut given, set.as_slice())?;
    add_own_values(
        alloc,
        &mut given,
        contents,
        options,
        program.stores.as_slice(),
    )?;
    Ok(given)
}

/// Adds values of options.
fn add_set(given: &mut ChoiceTable, choices: &[Choice]) -> Result<(), Memory>
    ensures { OnOk result (given.new ≡ with_choices given.old choices.now) }
{
    for choice in choices {
        given.add(choice.option.as_slice(), choice.value.as_slice())?;
    }
    Ok(())
}

/// Adds the values of the stores that are options.
fn add_own_values(
    alloc: Global,
    given: &mut ChoiceTable,
    contents: &Contents,
    options: &NameTable,
    stores: &[StoreDef],
) -> Result<(), Memory>
    ensures { OnOk result (given.new ≡ with_own_values contents.now options.now given.old stores.now) }
{
    for store in stores {
        add_own_value(alloc, given, contents, options, store)?;
    }
    Ok(())
}

/// Adds the value of a store, if it is an option.
fn add_own_value(
    alloc: Global,
    given: &mut ChoiceTable,
    contents: &Contents,
    options: &NameTable,
    store: &StoreDef,
) -> Result<(), Memory>
    ensures { OnOk result (given.new ≡ with_own_value contents.now options.now given.old store.now) }
{
    let name = store.name.as_slice();
    if store.system == 0 && options.has(name) {
        let value = characters(alloc, contents.named(name))?;
        given.add(name, value.as_slice())
    } else {
        Ok(())
    }
}

/// Returns the characters among elements.
fn characters(alloc: Global, elements: &[StoreElement]) -> Result<Seq<char>, Memory>
    ensures { IfOk result (λ value. value ≡ characters elements.now) }
{
    let mut value = Seq::new(alloc);
    for element in elements {
        add_character(&mut value, element)?;
    }
    Ok(value)
}

/// Appends an element, if it is a character.
fn add_character(value: &mut Seq<char>, element: &StoreElement) -> Result<(), Memory>
    ensures { OnOk result (value.new ≡ value.old ++ element_characters element.now) }
{
    match element {
        StoreElement::Char(c) => value.add(*c),
        _ => Ok(()),
    }
}

/// Appends a note at the first of each of these values that is not given to its option.
fn add_never_given(
    alloc: Global,
    found: &mut Vec<Warning>,
    options: &NameTable,
    others: &NameTable,
    mut given: ChoiceTable,
    choices: &[Choice],
) -> Result<(), Memory>
    ensures { OnOk result (found.new.items ≡ found.old.items ++ never_given options.now others.now given choices.now) }
{
    for choice in choices {
        if is_doubtful(options, others, &given, choice)? {
            given.add(choice.option.as_slice(), choice.value.as_slice())?;
            found.push(value_warning(alloc, choice)?)?;
        }
    }
    Ok(())
}

/// Returns whether a value is not given to its option, which statements set and other programs do not know.
fn is_doubtful(
    options: &NameTable,
    others: &NameTable,
    given: &ChoiceTable,
    choice: &Choice,
) -> Result<bool, Memory>
    ensures { IfOk result (λ doubtful. doubtful ≡ is_doubtful options.now others.now given.now choice.now) }
{
    let name = choice.option.as_slice();
    let known = given.has(name, choice.value.as_slice())?;
    Ok(options.has(name) && !others.has(name) && !known)
}

/// Returns the note at a value.
fn value_warning(alloc: Global, choice: &Choice) -> Result<Warning, Memory>
    ensures { IfOk result (λ warning. warning ≡ value_warning choice.now) }
{
    let option = choice.option.copy(alloc)?;
    let value = choice.value.copy(alloc)?;
    Ok(Warning {
        line: choice.line,
        kind: WarningKind::ValueNeverSet { option, value },
    })
}
