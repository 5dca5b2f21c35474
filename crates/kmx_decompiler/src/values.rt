//! Collects the values that conditions and `set` items of a file name, each once.

ghost use Rattle.std.specs.Prelude.{◌≡◌, [], ◌∷◌, length, flat_map, filter_map, option_to_list, option_copied, slice_get, IfOk, OnOk};
ghost use Rattle.std.specs.Str.{bytes_eq};
ghost use Rattle.rule_model.specs.Tab.{distinct_onto, element_char};
ghost use Rattle.decompile_program.specs.WrittenOut.{pattern_values, output_values, rule_values, group_values};
ghost use Rattle.kmx_decompiler.specs.Values.{with_values};

use crate::items::{output_value, pattern_value};
use decompile_program::Called;
use indexmap::IndexSet;
use kmn_base::{Element, Memory};
use kmx_parts::{FileGroup, FileRule, FileTables, Outputs, Patterns};
use std::alloc::Global;
use std::marker::Model;

/// The values of a file in a hash set. Contracts model them as a list in which each value is the list of its characters.
#[derive(Drop)]
pub(crate) struct WrittenValues {
    alloc: Global,
    found: IndexSet<Vec<char>>,
}

impl Model for WrittenValues {
    ghost use Rattle.std.specs.Prelude.{List, ℕ, map};

    ghost Value = { List (List ℕ) };

    ghost view = { λ values. map (λ value. value.items) values.found.keys };
}

/// Returns the values of the groups of a file.
#[tactic(auto, using(crate::proofs::ValueSets::with_values_append))]
pub(crate) fn values_of(
    alloc: Global,
    names: &Called<'_>,
    file: &FileTables<'_>,
) -> Result<WrittenValues, Memory>
    ensures { IfOk result (λ values. values ≡ with_values names.now [] (flat_map group_values file.now.groups)) }
{
    let mut values = WrittenValues::new(alloc);
    for group in file.groups() {
        add_group(&mut values, names, &group)?;
    }
    Ok(values)
}

impl WrittenValues {
    /// Creates an empty set of values.
    pub(crate) fn new(alloc: Global) -> WrittenValues
        ensures { result ≡ [] }
    {
        WrittenValues {
            alloc,
            found: IndexSet::new(alloc),
        }
    }

    /// Returns the number of values.
    pub(crate) fn len(&self) -> usize
        ensures { result ≡ length self.now }
    {
        self.found.len()
    }

    /// Returns the value at an index.
    pub(crate) fn at(&self, place: usize) -> Option<&[char]>
        ensures { option_copied result ≡ slice_get self.now place }
    {
        let value = self.found.get_index(place)?;
        Some(value.as_slice())
    }

    /// Adds the characters of elements as a value if the value is new.
    fn add(&mut self, elements: &[Element]) -> Result<(), Memory>
        ensures { OnOk result (self.new ≡ distinct_onto bytes_eq self.old (filter_map element_char elements.now ∷ [])) }
    {
        let value = characters_of(self.alloc, elements)?;
        self.found.insert(value)?;
        Ok(())
    }
}

/// Adds the values of a group.
#[tactic(auto, using(crate::proofs::ValueSets::with_values_append))]
fn add_group(
    values: &mut WrittenValues,
    names: &Called<'_>,
    group: &FileGroup<'_>,
) -> Result<(), Memory>
    ensures { OnOk result (values.new ≡ with_values names.now values.old (group_values group.now)) }
{
    add_rules(values, names, group)?;
    add_outputs(values, names, group.on_match())?;
    add_outputs(values, names, group.on_nomatch())
}

/// Adds the values of the records of a group.
#[tactic(auto, using(crate::proofs::ValueSets::with_values_append))]
fn add_rules(
    values: &mut WrittenValues,
    names: &Called<'_>,
    group: &FileGroup<'_>,
) -> Result<(), Memory>
    ensures { OnOk result (values.new ≡ with_values names.now values.old (flat_map rule_values group.now.rules)) }
{
    for rule in group.rules() {
        add_rule(values, names, &rule)?;
    }
    Ok(())
}

/// Adds the values of a record.
#[tactic(auto, using(crate::proofs::ValueSets::with_values_append))]
fn add_rule(
    values: &mut WrittenValues,
    names: &Called<'_>,
    rule: &FileRule<'_>,
) -> Result<(), Memory>
    ensures { OnOk result (values.new ≡ with_values names.now values.old (rule_values rule.now)) }
{
    add_context(values, names, rule.context())?;
    add_outputs(values, names, rule.output())
}

/// Adds the values of a context.
#[tactic(auto, using(crate::proofs::ValueSets::with_values_append))]
fn add_context(
    values: &mut WrittenValues,
    names: &Called<'_>,
    context: Patterns<'_>,
) -> Result<(), Memory>
    ensures { OnOk result (values.new ≡ with_values names.now values.old (flat_map pattern_values context.entry)) }
{
    for pattern in context {
        add_store(values, names, pattern_value(&pattern))?;
    }
    Ok(())
}

/// Adds the value that a store contains, if a store is given.
fn add_store(
    values: &mut WrittenValues,
    names: &Called<'_>,
    store: Option<u32>,
) -> Result<(), Memory>
    ensures { OnOk result (values.new ≡ with_values names.now values.old (option_to_list store)) }
{
    match store {
        Some(store) => values.add(names.value(store)),
        None => Ok(()),
    }
}

/// Adds the values of an output.
#[tactic(auto, using(crate::proofs::ValueSets::with_values_append))]
fn add_outputs(
    values: &mut WrittenValues,
    names: &Called<'_>,
    outputs: Outputs<'_>,
) -> Result<(), Memory>
    ensures { OnOk result (values.new ≡ with_values names.now values.old (flat_map output_values outputs.entry)) }
{
    for output in outputs {
        add_store(values, names, output_value(&output))?;
    }
    Ok(())
}

/// Returns the characters among elements.
fn characters_of(alloc: Global, elements: &[Element]) -> Result<Vec<char>, Memory>
    ensures { IfOk result (λ characters. characters.items ≡ filter_map element_char elements.now) }
{
    let mut characters = Vec::with_capacity(alloc, elements.len())?;
    for element in elements {
        if let Element::Char(c) = element {
            characters.push(*c)?;
        }
    }
    Ok(characters)
}
