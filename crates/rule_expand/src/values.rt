//! The values that conditions and `set` name, each once, in the order of their first appearance.

ghost use Rattle.std.specs.Prelude.{◌≡◌, [], ◌∷◌, length, flat_map, option_to_list, option_copied, slice_get, IfOk, OnOk, position};
ghost use Rattle.std.specs.Str.{bytes_eq};
ghost use Rattle.rule_model.specs.declared.program.GroupDef.{GroupDef};
ghost use Rattle.rule_model.specs.Naming.{rule_items};
ghost use Rattle.rule_model.specs.Tab.{distinct_onto};
ghost use Rattle.compile_laws.specs.Numbers.{item_values, values_of};
ghost use Rattle.rule_expand.specs.Values.{with_values};

use indexmap::IndexSet;
use kmn_base::Memory;
use rule_model::{GroupDef, Program, RuleDef, SrcItem};
use std::alloc::Global;
use std::marker::Model;

/// The values of a program, which are found by hash. Contracts model them as the list of the values.
#[derive(Drop)]
pub struct Values<'a> {
    found: IndexSet<&'a [char]>,
}

impl<'a> Model for Values<'a> {
    ghost use Rattle.std.specs.Prelude.{List, ℕ, map};

    ghost Value = { List (List ℕ) };

    ghost view = { λ v. map (λ value. value.now) v.found.keys };
}

impl<'a> Values<'a> {
    /// Creates an empty set of values.
    fn new(alloc: Global) -> Values<'a>
        ensures { result ≡ [] }
    {
        Values {
            found: IndexSet::new(alloc),
        }
    }

    /// Adds a value if it is new.
    fn add(&mut self, value: &'a [char]) -> Result<(), Memory>
        ensures { OnOk result (self.new ≡ distinct_onto bytes_eq self.old (value.now ∷ [])) }
    {
        self.found.insert(value)?;
        Ok(())
    }

    /// Returns the number of values.
    pub fn len(&self) -> usize
        ensures { result ≡ length self.now }
    {
        self.found.len()
    }

    /// Returns the index of a value, if any.
    pub fn place_of(&self, value: &[char]) -> Option<usize>
        ensures { result ≡ position (λ known. bytes_eq known value.now) self.now }
    {
        self.found.get_index_of(value)
    }

    /// Returns the value at an index, if any.
    pub fn at(&self, place: usize) -> Option<&'a [char]>
        ensures { option_copied result ≡ slice_get self.now place }
    {
        let value = self.found.get_index(place)?;
        Some(*value)
    }
}

/// Returns the values of a program.
#[tactic(auto, using(crate::proofs::ValueSets::values_of_program))]
pub fn values_of<'a>(alloc: Global, program: &'a Program) -> Result<Values<'a>, Memory>
    ensures { IfOk result (λ values. values ≡ values_of program.now) }
{
    let mut values = Values::new(alloc);
    add_groups(&mut values, program.groups.as_slice())?;
    Ok(values)
}

/// Adds the values of groups.
fn add_groups<'a>(values: &mut Values<'a>, groups: &'a [GroupDef]) -> Result<(), Memory>
    ensures { OnOk result (values.new ≡ with_values values.old (flat_map rule_items (flat_map (λ (group : GroupDef). group.rules) groups.now))) }
{
    for group in groups {
        add_rules(values, group.rules.as_slice())?;
    }
    Ok(())
}

/// Adds the values of rules.
#[tactic(auto, using(crate::proofs::ValueSets::next_rule))]
fn add_rules<'a>(values: &mut Values<'a>, rules: &'a [RuleDef]) -> Result<(), Memory>
    ensures { OnOk result (values.new ≡ with_values values.old (flat_map rule_items rules.now)) }
{
    for rule in rules {
        add_rule(values, rule)?;
    }
    Ok(())
}

/// Adds the values of a rule.
#[tactic(auto, using(crate::proofs::ValueSets::values_append))]
fn add_rule<'a>(values: &mut Values<'a>, rule: &'a RuleDef) -> Result<(), Memory>
    ensures { OnOk result (values.new ≡ with_values values.old (rule_items rule.now)) }
{
    add_items(values, rule.context.as_slice())?;
    add_key(values, &rule.key)?;
    add_items(values, rule.output.as_slice())
}

/// Adds the values that items name.
fn add_items<'a>(values: &mut Values<'a>, items: &'a [SrcItem]) -> Result<(), Memory>
    ensures { OnOk result (values.new ≡ with_values values.old items.now) }
{
    for item in items {
        add_item(values, item)?;
    }
    Ok(())
}

/// Adds the value that an item names.
fn add_item<'a>(values: &mut Values<'a>, item: &'a SrcItem) -> Result<(), Memory>
    ensures { OnOk result (values.new ≡ distinct_onto bytes_eq values.old (item_values item.now)) }
{
    match item {
        SrcItem::Equal(_, value) => values.add(value.as_slice()),
        SrcItem::Unequal(_, value) => values.add(value.as_slice()),
        SrcItem::Set(_, value) => values.add(value.as_slice()),
        SrcItem::SystemEqual(_, value) => values.add(value.as_slice()),
        SrcItem::SystemUnequal(_, value) => values.add(value.as_slice()),
        SrcItem::SetSystem(_, value) => values.add(value.as_slice()),
        _ => Ok(()),
    }
}

/// Adds the value that the key of a rule names; a key of the language names none.
fn add_key<'a>(values: &mut Values<'a>, key: &'a Option<SrcItem>) -> Result<(), Memory>
    ensures { OnOk result (values.new ≡ with_values values.old (option_to_list key.now)) }
{
    match key {
        Some(item) => add_item(values, item),
        None => Ok(()),
    }
}
