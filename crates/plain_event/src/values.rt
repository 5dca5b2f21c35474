//! Lists of option values: a plain state indexes them by store number, and an event by option number.

ghost use Rattle.std.specs.Prelude.{◌≡◌, IfOk, slice_set};
ghost use Rattle.rule_model.specs.Plain.{option_numbers};
ghost use Rattle.plain_event.specs.PlainStates.{picked, spread, option_value};
ghost use Rattle.rule_model.specs.Tab.{tab};

use indexed_tables::IndexedTables;
use kmn_base::{Element, Memory, Seq};
use std::alloc::Global;

/// A value of an option, or an optional saved value.
pub trait Value: Drop {
    /// Returns a copy of the value.
    fn copied(&self, alloc: Global) -> Result<Self, Memory>
        ensures { IfOk result (λ copy. copy ≡ self.now) };
}

impl Value for Seq<Element> {
    fn copied(&self, alloc: Global) -> Result<Seq<Element>, Memory> {
        self.copy(alloc)
    }
}

impl Value for Option<Seq<Element>> {
    fn copied(&self, alloc: Global) -> Result<Option<Seq<Element>>, Memory> {
        match self {
            Some(value) => Ok(Some(value.copy(alloc)?)),
            None => Ok(None),
        }
    }
}

/// Returns a copy of the values.
pub fn copies<V: Value>(alloc: Global, values: &[V]) -> Result<Seq<V>, Memory>
    ensures { IfOk result (λ copies. copies ≡ values.now) }
{
    let mut copies = Vec::new(alloc);
    for value in values {
        copies.push(value.copied(alloc)?)?;
    }
    Ok(Seq::from_vec(copies))
}

/// Returns the values of the option stores, in order.
#[tactic(auto, using(std::proofs::lemmas::Grind::common_steps, crate::proofs::SpreadValues::picked_ended))]
pub fn picked<V: Value>(indexed: &IndexedTables, values: &[V]) -> Result<Seq<V>, Memory>
    ensures { IfOk result (λ options. options ≡ picked (option_numbers 0 (tab indexed.now).stores) values.now) }
{
    let numbers = indexed.numbers();
    let mut options = Vec::new(indexed.alloc());
    for n in 0..numbers.len().min(values.len()) {
        let value = &values[n];
        if numbers[n].is_some() {
            options.push(value.copied(indexed.alloc())?)?;
        }
    }
    Ok(Seq::from_vec(options))
}

/// Returns the values by store number, with the values of options at the positions of the option stores.
#[tactic(auto, using(std::proofs::lemmas::Grind::common_steps, crate::proofs::SpreadValues::spread_ended))]
pub fn spread<V: Value>(
    indexed: &IndexedTables,
    values: &[V],
    options: &[V],
) -> Result<Seq<V>, Memory>
    ensures { IfOk result (λ all. all ≡ spread (option_numbers 0 (tab indexed.now).stores) values.now options.now) }
{
    let numbers = indexed.numbers();
    let mut all = Vec::new(indexed.alloc());
    for n in 0..numbers.len().min(values.len()) {
        let value = option_value(options, numbers[n], &values[n]);
        all.push(value.copied(indexed.alloc())?)?;
    }
    Ok(Seq::from_vec(all))
}

/// Returns the value of an option number, or the other value if there is none.
fn option_value<'a, V: Value>(options: &'a [V], number: Option<usize>, other: &'a V) -> &'a V
    ensures { result.now ≡ option_value options.now number other.now }
{
    match number {
        Some(number) => options.get(number).unwrap_or(other),
        None => other,
    }
}

/// Sets the value at an index. An index past the end has no effect.
pub fn set_value<V: Value>(values: &mut Seq<V>, number: usize, value: V)
    ensures { values.new ≡ slice_set values.old number value }
{
    if number < values.len() {
        values.set(number, value);
    }
}
