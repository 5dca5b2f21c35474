//! Tests which values no source can express, once for each store, however many items name the store.

ghost use Rattle.std.specs.Prelude.{◌≡◌, filter_map, false, slice_get, unwrap_or, IfOk};
ghost use Rattle.rule_model.specs.Tab.{element_char, elements_of};
ghost use Rattle.kmx_decompiler.specs.Causes.{have_both_quotes, is_unspelled_value};
ghost use Rattle.kmx_decompiler.specs.ValueCauses.{unspelled_values};

use crate::items::{are_inner, has_no_character};
use decompile_program::{Called, has_character};
use kmn_base::{Element, Memory};
use rule_model::Store;
use std::alloc::Global;
use std::marker::Model;

/// The names of a text, and for each store whether a source can't have its content as a value. Contracts see the names.
#[derive(Drop)]
pub(crate) struct JudgedNames<'a> {
    called: &'a Called<'a>,
    unspelled: Vec<bool>,
}

impl<'a> Model for JudgedNames<'a> {
    ghost use Rattle.std.specs.Prelude.{◌≡◌};
    ghost use Rattle.decompile_program.specs.Items.{Names};
    ghost use Rattle.kmx_decompiler.specs.ValueCauses.{unspelled_values};

    ghost Value = { Names };

    ghost view = { λ names. names.called.now };

    ghost invariant = { λ names. names.unspelled.items ≡ unspelled_values names.called.now.elements };
}

/// Returns whether both kinds of quote are among the elements.
fn have_both_quotes(elements: &[Element]) -> bool
    ensures { result ≡ have_both_quotes (filter_map element_char elements.now) }
{
    has_character(elements, '"') && has_character(elements, '\'')
}

/// Returns whether elements are not a value that a source can have.
fn is_unspelled_value(elements: &[Element]) -> bool
    ensures { result ≡ is_unspelled_value elements.now }
{
    has_no_character(elements) || !are_inner(elements) || have_both_quotes(elements)
}

/// Returns for each store whether a source can't have its content as a value.
fn unspelled_values(alloc: Global, stores: &[Store]) -> Result<Vec<bool>, Memory>
    ensures { IfOk result (λ unspelled. unspelled.items ≡ unspelled_values stores.now) }
{
    let mut unspelled = Vec::with_capacity(alloc, stores.len())?;
    for store in stores {
        unspelled.push(is_unspelled_value(store.elements.as_slice()))?;
    }
    Ok(unspelled)
}

/// Returns the flag at an index, or false if there is none.
fn flag_at(flags: &[bool], number: usize) -> bool
    ensures { result ≡ unwrap_or (slice_get flags.now number) false }
{
    match flags.get(number) {
        Some(flag) => *flag,
        None => false,
    }
}

impl<'a> JudgedNames<'a> {
    /// Creates the names with these flags. Tests each store once.
    pub(crate) fn new(alloc: Global, called: &'a Called<'a>) -> Result<JudgedNames<'a>, Memory>
        ensures { IfOk result (λ names. names ≡ called.now) }
    {
        let unspelled = unspelled_values(alloc, called.elements())?;
        Ok(JudgedNames { called, unspelled })
    }

    /// Returns the names.
    pub(crate) fn called(&self) -> &Called<'a>
        ensures { result.now ≡ self.now }
    {
        self.called
    }

    /// Returns whether a source can't have the content of a store as a value.
    #[tactic(auto, using(crate::proofs::ValueCauses::unspelled_known))]
    pub(crate) fn is_unspelled_value(&self, number: u32) -> bool
        ensures { result ≡ is_unspelled_value (elements_of self.now.elements number) }
    {
        flag_at(self.unspelled.as_slice(), number as usize)
    }
}
