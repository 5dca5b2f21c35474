//! Tests which stores no source can express.

ghost use Rattle.std.specs.Prelude.{◌≡◌, ◌<◌, ◌&&◌, ◌||◌, IfOk, length, nat_eq};
ghost use Rattle.std.specs.List.{list_any};
ghost use Rattle.rule_model.specs.Tab.{tab_options};
ghost use Rattle.item_checker.specs.Items.{is_layout_text};
ghost use Rattle.kmx_decompiler.specs.Causes.{is_first_dictionary, is_unspelled_option, is_unspelled_store, is_unspelled_system};

use crate::causes::has_unspelled_element;
use crate::dictionary::is_unspelled_dictionary;
use crate::items::has_no_character;
use crate::options::UsedOptions;
use decompile_program::Called;
use kmn_base::{Element, Memory};
use rule_model::Store;
use rule_model::system::{BITMAP, MNEMONIC_LAYOUT};
use std::alloc::Global;

/// A store with its number, and whether it is the key dictionary.
#[derive(Clone, Copy)]
pub(crate) struct NumberedStore<'a> {
    pub(crate) number: u32,
    pub(crate) store: &'a Store,
    pub(crate) is_dictionary: bool,
}

/// Returns whether a store with its number has no spelling.
pub(crate) fn is_unspelled_store(
    alloc: Global,
    options: &UsedOptions<'_>,
    names: &Called<'_>,
    numbered: NumberedStore<'_>,
) -> Result<bool, Memory>
    requires number { numbered.number < length options.now.stores }
    requires dictionary { numbered.is_dictionary ≡ is_first_dictionary names.now.elements numbered.number }
    ensures { IfOk result (λ unspelled. unspelled ≡ is_unspelled_store names.now (tab_options options.now) numbered.entry.number numbered.entry.store.now) }
{
    let elements = numbered.store.elements.as_slice();
    if has_unspelled_element(names, elements) {
        return Ok(true);
    }
    if numbered.is_dictionary && is_unspelled_dictionary(alloc, elements)? {
        return Ok(true);
    }
    Ok(is_unspelled_otherwise(options, names, numbered.number, numbered.store))
}

/// Returns whether the store of a number has no spelling as an option or as a system store.
fn is_unspelled_otherwise(
    options: &UsedOptions<'_>,
    names: &Called<'_>,
    number: u32,
    store: &Store,
) -> bool
    requires { number < length options.now.stores }
    ensures { result ≡ ((list_any (nat_eq number) (tab_options options.now) && is_unspelled_option names.now number store.now) || is_unspelled_system store.now) }
{
    (options.is_option(number) && is_unspelled_option(names, number, store))
        || is_unspelled_system(store)
}

/// Returns whether the store of a number, which is used as an option, has no spelling.
fn is_unspelled_option(names: &Called<'_>, number: u32, store: &Store) -> bool
    ensures { result ≡ is_unspelled_option names.now number store.now }
{
    store.system != 0
        || names.store(number) != store.name.as_slice()
        || has_no_character(store.elements.as_slice())
}

/// Returns whether a system store has no spelling.
fn is_unspelled_system(store: &Store) -> bool
    ensures { result ≡ is_unspelled_system store.now }
{
    (store.system == BITMAP && has_no_character(store.elements.as_slice()))
        || (store.system == MNEMONIC_LAYOUT && !is_layout_text(store.elements.as_slice()))
}

/// Returns whether elements are the text `0`.
fn is_layout_text(elements: &[Element]) -> bool
    ensures { result ≡ is_layout_text elements.now }
{
    match elements {
        [Element::Char(c)] => *c == '0',
        _ => false,
    }
}
