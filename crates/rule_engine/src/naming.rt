//! The names of stores and options. An engine keeps no copies of them, so each call reads them from the file.

ghost use Rattle.std.specs.Prelude.{◌≡◌, ◌<◌, ◌≤◌, ◌&&◌, IfOk, MatchOption, is_some, length, option_and_then, position};
ghost use Rattle.rule_model.specs.Content.{option_number};
ghost use Rattle.rule_model.specs.Event.{has_name};
ghost use Rattle.rule_model.specs.Keyboard.{Numbered};
ghost use Rattle.rule_model.specs.Plain.{option_names};
ghost use Rattle.rule_model.specs.Tab.{tab};
ghost use Rattle.rule_engine.specs.Engine.{name_of};

use kmn_base::{Memory, Seq, Text};
use rule_index::IndexedKeyboard;
use rule_model::has_name;
use std::alloc::Global;

/// Returns the name of a store of the file, or of the layer or the platform, which have the next two numbers. The name is empty
/// if there is no such store. Each call reads it from the file.
/// Errors: `Memory` if an allocation fails.
#[tactic(auto, using(crate::proofs::Stores::own_name))]
pub fn name_of(alloc: Global, indexed: &IndexedKeyboard<'_>, store: u32) -> Result<Text, Memory>
    ensures { IfOk result (λ name. name ≡ name_of indexed.now store) }
{
    match indexed.file().store(store) {
        Some(store) => store.name(alloc),
        None => Ok(Seq::from_slice(alloc, system_name(indexed, store))?),
    }
}

/// Returns the name of the layer or of the platform, or an empty name for a number after theirs.
#[tactic(auto, using(crate::proofs::Stores::layer_name, crate::proofs::Stores::platform_name, crate::proofs::Stores::no_name))]
fn system_name(indexed: &IndexedKeyboard<'_>, store: u32) -> &'static [u8]
    requires { length indexed.now.stores ≤ store }
    ensures { result.now ≡ name_of indexed.now store }
{
    if store == indexed.layer() {
        b"&layer"
    } else if store == indexed.platform() {
        b"&platform"
    } else {
        &[]
    }
}

/// Returns the first store with a name that is an option: the stores of the file come before the layer and the platform.
#[tactic(auto, using(crate::proofs::OptionNames::named_here, crate::proofs::OptionNames::named_is_some, crate::proofs::OptionNames::passed_here, crate::proofs::OptionNames::none_named, crate::proofs::OptionNames::named_of_all))]
pub fn store_named(
    alloc: Global,
    name: &[u8],
    indexed: &IndexedKeyboard<'_>,
) -> Result<Option<u32>, Memory>
    ensures found { IfOk result (λ store. is_some store ≡ is_some (position (has_name name.now) (option_names (tab indexed.now).stores))) }
    ensures option { IfOk result (λ store. option_and_then (λ s. option_number (tab indexed.now).stores (Numbered s)) store
        ≡ position (has_name name.now) (option_names (tab indexed.now).stores)) }
    ensures within { IfOk result (λ store. MatchOption store (Unit {0}) (λ s. s < length (tab indexed.now).stores)) }
{
    for store in 0..indexed.store_count() {
        if is_option_named(alloc, name, indexed, store)? {
            return Ok(Some(store));
        }
    }
    Ok(None)
}

/// Returns whether a store is an option with a name.
fn is_option_named(
    alloc: Global,
    name: &[u8],
    indexed: &IndexedKeyboard<'_>,
    store: u32,
) -> Result<bool, Memory>
    ensures { IfOk result (λ found. found ≡ (is_some (option_number (tab indexed.now).stores (Numbered store)) && has_name name.now (name_of indexed.now store))) }
{
    if indexed.option_number(store).is_none() {
        return Ok(false);
    }
    let other = name_of(alloc, indexed, store)?;
    Ok(has_name(name, other.as_slice()))
}
