//! Builds the stores of a file.

ghost use Rattle.std.specs.Prelude.{◌≡◌, ◌+◌, ◌^◌, ◌<◌, ◌≤◌, ◌++◌, nat_eq, if◌then◌else◌, true, [], ◌∷◌, map, length, IfOk, OnOk};
ghost use Rattle.std.specs.List.{list_all, join_with_byte};
ghost use Rattle.rule_model.specs.Naming.{item_elements, store_of, stores_onto};
ghost use Rattle.rule_model.specs.Src.{value_elements};
ghost use Rattle.compile_laws.specs.Numbers.{dictionary_stores, value_store};
ghost use Rattle.compile_laws.specs.WellNamed.{is_word};
ghost use Rattle.rule_expand.specs.Lookups.{source_names, AreFew, BeginWith};

use crate::lookups::{elements_named, key_number, mark_number};
use crate::values::Values;
use kmn_base::limits::KEY_NAMES;
use kmn_base::texts::decoded;
use kmn_base::{Element, Memory, Seq};
use rule_model::system::{DROPPED, KEY_DICTIONARY};
use rule_model::{SrcItem, Store, StoreDef};
use std::alloc::Global;
use store_table::Names;
use virtual_keys::{FIRST_OWN_CODE, KeyDictionary};

/// Returns the store of a statement that follows these stores.
pub fn store_of(
    alloc: Global,
    names: &Names,
    before: &[Store],
    store: &StoreDef,
) -> Result<Store, Memory>
    requires few { AreFew names.now }
    requires first { BeginWith before.now names.now.stores }
    ensures { IfOk result (λ made. made ≡ store_of (source_names names.now) before.now store.now) }
{
    let mut elements = Vec::with_capacity(alloc, store.items.len())?;
    for item in store.items.as_slice() {
        add_elements(&mut elements, names, before, item)?;
    }
    Ok(Store {
        system: store.system,
        name: store.name.copy(alloc)?,
        elements: Seq::from_vec(elements),
    })
}

/// Appends the elements of an item of a store statement that follows these stores.
fn add_elements(
    elements: &mut Vec<Element>,
    names: &Names,
    before: &[Store],
    item: &SrcItem,
) -> Result<(), Memory>
    requires few { AreFew names.now }
    requires first { BeginWith before.now names.now.stores }
    ensures { OnOk result (elements.new.items ≡ elements.old.items ++ item_elements (source_names names.now) before.now item.now) }
{
    match item {
        SrcItem::Char(c) => elements.push(Element::Char(*c))?,
        SrcItem::Dead(name) => elements.push(Element::Mark(mark_number(names, name.as_slice())))?,
        SrcItem::Key(key) => elements.push(Element::Key {
            flags: key.flags,
            code: key_number(names, key),
        })?,
        SrcItem::Outs(name) => {
            elements.extend_from_slice(elements_named(names, before, name.as_slice()))?
        }
        _ => {}
    }
    Ok(())
}

/// Returns the stores of statements, with capacity for `room` further stores.
#[tactic(auto, using(crate::proofs::StoreLists::first_stores, crate::proofs::StoreLists::next_store))]
pub fn statement_stores(
    alloc: Global,
    names: &Names,
    stores: &[StoreDef],
    room: usize,
) -> Result<Vec<Store>, Memory>
    requires few { AreFew names.now }
    requires first { BeginWith (stores_onto (source_names names.now) [] stores.now) names.now.stores }
    ensures { IfOk result (λ made. made.items ≡ stores_onto (source_names names.now) [] stores.now) }
{
    let mut made = Vec::with_capacity(alloc, stores.len().saturating_add(room))?;
    for store in stores {
        add_store(alloc, &mut made, names, store)?;
    }
    Ok(made)
}

/// Appends the store of a statement, unless the statement is dropped.
fn add_store(
    alloc: Global,
    stores: &mut Vec<Store>,
    names: &Names,
    store: &StoreDef,
) -> Result<(), Memory>
    requires few { AreFew names.now }
    requires first { BeginWith stores.old.items names.now.stores }
    ensures { OnOk result (stores.new.items ≡ stores_onto (source_names names.now) stores.old.items (store.now ∷ [])) }
{
    if store.system == DROPPED {
        return Ok(());
    }
    let made = store_of(alloc, names, stores.as_slice(), store)?;
    stores.push(made)?;
    Ok(())
}

/// Returns the number of the first value, which follows these stores and the key dictionary.
pub fn first_value(stores: &[Store], keys: &KeyDictionary) -> u32
    requires { length stores.now + length (dictionary_stores keys.now) < 2 ^ 32 }
    ensures { result ≡ length stores.now + length (dictionary_stores keys.now) }
{
    let count = dictionary_count(keys);
    stores.len() as u32 + count
}

/// Returns the number of stores of a key dictionary: 1 if it has a name, else 0.
#[tactic(auto, using(crate::proofs::StoreLists::dictionary_count, crate::proofs::StoreLists::dictionary_none))]
fn dictionary_count(keys: &KeyDictionary) -> u32
    ensures count { result ≡ length (dictionary_stores keys.now) }
    ensures few { result ≤ 1 }
{
    match keys.name_at(FIRST_OWN_CODE) {
        Some(_) => 1,
        None => 0,
    }
}

/// Appends the store of the key dictionary, if it has a name.
#[tactic(auto, using(crate::proofs::StoreLists::dictionary_text, crate::proofs::StoreLists::dictionary_none))]
pub fn add_dictionary(
    alloc: Global,
    stores: &mut Vec<Store>,
    keys: &KeyDictionary,
) -> Result<(), Memory>
    requires few { length keys.now ≤ KEY_NAMES }
    requires words { list_all is_word keys.now ≡ true }
    ensures { OnOk result (stores.new.items ≡ stores.old.items ++ dictionary_stores keys.now) }
{
    let Some(_) = keys.name_at(FIRST_OWN_CODE) else {
        return Ok(());
    };
    let text = joined_names(alloc, keys)?;
    let characters = decoded(alloc, text.as_slice())?;
    stores.push(characters_store(alloc, KEY_DICTIONARY, characters.as_slice())?)?;
    Ok(())
}

/// Returns the names of a key dictionary, separated by spaces.
#[tactic(auto, using(crate::proofs::StoreLists::joined_more, crate::proofs::StoreLists::joined_all))]
fn joined_names(alloc: Global, keys: &KeyDictionary) -> Result<Vec<u8>, Memory>
    requires { length keys.now ≤ KEY_NAMES }
    ensures { IfOk result (λ text. text.items ≡ join_with_byte 32 keys.now) }
{
    let mut text = Vec::new(alloc);
    for place in 0..KEY_NAMES {
        let Some(name) = keys.name_at(FIRST_OWN_CODE + place as u16) else {
            return Ok(text);
        };
        add_name(&mut text, place, name)?;
    }
    Ok(text)
}

/// Appends a name, and a space before it unless it is the first.
fn add_name(text: &mut Vec<u8>, place: usize, name: &[u8]) -> Result<(), Memory>
    ensures { OnOk result (text.new.items ≡ text.old.items ++ (if nat_eq place 0 then name.now else 32 ∷ name.now)) }
{
    if place > 0 {
        text.push(b' ')?;
    }
    text.extend_from_slice(name)?;
    Ok(())
}

/// Returns a store of characters without a name.
fn characters_store(alloc: Global, system: u32, characters: &[char]) -> Result<Store, Memory>
    ensures { IfOk result (λ made. made ≡ record { system = system; name = []; elements = value_elements characters.now }) }
{
    let mut elements = Vec::with_capacity(alloc, characters.len())?;
    for c in characters {
        elements.push(Element::Char(*c))?;
    }
    Ok(Store {
        system,
        name: Seq::new(alloc),
        elements: Seq::from_vec(elements),
    })
}

/// Appends the stores of values.
pub fn add_values(alloc: Global, stores: &mut Vec<Store>, values: &Values<'_>) -> Result<(), Memory>
    ensures { OnOk result (stores.new.items ≡ stores.old.items ++ map value_store values.now) }
{
    for place in 0..values.len() {
        let Some(value) = values.at(place) else {
            return Ok(());
        };
        stores.push(characters_store(alloc, 0, value)?)?;
    }
    Ok(())
}
