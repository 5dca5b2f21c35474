//! The codes of the cased keys, found without building the elements of stores.

ghost use Rattle.std.specs.Prelude.{◌≡◌, IfOk, OnOk};
ghost use Rattle.std.specs.List.{list_any};
ghost use Rattle.item_checker.specs.Items.{needs_plain_keys};
ghost use Rattle.rule_checker.specs.Cased.{codes_from, codes_named, codes_of_cased, no_stores, with_item_codes, with_items_codes, with_store_codes};
ghost use Rattle.rule_checker.specs.KeyCodes.{no_codes};

use crate::key_codes::KeyCodes;
use kmn_base::{Memory, Seq};
use rule_model::system::{CASED_KEYS, DROPPED};
use rule_model::{SrcItem, StoreDef};
use std::alloc::Global;
use store_table::NameTable;

/// The names of stores, with the codes of the keys that each has.
#[derive(Drop)]
pub struct StoreCodes {
    pub names: NameTable,
    /// One set for each name, in the order of the names.
    pub codes: Seq<KeyCodes>,
}

/// Returns the codes of the cased keys.
pub(crate) fn cased_codes(alloc: Global, stores: &[StoreDef]) -> Result<KeyCodes, Memory>
    ensures { IfOk result (λ codes. codes ≡ codes_of_cased stores.now) }
{
    if has_cased(stores) {
        first_codes(alloc, stores)
    } else {
        Ok(KeyCodes::new())
    }
}

/// Returns whether a statement of `&casedkeys` is among stores.
fn has_cased(stores: &[StoreDef]) -> bool
    ensures { result ≡ list_any needs_plain_keys stores.now }
{
    stores.iter().any(|store| store.system == CASED_KEYS)
}

/// Returns the codes of the first `&casedkeys`.
fn first_codes(alloc: Global, stores: &[StoreDef]) -> Result<KeyCodes, Memory>
    ensures { IfOk result (λ codes. codes ≡ codes_from no_stores stores.now) }
{
    let mut before = StoreCodes {
        names: NameTable::new(alloc),
        codes: Seq::new(alloc),
    };
    for store in stores {
        if store.system == CASED_KEYS {
            return Ok(codes_of_items(&before, store.items.as_slice()));
        }
        add_store_codes(&mut before, store)?;
    }
    Ok(KeyCodes::new())
}

/// Returns the codes that items add to a store.
fn codes_of_items(before: &StoreCodes, items: &[SrcItem]) -> KeyCodes
    ensures { result ≡ with_items_codes before.now no_codes items.now }
{
    let mut codes = KeyCodes::new();
    for item in items {
        add_item_codes(&mut codes, before, item);
    }
    codes
}

/// Adds the codes that an item adds to a store.
fn add_item_codes(codes: &mut KeyCodes, before: &StoreCodes, item: &SrcItem)
    ensures { codes.new ≡ with_item_codes before.now codes.old item.now }
{
    match item {
        SrcItem::Key(key) => codes.add(key.code),
        SrcItem::Outs(name) => codes.join(&codes_named(before, name.as_slice())),
        _ => {}
    }
}

/// Returns the codes of the keys that the store of a name has.
fn codes_named(before: &StoreCodes, name: &[u8]) -> KeyCodes
    ensures { result ≡ codes_named before.now name.now }
{
    match before.names.place_of(name) {
        Some(place) => match before.codes.as_slice().get(place) {
            Some(codes) => *codes,
            None => KeyCodes::new(),
        },
        None => KeyCodes::new(),
    }
}

/// Appends the codes of a store, unless its statement is dropped.
fn add_store_codes(before: &mut StoreCodes, store: &StoreDef) -> Result<(), Memory>
    ensures { OnOk result (before.new ≡ with_store_codes before.old store.now) }
{
    if store.system == DROPPED {
        return Ok(());
    }
    let codes = codes_of_items(before, store.items.as_slice());
    before.names.push(store.name.as_slice())?;
    before.codes.add(codes)
}
