//! Store statements.

ghost use Rattle.std.specs.Prelude.{◌≡◌, ◌++◌, true, [], IfOk, OnOk};
ghost use Rattle.std.specs.List.{list_all};
ghost use Rattle.store_table.specs.First.{all_of, first_code, first_of};
ghost use Rattle.rule_model.specs.declared.program.StoreDef.{StoreDef};
ghost use Rattle.item_checker.specs.Items.{brings_no_character, brings_no_plain_key, uses_option, store_code, store_head_code, store_item_code, store_refusal, needs_characters, needs_plain_keys};
ghost use Rattle.item_checker.specs.Summaries.{are_found_keys, is_found_key};

use crate::facts::Facts;
use crate::summaries::is_other_key;
use kmn_base::{Code, Memory, Refusal, Seq};
use rule_model::system::{BITMAP, CASED_KEYS, LEFT_OUT, MNEMONIC_LAYOUT, VERSION};
use rule_model::{SrcItem, StoreDef};
use std::alloc::Global;
use store_table::{add_refusal, at_line, earlier};

/// Returns the first refusal of store statements. Errors: `Memory` if an allocation fails.
#[tactic(auto, using(store_table::proofs::Firsts::first_kept, crate::proofs::FoundKeys::found_store))]
pub fn stores_refusal(
    alloc: Global,
    facts: &Facts<'_>,
    stores: &[StoreDef],
) -> Result<Option<Refusal>, Memory>
    requires { list_all (λ (store : StoreDef). are_found_keys facts.now.names store.items) stores.now ≡ true }
    ensures { IfOk result (λ refusal. refusal ≡ first_of (store_refusal facts.now) [] stores.now) }
{
    let mut first = None;
    for store in stores {
        let code = store_code(alloc, facts, store)?;
        first = earlier(first, at_line(store.line, code));
    }
    Ok(first)
}

/// Appends all refusals of store statements. Errors: `Memory` if an allocation fails.
#[tactic(auto, using(store_table::proofs::Firsts::all_kept, crate::proofs::FoundKeys::found_store))]
pub fn add_stores_refusals(
    alloc: Global,
    refusals: &mut Seq<Refusal>,
    facts: &Facts<'_>,
    stores: &[StoreDef],
) -> Result<(), Memory>
    requires { list_all (λ (store : StoreDef). are_found_keys facts.now.names store.items) stores.now ≡ true }
    ensures { OnOk result (refusals.new ≡ refusals.old ++ all_of (store_refusal facts.now) [] stores.now) }
{
    for store in stores {
        let code = store_code(alloc, facts, store)?;
        add_refusal(refusals, at_line(store.line, code))?;
    }
    Ok(())
}

/// Returns the rule that a store statement breaks. Errors: `Memory` if an allocation fails.
fn store_code(alloc: Global, facts: &Facts<'_>, store: &StoreDef) -> Result<Option<Code>, Memory>
    requires { are_found_keys facts.now.names store.now.items ≡ true }
    ensures { IfOk result (λ code. code ≡ store_code facts.now store.now) }
{
    match store_head_code(alloc, facts, store)? {
        Some(code) => Ok(Some(code)),
        None => {
            let characters = needs_characters(facts, store);
            let keys = needs_plain_keys(store);
            Ok(store_items_code(facts, characters, keys, store.items.as_slice()))
        }
    }
}

/// Returns the rule that a store statement breaks by its kind, or by its whole text. Errors: `Memory` if an allocation fails.
fn store_head_code(
    alloc: Global,
    facts: &Facts<'_>,
    store: &StoreDef,
) -> Result<Option<Code>, Memory>
    requires { are_found_keys facts.now.names store.now.items ≡ true }
    ensures { IfOk result (λ code. code ≡ store_head_code facts.now store.now) }
{
    if store.system == LEFT_OUT || facts.is_other_text(alloc, store)? {
        Ok(Some(Code::C12))
    } else {
        Ok(None)
    }
}

/// Returns whether all elements of a store must be characters.
fn needs_characters(facts: &Facts<'_>, store: &StoreDef) -> bool
    ensures { result ≡ needs_characters facts.now store.now }
{
    match store.system {
        0 => facts.is_option(store.name.as_slice()),
        BITMAP | VERSION | MNEMONIC_LAYOUT => true,
        _ => false,
    }
}

/// Returns whether all elements of a store must be plain keys.
fn needs_plain_keys(store: &StoreDef) -> bool
    ensures { result ≡ needs_plain_keys store.now }
{
    store.system == CASED_KEYS
}

/// Returns the first code of the items of a store.
#[tactic(auto, using(crate::proofs::FoundKeys::found_item))]
fn store_items_code(
    facts: &Facts<'_>,
    characters: bool,
    keys: bool,
    items: &[SrcItem],
) -> Option<Code>
    requires { are_found_keys facts.now.names items.now ≡ true }
    ensures { result ≡ first_code (store_item_code facts.now characters keys) items.now }
{
    for item in items {
        match store_item_code(facts, characters, keys, item) {
            Some(code) => return Some(code),
            None => {}
        }
    }
    None
}

/// Returns the rule that an item of a store breaks.
fn store_item_code(facts: &Facts<'_>, characters: bool, keys: bool, item: &SrcItem) -> Option<Code>
    requires { is_found_key facts.now.names item.now ≡ true }
    ensures { result ≡ store_item_code facts.now characters keys item.now }
{
    if uses_option(facts, item) {
        Some(Code::C13)
    } else if characters && brings_no_character(facts, item) {
        Some(Code::C14)
    } else if keys && brings_no_plain_key(facts, item) {
        Some(Code::C25)
    } else {
        None
    }
}

/// Returns whether an `outs` or `$` item names an option store.
fn uses_option(facts: &Facts<'_>, item: &SrcItem) -> bool
    ensures { result ≡ uses_option facts.now item.now }
{
    match item {
        SrcItem::Outs(store) => facts.is_option(store.as_slice()),
        _ => false,
    }
}

/// Returns whether an item adds an element that is not a character.
fn brings_no_character(facts: &Facts<'_>, item: &SrcItem) -> bool
    ensures { result ≡ brings_no_character facts.now item.now }
{
    match item {
        SrcItem::Dead(_) => true,
        SrcItem::Key(_) => true,
        SrcItem::Outs(store) => facts.lacks_characters(store.as_slice()),
        _ => false,
    }
}

/// Returns whether an item adds an element that is not a plain key.
#[tactic(auto, using(crate::proofs::FoundKeys::other_brought))]
fn brings_no_plain_key(facts: &Facts<'_>, item: &SrcItem) -> bool
    requires { is_found_key facts.now.names item.now ≡ true }
    ensures { result ≡ brings_no_plain_key facts.now item.now }
{
    match item {
        SrcItem::Char(_) => true,
        SrcItem::Dead(_) => true,
        SrcItem::Key(key) => is_other_key(key),
        SrcItem::Outs(store) => facts.lacks_plain_keys(store.as_slice()),
        _ => false,
    }
}
