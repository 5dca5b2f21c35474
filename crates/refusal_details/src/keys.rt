//! The names that a word in the brackets of a virtual key may mean.

ghost use Rattle.std.specs.Prelude.{◌≡◌, ◌++◌, flat_map, map, option_map, Some, IfOk, OnOk};
ghost use Rattle.virtual_keys.specs.Keys.{key_name};
ghost use Rattle.virtual_keys.specs.declared.dictionary.TheConstants.{FIRST_OWN_CODE};
ghost use Rattle.refusal_details.specs.Keys.{is_known, like_row, meant, meant_below, meant_key, meant_names, means_key, placed_name, placed_names};

use crate::nearest::{add_like, few, is_like};
use import_tokens::key_at;
use kmn_base::names::same_name;
use kmn_base::slices::behind;
use kmn_base::{Memory, Seq, Text};
use kmn_items::is_own_key;
use std::alloc::Global;
use virtual_keys::{FIRST_OWN_CODE, key_named, modifier_named, modifiers, name_of};

/// Returns the names of keys and modifiers that a word in brackets may mean. Errors: `Memory` if an allocation fails.
#[tactic(auto, unfolding(crate::specs::Keys::meant))]
pub(crate) fn meant(alloc: Global, word: &[u8]) -> Result<Seq<Text>, Memory>
    ensures { IfOk result (λ names. names ≡ meant word.now) }
{
    if is_known(word) {
        return Ok(Seq::new(alloc));
    }
    let names = meant_names(alloc, word)?;
    Ok(few(alloc, names))
}

/// Returns whether a word is the name of a key or a modifier.
#[tactic(auto, unfolding(crate::specs::Keys::is_known))]
fn is_known(word: &[u8]) -> bool
    ensures { result ≡ is_known word.now }
{
    key_named(word).is_some() || modifier_named(word).is_some() || is_own_key(word)
}

/// Returns the name of the key at the place that a word is, the names of keys that it means, and the modifiers that it is like.
#[tactic(auto, unfolding(crate::specs::Keys::meant_names))]
fn meant_names(alloc: Global, word: &[u8]) -> Result<Seq<Text>, Memory>
    ensures { IfOk result (λ names. names ≡ meant_names word.now) }
{
    let mut names = placed_names(alloc, placed_name(word))?;
    names.append(meant_keys(alloc, word)?)?;
    add_like_rows(alloc, &mut names, word, modifiers())?;
    Ok(names)
}

/// Returns the name of the key at the place of the board that a word is, if it is one.
fn placed_name(word: &[u8]) -> Option<&'static [u8]>
    ensures { option_map (λ name. name.now) result ≡ placed_name word.now }
{
    match key_at(word) {
        Some(code) => name_of(code),
        None => None,
    }
}

/// Returns a name as a list, or an empty list.
fn placed_names(alloc: Global, name: Option<&[u8]>) -> Result<Seq<Text>, Memory>
    ensures { IfOk result (λ names. names ≡ placed_names (option_map (λ text. text.now) name.entry)) }
{
    let mut names = Seq::new(alloc);
    if let Some(name) = name {
        names.add(Seq::from_slice(alloc, name)?)?;
    }
    Ok(names)
}

/// Returns the names of keys that a word means.
#[tactic(auto, using(crate::proofs::MeantKeys::none_below, crate::proofs::MeantKeys::one_more))]
fn meant_keys(alloc: Global, word: &[u8]) -> Result<Seq<Text>, Memory>
    ensures { IfOk result (λ names. names ≡ meant_below word.now FIRST_OWN_CODE) }
{
    let mut names = Seq::new(alloc);
    for code in 0..FIRST_OWN_CODE {
        add_meant_key(alloc, &mut names, word, code)?;
    }
    Ok(names)
}

/// Appends the name of the key with a code, if there is one and a word means it.
fn add_meant_key(alloc: Global, names: &mut Seq<Text>, word: &[u8], code: u16) -> Result<(), Memory>
    ensures { OnOk result (names.new ≡ names.old ++ meant_key word.now (key_name code)) }
{
    match name_of(code) {
        Some(name) => add_meant(alloc, names, word, name),
        None => Ok(()),
    }
}

/// Appends the name of a key, if a word means it.
fn add_meant(alloc: Global, names: &mut Seq<Text>, word: &[u8], name: &[u8]) -> Result<(), Memory>
    ensures { OnOk result (names.new ≡ names.old ++ meant_key word.now (Some name.now)) }
{
    if means_key(word, name) {
        names.add(Seq::from_slice(alloc, name)?)?;
    }
    Ok(())
}

/// Returns whether a word means a key with a name.
#[tactic(auto, unfolding(crate::specs::Keys::means_key))]
fn means_key(word: &[u8], name: &[u8]) -> bool
    ensures { result ≡ means_key word.now name.now }
{
    same_name(word, behind(name, 2)) || is_like(word, name)
}

/// Appends the names of a table that a word is like.
fn add_like_rows(
    alloc: Global,
    names: &mut Seq<Text>,
    word: &[u8],
    table: &'static [(&'static str, u16)],
) -> Result<(), Memory>
    ensures { OnOk result (names.new ≡ names.old ++ flat_map (like_row word.now) (map (λ row. (row.0.now, row.1)) table.now)) }
{
    for row in table {
        add_like(alloc, names, word, row.0.as_bytes())?;
    }
    Ok(())
}
