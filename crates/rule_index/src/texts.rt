//! A hash table of the texts that stores are stated with, so that a text of the host can become the number of a store.

ghost use Rattle.std.specs.Prelude.{◌≡◌, ◌≤◌, ◌+◌, List, IfOk, OnOk, length};
ghost use Rattle.kmn_base.specs.declared.items.Element.{Element};
ghost use Rattle.kmn_base.specs.declared.limits.TheConstants.{STORES};
ghost use Rattle.rule_index.specs.Holdings.{content_at};
ghost use Rattle.rule_index.specs.Texts.{AreCharacters, AreTexts};

use indexmap::IndexMap;
use kmn_base::{Element, Memory, Seq};
use std::alloc::Global;

/// Returns the number of a store for each text that a store is stated with.
#[tactic(auto, using(crate::proofs::TextEntries::no_texts))]
pub fn texts_of(alloc: Global, stores: &[Seq<Element>]) -> Result<IndexMap<Vec<char>, u32>, Memory>
    requires { length stores.now ≤ STORES + 2 }
    ensures { IfOk result (λ texts. AreTexts stores.now (length stores.now) texts.entries) }
{
    let mut texts = IndexMap::new(alloc);
    for store in 0..stores.len() {
        put_text(alloc, &mut texts, stores[store].as_slice(), store as u32)?;
    }
    Ok(texts)
}

/// Inserts the elements of a store if they are a text.
fn put_text(
    alloc: Global,
    texts: &mut IndexMap<Vec<char>, u32>,
    elements: &[Element],
    store: u32,
) -> Result<(), Memory>
    ensures { OnOk result ((stores : List (List Element)) → content_at stores store ≡ elements.now
        → AreTexts stores store texts.old.entries → AreTexts stores (store + 1) texts.new.entries) }
{
    match characters_of(alloc, elements)? {
        Some(text) => {
            texts.insert(text, store)?;
            Ok(())
        }
        None => Ok(()),
    }
}

/// Returns the characters of elements, None if an element is not a character.
fn characters_of(alloc: Global, elements: &[Element]) -> Result<Option<Vec<char>>, Memory>
    ensures { IfOk result (λ characters. AreCharacters elements.now characters) }
{
    let mut characters = Vec::with_capacity(alloc, elements.len())?;
    for element in elements {
        match *element {
            Element::Char(c) => characters.push(c)?,
            Element::Mark(_) => return Ok(None),
            Element::Key { .. } => return Ok(None),
        }
    }
    Ok(Some(characters))
}
