//! Tests whether a source can have the names in a key dictionary.

ghost use Rattle.std.specs.Prelude.{◌≡◌, ◌++◌, [], ◌∷◌, false, IfOk};
ghost use Rattle.std.specs.List.{list_any};
ghost use Rattle.std.specs.Str.{is_utf8};
ghost use Rattle.kmn_base.specs.Names.{same_name};
ghost use Rattle.kmn_items.specs.Words.{is_own_key};
ghost use Rattle.rule_model.specs.Tab.{words};
ghost use Rattle.kmx_decompiler.specs.Causes.{is_dictionary_name, is_unspelled_dictionary};
ghost use Rattle.kmx_decompiler.specs.Words.{are_unfit, not_empty};

use decompile_program::is_source_name;
use indexed_tables::{element_text, first_word};
use kmn_base::{Element, Memory};
use kmn_items::is_own_key;
use std::alloc::Global;
use std::str;
use store_table::NameTable;

/// Returns whether the content of a dictionary has no spelling.
#[tactic(auto, using(crate::proofs::DictionaryWords::unfit_is_unspelled))]
pub(crate) fn is_unspelled_dictionary(alloc: Global, elements: &[Element]) -> Result<bool, Memory>
    ensures { IfOk result (λ unspelled. unspelled ≡ is_unspelled_dictionary elements.now) }
{
    let text = element_text(alloc, elements)?;
    are_unfit(alloc, text.as_bytes())
}

/// Returns whether one of the words of a text is not the name of a custom key or repeats an earlier word.
#[tactic(auto, using(crate::proofs::DictionaryWords::one_word_more))]
fn are_unfit(alloc: Global, text: &[u8]) -> Result<bool, Memory>
    ensures { IfOk result (λ unfit. unfit ≡ are_unfit (words text.now) []) }
{
    let mut known = NameTable::new(alloc);
    let mut rest = Some(text);
    while let Some(text) = rest {
        let (word, behind) = first_word(text);
        if add_word(&mut known, word)? {
            return Ok(true);
        }
        rest = behind;
    }
    Ok(false)
}

/// Returns whether a word is not allowed after the known names, and appends it if it is allowed. Ignores an empty word.
fn add_word(known: &mut NameTable, word: &[u8]) -> Result<bool, Memory>
    ensures unfit { IfOk result (λ unfit. unfit ≡ are_unfit (not_empty (word.now ∷ [])) known.old) }
    ensures known { IfOk result (λ unfit. unfit ≡ false → known.new ≡ known.old ++ not_empty (word.now ∷ [])) }
{
    if word.is_empty() {
        return Ok(false);
    }
    if !is_dictionary_name(word) || is_known(known, word) {
        return Ok(true);
    }
    known.push(word)?;
    Ok(false)
}

/// Returns whether a name is the name of a custom key (`T_` or `U_`) that a source can have.
fn is_dictionary_name(name: &[u8]) -> bool
    ensures { result ≡ is_dictionary_name name.now }
{
    is_own_key(name) && is_source_name(name) && is_utf8(name)
}

#[tactic(auto, using(crate::proofs::DictionaryWords::is_text, crate::proofs::DictionaryWords::is_no_text))]
fn is_utf8(text: &[u8]) -> bool
    ensures { result ≡ is_utf8 text.now }
{
    match str::from_utf8(text) {
        Ok(_) => true,
        Err(_) => false,
    }
}

/// Returns whether a name is among the known names.
#[tactic(auto, using(crate::proofs::DictionaryWords::named_is))]
fn is_known(known: &NameTable, name: &[u8]) -> bool
    ensures { result ≡ list_any (λ other. same_name other name.now) known.now }
{
    known.has(name)
}
