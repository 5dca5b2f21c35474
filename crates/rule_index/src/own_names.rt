//! The names of a file's custom keys.

ghost use Rattle.std.specs.Prelude.{◌≡◌, ◌<◌, IfOk, OnOk, find, length};
ghost use Rattle.std.specs.String.{string_bytes};
ghost use Rattle.kmn_base.specs.declared.limits.TheConstants.{KEY_NAMES};
ghost use Rattle.rule_model.specs.Tab.{store_elements, is_dictionary, tab_dictionary};
ghost use Rattle.rule_index.specs.OwnNames.{names_with, names_after, word_after};
ghost use Rattle.rule_index.specs.Stores.{HaveFewElements};

use kmn_base::{Element, Memory};
use kmx_parts::{Elements, FileTables, StringParts};
use rule_model::system::KEY_DICTIONARY;
use std::alloc::Global;
use virtual_keys::KeyDictionary;

/// Returns the names of a file's custom keys: the words of the store's characters, each once. Only one store has names, and it is too
/// short for more names than there are codes.
pub fn own_keys(alloc: Global, file: &FileTables<'_>) -> Result<KeyDictionary, Memory>
    requires { HaveFewElements file.now.stores }
    ensures { IfOk result (λ names. names ≡ tab_dictionary file.now.stores) }
{
    let mut names = KeyDictionary::new(alloc);
    let mut word = String::new(alloc);
    for element in dictionary_elements(file) {
        if let Element::Char(c) = element {
            take_char(&mut names, &mut word, c)?;
        }
    }
    add_word(&mut names, word.as_bytes())?;
    Ok(names)
}

/// Returns the elements of the store of the names, or no elements if there is no such store.
fn dictionary_elements<'a>(file: &FileTables<'a>) -> Elements<'a>
    ensures { result ≡ store_elements (find is_dictionary file.now.stores) }
{
    for store in file.stores() {
        if store.system() == KEY_DICTIONARY {
            return store.elements();
        }
    }
    StringParts::none()
}

/// Reads one more character. A space ends the word, and any other character belongs to it.
fn take_char(names: &mut KeyDictionary, word: &mut String, c: char) -> Result<(), Memory>
    requires { length names.old < KEY_NAMES }
    ensures names { OnOk result (names.new ≡ names_after c names.old (string_bytes word.old)) }
    ensures word { OnOk result (string_bytes word.new ≡ word_after c (string_bytes word.old)) }
{
    if c != ' ' {
        word.push(c)?;
        return Ok(());
    }
    add_word(names, word.as_bytes())?;
    word.clear();
    Ok(())
}

/// Adds a word, unless it is empty or the same as a name before it.
fn add_word(names: &mut KeyDictionary, word: &[u8]) -> Result<(), Memory>
    requires { length names.old < KEY_NAMES }
    ensures { OnOk result (names.new ≡ names_with names.old word.now) }
{
    if word.is_empty() {
        return Ok(());
    }
    names.add(word)?;
    Ok(())
}
