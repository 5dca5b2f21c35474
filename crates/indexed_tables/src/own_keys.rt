//! The names of custom keys: the words of the store that has the key dictionary.

ghost use Rattle.std.specs.Prelude.{◌≡◌, ◌+◌, [], ◌∷◌, IfOk, OnOk, find, filter_map, encode_utf8_all, length, option_copied, nat_eq, not, filter, position};
ghost use Rattle.std.specs.List.{slice_split};
ghost use Rattle.std.specs.String.{string_bytes};
ghost use Rattle.kmn_base.specs.Names.{same_name};
ghost use Rattle.rule_model.specs.Tab.{store_elements, is_dictionary, element_char, words, distinct_onto, tab_dictionary};
ghost use Rattle.virtual_keys.specs.Groups.{bytes_behind};
ghost use Rattle.indexed_tables.specs.OwnNames.{AreFolded};
ghost use Rattle.indexed_tables.specs.Words.{words_after};

use indexmap::IndexSet;
use kmn_base::{Element, Memory, Seq, Text};
use rule_model::Store;
use rule_model::system::KEY_DICTIONARY;
use std::alloc::Global;

/// Returns the characters among elements, as UTF-8. Errors: `Memory` if an allocation fails.
pub fn element_text(alloc: Global, elements: &[Element]) -> Result<String, Memory>
    ensures { IfOk result (λ text. string_bytes text ≡ encode_utf8_all (filter_map element_char elements.now)) }
{
    let mut text = String::new(alloc);
    for element in elements {
        if let Element::Char(c) = element {
            text.push(*c)?;
        }
    }
    Ok(text)
}

/// Returns a text up to its first space, and the rest after this space.
#[tactic(auto, using(crate::proofs::Words::words_parted, crate::proofs::Words::words_alone))]
pub fn first_word(text: &[u8]) -> (&[u8], Option<&[u8]>)
    ensures parts { slice_split (nat_eq 32) text.now ≡ result.0.now ∷ words_after (option_copied result.1) }
    ensures sizes { length result.0.now + bytes_behind (option_copied result.1) ≡ length text.now }
{
    match first_space(text) {
        Some(at) => (&text[..at], Some(&text[at + 1..])),
        None => (text, None),
    }
}

/// Returns the position of the first space of a text.
fn first_space(text: &[u8]) -> Option<usize>
    ensures { result ≡ position (nat_eq 32) text.now }
{
    text.iter().position(|byte| *byte == b' ')
}

/// Returns the names of the key dictionary. Errors: `Memory` if an allocation fails.
#[tactic(auto, unfolding(rule_model::specs::Tab::tab_dictionary))]
pub fn own_keys(alloc: Global, stores: &[Store]) -> Result<Vec<Text>, Memory>
    ensures { IfOk result (λ names. names.items ≡ tab_dictionary stores.now) }
{
    let text = element_text(alloc, dictionary_elements(stores))?;
    distinct_words(alloc, text.as_bytes())
}

/// Distinct names without ASCII case, each also in lower case, by which it is found.
#[derive(Drop)]
struct Names {
    written: Vec<Text>,
    folded: IndexSet<Vec<u8>>,
}

/// Returns the elements of the store that has the key dictionary.
fn dictionary_elements(stores: &[Store]) -> &[Element]
    ensures { result.now ≡ store_elements (find is_dictionary stores.now) }
{
    for store in stores {
        if store.system == KEY_DICTIONARY {
            return store.elements.as_slice();
        }
    }
    &[]
}

/// Returns the distinct words of a text. Errors: `Memory` if an allocation fails.
fn distinct_words(alloc: Global, text: &[u8]) -> Result<Vec<Text>, Memory>
    ensures { IfOk result (λ names. names.items ≡ distinct_onto same_name [] (words text.now)) }
{
    let mut names = Names {
        written: Vec::new(alloc),
        folded: IndexSet::new(alloc),
    };
    let mut rest = Some(text);
    while let Some(text) = rest {
        let (word, behind) = first_word(text);
        add_word(alloc, &mut names, word)?;
        rest = behind;
    }
    Ok(names.written)
}

/// Appends a word, unless it is empty or the same as an earlier name. Errors: `Memory` if an allocation fails.
fn add_word(alloc: Global, names: &mut Names, word: &[u8]) -> Result<(), Memory>
    requires { AreFolded names.old }
    ensures folded { OnOk result (AreFolded names.new) }
    ensures names { OnOk result (names.new.written.items ≡ distinct_onto same_name names.old.written.items (filter (λ w. not (nat_eq (length w) 0)) (word.now ∷ []))) }
{
    if word.is_empty() {
        return Ok(());
    }
    add_name(alloc, names, word)
}

/// Appends a word that isn't empty, unless it is the same as an earlier name. Errors: `Memory` if an allocation fails.
fn add_name(alloc: Global, names: &mut Names, word: &[u8]) -> Result<(), Memory>
    requires { AreFolded names.old }
    ensures folded { OnOk result (AreFolded names.new) }
    ensures names { OnOk result (names.new.written.items ≡ distinct_onto same_name names.old.written.items (word.now ∷ [])) }
{
    let folded = word.to_ascii_lowercase(alloc)?;
    if names.folded.insert(folded)? {
        names.written.push(Seq::from_slice(alloc, word)?)?;
    }
    Ok(())
}
