//! The platform, which a condition compares word by word.

ghost use Rattle.std.specs.Prelude.{◌≡◌};
ghost use Rattle.std.specs.List.{list_any};
ghost use Rattle.rule_model.specs.System.{small_letter, same_without_case, same_word, is_space, element_words, has_words};

use kmn_base::Element;

/// Returns whether each word of a value is a word of a content.
pub fn has_words(content: &[Element], value: &[Element]) -> bool
    ensures { result ≡ has_words content.now value.now }
{
    value
        .split(|element| is_space(*element))
        .filter(|word| !word.is_empty())
        .all(|word| has_word(content, word))
}

/// Returns whether an element separates words.
fn is_space(element: Element) -> bool
    ensures { result ≡ is_space element }
{
    element == Element::Char(' ')
}

/// Returns whether a word is one of the words of a content.
fn has_word(content: &[Element], word: &[Element]) -> bool
    ensures { result ≡ list_any (λ known. same_word known word.now) (element_words content.now) }
{
    content
        .split(|element| is_space(*element))
        .filter(|known| !known.is_empty())
        .any(|known| same_word(known, word))
}

/// Returns whether two words are the same without ASCII case.
#[tactic(auto, using(crate::proofs::PlatformWords::not_same_length))]
fn same_word(word: &[Element], other: &[Element]) -> bool
    ensures { result ≡ same_word word.now other.now }
{
    if word.len() != other.len() {
        return false;
    }
    for n in 0..word.len() {
        if !same_without_case(word[n], other[n]) {
            return false;
        }
    }
    true
}

/// Returns whether two elements are the same without ASCII case.
fn same_without_case(a: Element, b: Element) -> bool
    ensures { result ≡ same_without_case a b }
{
    match (a, b) {
        (Element::Char(c), Element::Char(d)) => small_letter(c) == small_letter(d),
        _ => a == b,
    }
}

/// Returns an ASCII letter in lower case.
fn small_letter(c: char) -> u32
    ensures { result ≡ small_letter c }
{
    if c.is_ascii_uppercase() {
        c as u32 + 32
    } else {
        c as u32
    }
}
