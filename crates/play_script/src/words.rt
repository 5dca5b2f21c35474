//! The words of a line, and the numbers and names that words denote.

ghost use Rattle.std.specs.Prelude.{◌≡◌, ◌≤◌, length, option_copied};
ghost use Rattle.std.specs.List.{position, position_or_len};
ghost use Rattle.kmn_base.specs.Bytes.{is_blank};
ghost use Rattle.play_script.specs.Words.{without_blanks, IsTight, first_word, rest_after_word, has_digits, number, name};

use kmn_base::bytes::is_blank;
use kmn_base::digits::{are_digits, bounded_value};
use kmn_base::limits::SOURCE_NAME_CHARS;
use kmn_base::slices::behind;
use kmn_base::texts::character_count;

/// Returns a text without its leading blanks.
pub fn without_blanks(text: &[u8]) -> &[u8]
    ensures is { result.now ≡ without_blanks text.now }
    ensures within { length result.now ≤ length text.now }
    ensures tight { IsTight result.now }
{
    let mut rest = text;
    while let [first, behind @ ..] = rest {
        if !is_blank(*first) {
            return rest;
        }
        rest = behind;
    }
    rest
}

/// Returns the number of bytes before the first blank, or the length of the text if it has no blank.
#[tactic(auto, using(crate::proofs::WordLaws::place_of_first))]
pub(crate) fn word_length(text: &[u8]) -> usize
    ensures within { result ≤ length text.now }
    ensures is { result ≡ position_or_len is_blank text.now }
{
    first_blank(text).unwrap_or(text.len())
}

/// Returns the position of the first blank.
fn first_blank(text: &[u8]) -> Option<usize>
    ensures { result ≡ position is_blank text.now }
{
    text.iter().position(|byte| is_blank(*byte))
}

/// Returns the word with which a text begins.
pub fn first_word(text: &[u8]) -> &[u8]
    ensures { result.now ≡ first_word text.now }
{
    &text[..word_length(text)]
}

/// Returns the text after the first word and the blanks that follow it.
pub fn rest_after_word(text: &[u8]) -> &[u8]
    ensures { result.now ≡ rest_after_word text.now }
{
    without_blanks(behind(text, word_length(text)))
}

/// Returns whether a word consists of `least` to `most` digits of a base.
pub(crate) fn has_digits(base: u32, least: usize, most: usize, word: &[u8]) -> bool
    requires least { 2 ≤ base }
    requires most { base ≤ 16 }
    ensures { result ≡ has_digits base least most word.now }
{
    least <= word.len() && word.len() <= most && are_digits(base, word)
}

/// Returns the number that a word denotes, of one to seven decimal digits, if any.
pub(crate) fn number(word: &[u8]) -> Option<u32>
    ensures { result ≡ number word.now }
{
    if has_digits(10, 1, 7, word) {
        Some(bounded_value(9_999_999, 10, word))
    } else {
        None
    }
}

/// Returns the word if it can be a name: 1 to `SOURCE_NAME_CHARS` characters.
pub(crate) fn name(word: &[u8]) -> Option<&[u8]>
    ensures { option_copied result ≡ name word.now }
{
    let count = character_count(word);
    if 1 <= count && count <= SOURCE_NAME_CHARS {
        Some(word)
    } else {
        None
    }
}
