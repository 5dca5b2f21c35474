//! The texts that a source reads as names.

ghost use Rattle.std.specs.Prelude.{◌≡◌, ◌&&◌, nat_eq, not, length, is_some};
ghost use Rattle.std.specs.List.{list_all};
ghost use Rattle.kmn_lines.specs.Tokens.{word_size, digits_fault};
ghost use Rattle.kmn_items.specs.Words.{is_name};
ghost use Rattle.kmn_parser.specs.Names.{is_inner, is_source_name};
ghost use Rattle.decompile_program.specs.SourceNames.{is_token, is_one_name};

use kmn_base::slices::behind;
use kmn_items::is_name;
use kmn_tokens::{has_forbidden, number, starts_number, word_size};

/// Returns whether a source reads a whole text as a name without a refusal: as a word or number token in one line.
pub fn is_source_name(name: &[u8]) -> bool
    ensures { result ≡ is_source_name name.now }
{
    is_one_name(name)
}

/// Returns whether a name is one token without U+0000 and U+FFFF, of 1 to 80 characters in one line.
#[tactic(auto, unfolding(crate::specs::SourceNames::is_one_name))]
fn is_one_name(name: &[u8]) -> bool
    ensures { result ≡ is_one_name name.now }
{
    is_token(name) && !has_forbidden(name) && is_line_name(name)
}

/// Returns whether a text is a word token, or a number token without a fault.
fn is_token(text: &[u8]) -> bool
    ensures { result ≡ is_token text.now }
{
    if starts_number(text) {
        is_word(behind(text, 2)) && are_character_digits(behind(text, 2))
    } else {
        is_word(text)
    }
}

/// Returns whether a whole text is one word.
fn is_word(text: &[u8]) -> bool
    ensures { result ≡ nat_eq (word_size text.now) (length text.now) }
{
    word_size(text) == text.len()
}

/// Returns whether digits are 4 to 6 hexadecimal digits of a character.
fn are_character_digits(digits: &[u8]) -> bool
    ensures { result ≡ not (is_some (digits_fault digits.now)) }
{
    number(digits).is_ok()
}

/// Returns whether a name has 1 to 80 characters in one line.
fn is_line_name(name: &[u8]) -> bool
    ensures { result ≡ (is_name name.now && list_all is_inner name.now) }
{
    is_name(name) && are_inner(name)
}

/// Returns whether no byte of a name ends a line.
fn are_inner(name: &[u8]) -> bool
    ensures { result ≡ list_all is_inner name.now }
{
    name.iter().all(|byte| is_inner(*byte))
}

/// Returns whether a byte does not end a line.
fn is_inner(byte: u8) -> bool
    ensures { result ≡ is_inner byte }
{
    byte != b'\n' && byte != b'\r'
}
