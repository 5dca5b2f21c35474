//! The size of the token at the beginning of a text.

ghost use Rattle.std.specs.Prelude.{◌≡◌, ◌<◌, ◌≤◌, length, true, false};
ghost use Rattle.kmn_base.specs.Bytes.{is_blank, hex_digit};
ghost use Rattle.kmn_lines.specs.Bytes.{first_or_end};
ghost use Rattle.kmn_lines.specs.Tokens.{single, is_unequal, in_word, word_size, quoted_size, starts_number, plain_size, token_size};

use kmn_base::bytes::{hex_digit, is_blank, is_quote};
use kmn_base::slices::behind;
use kmn_lines::TokenKind;
use kmn_lines::bytes::byte_or_end;

/// Returns the kind of a byte that is a token by itself.
pub(crate) fn single(byte: u8) -> Option<TokenKind>
    ensures { result ≡ single byte }
{
    match byte {
        b'(' => Some(TokenKind::Open),
        b')' => Some(TokenKind::Close),
        b'[' => Some(TokenKind::BracketOpen),
        b']' => Some(TokenKind::BracketClose),
        b'>' => Some(TokenKind::Arrow),
        b'+' => Some(TokenKind::Plus),
        b'=' => Some(TokenKind::Equal),
        b',' => Some(TokenKind::Comma),
        _ => None,
    }
}

/// Returns whether two bytes are `!=`.
pub(crate) fn is_unequal(byte: u8, next: u8) -> bool
    ensures { result ≡ is_unequal byte next }
{
    byte == b'!' && next == b'='
}

/// Returns the number of bytes of a word at the beginning of a text.
pub fn word_size(text: &[u8]) -> usize
    ensures is { result ≡ word_size text.now }
    ensures within { result ≤ length text.now }
{
    let mut size = 0;
    while size < text.len() && in_word(text[size], byte_or_end(text, size + 1)) {
        size += 1;
    }
    size
}

/// Returns whether a byte belongs to a word, given the next byte.
#[tactic(auto, unfolding(kmn_lines::specs::Tokens::in_word))]
fn in_word(byte: u8, next: u8) -> bool
    ensures { result ≡ in_word byte next }
{
    !(is_blank(byte) || is_quote(byte) || single(byte).is_some() || is_unequal(byte, next))
}

/// Returns whether a text begins with `U+` and a hexadecimal digit.
pub fn starts_number(text: &[u8]) -> bool
    ensures is { result ≡ starts_number text.now }
    ensures long { result ≡ true → 3 ≤ length text.now }
{
    match text {
        [letter, plus, digit, ..] => {
            (*letter == b'U' || *letter == b'u') && *plus == b'+' && hex_digit(*digit).is_some()
        }
        _ => false,
    }
}

/// Returns the size in bytes of the token at the beginning of a text.
#[tactic(auto, unfolding(kmn_lines::specs::Tokens::token_size))]
pub(crate) fn token_size(text: &[u8]) -> usize
    requires { 0 < length text.now }
    ensures is { result ≡ token_size text.now }
    ensures within { result ≤ length text.now }
    ensures some { is_blank (first_or_end text.now) ≡ false → 0 < result }
{
    if starts_number(text) {
        2 + word_size(behind(text, 2))
    } else {
        plain_size(text)
    }
}

/// Returns the size in bytes of the token at the beginning of a text, if it is not a number.
#[tactic(auto, using(crate::proofs::Scans::word_some))]
fn plain_size(text: &[u8]) -> usize
    requires { 0 < length text.now }
    ensures is { result ≡ plain_size text.now }
    ensures within { result ≤ length text.now }
    ensures some { is_blank (first_or_end text.now) ≡ false → 0 < result }
{
    let first = byte_or_end(text, 0);
    if is_quote(first) {
        1 + quoted_size(first, behind(text, 1))
    } else if is_unequal(first, byte_or_end(text, 1)) {
        2
    } else if single(first).is_some() {
        1
    } else {
        word_size(text)
    }
}

/// Returns the number of bytes up to and including a quote, or of all bytes if there is no quote.
fn quoted_size(quote: u8, text: &[u8]) -> usize
    ensures is { result ≡ quoted_size quote text.now }
    ensures within { result ≤ length text.now }
{
    let mut size = 0;
    while size < text.len() {
        size += 1;
        if text[size - 1] == quote {
            break;
        }
    }
    size
}
