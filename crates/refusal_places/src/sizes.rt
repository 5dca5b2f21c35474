//! The size of the token at the beginning of a text, also of one with a fault.

ghost use Rattle.std.specs.Prelude.{◌≡◌, ◌<◌, ◌≤◌, length, false, is_some};
ghost use Rattle.kmn_base.specs.Bytes.{is_blank};
ghost use Rattle.kmn_lines.specs.Bytes.{first_or_end};
ghost use Rattle.kmn_lines.specs.Tokens.{single, is_unequal, quoted_size, plain_size, token_size};

use kmn_base::bytes::is_quote;
use kmn_base::slices::behind;
use kmn_lines::bytes::byte_or_end;
use kmn_tokens::{starts_number, word_size};

/// Returns the size in bytes of the token at the beginning of a text.
#[tactic(auto, unfolding(kmn_lines::specs::Tokens::token_size))]
pub(crate) fn token_size(text: &[u8]) -> usize
    requires { 0 < length text.now }
    ensures is { result ≡ token_size text.now }
    ensures within { result ≤ length text.now }
    ensures some { is_blank (first_or_end text.now) ≡ false → 0 < result }
{
    if starts_number(text) {
        2 + word_size(behind(text, 2))
    } else {
        plain_size(text)
    }
}

/// Returns the size in bytes of the token at the beginning of a text, if it is not a number.
#[tactic(auto, using(kmn_tokens::proofs::Scans::word_some))]
fn plain_size(text: &[u8]) -> usize
    requires { 0 < length text.now }
    ensures is { result ≡ plain_size text.now }
    ensures within { result ≤ length text.now }
    ensures some { is_blank (first_or_end text.now) ≡ false → 0 < result }
{
    let first = byte_or_end(text, 0);
    if is_quote(first) {
        1 + quoted_size(first, behind(text, 1))
    } else if is_unequal(first, byte_or_end(text, 1)) {
        2
    } else if is_single(first) {
        1
    } else {
        word_size(text)
    }
}

/// Returns whether a byte is a token by itself.
fn is_single(byte: u8) -> bool
    ensures { result ≡ is_some (single byte) }
{
    matches!(byte, b'(' | b')' | b'[' | b']' | b'>' | b'+' | b'=' | b',')
}

/// Returns whether two bytes are `!=`.
fn is_unequal(byte: u8, next: u8) -> bool
    ensures { result ≡ is_unequal byte next }
{
    byte == b'!' && next == b'='
}

/// Returns the number of bytes up to and including a quote, or of all bytes if there is no quote.
fn quoted_size(quote: u8, text: &[u8]) -> usize
    ensures is { result ≡ quoted_size quote text.now }
    ensures within { result ≤ length text.now }
{
    let mut size = 0;
    while size < text.len() {
        size += 1;
        if text[size - 1] == quote {
            break;
        }
    }
    size
}
