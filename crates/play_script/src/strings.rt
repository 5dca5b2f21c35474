//! Reads the strings of a script.

ghost use Rattle.std.specs.Prelude.{◌≡◌, nat_eq, ◌<◌, ◌∷◌, length, IfOk, IfSome};
ghost use Rattle.std.specs.List.{position};
ghost use Rattle.play_script.specs.Strings.{code_point, ends_token, unquoted, quoted_token, written_token, string_token, tokens_chars, short, string};

use crate::words::{has_digits, without_blanks};
use kmn_base::bytes::{is_blank, is_quote};
use kmn_base::digits::bounded_value;
use kmn_base::limits::SCRIPT_STRING_CHARS;
use kmn_base::slices::behind;
use kmn_base::texts::{NO_CHARACTER, decoded};
use kmn_base::{Memory, Seq};
use std::alloc::Global;

/// Returns the string that a text denotes, if any.
pub(crate) fn string(alloc: Global, text: &[u8]) -> Result<Option<Seq<char>>, Memory>
    ensures { IfOk result (λ read. read ≡ string text.now) }
{
    if text.is_empty() {
        return Ok(None);
    }
    match tokens_chars(alloc, text)? {
        Some(characters) => Ok(short(characters)),
        None => Ok(None),
    }
}

/// Returns the characters of all tokens of a text, or `None` if the text does not consist of tokens and blanks.
#[tactic(auto, using(crate::proofs::StringLaws::token_steps))]
fn tokens_chars(alloc: Global, text: &[u8]) -> Result<Option<Seq<char>>, Memory>
    ensures { IfOk result (λ read. read ≡ tokens_chars 0 text.now) }
{
    let mut all = Seq::new(alloc);
    let mut rest = without_blanks(text);
    while !rest.is_empty() {
        match string_token(alloc, rest)? {
            Some((characters, size)) => {
                all.append(characters)?;
                rest = without_blanks(behind(rest, size));
            }
            None => return Ok(None),
        }
    }
    Ok(Some(all))
}

/// Returns the string token with which a text begins, if any.
fn string_token(alloc: Global, text: &[u8]) -> Result<Option<(Seq<char>, usize)>, Memory>
    ensures { IfOk result (λ token. token ≡ string_token text.now) }
{
    match text {
        [first, inside @ ..] => begun_token(alloc, *first, inside, text),
        [] => Ok(None),
    }
}

/// Returns the token with which a text begins. The text is `first` followed by `inside`.
fn begun_token(
    alloc: Global,
    first: u8,
    inside: &[u8],
    text: &[u8],
) -> Result<Option<(Seq<char>, usize)>, Memory>
    requires { text.now ≡ first ∷ inside.now }
    ensures { IfOk result (λ token. token ≡ string_token (first ∷ inside.now)) }
{
    if is_quote(first) {
        quoted_token(alloc, first, inside)
    } else {
        written_token(alloc, unquoted(text))
    }
}

/// Returns the characters of a quoted token and its size in bytes, or `None` if it has no closing quote. The opening quote
/// precedes the text.
fn quoted_token(alloc: Global, quote: u8, text: &[u8]) -> Result<Option<(Seq<char>, usize)>, Memory>
    ensures { IfOk result (λ token. token ≡ quoted_token text.now (position (λ b. nat_eq b quote) text.now)) }
{
    match first_quote(quote, text) {
        Some(end) => Ok(Some((decoded(alloc, &text[..end])?, end + 2))),
        None => Ok(None),
    }
}

/// Returns the position of the first quote of a kind.
fn first_quote(quote: u8, text: &[u8]) -> Option<usize>
    ensures place { result ≡ position (λ b. nat_eq b quote) text.now }
    ensures within { IfSome result (λ place. place < length text.now) }
{
    text.iter().position(|byte| *byte == quote)
}

/// Returns the characters and the size of an unquoted token, which names a character by its code point.
fn written_token(alloc: Global, written: &[u8]) -> Result<Option<(Seq<char>, usize)>, Memory>
    ensures { IfOk result (λ token. token ≡ written_token written.now) }
{
    match code_point(written) {
        Some(c) => Ok(Some((Seq::from_slice(alloc, &[c])?, written.len()))),
        None => Ok(None),
    }
}

/// Returns the character that a text names by its code point, if any.
fn code_point(text: &[u8]) -> Option<char>
    ensures { result ≡ code_point text.now }
{
    let [u, plus, digits @ ..] = text else {
        return None;
    };
    if *u == b'U' && *plus == b'+' && has_digits(16, 4, 6, digits) {
        char::from_u32(bounded_value(NO_CHARACTER, 16, digits))
    } else {
        None
    }
}

/// Returns the bytes of the unquoted token with which a text begins.
#[tactic(auto, using(crate::proofs::WordLaws::place_of_first))]
fn unquoted(text: &[u8]) -> &[u8]
    ensures { result.now ≡ unquoted text.now }
{
    &text[..first_end(text).unwrap_or(text.len())]
}

/// Returns the position of the first byte that ends an unquoted token.
fn first_end(text: &[u8]) -> Option<usize>
    ensures { result ≡ position ends_token text.now }
{
    text.iter()
        .position(|byte| is_blank(*byte) || is_quote(*byte))
}

/// Returns the characters if they are not too many for a string.
fn short(characters: Seq<char>) -> Option<Seq<char>>
    ensures { result ≡ short characters }
{
    if characters.len() <= SCRIPT_STRING_CHARS {
        Some(characters)
    } else {
        None
    }
}
