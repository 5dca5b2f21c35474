//! One token with its kind, or its fault.

ghost use Rattle.std.specs.Prelude.{◌≡◌, ◌+◌, ◌^◌, ◌<◌, length, false};
ghost use Rattle.kmn_lines.specs.Tokens.{begins_forbidden, has_forbidden, is_closed, starts_number, token_kind, token_fault, token_at};
ghost use Rattle.kmn_tokens.specs.Scanning.{Gives};

use crate::numbers::number;
use crate::sizes::{is_unequal, single, starts_number};
use kmn_base::Code;
use kmn_base::bytes::is_quote;
use kmn_base::slices::behind;
use kmn_lines::bytes::byte_or_end;
use kmn_lines::{Token, TokenKind};

/// Returns whether a text contains U+0000 or U+FFFF.
pub fn has_forbidden(text: &[u8]) -> bool
    ensures { result ≡ has_forbidden text.now }
{
    let mut at = 0;
    while at < text.len() {
        if begins_forbidden(behind(text, at)) {
            return true;
        }
        at += 1;
    }
    false
}

/// Returns whether a text begins with U+0000 or U+FFFF.
#[tactic(auto, unfolding(kmn_lines::specs::Tokens::begins_forbidden))]
fn begins_forbidden(text: &[u8]) -> bool
    ensures { result ≡ begins_forbidden text.now }
{
    byte_or_end(text, 0) == 0 || text.starts_with(b"\xEF\xBF\xBF")
}

/// Returns the token with a text at a position of a physical line, or its fault.
pub(crate) fn token_at(line: u32, at: usize, text: &[u8]) -> Result<Token, Code>
    requires { at + length text.now < 2 ^ 32 }
    ensures { Gives (token_fault text.now) (token_at line at text.now) result }
{
    Ok(Token {
        kind: kind(text)?,
        line,
        from: at as u32,
        to: (at + text.len()) as u32,
    })
}

/// Returns the kind of a token, or its fault.
#[tactic(auto, unfolding(kmn_lines::specs::Tokens::token_kind, kmn_lines::specs::Tokens::token_fault))]
fn kind(text: &[u8]) -> Result<TokenKind, Code>
    ensures { Gives (token_fault text.now) (token_kind text.now) result }
{
    if has_forbidden(text) {
        return Err(Code::L02);
    }
    if !is_closed(text) {
        return Err(Code::L03);
    }
    if !starts_number(text) {
        return Ok(plain_kind(text));
    }
    Ok(TokenKind::Number(number(behind(text, 2))?))
}

/// Returns whether a text that begins with a quote contains this quote again.
fn is_closed(text: &[u8]) -> bool
    ensures { result ≡ is_closed text.now }
{
    match text {
        [] => true,
        [first, others @ ..] => !is_quote(*first) || others.contains(first),
    }
}

/// Returns the kind of a token that is not a number.
#[tactic(auto, unfolding(kmn_lines::specs::Tokens::token_kind))]
fn plain_kind(text: &[u8]) -> TokenKind
    requires { starts_number text.now ≡ false }
    ensures { result ≡ token_kind text.now }
{
    let first = byte_or_end(text, 0);
    if is_quote(first) {
        TokenKind::Quoted
    } else if is_unequal(first, byte_or_end(text, 1)) {
        TokenKind::Unequal
    } else {
        single(first).unwrap_or(TokenKind::Word)
    }
}
