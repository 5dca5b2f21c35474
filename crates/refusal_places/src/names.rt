//! The token of a line that names a store or a group that is not defined anywhere.

ghost use Rattle.std.specs.Prelude.{◌≡◌, []};
ghost use Rattle.refusal_places.specs.Names.{is_dollar_name, is_store_word, name_at, name_of, named_token, names, opened_by};

use kmn_base::Code;
use kmn_base::names::same_name;
use kmn_items::text_in;
use kmn_lines::{Token, TokenKind};
use source_names::{Cause, NameFault};

/// Returns the name that the cause at a line lacks, or an empty name.
pub fn name_at(line: u32, faults: &[NameFault]) -> &[u8]
    ensures { result.now ≡ name_at line faults.now }
{
    for fault in faults {
        if fault.line == line {
            return name_of(&fault.cause);
        }
    }
    &[]
}

/// Returns the name that a cause lacks, or an empty name.
fn name_of(cause: &Cause) -> &[u8]
    ensures { result.now ≡ name_of cause.now }
{
    match cause {
        Cause::NoStore(name) => name.as_slice(),
        Cause::NoGroup(name) => name.as_slice(),
        Cause::Broken(_) => &[],
    }
}

/// Returns the first of a line's tokens that has the name for which a code refuses the line.
pub(crate) fn named_token(source: &[u8], code: Code, name: &[u8], tokens: &[Token]) -> Option<Token>
    ensures { result ≡ named_token source.now code name.now [] [] tokens.now }
{
    let mut previous: &[u8] = &[];
    let mut word: &[u8] = &[];
    for token in tokens {
        let text = text_in(source, *token);
        if names(code, word, name, text) {
            return Some(*token);
        }
        word = opened_by(previous, *token);
        previous = text;
    }
    None
}

/// Returns the word before a parenthesis, or no word if the token is none.
fn opened_by(previous: &[u8], token: Token) -> &[u8]
    ensures { result.now ≡ opened_by previous.now token }
{
    if matches!(token.kind, TokenKind::Open) {
        previous
    } else {
        &[]
    }
}

/// Returns whether a text is a name for which a code refuses a line, behind the parenthesis of a word.
fn names(code: Code, word: &[u8], name: &[u8], text: &[u8]) -> bool
    ensures { result ≡ names code word.now name.now text.now }
{
    match code {
        Code::C05 => (is_store_word(word) && same_name(name, text)) || is_dollar_name(name, text),
        Code::C06 => same_name(b"use", word) && same_name(name, text),
        _ => false,
    }
}

/// Returns whether a word stands before the parenthesis of a store name.
fn is_store_word(word: &[u8]) -> bool
    ensures { result ≡ is_store_word word.now }
{
    !(word.is_empty()
        || same_name(b"use", word)
        || same_name(b"dk", word)
        || same_name(b"deadkey", word)
        || same_name(b"call", word))
}

/// Returns whether a text is `$` and a name.
fn is_dollar_name(name: &[u8], text: &[u8]) -> bool
    ensures { result ≡ is_dollar_name name.now text.now }
{
    match text {
        [b'$', bare @ ..] => same_name(name, bare),
        _ => false,
    }
}
