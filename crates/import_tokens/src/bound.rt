//! The bounds of a range: the character or the virtual key before and after its `..`.

ghost use Rattle.std.specs.Prelude.{◌≡◌, ◌≤◌, length, false, IfOk};
ghost use Rattle.std.specs.List.{position_or_len};
ghost use Rattle.kmn_items.specs.TokenTexts.{is_bracket_close};
ghost use Rattle.kmn_items.specs.Leads.{token_lead};
ghost use Rattle.kmn_items.specs.Brackets.{is_modifier_token, modifier_count, flags_of};
ghost use Rattle.import_tokens.specs.Bounds.{bound_of, first_char, last_char, key_bound, before_close, bound_after};

use crate::owned_token::{OwnedToken, copies, text_at};
use kmn_base::keys::VIRTUAL_KEY;
use kmn_base::slices::before;
use kmn_base::{Memory, Seq};
use kmn_items::{Lead, token_lead};
use kmn_lines::TokenKind;
use std::alloc::Global;
use virtual_keys::{key_named, modifier_named};

/// A bound of a range.
#[derive(Drop)]
pub enum Bound {
    /// Neither a character nor a virtual key.
    Missing,
    Character(char),
    /// The modifiers of a virtual key and its code.
    VirtualKey(Seq<OwnedToken>, u16),
}

/// Returns the bound at the beginning of tokens. Errors: `Memory` if an allocation fails.
pub(crate) fn bound_after(alloc: Global, tokens: &[OwnedToken]) -> Result<Bound, Memory>
    ensures { IfOk result (λ bound. bound ≡ bound_after tokens.now) }
{
    let [token, rest @ ..] = tokens else {
        return Ok(Bound::Missing);
    };
    if token.kind == TokenKind::BracketOpen {
        return key_bound(alloc, before_close(rest));
    }
    first_bound(alloc, token)
}

/// Returns the bound of a token outside brackets before a `..`. Errors: `Memory` if an allocation fails.
pub(crate) fn last_bound(alloc: Global, token: &OwnedToken) -> Result<Bound, Memory>
    ensures { IfOk result (λ bound. bound ≡ bound_of last_char (token_lead false token.now) token.now.text) }
{
    match token_lead(false, token.kind, token.text.as_slice()) {
        Lead::Characters => Ok(last_char(token.quoted(alloc)?.as_slice())),
        Lead::One(character) => Ok(Bound::Character(character)),
        _ => Ok(Bound::Missing),
    }
}

/// Returns the bound of a token outside brackets after a `..`. Errors: `Memory` if an allocation fails.
fn first_bound(alloc: Global, token: &OwnedToken) -> Result<Bound, Memory>
    ensures { IfOk result (λ bound. bound ≡ bound_of first_char (token_lead false token.now) token.now.text) }
{
    match token_lead(false, token.kind, token.text.as_slice()) {
        Lead::Characters => Ok(first_char(token.quoted(alloc)?.as_slice())),
        Lead::One(character) => Ok(Bound::Character(character)),
        _ => Ok(Bound::Missing),
    }
}

/// Returns the first of some characters as a bound.
fn first_char(characters: &[char]) -> Bound
    ensures { result ≡ first_char characters.now }
{
    match characters {
        [first, ..] => Bound::Character(*first),
        [] => Bound::Missing,
    }
}

/// Returns the last of some characters as a bound.
fn last_char(characters: &[char]) -> Bound
    ensures { result ≡ last_char characters.now }
{
    let mut bound = Bound::Missing;
    for character in characters {
        bound = Bound::Character(*character);
    }
    bound
}

/// Returns the key of the tokens in brackets: modifiers and one name of a key. Errors: `Memory` if an allocation fails.
pub(crate) fn key_bound(alloc: Global, words: &[OwnedToken]) -> Result<Bound, Memory>
    ensures { IfOk result (λ bound. bound ≡ key_bound words.now) }
{
    let count = modifier_count(words);
    if words.len() != count + 1 {
        return Ok(Bound::Missing);
    }
    match key_named(text_at(count, words)) {
        Some(code) => Ok(Bound::VirtualKey(copies(alloc, before(words, count))?, code)),
        None => Ok(Bound::Missing),
    }
}

/// Returns the number of modifiers at the beginning of tokens.
fn modifier_count(words: &[OwnedToken]) -> usize
    ensures count { result ≡ modifier_count words.now }
    ensures most { result ≤ length words.now }
{
    for (count, word) in words.iter().enumerate() {
        if !is_modifier(word) {
            return count;
        }
    }
    words.len()
}

/// Returns whether a token is a modifier.
fn is_modifier(word: &OwnedToken) -> bool
    ensures { result ≡ is_modifier_token word.now }
{
    word.kind == TokenKind::Word && modifier_named(word.text.as_slice()).is_some()
}

/// Returns the shift flags of words, with the flag of a virtual key.
pub(crate) fn flags_of(words: &[OwnedToken]) -> u16
    ensures { result ≡ flags_of words.now }
{
    let mut flags = VIRTUAL_KEY;
    for word in words {
        flags |= modifier_named(word.text.as_slice()).unwrap_or(0);
    }
    flags
}

/// Returns the tokens before the first bracket that closes.
fn before_close(tokens: &[OwnedToken]) -> &[OwnedToken]
    ensures { result.now ≡ before_close tokens.now }
{
    before(tokens, close_place(tokens))
}

/// Returns the index of the first bracket that closes, or the number of tokens.
fn close_place(tokens: &[OwnedToken]) -> usize
    ensures { result ≡ position_or_len (λ token. is_bracket_close token.kind) tokens.now }
{
    let mut place = 0;
    for token in tokens {
        if matches!(token.kind, TokenKind::BracketClose) {
            return place;
        }
        place += 1;
    }
    place
}
