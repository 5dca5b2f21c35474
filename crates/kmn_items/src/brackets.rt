//! Reads virtual keys: modifiers and the name of a key in brackets.

ghost use Rattle.std.specs.Prelude.{◌≡◌, ◌+◌, ◌≤◌, ◌<◌, ◌^◌, ◌∷◌, [], IfOk, length, take, drop};
ghost use Rattle.kmn_items.specs.TokenTexts.{texts, with_text, text_at};
ghost use Rattle.kmn_items.specs.Slots.{broken};
ghost use Rattle.kmn_items.specs.Brackets.{flag_of, flags_of, named_key, key_item, is_modifier_token, modifier_count};

use crate::slots::broken;
use crate::syntax::{Slot, TokenRefusal, Where};
use crate::text::{LineTokens, text_in};
use crate::words::is_modifier;
use kmn_base::keys::VIRTUAL_KEY;
use kmn_base::{Memory, Seq};
use kmn_lines::{Token, TokenKind};
use rule_model::{KeyName, SrcItem};
use std::alloc::Global;
use virtual_keys::{key_named, modifier_named};

/// The form of a virtual key after its modifiers.
const KEY_AND_END: [Slot; 2] = [Slot::KeyName, Slot::KeyEnd];

/// Returns a virtual key as an item. In an output it is not supported.
pub(crate) fn key_item(place: Where, key: KeyName) -> SrcItem
    ensures { result ≡ key_item place key }
{
    match place {
        Where::Output => SrcItem::OutOfProfile,
        _ => SrcItem::Key(key),
    }
}

/// Returns the number of modifiers at the beginning of tokens.
#[tactic(auto, using(crate::proofs::TextLemmas::length_with_texts))]
pub(crate) fn modifier_count(tokens: LineTokens<'_>) -> usize
    ensures count { result ≡ modifier_count (texts tokens.entry) }
    ensures most { result ≤ length (texts tokens.entry) }
{
    let LineTokens {
        source,
        tokens: all,
    } = tokens;
    for (count, token) in all.iter().enumerate() {
        if !is_modifier_token(source, *token) {
            return count;
        }
    }
    all.len()
}

/// Returns whether a token is a modifier.
fn is_modifier_token(source: &[u8], token: Token) -> bool
    ensures { result ≡ is_modifier_token (with_text source.now token) }
{
    matches!(token.kind, TokenKind::Word) && is_modifier(text_in(source, token))
}

/// Returns the first token that breaks a virtual key after its modifiers. `at` is the index of the first modifier.
pub(crate) fn key_fault(
    last: usize,
    at: usize,
    count: usize,
    tokens: LineTokens<'_>,
) -> Option<TokenRefusal>
    requires room { at + length (texts tokens) < 2 ^ 62 }
    requires most { count ≤ length (texts tokens) }
    ensures { result ≡ broken last (at + count) (Slot.KeyName ∷ Slot.KeyEnd ∷ []) (drop count (texts tokens.entry)) }
{
    broken(last, at + count, &KEY_AND_END, tokens.behind(count))
}

/// Returns a virtual key with `count` modifiers. Errors: `Memory` if an allocation fails.
pub(crate) fn modified_key(
    alloc: Global,
    count: usize,
    tokens: LineTokens<'_>,
) -> Result<KeyName, Memory>
    ensures { IfOk result (λ key. key ≡ named_key (flags_of (take count (texts tokens.entry))) (text_at count (texts tokens.entry))) }
{
    let flags = flags_of(tokens.before(count));
    named_key(alloc, flags, tokens.text(count))
}

/// Returns the shift flags of words, above the flag of a virtual key.
fn flags_of(tokens: LineTokens<'_>) -> u16
    ensures { result ≡ flags_of (texts tokens.entry) }
{
    let mut flags = VIRTUAL_KEY;
    let LineTokens {
        source,
        tokens: all,
    } = tokens;
    for token in all {
        flags |= flag_of(text_in(source, *token));
    }
    flags
}

/// Returns the shift flag of a word.
fn flag_of(text: &[u8]) -> u16
    ensures { result ≡ flag_of text.now }
{
    match modifier_named(text) {
        Some(flag) => flag,
        None => 0,
    }
}

/// Returns a virtual key by its name. Errors: `Memory` if an allocation fails.
fn named_key(alloc: Global, flags: u16, name: &[u8]) -> Result<KeyName, Memory>
    ensures { IfOk result (λ key. key ≡ named_key flags name.now) }
{
    match key_named(name) {
        Some(code) => Ok(KeyName {
            flags,
            code,
            name: Seq::new(alloc),
        }),
        None => Ok(KeyName {
            flags,
            code: 0,
            name: Seq::from_slice(alloc, name)?,
        }),
    }
}
