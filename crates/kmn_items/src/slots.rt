//! Compares tokens with a form, index by index, and finds the first token that breaks it.

ghost use Rattle.std.specs.Prelude.{◌≡◌, ◌+◌, ◌<◌, ◌^◌, length};
ghost use Rattle.kmn_items.specs.TokenTexts.{texts, with_text};
ghost use Rattle.kmn_items.specs.Slots.{unless, offset_fault, slot_fault, cut_code, broken};

use crate::numbers::is_offset;
use crate::syntax::{Slot, TokenRefusal};
use crate::text::{LineTokens, is_wordy, text_in};
use crate::words::{bare_name, is_key_name, is_name};
use kmn_base::Code;
use kmn_base::slices::behind;
use kmn_lines::{Token, TokenKind};

/// Returns the first token that breaks a form. `at` is the index of the first token in the line. `last` is the index of the
/// line's last token, the latest token at which a form can break off.
pub fn broken(
    last: usize,
    at: usize,
    slots: &[Slot],
    tokens: LineTokens<'_>,
) -> Option<TokenRefusal>
    requires { at + length (texts tokens) < 2 ^ 62 }
    ensures { result ≡ broken last at slots.now (texts tokens.entry) }
{
    match (slots, tokens.tokens) {
        ([], _) => None,
        ([slot, ..], []) => Some(TokenRefusal {
            at: at.min(last),
            code: cut_code(*slot),
        }),
        ([slot, slots @ ..], [token, ..]) => match slot_fault(tokens.source, *slot, *token) {
            Some(code) => Some(TokenRefusal { at, code }),
            None => broken(last, at + 1, slots, tokens.behind(1)),
        },
    }
}

/// Returns the rule that is broken if the tokens end before an index of a form.
fn cut_code(slot: Slot) -> Code
    ensures { result ≡ cut_code slot }
{
    match slot {
        Slot::KeyName | Slot::KeyEnd => Code::S11,
        _ => Code::S02,
    }
}

/// Returns the rule that a token breaks at an index of a form.
fn slot_fault(source: &[u8], slot: Slot, token: Token) -> Option<Code>
    ensures { result ≡ slot_fault slot (with_text source.now token) }
{
    let holds = match slot {
        Slot::Lead => true,
        Slot::DollarName => is_dollar_name(source, token),
        Slot::Open => matches!(token.kind, TokenKind::Open),
        Slot::Close => matches!(token.kind, TokenKind::Close),
        Slot::Comma => matches!(token.kind, TokenKind::Comma),
        Slot::Equal => matches!(token.kind, TokenKind::Equal),
        Slot::Comparison => matches!(token.kind, TokenKind::Equal | TokenKind::Unequal),
        Slot::Name => is_name_token(source, token),
        Slot::StoreName => is_store_name(source, token),
        Slot::Value => matches!(token.kind, TokenKind::Quoted),
        Slot::Argument => !matches!(token.kind, TokenKind::Close),
        Slot::Offset => return offset_fault(source, token),
        Slot::KeyName => return unless(is_key_token(source, token), Code::S11),
        Slot::KeyEnd => return unless(matches!(token.kind, TokenKind::BracketClose), Code::S11),
    };
    unless(holds, Code::S02)
}

/// Returns whether a token is `$` and a name.
fn is_dollar_name(source: &[u8], token: Token) -> bool
    ensures { (slot_fault Slot.DollarName (with_text source.now token)) ≡ unless result Code.S02 }
{
    is_name(behind(text_in(source, token), 1))
}

/// Returns whether a token is a name.
fn is_name_token(source: &[u8], token: Token) -> bool
    ensures { (slot_fault Slot.Name (with_text source.now token)) ≡ unless result Code.S02 }
{
    is_wordy(token.kind) && is_name(text_in(source, token))
}

/// Returns whether a token is the name of a store or of a system store.
fn is_store_name(source: &[u8], token: Token) -> bool
    ensures { (slot_fault Slot.StoreName (with_text source.now token)) ≡ unless result Code.S02 }
{
    is_wordy(token.kind) && is_name(bare_name(text_in(source, token)))
}

/// Returns the rule that a token breaks as an offset.
fn offset_fault(source: &[u8], token: Token) -> Option<Code>
    ensures { result ≡ offset_fault (with_text source.now token) }
{
    if is_wordy(token.kind) {
        unless(is_offset(text_in(source, token)), Code::L04)
    } else {
        Some(Code::S02)
    }
}

/// Returns the rule that is broken if a test fails.
fn unless(holds: bool, code: Code) -> Option<Code>
    ensures { result ≡ unless holds code }
{
    if holds { None } else { Some(code) }
}

/// Returns whether a token is the name of a key.
fn is_key_token(source: &[u8], token: Token) -> bool
    ensures { (slot_fault Slot.KeyName (with_text source.now token)) ≡ unless result Code.S11 }
{
    matches!(token.kind, TokenKind::Word) && is_key_name(text_in(source, token))
}
