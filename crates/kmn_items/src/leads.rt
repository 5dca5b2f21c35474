//! The kind of an item, by its first token and whether a parenthesis follows it.

ghost use Rattle.std.specs.Prelude.{◌≡◌};
ghost use Rattle.kmn_items.specs.TokenTexts.{texts};
ghost use Rattle.kmn_items.specs.Leads.{followed, word_lead, token_lead, lead_of};

use crate::numbers::{digits_lead, number_base, number_digits};
use crate::syntax::{ItemWord, Lead};
use crate::text::{LineTokens, begins_open, text_in};
use crate::words::item_word;
use kmn_lines::TokenKind;

/// Returns the kind of the item that the first of some tokens begins.
pub(crate) fn lead_of(tokens: LineTokens<'_>) -> Lead
    ensures { result ≡ lead_of (texts tokens.entry) }
{
    match tokens.tokens {
        [token, ..] => token_lead(
            begins_open(tokens.behind(1)),
            token.kind,
            text_in(tokens.source, *token),
        ),
        [] => Lead::Misplaced,
    }
}

/// Returns the kind of the item that a token of a kind with a text begins, given whether a parenthesis opens after it.
pub fn token_lead(opened: bool, kind: TokenKind, text: &[u8]) -> Lead
    ensures { result ≡ token_lead opened (record { kind = kind; text = text.now }) }
{
    match kind {
        TokenKind::Quoted => Lead::Characters,
        TokenKind::Number(c) => Lead::One(c),
        TokenKind::Word => word_lead(opened, text),
        TokenKind::BracketOpen => Lead::Bracket,
        _ => Lead::Misplaced,
    }
}

/// Returns the kind of the item that a word begins.
fn word_lead(opened: bool, text: &[u8]) -> Lead
    ensures { result ≡ word_lead opened text.now }
{
    if let Some(base) = number_base(text) {
        return digits_lead(base, number_digits(text));
    }
    match item_word(text) {
        Some(word) => Lead::Named(followed(opened, word)),
        None => Lead::Misplaced,
    }
}

/// Returns a word as it is with or without a parenthesis after it.
fn followed(opened: bool, word: ItemWord) -> ItemWord
    ensures { result ≡ followed opened word }
{
    match word {
        ItemWord::Context if opened => ItemWord::ContextAt,
        other => other,
    }
}
