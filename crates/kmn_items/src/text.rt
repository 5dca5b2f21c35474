//! Tokens together with the source that contains their texts.

ghost use Rattle.std.specs.Prelude.{◌≡◌, IfOk};
ghost use Rattle.kmn_items.specs.TokenTexts.{text_of, text_at, texts, is_wordy, begins_open, inside, quoted};

use kmn_base::slices::{before, behind};
use kmn_base::texts::decoded;
use kmn_base::{Memory, Seq, Text};
use kmn_lines::{Token, TokenKind};
use std::alloc::Global;

/// Returns the text of a token.
pub fn text_in<'a>(source: &'a [u8], token: Token) -> &'a [u8]
    ensures { result.now ≡ text_of source.now token }
{
    behind(before(source, token.to as usize), token.from as usize)
}

/// Consecutive tokens of a line, with the source that contains their texts.
#[derive(Clone, Copy)]
pub struct LineTokens<'a> {
    pub source: &'a [u8],
    pub tokens: &'a [Token],
}

impl<'a> LineTokens<'a> {
    ghost use Rattle.std.specs.Prelude.{◌==◌, take, drop, length};

    /// Returns the number of tokens.
    #[tactic(auto, using(crate::proofs::TextLemmas::length_with_texts))]
    pub fn len(self) -> usize
        ensures { result ≡ length (texts self.entry) }
    {
        self.tokens.len()
    }

    #[tactic(auto, using(crate::proofs::TextLemmas::length_with_texts))]
    pub fn is_empty(self) -> bool
        ensures { result ≡ (length (texts self.entry) == 0) }
    {
        self.tokens.is_empty()
    }

    /// Returns the tokens after the first `count`.
    #[tactic(auto, using(crate::proofs::TextLemmas::drop_with_texts))]
    pub fn behind(self, count: usize) -> LineTokens<'a>
        ensures { texts result ≡ drop count (texts self.entry) }
    {
        LineTokens {
            source: self.source,
            tokens: behind(self.tokens, count),
        }
    }

    /// Returns the first `count` tokens, or all if there are fewer.
    #[tactic(auto, using(crate::proofs::TextLemmas::take_with_texts))]
    pub fn before(self, count: usize) -> LineTokens<'a>
        ensures { texts result ≡ take count (texts self.entry) }
    {
        LineTokens {
            source: self.source,
            tokens: before(self.tokens, count),
        }
    }

    /// Returns the text of the token at an index, or an empty text if there is none.
    #[tactic(auto, using(crate::proofs::TextLemmas::get_with_texts))]
    pub fn text(self, place: usize) -> &'a [u8]
        ensures { result.now ≡ text_at place (texts self.entry) }
    {
        match self.tokens.get(place) {
            Some(token) => text_in(self.source, *token),
            None => &[],
        }
    }

    /// Copies the text of the token at an index. Errors: `Memory` if an allocation fails.
    pub fn name(self, alloc: Global, place: usize) -> Result<Text, Memory>
        ensures { IfOk result (λ name. name ≡ text_at place (texts self.entry)) }
    {
        Seq::from_slice(alloc, self.text(place))
    }
}

/// Returns whether a parenthesis opens at the first token.
pub fn begins_open(tokens: LineTokens<'_>) -> bool
    ensures { result ≡ begins_open (texts tokens.entry) }
{
    match tokens.tokens {
        [token, ..] => matches!(token.kind, TokenKind::Open),
        [] => false,
    }
}

/// Returns whether a token is a word, or a number, whose text can be a word.
pub(crate) fn is_wordy(kind: TokenKind) -> bool
    ensures { result ≡ is_wordy kind }
{
    matches!(kind, TokenKind::Word | TokenKind::Number(_))
}

/// Returns the characters of a quoted token. Errors: `Memory` if an allocation fails.
pub fn quoted(alloc: Global, text: &[u8]) -> Result<Seq<char>, Memory>
    ensures { IfOk result (λ characters. characters ≡ quoted text.now) }
{
    decoded(alloc, inside(text))
}

/// Returns the text between the quotes of a quoted token.
fn inside(text: &[u8]) -> &[u8]
    ensures { result.now ≡ inside text.now }
{
    if text.len() < 2 {
        return &[];
    }
    before(behind(text, 1), text.len() - 2)
}
