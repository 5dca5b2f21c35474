//! The symbols and words that separate the sections of a statement.

ghost use Rattle.std.specs.Prelude.{◌≡◌, ◌≤◌, length};
ghost use Rattle.std.specs.List.{position_or_len};
ghost use Rattle.kmn_items.specs.TokenTexts.{texts};
ghost use Rattle.kmn_parser.specs.Line.{is_sign, place_of, begins_word, tokens_after_close};

use crate::statement::Sign;
use kmn_base::names::same_name;
use kmn_items::{LineTokens, text_in};
use kmn_lines::{Token, TokenKind};

/// Returns whether a token is a symbol.
pub(crate) fn is_sign(sign: Sign, kind: TokenKind) -> bool
    ensures { result ≡ is_sign sign kind }
{
    match sign {
        Sign::Arrow => matches!(kind, TokenKind::Arrow),
        Sign::Plus => matches!(kind, TokenKind::Plus),
        Sign::Close => matches!(kind, TokenKind::Close),
    }
}

/// Returns the index of the first token that is a symbol, or the number of tokens, whose texts are in a source.
#[tactic(auto, using(crate::proofs::LineLemmas::place_with_texts, kmn_items::proofs::TextLemmas::length_with_texts))]
pub fn place_of(sign: Sign, tokens: LineTokens<'_>) -> usize
    ensures place { result ≡ place_of sign (texts tokens.entry) }
    ensures within { result ≤ length (texts tokens.entry) }
{
    sign_place(sign, tokens.tokens)
}

/// Returns the index of the first token that is a symbol, or the number of tokens.
fn sign_place(sign: Sign, tokens: &[Token]) -> usize
    ensures place { result ≡ position_or_len (λ token. is_sign sign token.kind) tokens.now }
    ensures within { result ≤ length tokens.now }
{
    let mut place = 0;
    for token in tokens {
        if is_sign(sign, token.kind) {
            return place;
        }
        place += 1;
    }
    place
}

/// Returns whether tokens begin with a word, in any ASCII case.
pub(crate) fn begins_word(word: &[u8], tokens: LineTokens<'_>) -> bool
    ensures { result ≡ begins_word word.now (texts tokens.entry) }
{
    match tokens.tokens {
        [token, ..] => {
            matches!(token.kind, TokenKind::Word) && same_name(word, text_in(tokens.source, *token))
        }
        [] => false,
    }
}

/// Returns the tokens after the first `)`.
pub(crate) fn tokens_after_close<'a>(tokens: LineTokens<'a>) -> LineTokens<'a>
    ensures { texts result ≡ tokens_after_close (texts tokens.entry) }
{
    tokens.behind(place_of(Sign::Close, tokens) + 1)
}
