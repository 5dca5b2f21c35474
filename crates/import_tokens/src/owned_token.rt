//! A token with its own text, so that it can be part of a line that is being written.

ghost use Rattle.std.specs.Prelude.{◌≡◌, IfOk};
ghost use Rattle.kmn_items.specs.TokenTexts.{text_at};

use kmn_base::names::same_name;
use kmn_base::{Memory, Seq, Text};
use kmn_items::quoted;
use kmn_lines::TokenKind;
use std::alloc::Global;
use std::marker::Model;

/// A token with its own text. Contracts model it as `LineToken`.
#[derive(Drop)]
pub struct OwnedToken {
    pub kind: TokenKind,
    pub text: Text,
}

impl Model for OwnedToken {
    ghost use Rattle.kmn_items.specs.TokenTexts.{LineToken};

    ghost Value = { LineToken };

    ghost view = { λ token. record { kind = token.kind; text = token.text } };
}

impl OwnedToken {
    ghost use Rattle.std.specs.Prelude.{◌≡◌, ◌&&◌, ◌∷◌, [], IfOk};
    ghost use Rattle.kmn_base.specs.Names.{same_name};
    ghost use Rattle.kmn_items.specs.TokenTexts.{is_word, quoted};
    ghost use Rattle.kmn_parser.specs.Texts.{word};

    /// Creates a token of a kind with a text. Errors: `Memory` if an allocation fails.
    pub fn new(alloc: Global, kind: TokenKind, text: &[u8]) -> Result<OwnedToken, Memory>
        ensures { IfOk result (λ token. token ≡ record { kind = kind; text = text.now }) }
    {
        Ok(OwnedToken {
            kind,
            text: Seq::from_slice(alloc, text)?,
        })
    }

    /// Creates a word. Errors: `Memory` if an allocation fails.
    pub fn word(alloc: Global, text: &[u8]) -> Result<OwnedToken, Memory>
        ensures { IfOk result (λ token. token ≡ word text.now) }
    {
        OwnedToken::new(alloc, TokenKind::Word, text)
    }

    /// Creates a list of a copy of one token. Errors: `Memory` if an allocation fails.
    pub fn alone(alloc: Global, token: &OwnedToken) -> Result<Seq<OwnedToken>, Memory>
        ensures { IfOk result (λ tokens. tokens ≡ token.now ∷ []) }
    {
        let mut tokens = Seq::new(alloc);
        tokens.add(token.copy(alloc)?)?;
        Ok(tokens)
    }

    /// Returns a copy. Errors: `Memory` if an allocation fails.
    pub fn copy(&self, alloc: Global) -> Result<OwnedToken, Memory>
        ensures { IfOk result (λ copy. copy ≡ self.now) }
    {
        OwnedToken::new(alloc, self.kind, self.text.as_slice())
    }

    /// Returns whether it is a word, in any ASCII case.
    pub fn is_the_word(&self, text: &[u8]) -> bool
        ensures { result ≡ (is_word self.now.kind && same_name self.now.text text.now) }
    {
        self.kind == TokenKind::Word && same_name(self.text.as_slice(), text)
    }

    /// Returns its characters, if it is quoted. Errors: `Memory` if an allocation fails.
    pub fn quoted(&self, alloc: Global) -> Result<Seq<char>, Memory>
        ensures { IfOk result (λ characters. characters ≡ quoted self.now.text) }
    {
        quoted(alloc, self.text.as_slice())
    }
}

/// Returns copies of tokens. Errors: `Memory` if an allocation fails.
pub fn copies(alloc: Global, tokens: &[OwnedToken]) -> Result<Seq<OwnedToken>, Memory>
    ensures { IfOk result (λ copies. copies ≡ tokens.now) }
{
    let mut copies = Seq::new(alloc);
    for token in tokens {
        copies.add(token.copy(alloc)?)?;
    }
    Ok(copies)
}

/// Returns the text of the token at an index, or an empty text if there is none.
pub fn text_at(place: usize, tokens: &[OwnedToken]) -> &[u8]
    ensures { result.now ≡ text_at place tokens.now }
{
    match tokens.get(place) {
        Some(token) => token.text.as_slice(),
        None => &[],
    }
}
