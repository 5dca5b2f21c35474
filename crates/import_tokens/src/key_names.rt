//! Names each virtual key that is given by its place on the board or by the character that it produces.

ghost use Rattle.std.specs.Prelude.{◌≡◌, IfOk, codes, map};
ghost use Rattle.std.specs.List.{list_any};
ghost use Rattle.kmn_base.specs.Names.{same_name, named_in};
ghost use Rattle.import_tokens.specs.Bounds.{no_token};
ghost use Rattle.import_tokens.specs.Keys.{key_places, produces, producing_in, key_producing, shift_tokens, key_word, place_tokens, character_tokens, named_tokens, begins_bracket_close, keyed, with_key_names};

use crate::bound::Bound;
use crate::bracket_state::{BracketState, after_token};
use crate::owned_token::{OwnedToken, copies};
use kmn_base::keys::SHIFT;
use kmn_base::names::{named_in, same_name};
use kmn_base::{KeyPress, Memory, Seq};
use kmn_lines::TokenKind;
use std::alloc::Global;
use virtual_keys::{char_of, name_of};

/// Each place on the board, row by row from the top, with the code of the key that a US board has there.
static KEY_PLACES: [(&str, u16); 49] = [
    ("E00", 192),
    ("E01", 49),
    ("E02", 50),
    ("E03", 51),
    ("E04", 52),
    ("E05", 53),
    ("E06", 54),
    ("E07", 55),
    ("E08", 56),
    ("E09", 57),
    ("E10", 48),
    ("E11", 189),
    ("E12", 187),
    ("D01", 81),
    ("D02", 87),
    ("D03", 69),
    ("D04", 82),
    ("D05", 84),
    ("D06", 89),
    ("D07", 85),
    ("D08", 73),
    ("D09", 79),
    ("D10", 80),
    ("D11", 219),
    ("D12", 221),
    ("D13", 220),
    ("C01", 65),
    ("C02", 83),
    ("C03", 68),
    ("C04", 70),
    ("C05", 71),
    ("C06", 72),
    ("C07", 74),
    ("C08", 75),
    ("C09", 76),
    ("C10", 186),
    ("C11", 222),
    ("B00", 226),
    ("B01", 90),
    ("B02", 88),
    ("B03", 67),
    ("B04", 86),
    ("B05", 66),
    ("B06", 78),
    ("B07", 77),
    ("B08", 188),
    ("B09", 190),
    ("B10", 191),
    ("A03", 32),
];

/// Returns tokens in which each virtual key has a name. Errors: `Memory` if an allocation fails.
pub fn with_key_names(alloc: Global, tokens: &[OwnedToken]) -> Result<Seq<OwnedToken>, Memory>
    ensures { IfOk result (λ named. named ≡ with_key_names no_token tokens.now) }
{
    let mut named = Seq::new(alloc);
    let mut state = BracketState::Outside(Bound::Missing);
    let mut rest = tokens;
    while let [token, after @ ..] = rest {
        named.append(keyed(alloc, &state, token, after)?)?;
        state = after_token(alloc, state, token)?;
        rest = after;
    }
    Ok(named)
}

/// Returns a token, or the name of the key if it is the last token in a bracket and names a key by its place or its character.
/// Errors: `Memory` if an allocation fails.
fn keyed(
    alloc: Global,
    state: &BracketState,
    token: &OwnedToken,
    after: &[OwnedToken],
) -> Result<Seq<OwnedToken>, Memory>
    ensures { IfOk result (λ tokens. tokens ≡ keyed state.now token.now after.now) }
{
    let BracketState::Inside(words) = state else {
        return OwnedToken::alone(alloc, token);
    };
    if !begins_bracket_close(after) {
        return OwnedToken::alone(alloc, token);
    }
    match named_tokens(alloc, words.as_slice(), token)? {
        Some(tokens) => Ok(tokens),
        None => OwnedToken::alone(alloc, token),
    }
}

/// Returns whether a bracket closes at the first token.
fn begins_bracket_close(tokens: &[OwnedToken]) -> bool
    ensures { result ≡ begins_bracket_close tokens.now }
{
    match tokens {
        [token, ..] => token.kind == TokenKind::BracketClose,
        [] => false,
    }
}

/// Returns the key that a token in a bracket names by its place or by its character. Errors: `Memory` if an allocation fails.
fn named_tokens(
    alloc: Global,
    words: &[OwnedToken],
    token: &OwnedToken,
) -> Result<Option<Seq<OwnedToken>>, Memory>
    ensures { IfOk result (λ tokens. tokens ≡ named_tokens words.now token.now) }
{
    match token.kind {
        TokenKind::Word => place_tokens(alloc, token.text.as_slice()),
        TokenKind::Quoted => character_tokens(alloc, words, token.quoted(alloc)?.as_slice()),
        _ => Ok(None),
    }
}

/// Returns the key at a place of the board. Errors: `Memory` if an allocation fails.
fn place_tokens(alloc: Global, text: &[u8]) -> Result<Option<Seq<OwnedToken>>, Memory>
    ensures { IfOk result (λ tokens. tokens ≡ place_tokens text.now) }
{
    match key_at(text) {
        Some(code) => key_word(alloc, Seq::new(alloc), code),
        None => Ok(None),
    }
}

/// Returns the code of the key that a US board has at a place.
#[tactic(auto, unfolding(crate::specs::Keys::key_places))]
pub fn key_at(text: &[u8]) -> Option<u16>
    ensures { result ≡ named_in key_places text.now }
{
    named_in(&KEY_PLACES, text)
}

/// Returns the name of a key after some tokens. Errors: `Memory` if an allocation fails.
fn key_word(
    alloc: Global,
    before: Seq<OwnedToken>,
    code: u16,
) -> Result<Option<Seq<OwnedToken>>, Memory>
    ensures { IfOk result (λ tokens. tokens ≡ key_word before code) }
{
    let Some(name) = name_of(code) else {
        return Ok(None);
    };
    let mut tokens = before;
    tokens.add(OwnedToken::word(alloc, name)?)?;
    Ok(Some(tokens))
}

/// Returns the key that produces one character, with SHIFT if it needs it. Errors: `Memory` if an allocation fails.
fn character_tokens(
    alloc: Global,
    words: &[OwnedToken],
    characters: &[char],
) -> Result<Option<Seq<OwnedToken>>, Memory>
    ensures { IfOk result (λ tokens. tokens ≡ character_tokens words.now characters.now) }
{
    let [character] = characters else {
        return Ok(None);
    };
    match key_producing(*character) {
        Some(code) => {
            let shift = shift_tokens(alloc, !produces(false, *character, code), words)?;
            key_word(alloc, shift, code)
        }
        None => Ok(None),
    }
}

/// Returns SHIFT for a key that needs it, unless it is among words. Errors: `Memory` if an allocation fails.
fn shift_tokens(
    alloc: Global,
    shifted: bool,
    words: &[OwnedToken],
) -> Result<Seq<OwnedToken>, Memory>
    ensures { IfOk result (λ tokens. tokens ≡ shift_tokens shifted words.now) }
{
    let mut tokens = Seq::new(alloc);
    if !shifted || has_shift(words) {
        return Ok(tokens);
    }
    tokens.add(OwnedToken::word(alloc, b"SHIFT")?)?;
    Ok(tokens)
}

/// Returns whether SHIFT is among words.
fn has_shift(words: &[OwnedToken]) -> bool
    ensures { result ≡ list_any (λ word. same_name word.text (codes "SHIFT")) words.now }
{
    for word in words {
        if same_name(word.text.as_slice(), b"SHIFT") {
            return true;
        }
    }
    false
}

/// Returns the code of the first key of the board that produces a character.
#[tactic(auto, unfolding(crate::specs::Keys::key_places))]
fn key_producing(character: char) -> Option<u16>
    ensures { result ≡ key_producing character }
{
    producing_in(&KEY_PLACES, character)
}

/// Returns the code of the first key of a table that produces a character.
fn producing_in(table: &[(&str, u16)], character: char) -> Option<u16>
    ensures { result ≡ producing_in (map (λ row. (row.0.now, row.1)) table.now) character }
{
    for row in table {
        if produces(false, character, row.1) || produces(true, character, row.1) {
            return Some(row.1);
        }
    }
    None
}

/// Returns whether a key produces a character on the US layout, with or without shift.
fn produces(shifted: bool, character: char, code: u16) -> bool
    ensures { result ≡ produces shifted character code }
{
    let mods = if shifted { SHIFT } else { 0 };
    match char_of(KeyPress { code, mods }) {
        Some(produced) => character == produced,
        None => false,
    }
}
