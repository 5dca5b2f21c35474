//! What a line of the whole Keyman language states, as far as it matters for its rewriting.

ghost use Rattle.std.specs.Prelude.{◌≡◌, ◌≤◌, length, map, IfOk};
ghost use Rattle.kmn_parser.specs.Line.{begins_word, is_sign, place_of, is_use, tokens_after_close};
ghost use Rattle.kmn_parser.specs.declared.statement.Sign.TheVariants as sign;
ghost use Rattle.kmn_items.specs.TokenTexts.{begins_open};
ghost use Rattle.import_outline.specs.Names.{has_name};
ghost use Rattle.import_outline.specs.LineKinds.{header_words, header_store, header_kind, are_words, is_caps_header, begins_close, is_named, start_of, begin_kind, is_readonly, group_kind, store_kind, has_arrow, plain_kind, line_kind};

use crate::names::is_listed;
use import_tokens::{OwnedToken, text_at};
use kmn_base::names::{in_lower_case, same_name};
use kmn_base::slices::behind;
use kmn_base::{Memory, Seq, Text};
use kmn_lines::TokenKind;
use kmn_parser::Sign;
use std::alloc::Global;

/// The words of old headers, each of which is a system store now.
static HEADER_WORDS: [&str; 8] = [
    "NAME",
    "BITMAP",
    "VERSION",
    "COPYRIGHT",
    "HOTKEY",
    "MESSAGE",
    "LANGUAGE",
    "LAYOUT",
];

/// The events that a begin statement is for.
#[derive(Clone, Copy)]
pub enum Start {
    /// `begin Unicode` and `begin ANSI`.
    Keys,
    /// `begin NewContext` and `begin PostKeystroke`, which choose layers.
    Layers,
    /// `begin` without a word.
    Unnamed,
}

/// What a line states.
#[derive(Drop)]
pub enum LineKind {
    /// An old header, with the name of its system store.
    Header(Text),
    /// An old header for caps lock.
    CapsHeader,
    /// A store, with its name.
    Store(Text),
    /// A begin statement, with the group that it enters.
    Begin(Start, Text),
    /// A group, with its name, and whether it is readonly.
    Group(Text, bool),
    /// A `match` or `nomatch`.
    Match,
    Rule,
    /// None of these.
    Other,
}

/// Returns the kind of a line by its tokens. Errors: `Memory` if an allocation fails.
pub fn line_kind(alloc: Global, tokens: &[OwnedToken]) -> Result<LineKind, Memory>
    ensures { IfOk result (λ kind. kind ≡ line_kind tokens.now) }
{
    if begins_word(b"store", tokens) {
        store_kind(alloc, tokens)
    } else if begins_word(b"begin", tokens) {
        begin_kind(alloc, arrow_place(tokens), tokens)
    } else if begins_word(b"group", tokens) {
        group_kind(alloc, tokens)
    } else if begins_word(b"match", tokens) || begins_word(b"nomatch", tokens) {
        Ok(LineKind::Match)
    } else {
        plain_kind(alloc, tokens)
    }
}

/// Returns the kind of a line that begins with no word of a statement. Errors: `Memory` if an allocation fails.
fn plain_kind(alloc: Global, tokens: &[OwnedToken]) -> Result<LineKind, Memory>
    ensures { IfOk result (λ kind. kind ≡ plain_kind tokens.now) }
{
    if has_arrow(tokens) {
        Ok(LineKind::Rule)
    } else if is_caps_header(tokens) {
        Ok(LineKind::CapsHeader)
    } else {
        header_kind(alloc, tokens)
    }
}

/// Returns the kind of a line that begins with `store`. Errors: `Memory` if an allocation fails.
fn store_kind(alloc: Global, tokens: &[OwnedToken]) -> Result<LineKind, Memory>
    ensures { IfOk result (λ kind. kind ≡ store_kind tokens.now) }
{
    if is_named(tokens) {
        Ok(LineKind::Store(Seq::from_slice(alloc, text_at(2, tokens))?))
    } else {
        Ok(LineKind::Other)
    }
}

/// Returns the kind of a line that begins with `group`. Errors: `Memory` if an allocation fails.
fn group_kind(alloc: Global, tokens: &[OwnedToken]) -> Result<LineKind, Memory>
    ensures { IfOk result (λ kind. kind ≡ group_kind tokens.now) }
{
    if is_named(tokens) {
        let name = Seq::from_slice(alloc, text_at(2, tokens))?;
        Ok(LineKind::Group(name, is_readonly(behind(tokens, 4))))
    } else {
        Ok(LineKind::Other)
    }
}

/// Returns the kind of a line that begins with `begin`, given the index of its first `>`. Errors: `Memory` if an allocation fails.
fn begin_kind(alloc: Global, arrow: usize, tokens: &[OwnedToken]) -> Result<LineKind, Memory>
    ensures { IfOk result (λ kind. kind ≡ begin_kind arrow tokens.now) }
{
    if arrow == 2 && is_use(behind(tokens, 3)) {
        match start_of(behind(tokens, 1)) {
            Some(start) => Ok(LineKind::Begin(start, Seq::from_slice(alloc, text_at(5, tokens))?)),
            None => Ok(LineKind::Other),
        }
    } else if arrow == 1 && is_use(behind(tokens, 2)) {
        let name = Seq::from_slice(alloc, text_at(4, tokens))?;
        Ok(LineKind::Begin(Start::Unnamed, name))
    } else {
        Ok(LineKind::Other)
    }
}

/// Returns the events that a begin statement with this word is for.
fn start_of(tokens: &[OwnedToken]) -> Option<Start>
    ensures { result ≡ start_of tokens.now }
{
    if begins_word(b"Unicode", tokens) || begins_word(b"ANSI", tokens) {
        Some(Start::Keys)
    } else if begins_word(b"NewContext", tokens) || begins_word(b"PostKeystroke", tokens) {
        Some(Start::Layers)
    } else {
        None
    }
}

/// Returns the kind of a line without `>`: an old header if its first word is one, and one token follows that isn't a
/// parenthesis. Errors: `Memory` if an allocation fails.
fn header_kind(alloc: Global, tokens: &[OwnedToken]) -> Result<LineKind, Memory>
    ensures { IfOk result (λ kind. kind ≡ header_kind tokens.now) }
{
    if is_header_word(text_at(0, tokens)) && tokens.len() == 2 && !begins_open(behind(tokens, 1)) {
        Ok(LineKind::Header(header_store(alloc, text_at(0, tokens))?))
    } else {
        Ok(LineKind::Other)
    }
}

/// Returns whether a word is the word of an old header.
#[tactic(auto, unfolding(crate::specs::LineKinds::header_words))]
fn is_header_word(word: &[u8]) -> bool
    ensures { result ≡ has_name header_words word.now }
{
    is_listed(&HEADER_WORDS, word)
}

/// Returns the name of the system store of an old header. Errors: `Memory` if an allocation fails.
fn header_store(alloc: Global, word: &[u8]) -> Result<Text, Memory>
    ensures { IfOk result (λ name. name ≡ header_store word.now) }
{
    let mut name = Seq::from_slice(alloc, b"&")?;
    name.append(Seq::from_vec(in_lower_case(alloc, word)?))?;
    Ok(name)
}

/// Returns whether tokens are an old header for caps lock.
fn is_caps_header(tokens: &[OwnedToken]) -> bool
    ensures { result ≡ is_caps_header tokens.now }
{
    are_words(b"CAPS", b"ALWAYS", b"OFF", tokens)
        || are_words(b"CAPS", b"ON", b"ONLY", tokens)
        || are_words(b"SHIFT", b"FREES", b"CAPS", tokens)
}

/// Returns whether tokens are these three words.
fn are_words(first: &[u8], second: &[u8], third: &[u8], tokens: &[OwnedToken]) -> bool
    ensures { result ≡ are_words first.now second.now third.now tokens.now }
{
    begins_word(first, tokens)
        && begins_word(second, behind(tokens, 1))
        && begins_word(third, behind(tokens, 2))
        && behind(tokens, 3).is_empty()
}

/// Returns whether tokens begin with a word, in any ASCII case.
pub(crate) fn begins_word(word: &[u8], tokens: &[OwnedToken]) -> bool
    ensures { result ≡ begins_word word.now tokens.now }
{
    match tokens {
        [token, ..] => token.kind == TokenKind::Word && same_name(word, token.text.as_slice()),
        [] => false,
    }
}

/// Returns whether a parenthesis opens at the first token.
pub(crate) fn begins_open(tokens: &[OwnedToken]) -> bool
    ensures { result ≡ begins_open tokens.now }
{
    match tokens {
        [token, ..] => token.kind == TokenKind::Open,
        [] => false,
    }
}

/// Returns whether a parenthesis closes at the first token.
fn begins_close(tokens: &[OwnedToken]) -> bool
    ensures { result ≡ begins_close tokens.now }
{
    match tokens {
        [token, ..] => token.kind == TokenKind::Close,
        [] => false,
    }
}

/// Returns whether a name in parentheses follows the first token.
fn is_named(tokens: &[OwnedToken]) -> bool
    ensures { result ≡ is_named tokens.now }
{
    begins_open(behind(tokens, 1)) && begins_close(behind(tokens, 3))
}

/// Returns whether tokens are `readonly`.
fn is_readonly(tokens: &[OwnedToken]) -> bool
    ensures { result ≡ is_readonly tokens.now }
{
    begins_word(b"readonly", tokens) && behind(tokens, 1).is_empty()
}

/// Returns whether tokens are `use` with a parenthesis, and no token follows it.
fn is_use(tokens: &[OwnedToken]) -> bool
    ensures { result ≡ is_use tokens.now }
{
    begins_word(b"use", tokens)
        && begins_open(behind(tokens, 1))
        && after_close(behind(tokens, 2)).is_empty()
}

/// Returns the tokens after the first `)`.
fn after_close(tokens: &[OwnedToken]) -> &[OwnedToken]
    ensures { result.now ≡ tokens_after_close tokens.now }
{
    behind(tokens, place_of(Sign::Close, tokens) + 1)
}

/// Returns the index of the first `>`, or the number of tokens.
pub fn arrow_place(tokens: &[OwnedToken]) -> usize
    ensures place { result ≡ place_of sign.Arrow tokens.now }
    ensures within { result ≤ length tokens.now }
{
    place_of(Sign::Arrow, tokens)
}

/// Returns the index of the first token that is a symbol, or the number of tokens.
fn place_of(sign: Sign, tokens: &[OwnedToken]) -> usize
    ensures place { result ≡ place_of sign tokens.now }
    ensures within { result ≤ length tokens.now }
{
    let mut place = 0;
    for token in tokens {
        if is_sign(sign, token.kind) {
            return place;
        }
        place += 1;
    }
    place
}

/// Returns whether a token is a symbol.
fn is_sign(sign: Sign, kind: TokenKind) -> bool
    ensures { result ≡ is_sign sign kind }
{
    match sign {
        Sign::Arrow => matches!(kind, TokenKind::Arrow),
        Sign::Plus => matches!(kind, TokenKind::Plus),
        Sign::Close => matches!(kind, TokenKind::Close),
    }
}

/// Returns whether tokens have a `>`.
fn has_arrow(tokens: &[OwnedToken]) -> bool
    ensures { result ≡ has_arrow tokens.now }
{
    arrow_place(tokens) < tokens.len()
}
