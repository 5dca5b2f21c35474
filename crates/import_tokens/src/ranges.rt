//! Writes out ranges of characters and of virtual keys.

ghost use Rattle.std.specs.Prelude.{◌≡◌, ◌-◌, ◌<◌, ◌≤◌, ◌++◌, true, IfOk, OnOk};
ghost use Rattle.import_tokens.specs.Bounds.{no_token, bound_before};
ghost use Rattle.import_tokens.specs.Ranges.{between, is_char_range, key_tokens, keys_tokens, range_tokens, range_size, elements_needed, range_within, ranged, without_ranges};

use crate::bound::{Bound, bound_after, flags_of};
use crate::bracket_state::{BracketState, after_token};
use crate::owned_token::{OwnedToken, copies};
use crate::spelling::spelled;
use kmn_base::limits::STORE_ELEMENTS;
use kmn_base::{Memory, Seq};
use kmn_lines::TokenKind;
use std::alloc::Global;
use virtual_keys::name_of;

/// Returns tokens with their ranges written out. A `..` is kept if it is not the sign of a range, or if the range has more
/// elements than `elements` leaves for it. Errors: `Memory` if an allocation fails.
pub fn without_ranges(
    alloc: Global,
    elements: usize,
    tokens: &[OwnedToken],
) -> Result<Seq<OwnedToken>, Memory>
    ensures { IfOk result (λ out. out ≡ without_ranges elements no_token tokens.now) }
{
    let mut out = Seq::new(alloc);
    let mut left = elements;
    let mut state = BracketState::Outside(Bound::Missing);
    let mut rest = tokens;
    while let [token, after @ ..] = rest {
        left = add_ranged(alloc, &mut out, left, &state, token, after)?;
        state = after_token(alloc, state, token)?;
        rest = after;
    }
    Ok(out)
}

/// Appends a token, or the tokens of its range, and returns how many elements are left. Errors: `Memory` if an allocation fails.
fn add_ranged(
    alloc: Global,
    out: &mut Seq<OwnedToken>,
    left: usize,
    state: &BracketState,
    token: &OwnedToken,
    after: &[OwnedToken],
) -> Result<usize, Memory>
    ensures left { IfOk result (λ rest. rest ≡ left - elements_needed state.now token.now after.now) }
    ensures adds { OnOk result (out.new ≡ out.old ++ ranged left state.now token.now after.now) }
{
    if !token.is_the_word(b"..") {
        out.add(token.copy(alloc)?)?;
        return Ok(left);
    }
    let last = bound_after(alloc, after)?;
    let rest = left.saturating_sub(size(state, &last));
    match range_within(alloc, left, state, &last)? {
        Some(tokens) => {
            out.append(tokens)?;
            Ok(rest)
        }
        None => {
            out.add(token.copy(alloc)?)?;
            Ok(rest)
        }
    }
}

/// Returns the number of elements of the range after a state.
fn size(state: &BracketState, last: &Bound) -> usize
    ensures { result ≡ range_size (bound_before state.now) last.now }
{
    match state {
        BracketState::Outside(first) => range_size(first, last),
        BracketState::Inside(_) => 0,
    }
}

/// Returns the tokens of the range after a state, if as many elements are left. Errors: `Memory` if an allocation fails.
fn range_within(
    alloc: Global,
    left: usize,
    state: &BracketState,
    last: &Bound,
) -> Result<Option<Seq<OwnedToken>>, Memory>
    ensures { IfOk result (λ tokens. tokens ≡ range_within left (bound_before state.now) last.now) }
{
    match state {
        BracketState::Outside(first) => {
            if range_size(first, last) <= left {
                range_tokens(alloc, first, last)
            } else {
                Ok(None)
            }
        }
        BracketState::Inside(_) => Ok(None),
    }
}

/// Returns the difference of two bounds.
fn range_size(first: &Bound, last: &Bound) -> usize
    ensures { result ≡ range_size first.now last.now }
{
    match (first, last) {
        (Bound::Character(from), Bound::Character(to)) => {
            (*to as usize).saturating_sub(*from as usize)
        }
        (Bound::VirtualKey(_, from), Bound::VirtualKey(_, to)) => {
            usize::from(to.saturating_sub(*from))
        }
        _ => 0,
    }
}

/// Returns the tokens between two bounds, or None if they are not a range. Errors: `Memory` if an allocation fails.
fn range_tokens(
    alloc: Global,
    first: &Bound,
    last: &Bound,
) -> Result<Option<Seq<OwnedToken>>, Memory>
    ensures { IfOk result (λ tokens. tokens ≡ range_tokens first.now last.now) }
{
    match (first, last) {
        (Bound::Character(from), Bound::Character(to)) => {
            if !is_char_range(*from, *to) {
                return Ok(None);
            }
            let characters = between(alloc, *from, *to)?;
            Ok(Some(spelled(alloc, characters.as_slice())?))
        }
        (Bound::VirtualKey(modifiers, from), Bound::VirtualKey(others, to)) => {
            if *from >= *to || flags_of(modifiers.as_slice()) != flags_of(others.as_slice()) {
                return Ok(None);
            }
            keys_tokens(alloc, modifiers.as_slice(), *from, *to)
        }
        _ => Ok(None),
    }
}

/// Returns whether all numbers from one character up to a later one are characters, and no more than a store may have.
fn is_char_range(first: char, last: char) -> bool
    ensures { result ≡ is_char_range first last }
{
    let (from, to) = (first as u32, last as u32);
    from < to
        && (to < 0xD800 || 0xDFFF < from)
        && (to < 0xFFFF || 0xFFFF < from)
        && ((to - from) as usize) < STORE_ELEMENTS
}

/// Returns the characters between the bounds of a range. Errors: `Memory` if an allocation fails.
fn between(alloc: Global, first: char, last: char) -> Result<Seq<char>, Memory>
    requires { is_char_range first last ≡ true }
    ensures { IfOk result (λ characters. characters ≡ between first last) }
{
    let mut characters = Seq::new(alloc);
    for code in first as u32 + 1..last as u32 {
        if let Some(character) = char::from_u32(code) {
            characters.add(character)?;
        }
    }
    Ok(characters)
}

/// Returns the keys between two codes, or None if one of them has no name. Errors: `Memory` if an allocation fails.
#[tactic(auto, using(crate::proofs::KeyRanges::keys_on, crate::proofs::KeyRanges::keys_none, crate::proofs::KeyRanges::keys_done, crate::proofs::KeyRanges::nothing_before))]
fn keys_tokens(
    alloc: Global,
    modifiers: &[OwnedToken],
    first: u16,
    last: u16,
) -> Result<Option<Seq<OwnedToken>>, Memory>
    requires { first < last }
    ensures { IfOk result (λ tokens. tokens ≡ keys_tokens modifiers.now (between first last)) }
{
    let mut tokens = Seq::new(alloc);
    for code in first + 1..last {
        let Some(name) = name_of(code) else {
            return Ok(None);
        };
        add_key(alloc, &mut tokens, modifiers, name)?;
    }
    Ok(Some(tokens))
}

/// Appends a virtual key: its modifiers and its name in brackets. Errors: `Memory` if an allocation fails.
#[tactic(auto, using(crate::proofs::KeyTokens::key_added))]
fn add_key(
    alloc: Global,
    tokens: &mut Seq<OwnedToken>,
    modifiers: &[OwnedToken],
    name: &[u8],
) -> Result<(), Memory>
    ensures { OnOk result (tokens.new ≡ tokens.old ++ key_tokens modifiers.now name.now) }
{
    tokens.add(OwnedToken::new(alloc, TokenKind::BracketOpen, b"[")?)?;
    tokens.append(copies(alloc, modifiers)?)?;
    tokens.add(OwnedToken::word(alloc, name)?)?;
    tokens.add(OwnedToken::new(alloc, TokenKind::BracketClose, b"]")?)?;
    Ok(())
}
