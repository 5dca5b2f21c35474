//! The tokens of a logical line in which each `..` of a range is a token by itself.

ghost use Rattle.std.specs.Prelude.{◌≡◌, ◌≤◌, ◌++◌, length, IfOk};
ghost use Rattle.kmn_base.specs.declared.limits.TheConstants.{TEXT_BYTES};
ghost use Rattle.kmn_lines.specs.Laws.{quote_behind};
ghost use Rattle.kmn_lines.specs.Places.{IsPlaced};
ghost use Rattle.kmn_lines.specs.Walks.{parts_left};
ghost use Rattle.kmn_items.specs.TokenTexts.{with_texts};
ghost use Rattle.import_tokens.specs.Scan.{scan_start, parenthesis_after, scan_after, is_dots, with_spaced_dots, parts_text, line_text, sound_tokens, tokens_of};

use crate::owned_token::OwnedToken;
use kmn_base::bytes::{is_blank, is_quote};
use kmn_base::limits::TEXT_BYTES;
use kmn_base::slices::{before, behind};
use kmn_base::{CompileError, Memory, Seq, Text};
use kmn_items::text_in;
use kmn_lines::{Logical, Parts, Token, parts};
use kmn_tokens::text_tokens;
use std::alloc::Global;

/// The state while the bytes of a text are read.
#[derive(Clone, Copy)]
pub struct ScanState {
    /// The quote that is open, if any.
    pub quote: Option<u8>,
    /// Whether a parenthesis is open.
    pub in_parentheses: bool,
    /// Whether a `$` and no blank after it have been read, so that a name goes on.
    pub in_name: bool,
}

/// Returns the tokens of a logical line of this source, or none if one of them has a fault. Errors: `Memory` if an allocation
/// fails.
pub fn tokens_of(alloc: Global, source: &str, logical: Logical) -> Result<Seq<OwnedToken>, Memory>
    requires few { length source.now ≤ TEXT_BYTES }
    requires placed { IsPlaced source.now logical }
    ensures { IfOk result (λ tokens. tokens ≡ tokens_of source.now logical) }
{
    let text = parts_text(alloc, source.as_bytes(), parts(source, logical))?;
    let spaced = with_spaced_dots(alloc, text.as_slice())?;
    sound_tokens(alloc, spaced.as_slice())
}

/// Returns the texts of parts, with a blank after each. Errors: `Memory` if an allocation fails.
fn parts_text(alloc: Global, source: &[u8], walk: Parts<'_>) -> Result<Text, Memory>
    ensures { IfOk result (λ text. text ≡ parts_text source.now (parts_left walk.entry)) }
{
    let mut text = Seq::new(alloc);
    for part in walk {
        text.extend_from_slice(behind(before(source, part.to as usize), part.from as usize))?;
        text.add(b' ')?;
    }
    Ok(text)
}

/// Returns a text with a blank before and after each `..` of a range. Errors: `Memory` if an allocation fails.
fn with_spaced_dots(alloc: Global, text: &[u8]) -> Result<Text, Memory>
    ensures { IfOk result (λ spaced. spaced ≡ with_spaced_dots scan_start text.now) }
{
    let mut spaced = Seq::new(alloc);
    let mut state = scan_start();
    let mut rest = text;
    while let [first, second, ..] = rest {
        if is_dots(state, *first, *second) {
            spaced.extend_from_slice(b" .. ")?;
            rest = behind(rest, 2);
            continue;
        }
        spaced.add(*first)?;
        state = scan_after(state, *first);
        rest = behind(rest, 1);
    }
    spaced.extend_from_slice(rest)?;
    Ok(spaced)
}

/// Returns the state at the start of a text.
fn scan_start() -> ScanState
    ensures { result ≡ scan_start }
{
    ScanState {
        quote: None,
        in_parentheses: false,
        in_name: false,
    }
}

/// Returns whether two bytes are the `..` of a range: outside quotes, parentheses and names.
fn is_dots(state: ScanState, first: u8, second: u8) -> bool
    ensures { result ≡ is_dots state first second }
{
    first == b'.'
        && second == b'.'
        && !(state.quote.is_some() || state.in_parentheses || state.in_name)
}

/// Returns the state after a byte.
fn scan_after(state: ScanState, byte: u8) -> ScanState
    ensures { result ≡ scan_after state byte }
{
    let quote = quote_after(state.quote, byte);
    if state.quote.is_some() {
        return ScanState {
            quote,
            in_parentheses: state.in_parentheses,
            in_name: false,
        };
    }
    ScanState {
        quote,
        in_parentheses: parenthesis_after(state.in_parentheses, byte),
        in_name: !is_blank(byte) && (state.in_name || byte == b'$'),
    }
}

/// Returns the quote that is open after a byte.
fn quote_after(quote: Option<u8>, byte: u8) -> Option<u8>
    ensures { result ≡ quote_behind quote byte }
{
    match quote {
        None => { if is_quote(byte) { Some(byte) } else { None } }
        Some(opened) => { if byte == opened { None } else { Some(opened) } }
    }
}

/// Returns whether a parenthesis is open after a byte outside quotes.
fn parenthesis_after(inside: bool, byte: u8) -> bool
    ensures { result ≡ parenthesis_after inside byte }
{
    match byte {
        b'(' => true,
        b')' => false,
        _ => inside,
    }
}

/// Returns the tokens of a text of one line, or none if one of them has a fault or if the text is longer than a source. Errors:
/// `Memory` if an allocation fails.
#[tactic(auto, using(crate::proofs::Scans::sound_read, crate::proofs::Scans::faulty_read, crate::proofs::Scans::long_read))]
fn sound_tokens(alloc: Global, text: &[u8]) -> Result<Seq<OwnedToken>, Memory>
    ensures { IfOk result (λ tokens. tokens ≡ sound_tokens text.now) }
{
    if text.len() > TEXT_BYTES {
        return Ok(Seq::new(alloc));
    }
    match text_tokens(alloc, text) {
        Ok(tokens) => owned_tokens(alloc, text, tokens.as_slice()),
        Err(CompileError::Memory) => Err(Memory),
        Err(_) => Ok(Seq::new(alloc)),
    }
}

/// Returns tokens with their own texts. Errors: `Memory` if an allocation fails.
fn owned_tokens(alloc: Global, text: &[u8], tokens: &[Token]) -> Result<Seq<OwnedToken>, Memory>
    ensures { IfOk result (λ owned. owned ≡ with_texts text.now tokens.now) }
{
    let mut owned = Seq::new(alloc);
    for token in tokens {
        owned.add(OwnedToken::new(alloc, token.kind, text_in(text, *token))?)?;
    }
    Ok(owned)
}
