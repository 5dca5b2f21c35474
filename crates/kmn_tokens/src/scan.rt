//! Scans a logical line: one step, a part, all parts, the line.
//!
//! The first bytes of a token determine its kind, and its kind determines where it ends (`token_size`), so the scan moves from
//! left to right and keeps no state between tokens. Blanks separate tokens. Tokens do not cross physical lines, so each part is
//! scanned separately. Each token is checked when it is read, and a fault ends the scan, so the result is the first fault of
//! the line. Each byte is read a constant number of times.

ghost use Rattle.std.specs.Prelude.{◌≡◌, ◌+◌, ◌^◌, ◌<◌, ◌≤◌, length, drop};
ghost use Rattle.kmn_base.specs.Answers.{Answers};
ghost use Rattle.kmn_base.specs.declared.limits.TheConstants.{TEXT_BYTES};
ghost use Rattle.kmn_lines.specs.Places.{IsPlaced};
ghost use Rattle.kmn_lines.specs.Tokens.{scanned, first_fault, part_text, parts_tokens, parts_fault};
ghost use Rattle.kmn_lines.specs.Walks.{parts_left};
ghost use Rattle.kmn_tokens.specs.Scanning.{Appends, Steps, scanned_text, scanned_line};

use crate::faults::token_at;
use crate::sizes::token_size;
use crate::token_error::TokenError;
use kmn_base::bytes::is_blank;
use kmn_base::slices::{before, behind};
use kmn_base::{CompileError, Seq};
use kmn_lines::{Logical, Part, Parts, Token, parts};
use std::alloc::Global;

/// Returns the tokens of a logical line of this source, in order. Errors: `Memory` if an allocation fails; else the refusal of
/// the first token with a fault, with the number of the line's first physical line: L02 for U+0000 or U+FFFF, as a character or
/// as a number, L03 for an unclosed quote, L04 for a `U+` number that does not have 4 to 6 hexadecimal digits or is not a
/// character. `TooLarge` is never returned.
#[tactic(auto, unfolding(kmn_lines::specs::Tokens::line_tokens, kmn_lines::specs::Tokens::line_refusal))]
pub fn tokens(alloc: Global, source: &str, logical: Logical) -> Result<Seq<Token>, CompileError>
    requires few { length source.now ≤ TEXT_BYTES }
    requires placed { IsPlaced source.now logical }
    ensures { Answers (scanned_line source.now logical) result }
{
    let mut out = Seq::new(alloc);
    match add_all(&mut out, source.as_bytes(), parts(source, logical)) {
        Ok(()) => Ok(out),
        Err(error) => Err(error.at(logical.first_line)),
    }
}

/// Returns the tokens of a text of one line, each with line number 1. A `c`, a backslash and a line end are no more than other
/// bytes here. Errors: as in `tokens`, at line 1.
pub fn text_tokens(alloc: Global, text: &[u8]) -> Result<Seq<Token>, CompileError>
    requires { length text.now ≤ TEXT_BYTES }
    ensures { Answers (scanned_text text.now) result }
{
    let mut out = Seq::new(alloc);
    match add_tokens(&mut out, 1, 0, text) {
        Ok(()) => Ok(out),
        Err(error) => Err(error.at(1)),
    }
}

/// Appends the tokens of parts of a source.
fn add_all(out: &mut Seq<Token>, source: &[u8], walk: Parts<'_>) -> Result<(), TokenError>
    requires { length source.now ≤ TEXT_BYTES }
    ensures { Appends out.old out.new (parts_fault source.now (parts_left walk.entry)) (parts_tokens source.now (parts_left walk.entry)) result }
{
    for part in walk {
        let bytes = before(source, part.to as usize);
        add_tokens(out, part.line, part.from as usize, bytes)?;
    }
    Ok(())
}

/// Appends the tokens of the bytes from a position on.
fn add_tokens(out: &mut Seq<Token>, line: u32, from: usize, bytes: &[u8]) -> Result<(), TokenError>
    requires { length bytes.now ≤ TEXT_BYTES }
    ensures { Appends out.old out.new (first_fault 0 (drop from bytes.now)) (scanned line 0 from (drop from bytes.now)) result }
{
    let mut at = from;
    while at < bytes.len() {
        at += add_next(out, line, at, behind(bytes, at))?;
    }
    Ok(())
}

/// Appends the token at the beginning of the bytes, or no token if they begin with a blank, and returns the number of bytes that it used.
fn add_next(out: &mut Seq<Token>, line: u32, at: usize, bytes: &[u8]) -> Result<usize, TokenError>
    requires some { 0 < length bytes.now }
    requires few { at + length bytes.now < 2 ^ 32 }
    ensures { Steps out.old out.new line at bytes.now result }
{
    if is_blank(bytes[0]) {
        return Ok(1);
    }
    let size = token_size(bytes);
    let token = token_at(line, at, before(bytes, size))?;
    out.add(token)?;
    Ok(size)
}
