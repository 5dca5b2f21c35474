//! Where the first token of a line that has a fault begins.
//!
//! `kmn_tokens` returns the code of the first fault of a line, but not its place. A line with a fault is scanned again here, by the same
//! steps.

ghost use Rattle.std.specs.Prelude.{◌≡◌, ◌<◌, ◌≤◌, length, drop};
ghost use Rattle.kmn_base.specs.declared.limits.TheConstants.{TEXT_BYTES};
ghost use Rattle.kmn_lines.specs.Lines.{parts_in};
ghost use Rattle.kmn_lines.specs.Places.{IsPlaced};
ghost use Rattle.kmn_lines.specs.Tokens.{is_closed};
ghost use Rattle.refusal_places.specs.Spots.{Steps, fault_spot, has_fault, parts_spot};

use crate::sizes::token_size;
use crate::spot::Spot;
use kmn_base::bytes::{is_blank, is_quote};
use kmn_base::slices::{before, behind};
use kmn_lines::{Logical, parts};
use kmn_tokens::{has_forbidden, number, starts_number};

/// Returns where the first token of a logical line begins that has a fault, if there is one.
pub fn faulty_spot(source: &str, logical: Logical) -> Option<Spot>
    requires few { length source.now ≤ TEXT_BYTES }
    requires placed { IsPlaced source.now logical }
    ensures { result ≡ parts_spot source.now (parts_in source.now logical) }
{
    let source_bytes = source.as_bytes();
    for part in parts(source, logical) {
        let bytes = before(source_bytes, part.to as usize);
        if let Some(spot) = fault_spot(part.line, part.from as usize, bytes) {
            return Some(spot);
        }
    }
    None
}

/// Returns where the first token with a fault begins in the bytes from a position on, if there is one.
fn fault_spot(line: u32, from: usize, bytes: &[u8]) -> Option<Spot>
    requires { length bytes.now ≤ TEXT_BYTES }
    ensures { result ≡ fault_spot line 0 from (drop from bytes.now) }
{
    let mut at = from;
    while at < bytes.len() {
        match step(line, at, behind(bytes, at)) {
            Ok(size) => at += size,
            Err(spot) => return Some(spot),
        }
    }
    None
}

/// Returns the number of bytes of the blank or the token without a fault at the beginning of the bytes. Errors: where a token with a fault
/// begins there.
fn step(line: u32, at: usize, bytes: &[u8]) -> Result<usize, Spot>
    requires some { 0 < length bytes.now }
    ensures { Steps line at bytes.now result }
{
    if is_blank(bytes[0]) {
        return Ok(1);
    }
    let size = token_size(bytes);
    let text = before(bytes, size);
    if has_fault(text) {
        return Err(Spot { line, at });
    }
    Ok(size)
}

/// Returns whether a token with this text has a fault.
#[tactic(auto, unfolding(kmn_lines::specs::Tokens::token_fault))]
fn has_fault(text: &[u8]) -> bool
    ensures { result ≡ has_fault text.now }
{
    if has_forbidden(text) {
        return true;
    }
    if !is_closed(text) {
        return true;
    }
    if !starts_number(text) {
        return false;
    }
    match number(behind(text, 2)) {
        Ok(_) => false,
        Err(_) => true,
    }
}

/// Returns whether a text that begins with a quote contains this quote again.
fn is_closed(text: &[u8]) -> bool
    ensures { result ≡ is_closed text.now }
{
    match text {
        [] => true,
        [first, others @ ..] => !is_quote(*first) || others.contains(first),
    }
}
