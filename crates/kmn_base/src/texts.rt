//! Texts in UTF-8 and their characters.

ghost use Rattle.std.specs.Prelude.{◌≡◌, ◌≤◌, IfOk, chars, length};
ghost use Rattle.kmn_base.specs.Spelling.{is_forbidden};
ghost use Rattle.kmn_base.specs.Texts.{character_count, decoded, bom_size, without_bom};

use crate::memory::Memory;
use crate::sequence::Seq;
use crate::slices::behind;
use crate::units::SENTINEL;
use std::alloc::Global;

/// A number above the code of each character.
pub const NO_CHARACTER: u32 = 0x11_0000;

/// Returns whether a code is not a character of a keyboard: U+0000, which ends a compiled string, or U+FFFF, which is its sentinel.
pub fn is_forbidden(code: u32) -> bool
    ensures { result ≡ is_forbidden code }
{
    code == 0 || code == u32::from(SENTINEL)
}

/// Returns the size in bytes of a byte order mark (U+FEFF) at the start of a text, which is not part of the text: 3, or 0 if
/// there is none.
pub fn bom_size(bytes: &[u8]) -> usize
    ensures is { result ≡ bom_size bytes.now }
    ensures within { result ≤ length bytes.now }
{
    if bytes.starts_with(b"\xEF\xBB\xBF") {
        3
    } else {
        0
    }
}

/// Returns a text without a byte order mark at its start.
pub fn without_bom(bytes: &[u8]) -> &[u8]
    ensures is { result.now ≡ without_bom bytes.now }
    ensures within { length result.now ≤ length bytes.now }
{
    behind(bytes, bom_size(bytes))
}

/// Returns the number of characters of a text.
pub fn character_count(text: &[u8]) -> usize
    ensures { result ≡ character_count text.now }
{
    text.iter()
        .filter(|byte| **byte < 128 || 192 <= **byte)
        .count()
}

/// Returns the characters of a text in UTF-8, or none if the text is not UTF-8. Errors: `Memory` if an allocation fails.
#[tactic(auto, using(crate::proofs::DecodedTexts::decoded_text, crate::proofs::DecodedTexts::decoded_other))]
pub fn decoded(alloc: Global, text: &[u8]) -> Result<Seq<char>, Memory>
    ensures { IfOk result (λ characters. characters ≡ decoded text.now) }
{
    match str::from_utf8(text) {
        Ok(text) => characters(alloc, text),
        Err(_) => Ok(Seq::new(alloc)),
    }
}

/// Returns the characters of a text. Errors: `Memory` if an allocation fails.
fn characters(alloc: Global, text: &str) -> Result<Seq<char>, Memory>
    ensures { IfOk result (λ characters. characters ≡ chars text.now) }
{
    Ok(Seq::from_vec(text.chars().collect(alloc)?))
}
