//! How words of a source are printed: their first characters, and nothing that a terminal obeys.

ghost use Rattle.std.specs.Prelude.{◌≡◌, ◌++◌, nat_lt, length, OnOk};
ghost use Rattle.check_texts.specs.Details.{begins_character, ends_obeyed, front_size, is_obeyed, is_past, left_after, rest_dots, shown_text, visible_byte, visible_text};

use kmn_base::slices::before;
use kmn_base::{Memory, Text};

/// The largest number of characters of a word that are printed.
const WORD_CHARACTERS: usize = 80;

/// Appends the first characters of a text, with a sign for each that a terminal obeys, and two dots for the others.
///
/// Errors: `Memory` if an allocation fails.
#[tactic(auto, unfolding(crate::specs::Details::shown_text))]
pub fn put_shown(line: &mut Text, text: &[u8]) -> Result<(), Memory>
    ensures { OnOk result (line.new ≡ line.old ++ shown_text text.now) }
{
    let size = front_size(WORD_CHARACTERS, text);
    put_visible(line, before(text, size))?;
    line.extend_from_slice(rest_dots(size, text).as_bytes())
}

/// Returns the number of bytes of the first characters of a text. `most` is the largest number of characters.
#[tactic(auto, using(crate::proofs::FrontSizes::byte_passed))]
fn front_size(most: usize, text: &[u8]) -> usize
    ensures { result ≡ front_size most text.now }
{
    let mut left = most;
    for (size, byte) in text.iter().enumerate() {
        if is_past(left, *byte) {
            return size;
        }
        left = left_after(left, *byte);
    }
    text.len()
}

/// Returns whether a byte begins a character that is not printed, if a number of characters is left to print.
#[tactic(auto, unfolding(crate::specs::Details::is_past))]
fn is_past(left: usize, byte: u8) -> bool
    ensures { result ≡ is_past left byte }
{
    left == 0 && begins_character(byte)
}

/// Returns how many characters are left to print after a byte.
#[tactic(auto, unfolding(crate::specs::Details::left_after))]
fn left_after(left: usize, byte: u8) -> usize
    ensures { result ≡ left_after left byte }
{
    if begins_character(byte) {
        left.saturating_sub(1)
    } else {
        left
    }
}

/// Returns whether a byte of UTF-8 begins a character.
fn begins_character(byte: u8) -> bool
    ensures { result ≡ begins_character byte }
{
    byte < 128 || 192 <= byte
}

/// Returns two dots, if some bytes of a text are not printed.
#[tactic(auto, unfolding(crate::specs::Details::rest_dots))]
fn rest_dots(size: usize, text: &[u8]) -> &'static str
    ensures { result.now ≡ rest_dots size text.now }
{
    if is_cut(size, text) { ".." } else { "" }
}

/// Returns whether some bytes of a text are not printed.
fn is_cut(size: usize, text: &[u8]) -> bool
    ensures { result ≡ nat_lt size (length text.now) }
{
    size < text.len()
}

/// Appends a text with a sign for each character that a terminal obeys.
fn put_visible(line: &mut Text, text: &[u8]) -> Result<(), Memory>
    ensures { OnOk result (line.new ≡ line.old ++ visible_text 0 text.now) }
{
    let mut previous = 0;
    for byte in text {
        line.add(visible_byte(previous, *byte))?;
        previous = *byte;
    }
    Ok(())
}

/// Returns the printed byte for a byte after another one.
#[tactic(auto, unfolding(crate::specs::Details::visible_byte))]
fn visible_byte(previous: u8, byte: u8) -> u8
    ensures { result ≡ visible_byte previous byte }
{
    if is_obeyed(byte) {
        0x3F
    } else if ends_obeyed(previous, byte) {
        0xBF
    } else {
        byte
    }
}

/// Returns whether a byte is a character that a terminal obeys.
#[tactic(auto, unfolding(crate::specs::Details::is_obeyed))]
fn is_obeyed(byte: u8) -> bool
    ensures { result ≡ is_obeyed byte }
{
    byte < 32 || byte == 127
}

/// Returns whether a byte is the second byte of a character that a terminal obeys.
#[tactic(auto, unfolding(crate::specs::Details::ends_obeyed))]
fn ends_obeyed(previous: u8, byte: u8) -> bool
    ensures { result ≡ ends_obeyed previous byte }
{
    previous == 0xC2 && byte < 0xA0
}
