//! Writes characters as a source can have them: as `U+` and digits, or in quotes.

ghost use Rattle.std.specs.Prelude.{◌≡◌, ◌==◌, ◌<◌, filter_map, if◌then◌else◌, OnOk};
ghost use Rattle.std.specs.List.{list_any};
ghost use Rattle.rule_model.specs.Tab.{element_char};
ghost use Rattle.kmn_parser.specs.Texts.{hex_glyph, hex_text, hex_count, char_text};
ghost use Rattle.decompile_text.specs.Pages.{with_text};
ghost use Rattle.decompile_text.specs.Texts.{quoted_text};

use crate::page::Page;
use decompile_program::has_character;
use indexed_tables::element_text;
use kmn_base::{Element, Memory};

/// Appends a character as `U+` and its hexadecimal number.
#[tactic(auto, using(crate::proofs::MoreText::with_text_append, crate::proofs::MoreText::with_no_text))]
pub(crate) fn put_character(page: &mut Page, character: u32) -> Result<(), Memory>
    ensures { OnOk result (page.new ≡ with_text page.old (char_text character)) }
{
    page.put(b"U+")?;
    put_digits(page, character)
}

/// Appends the hexadecimal digits of a character, at least four.
fn put_digits(page: &mut Page, character: u32) -> Result<(), Memory>
    ensures { OnOk result (page.new ≡ with_text page.old (hex_text (hex_count character) character)) }
{
    if character < 0x1_0000 {
        page.put(&four_digits(character))
    } else if character < 0x10_0000 {
        put_five(page, character)
    } else {
        put_six(page, character)
    }
}

/// Returns the last four hexadecimal digits of a number.
fn four_digits(number: u32) -> [u8; 4]
    ensures { result ≡ hex_text 4 number }
{
    let tail = number / 16;
    let head = tail / 16;
    [
        hex_glyph(head / 16 % 16),
        hex_glyph(head % 16),
        hex_glyph(tail % 16),
        hex_glyph(number % 16),
    ]
}

/// Returns a hexadecimal digit in upper case.
fn hex_glyph(digit: u32) -> u8
    requires { digit < 16 }
    ensures { result ≡ hex_glyph digit }
{
    if digit < 10 {
        48 + digit as u8
    } else {
        55 + digit as u8
    }
}

/// Appends the last five hexadecimal digits of a number.
#[tactic(auto, using(crate::proofs::MoreText::with_text_append))]
fn put_five(page: &mut Page, number: u32) -> Result<(), Memory>
    ensures { OnOk result (page.new ≡ with_text page.old (hex_text 5 number)) }
{
    page.put(&four_digits(number / 16))?;
    page.put(&[hex_glyph(number % 16)])
}

/// Appends the last six hexadecimal digits of a number.
#[tactic(auto, using(crate::proofs::MoreText::with_text_append))]
fn put_six(page: &mut Page, number: u32) -> Result<(), Memory>
    ensures { OnOk result (page.new ≡ with_text page.old (hex_text 6 number)) }
{
    put_five(page, number / 16)?;
    page.put(&[hex_glyph(number % 16)])
}

/// Appends the characters of elements in quotes.
#[tactic(auto, using(crate::proofs::MoreText::with_text_append, crate::proofs::MoreText::with_no_text), unfolding(crate::specs::Texts::quoted_text))]
pub(crate) fn put_quoted(page: &mut Page, elements: &[Element]) -> Result<(), Memory>
    ensures { OnOk result (page.new ≡ with_text page.old (quoted_text elements.now)) }
{
    let quote = quote_of(elements);
    let text = element_text(page.alloc, elements)?;
    page.put(&[quote])?;
    page.put(text.as_bytes())?;
    page.put(&[quote])
}

/// Returns the quote for the characters of elements: `'` if they contain a `"`, else `"`.
fn quote_of(elements: &[Element]) -> u8
    ensures { result ≡ (if list_any (λ c. c == 34) (filter_map element_char elements.now) then 39 else 34) }
{
    if has_character(elements, '"') {
        b'\''
    } else {
        b'"'
    }
}
