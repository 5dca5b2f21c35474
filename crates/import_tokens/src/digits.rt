//! Writes a character as `U+` and its hexadecimal digits.

ghost use Rattle.std.specs.Prelude.{◌≡◌, ◌<◌, IfOk, OnOk, ◌++◌};
ghost use Rattle.kmn_parser.specs.Texts.{hex_glyph, hex_text, hex_count, char_text, char_token};

use crate::owned_token::OwnedToken;
use kmn_base::{Memory, Seq, Text};
use kmn_lines::TokenKind;
use std::alloc::Global;

/// Returns a character as a token of `U+` and at least four digits. Errors: `Memory` if an allocation fails.
pub(crate) fn char_token(alloc: Global, character: char) -> Result<OwnedToken, Memory>
    ensures { IfOk result (λ token. token ≡ char_token character) }
{
    Ok(OwnedToken {
        kind: TokenKind::Number(character),
        text: char_text(alloc, character)?,
    })
}

/// Returns `U+` and the digits of a character. Errors: `Memory` if an allocation fails.
fn char_text(alloc: Global, character: char) -> Result<Text, Memory>
    ensures { IfOk result (λ text. text ≡ char_text character) }
{
    let mut text = Seq::from_slice(alloc, b"U+")?;
    put_digits(&mut text, character as u32)?;
    Ok(text)
}

/// Appends the hexadecimal digits of a character, at least four. Errors: `Memory` if an allocation fails.
fn put_digits(text: &mut Text, character: u32) -> Result<(), Memory>
    ensures { OnOk result (text.new ≡ text.old ++ hex_text (hex_count character) character) }
{
    if character < 0x1_0000 {
        text.extend_from_slice(&four_digits(character))
    } else if character < 0x10_0000 {
        put_five(text, character)
    } else {
        put_six(text, character)
    }
}

/// Appends the last five hexadecimal digits of a number. Errors: `Memory` if an allocation fails.
fn put_five(text: &mut Text, number: u32) -> Result<(), Memory>
    ensures { OnOk result (text.new ≡ text.old ++ hex_text 5 number) }
{
    text.extend_from_slice(&four_digits(number / 16))?;
    text.add(hex_glyph(number % 16))
}

/// Appends the last six hexadecimal digits of a number. Errors: `Memory` if an allocation fails.
fn put_six(text: &mut Text, number: u32) -> Result<(), Memory>
    ensures { OnOk result (text.new ≡ text.old ++ hex_text 6 number) }
{
    put_five(text, number / 16)?;
    text.add(hex_glyph(number % 16))
}

/// Returns the last four hexadecimal digits of a number.
fn four_digits(number: u32) -> [u8; 4]
    ensures { result ≡ hex_text 4 number }
{
    let tail = number / 16;
    let head = tail / 16;
    [
        hex_glyph(head / 16 % 16),
        hex_glyph(head % 16),
        hex_glyph(tail % 16),
        hex_glyph(number % 16),
    ]
}

/// Returns a hexadecimal digit in upper case.
fn hex_glyph(digit: u32) -> u8
    requires { digit < 16 }
    ensures { result ≡ hex_glyph digit }
{
    if digit < 10 {
        48 + digit as u8
    } else {
        55 + digit as u8
    }
}
