//! What several tests use: a row of a table split into its text and its expected result, the texts that tables write with symbols,
//! the refusals that tables name, and the symbols of items.

ghost use Rattle.std.specs.Prelude.{None, MatchResult};
ghost use Rattle.std.specs.Str.Pattern.{FindsText, SplitsAroundMatch};
ghost use Rattle.source_tests.specs.declared.fixtures.TheConstants.{ANSWER_SIGN};

use kmn_base::{Item, Memory, Refusal};
use std::alloc::{AllocError, Global};
use std::fmt::Write;
use std::test::Fail;

/// The separator between a row's text and its expected result.
const ANSWER_SIGN: &str = " ⇒ ";

/// Returns the text of a table's row and its expected result, which follows the first ` ⇒ `.
pub fn parted(row: &str) -> Result<(&str, &str), &'static str>
    ensures { MatchResult result
        (λ parts. SplitsAroundMatch (FindsText ANSWER_SIGN.now) row.now parts.0.now parts.1.now)
        (λ _. FindsText ANSWER_SIGN.now row.now None) }
{
    row.split_once(ANSWER_SIGN).ok_or("a row without an answer")
}

/// Returns whether a line of a table is a row. Any other line is a heading, which starts with `== ` and names what the rows below
/// it show.
pub fn is_row(line: &&str) -> bool {
    !line.starts_with("== ")
}

/// Returns the character that a character of a table represents: `¶` is a line feed, `␍` a carriage return, `␉` a tab, `␀` U+0000,
/// `␡` U+FFFF, `⌖` U+FEFF and `·` U+00A0. Any other character represents itself.
fn character(c: char) -> char {
    match c {
        '¶' => '\n',
        '␍' => '\r',
        '␉' => '\t',
        '␀' => '\0',
        '␡' => '\u{FFFF}',
        '⌖' => '\u{FEFF}',
        '·' => '\u{A0}',
        other => other,
    }
}

/// Writes a text of a table, as the copy with this number: `№` is the number, and `§` is the lines of a group `main` that uses keys.
fn write_copy(out: &mut String, text: &str, copy: u32) -> Result<(), AllocError> {
    for c in text.chars() {
        match c {
            '№' => write!(out, "{copy}")?,
            '§' => out.push_str("begin Unicode > use(main)\ngroup(main) using keys\n")?,
            other => out.push(character(other))?,
        }
    }
    Ok(())
}

fn write_copies(out: &mut String, text: &str, count: u32) -> Result<(), AllocError> {
    for copy in 0..count {
        write_copy(out, text, copy)?;
    }
    Ok(())
}

/// Writes a piece of a text of a table: a text, and the copies of another text if the piece has any.
fn write_piece(out: &mut String, piece: &str) -> Result<(), Fail> {
    match piece.split_once('⟨') {
        Some((text, copies)) => {
            write_copy(out, text, 0)?;
            let (copied, count) = copies.split_once('×').ok_or("copies without a count")?;
            let count = count
                .parse::<u32>()
                .ok()
                .ok_or("a count that is no number")?;
            Ok(write_copies(out, copied, count)?)
        }
        None => Ok(write_copy(out, piece, 0)?),
    }
}

/// Returns the text that a text of a table represents. In it, `⟨TEXT×COUNT⟩` is a text repeated count times, in which `№` is the
/// number of the copy, counted from 0.
pub fn source_of(alloc: Global, text: &str) -> Result<String, Fail> {
    let mut source = String::new(alloc);
    for piece in text.split('⟩') {
        write_piece(&mut source, piece)?;
    }
    Ok(source)
}

/// Returns whether the expected result of a row has the code and the line of a refusal.
pub fn is_refusal(refusal: Refusal, wanted: &str) -> bool {
    match wanted.split_once(' ') {
        Some((code, line)) => {
            refusal.code.text() == code.as_bytes() && line.parse::<u32>().ok() == Some(refusal.line)
        }
        None => false,
    }
}

/// Returns the symbol of an item in a table: a character is its own symbol, and `*` is the symbol of each mark.
fn sign(item: Item) -> char {
    match item {
        Item::Char(c) => c,
        Item::Mark(_) => '*',
    }
}

/// Appends the symbols of items.
pub fn put_items(text: &mut String, items: &[Item]) -> Result<(), Memory> {
    for item in items {
        text.push(sign(*item))?;
    }
    Ok(())
}
