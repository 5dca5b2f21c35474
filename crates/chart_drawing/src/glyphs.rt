//! What a press does, drawn around the center of its key.

ghost use Rattle.std.specs.Prelude.{◌≡◌, ◌++◌, ◌<◌, ◌∷◌, [], ◌^◌, codes, flat_map, IfOk};
ghost use Rattle.std.specs.String.{string_bytes};
ghost use Rattle.rule_model.specs.Lines.{hexadecimal};
ghost use Rattle.chart_drawing.specs.Glyphs.{text_size, circle, text_head, long_text, code_head, code_text, text_drawing, text_height, number_size, circle_at, number_at, more_rings, ring, ring_row, ring_height, rings_head, rings, deletion, bell, glyphs, item_words, description};

use crate::characters::{is_combining, is_hidden};
use crate::escaped::{put_all_escaped, put_cut};
use chart_board::Cell;
use chart_board::cells::{characters, marks};
use kmn_base::{Item, Memory};
use std::alloc::{AllocError, Global};

/// Appends what a press does, around the center of its key.
#[tactic(auto, unfolding(crate::specs::Glyphs::glyphs))]
pub(crate) fn put_glyphs(
    alloc: Global,
    text: &mut String,
    center: u32,
    cell: &Cell,
) -> Result<(), Memory>
    requires { center < 2 ^ 31 }
    ensures { IfOk result (λ _. string_bytes text.new ≡ string_bytes text.old ++ glyphs center cell.now) }
{
    let chars = characters(alloc, cell.items.as_slice())?;
    let numbers = marks(alloc, cell.items.as_slice())?;
    put_deletion(text, center, cell.deleted)?;
    let baseline = text_height(numbers.as_slice());
    put_text(text, center, baseline, chars.as_slice())?;
    let height = ring_height(chars.as_slice());
    put_rings(text, center, height, numbers.as_slice())?;
    put_bell(text, center, cell.beeps)?;
    Ok(())
}

/// Appends how many characters a press deletes.
#[tactic(auto, unfolding(crate::specs::Glyphs::deletion))]
fn put_deletion(text: &mut String, center: u32, count: u32) -> Result<(), AllocError>
    requires { center < 2 ^ 31 }
    ensures { IfOk result (λ _. string_bytes text.new ≡ string_bytes text.old ++ deletion center count) }
{
    if count == 0 {
        return Ok(());
    }
    let right = center + 26;
    write!(
        text,
        "<text class='deleted' x='{right}' y='13'>&#8722;{count}</text>"
    )
}

/// Returns the height of the baseline of a text.
fn text_height(marks: &[u16]) -> u32
    ensures { result ≡ text_height marks.now }
{
    if marks.is_empty() { 42 } else { 33 }
}

/// Appends the text that a press inserts.
#[tactic(auto, unfolding(crate::specs::Glyphs::text_drawing))]
fn put_text(text: &mut String, center: u32, height: u32, chars: &[char]) -> Result<(), AllocError>
    ensures { IfOk result (λ _. string_bytes text.new ≡ string_bytes text.old ++ text_drawing center height chars.now) }
{
    let [first, rest @ ..] = chars else {
        return Ok(());
    };
    if rest.is_empty() && is_hidden(*first) {
        put_code_text(text, center, height, *first)
    } else {
        put_long_text(text, center, height, *first, chars)
    }
}

/// Appends a character by its code.
#[tactic(auto, unfolding(crate::specs::Glyphs::code_text))]
fn put_code_text(text: &mut String, center: u32, height: u32, c: char) -> Result<(), AllocError>
    ensures { IfOk result (λ _. string_bytes text.new ≡ string_bytes text.old ++ code_text center height c) }
{
    put_code_head(text, center, height)?;
    put_code(text, c as u32)?;
    text.push_str("</text>")
}

/// Appends the beginning of the code of a character.
#[tactic(auto, unfolding(crate::specs::Glyphs::code_head))]
fn put_code_head(text: &mut String, center: u32, height: u32) -> Result<(), AllocError>
    ensures { IfOk result (λ _. string_bytes text.new ≡ string_bytes text.old ++ code_head center height) }
{
    write!(text, "<text class='code' x='{center}' y='{height}'>")
}

/// Appends a code in at least four hexadecimal digits.
#[tactic(auto, using(crate::proofs::Hexadecimal::padded_hexadecimal))]
fn put_code(text: &mut String, code: u32) -> Result<(), AllocError>
    ensures { IfOk result (λ _. string_bytes text.new ≡ string_bytes text.old ++ hexadecimal code) }
{
    write!(text, "{code:04X}")
}

/// Appends a text, given its first character too.
#[tactic(auto, unfolding(crate::specs::Glyphs::long_text))]
fn put_long_text(
    text: &mut String,
    center: u32,
    height: u32,
    first: char,
    chars: &[char],
) -> Result<(), AllocError>
    ensures { IfOk result (λ _. string_bytes text.new ≡ string_bytes text.old ++ long_text center height first chars.now) }
{
    put_text_head(text, center, height, text_size(chars.len()))?;
    text.push_str(circle(first))?;
    put_cut(text, 6, chars)?;
    text.push_str("</text>")
}

/// Appends the beginning of a text.
#[tactic(auto, unfolding(crate::specs::Glyphs::text_head))]
fn put_text_head(text: &mut String, center: u32, height: u32, size: u32) -> Result<(), AllocError>
    ensures { IfOk result (λ _. string_bytes text.new ≡ string_bytes text.old ++ text_head center height size) }
{
    write!(
        text,
        "<text class='text' x='{center}' y='{height}' font-size='{size}'>"
    )
}

/// Returns the size of a text with this number of characters.
#[tactic(auto, unfolding(crate::specs::Glyphs::text_size))]
fn text_size(count: usize) -> u32
    ensures { result ≡ text_size count }
{
    match count {
        0..=2 => 24,
        3 => 18,
        4 => 13,
        5 => 10,
        _ => 9,
    }
}

/// Returns the dotted circle before a combining mark.
#[tactic(auto, unfolding(crate::specs::Glyphs::circle))]
fn circle(c: char) -> &'static str
    ensures { result.now ≡ circle c }
{
    if is_combining(c) { "&#9676;" } else { "" }
}

/// Returns the height at which the rings are.
fn ring_height(chars: &[char]) -> u32
    ensures { result ≡ ring_height chars.now }
{
    if chars.is_empty() { 34 } else { 49 }
}

/// Appends the rings of the marks that a press puts.
#[tactic(auto, unfolding(crate::specs::Glyphs::rings))]
fn put_rings(text: &mut String, center: u32, height: u32, marks: &[u16]) -> Result<(), AllocError>
    ensures { IfOk result (λ _. string_bytes text.new ≡ string_bytes text.old ++ rings center height marks.now) }
{
    let [_, ..] = marks else {
        return Ok(());
    };
    put_rings_head(text, center, height)?;
    put_ring_row(text, marks)?;
    text.push_str("</g>")
}

/// Appends the beginning of a row of rings.
#[tactic(auto, unfolding(crate::specs::Glyphs::rings_head))]
fn put_rings_head(text: &mut String, center: u32, height: u32) -> Result<(), AllocError>
    ensures { IfOk result (λ _. string_bytes text.new ≡ string_bytes text.old ++ rings_head center height) }
{
    write!(
        text,
        "<g class='ring' transform='translate({center},{height})'>"
    )
}

/// Appends the rings of marks.
#[tactic(auto, unfolding(crate::specs::Glyphs::ring_row))]
fn put_ring_row(text: &mut String, marks: &[u16]) -> Result<(), AllocError>
    ensures { IfOk result (λ _. string_bytes text.new ≡ string_bytes text.old ++ ring_row marks.now) }
{
    match marks {
        [] => Ok(()),
        [a] => put_ring(text, "0", *a),
        [a, b, rest @ ..] => {
            put_two_rings(text, *a, *b)?;
            text.push_str(more_rings(rest))
        }
    }
}

/// Appends a mark as a ring, so far from the center.
#[tactic(auto, unfolding(crate::specs::Glyphs::ring))]
fn put_ring(text: &mut String, shift: &str, mark: u16) -> Result<(), AllocError>
    ensures { IfOk result (λ _. string_bytes text.new ≡ string_bytes text.old ++ ring shift.now mark) }
{
    put_circle(text, shift)?;
    put_number(text, shift, number_size(mark), mark)
}

/// Appends a ring, so far from the center.
#[tactic(auto, unfolding(crate::specs::Glyphs::circle_at))]
fn put_circle(text: &mut String, shift: &str) -> Result<(), AllocError>
    ensures { IfOk result (λ _. string_bytes text.new ≡ string_bytes text.old ++ circle_at shift.now) }
{
    write!(text, "<circle cx='{shift}' r='9'/>")
}

/// Appends a number, so far from the center.
#[tactic(auto, unfolding(crate::specs::Glyphs::number_at))]
fn put_number(text: &mut String, shift: &str, size: u32, number: u16) -> Result<(), AllocError>
    ensures { IfOk result (λ _. string_bytes text.new ≡ string_bytes text.old ++ number_at shift.now size number) }
{
    write!(
        text,
        "<text x='{shift}' y='3' font-size='{size}'>{number}</text>"
    )
}

/// Returns the size of a mark's number.
fn number_size(mark: u16) -> u32
    ensures { result ≡ number_size mark }
{
    if mark < 1000 { 9 } else { 6 }
}

/// Appends two rings, one on each side of the center.
fn put_two_rings(text: &mut String, a: u16, b: u16) -> Result<(), AllocError>
    ensures { IfOk result (λ _. string_bytes text.new ≡ string_bytes text.old ++ (ring (codes "-10") a ++ ring (codes "10") b)) }
{
    put_ring(text, "-10", a)?;
    put_ring(text, "10", b)
}

/// Returns an ellipsis in place of more marks.
fn more_rings(marks: &[u16]) -> &'static str
    ensures { result.now ≡ more_rings marks.now }
{
    if marks.is_empty() {
        ""
    } else {
        "<text x='25' y='3' font-size='9'>&#8230;</text>"
    }
}

/// Appends a bell if a press beeps.
#[tactic(auto, unfolding(crate::specs::Glyphs::bell))]
fn put_bell(text: &mut String, center: u32, beeps: u32) -> Result<(), AllocError>
    requires { center < 2 ^ 31 }
    ensures { IfOk result (λ _. string_bytes text.new ≡ string_bytes text.old ++ bell center beeps) }
{
    if beeps == 0 {
        return Ok(());
    }
    let right = center + 22;
    write!(
        text,
        "<path class='bell' transform='translate({right},54)' d='M-6 4h12l-2-3v-3a4 4 0 0 0-8 0v3z'/>"
    )
}

/// Appends what a press puts, whole.
#[tactic(auto, unfolding(crate::specs::Glyphs::description))]
pub(crate) fn put_description(alloc: Global, text: &mut String, cell: &Cell) -> Result<(), Memory>
    ensures { IfOk result (λ _. string_bytes text.new ≡ string_bytes text.old ++ description cell.now) }
{
    let chars = characters(alloc, cell.items.as_slice())?;
    put_all_escaped(text, chars.as_slice())?;
    put_items(text, cell.items.as_slice())?;
    Ok(())
}

/// Appends items in words.
fn put_items(text: &mut String, items: &[Item]) -> Result<(), AllocError>
    ensures { IfOk result (λ _. string_bytes text.new ≡ string_bytes text.old ++ flat_map item_words items.now) }
{
    for item in items {
        put_item(text, *item)?;
    }
    Ok(())
}

/// Appends an item in words.
fn put_item(text: &mut String, item: Item) -> Result<(), AllocError>
    ensures { IfOk result (λ _. string_bytes text.new ≡ string_bytes text.old ++ item_words item) }
{
    match item {
        Item::Char(c) => {
            text.push_str(" U+")?;
            put_code(text, c as u32)
        }
        Item::Mark(mark) => write!(text, " deadkey {mark}"),
    }
}
