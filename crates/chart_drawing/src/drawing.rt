//! A key of a board, drawn with what its press does.

ghost use Rattle.std.specs.Prelude.{◌≡◌, ◌++◌, ◌<◌, ◌/◌, flat_map, IfOk};
ghost use Rattle.std.specs.String.{string_bytes};
ghost use Rattle.kmn_base.specs.Texts.{decoded};
ghost use Rattle.chart_drawing.specs.Boards.{class, key_title, frame_head, key_frame, key_head, key_with_cap, key_drawing, key_drawings};
ghost use Rattle.chart_board.specs.States.{press_in};

use crate::escaped::{put_all_escaped, put_cut};
use crate::glyphs::{put_description, put_glyphs};
use chart_board::cells::{is_empty, is_us};
use chart_board::{Cell, Key, press_in};
use kmn_base::texts::decoded;
use kmn_base::{KeyPress, Memory};
use std::alloc::{AllocError, Global};

/// Appends the keys in a state, each with what its press does. Keys without a cell are left out.
pub(crate) fn put_keys(
    alloc: Global,
    text: &mut String,
    mods: u16,
    keys: &[Key],
    cells: &[Cell],
) -> Result<(), Memory>
    ensures { IfOk result (λ _. string_bytes text.new ≡ string_bytes text.old ++ key_drawings mods keys.now cells.now) }
{
    for number in 0..keys.len().min(cells.len()) {
        put_key(alloc, text, mods, &keys[number], &cells[number])?;
    }
    Ok(())
}

/// Appends a key in a state, with what its press does.
#[tactic(auto, unfolding(crate::specs::Boards::key_drawing))]
pub(crate) fn put_key(
    alloc: Global,
    text: &mut String,
    mods: u16,
    key: &Key,
    cell: &Cell,
) -> Result<(), Memory>
    ensures { IfOk result (λ _. string_bytes text.new ≡ string_bytes text.old ++ key_drawing mods key.now cell.now) }
{
    let cap = decoded(alloc, key.cap.as_slice())?;
    put_with_cap(alloc, text, mods, key, cap.as_slice(), cell)
}

/// Appends a key with a key cap in a state, with what its press does.
#[tactic(auto, unfolding(crate::specs::Boards::key_with_cap))]
fn put_with_cap(
    alloc: Global,
    text: &mut String,
    mods: u16,
    key: &Key,
    cap: &[char],
    cell: &Cell,
) -> Result<(), Memory>
    ensures { IfOk result (λ _. string_bytes text.new ≡ string_bytes text.old ++ key_with_cap mods key.now cap.now cell.now) }
{
    let class = class(press_in(mods, key.code), cell);
    put_key_head(text, class, key.left, key.top)?;
    put_title(alloc, text, cap, cell)?;
    put_frame(text, key.width, cap)?;
    put_glyphs(alloc, text, key.width / 2, cell)?;
    text.push_str("</g>\n")?;
    Ok(())
}

/// Returns the class of a key.
#[tactic(auto, unfolding(crate::specs::Boards::class))]
fn class(press: KeyPress, cell: &Cell) -> &'static str
    ensures { result.now ≡ class press cell.now }
{
    if is_empty(cell) {
        "passed"
    } else if is_us(press, cell) {
        "us"
    } else {
        "ruled"
    }
}

/// Appends the beginning of a key of a class.
#[tactic(auto, unfolding(crate::specs::Boards::key_head))]
fn put_key_head(text: &mut String, class: &str, left: u32, top: u32) -> Result<(), AllocError>
    ensures { IfOk result (λ _. string_bytes text.new ≡ string_bytes text.old ++ key_head class.now left top) }
{
    write!(
        text,
        "<g class='{class}' transform='translate({left},{top})'>"
    )
}

/// Appends the whole text of a key.
#[tactic(auto, unfolding(crate::specs::Boards::key_title))]
fn put_title(alloc: Global, text: &mut String, cap: &[char], cell: &Cell) -> Result<(), Memory>
    ensures { IfOk result (λ _. string_bytes text.new ≡ string_bytes text.old ++ key_title cap.now cell.now) }
{
    text.push_str("<title>")?;
    put_all_escaped(text, cap)?;
    text.push_str(": ")?;
    put_description(alloc, text, cell)?;
    text.push_str("</title>")?;
    Ok(())
}

/// Appends the frame of a key with its key cap.
#[tactic(auto, unfolding(crate::specs::Boards::key_frame))]
fn put_frame(text: &mut String, width: u32, cap: &[char]) -> Result<(), AllocError>
    ensures { IfOk result (λ _. string_bytes text.new ≡ string_bytes text.old ++ key_frame width cap.now) }
{
    put_frame_head(text, width)?;
    put_cut(text, 6, cap)?;
    text.push_str("</text>")
}

/// Appends the frame of a key, and the beginning of its key cap.
#[tactic(auto, unfolding(crate::specs::Boards::frame_head))]
fn put_frame_head(text: &mut String, width: u32) -> Result<(), AllocError>
    ensures { IfOk result (λ _. string_bytes text.new ≡ string_bytes text.old ++ frame_head width) }
{
    write!(
        text,
        "<rect width='{width}' height='60' rx='6'/><text class='cap' x='6' y='13'>"
    )
}
