//! The boards of a drawing.

ghost use Rattle.std.specs.Prelude.{◌≡◌, ◌++◌, ◌+◌, ◌*◌, ◌<◌, ◌≤◌, ◌^◌, flat_map, length, map, IfOk};
ghost use Rattle.std.specs.String.{string_bytes};
ghost use Rattle.chart_drawing.specs.Boards.{flag_word, state_name, board_head, board, boards, board_height, short_title, legend_head};

use crate::drawing::put_keys;
use crate::escaped::put_all_escaped;
use chart_board::{Key, Layer};
use kmn_base::Memory;
use std::alloc::{AllocError, Global};
use virtual_keys::{has, modifiers};

/// Returns the height of a board with this number of keys.
#[tactic(auto, unfolding(crate::specs::Boards::board_height))]
pub(crate) fn board_height(keys: usize) -> usize
    requires { keys < 2 ^ 32 }
    ensures is { result ≡ board_height keys }
    ensures within { result < 2 ^ 40 }
{
    64 * (5 + (keys.saturating_sub(52) + 14) / 15) + 40
}

/// Appends the boards of states.
pub(crate) fn put_boards(
    alloc: Global,
    text: &mut String,
    keys: &[Key],
    height: usize,
    layers: &[Layer],
) -> Result<(), Memory>
    requires { length layers.now * height + 72 < 2 ^ 64 }
    ensures { IfOk result (λ _. string_bytes text.new ≡ string_bytes text.old ++ boards keys.now height 72 layers.now) }
{
    let mut top = 72;
    for layer in layers {
        put_board(alloc, text, keys, top, layer)?;
        top += height;
    }
    Ok(())
}

/// Appends the board of a state.
#[tactic(auto, unfolding(crate::specs::Boards::board))]
fn put_board(
    alloc: Global,
    text: &mut String,
    keys: &[Key],
    top: usize,
    layer: &Layer,
) -> Result<(), Memory>
    ensures { IfOk result (λ _. string_bytes text.new ≡ string_bytes text.old ++ board keys.now top layer.now) }
{
    put_board_head(text, top)?;
    put_state(text, layer.mods)?;
    text.push_str("</text>\n")?;
    put_keys(alloc, text, layer.mods, keys, layer.cells.as_slice())?;
    text.push_str("</g>\n")?;
    Ok(())
}

/// Appends the beginning of a board.
#[tactic(auto, unfolding(crate::specs::Boards::board_head))]
pub(crate) fn put_board_head(text: &mut String, top: usize) -> Result<(), AllocError>
    ensures { IfOk result (λ _. string_bytes text.new ≡ string_bytes text.old ++ board_head top) }
{
    write!(
        text,
        "<g transform='translate(8,{top})'><text class='state' x='0' y='-8'>"
    )
}

/// Appends the name of a state.
#[tactic(auto, unfolding(crate::specs::Boards::state_name))]
fn put_state(text: &mut String, mods: u16) -> Result<(), AllocError>
    ensures { IfOk result (λ _. string_bytes text.new ≡ string_bytes text.old ++ state_name mods) }
{
    if mods == 0 {
        text.push_str("plain")
    } else {
        put_flags(text, mods, modifiers())
    }
}

/// Appends the words of the flags that a state has.
fn put_flags(
    text: &mut String,
    mods: u16,
    table: &'static [(&'static str, u16)],
) -> Result<(), AllocError>
    ensures { IfOk result (λ _. string_bytes text.new ≡ string_bytes text.old ++ flat_map (flag_word mods) (map (λ row. (row.0.now, row.1)) table.now)) }
{
    for row in table {
        if has(u32::from(mods), row.1) {
            text.push_str(" ")?;
            text.push_str(row.0)?;
        }
    }
    Ok(())
}

/// Appends a title, cut at a number of places of it.
#[tactic(auto, unfolding(crate::specs::Boards::short_title))]
pub(crate) fn put_short(text: &mut String, limit: usize, title: &[char]) -> Result<(), AllocError>
    requires { 1 ≤ limit }
    ensures { IfOk result (λ _. string_bytes text.new ≡ string_bytes text.old ++ short_title limit title.now) }
{
    if title.len() <= limit {
        return put_all_escaped(text, title);
    }
    put_all_escaped(text, &title[..limit - 1])?;
    text.push_str("&#8230;")
}

/// Appends the beginning of a legend.
#[tactic(auto, unfolding(crate::specs::Boards::legend_head))]
pub(crate) fn put_legend_head(text: &mut String, top: usize) -> Result<(), AllocError>
    ensures { IfOk result (λ _. string_bytes text.new ≡ string_bytes text.old ++ legend_head top) }
{
    write!(text, "<text class='legend' x='8' y='{top}'>")
}
