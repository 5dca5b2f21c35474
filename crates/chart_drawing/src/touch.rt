//! The layers of a touch layout, drawn with what tapping their keys does.

ghost use Rattle.std.specs.Prelude.{◌≡◌, ◌++◌, ◌+◌, ◌≤◌, flat_map, IfOk};
ghost use Rattle.std.specs.String.{string_bytes};
ghost use Rattle.kmn_base.specs.Texts.{decoded};
ghost use Rattle.chart_drawing.specs.Touch.{more_head, more_text, touch_key, touch_keys, layer_name, layer_board, below_board, touch_boards, below_boards, widest, touch_legend_text, touch_legend, legend_height, touch_part};

use crate::boards::{put_board_head, put_legend_head, put_short};
use crate::drawing::put_key;
use crate::escaped::put_all_escaped;
use chart_board::{Cell, Layer};
use kmn_base::Memory;
use kmn_base::texts::decoded;
use std::alloc::{AllocError, Global};
use touch_board::{TouchKey, TouchLayer};

/// The legend of the keys of layers.
const TOUCH_LEGEND: &str =
    "below a key of the touch layout: &#62; the layer that it shows &#183; the keys of its long press &#183; n: to nw: those of its flick &#183; tap: those of further taps";

/// Appends the boards of layers from a place on, given what tapping the keys of each layer does, and their legend. Layers without their taps
/// are left out.
#[tactic(auto, unfolding(crate::specs::Touch::touch_part))]
pub(crate) fn put_touch(
    alloc: Global,
    text: &mut String,
    top: usize,
    layers: &[TouchLayer],
    taps: &[Layer],
) -> Result<(), Memory>
    ensures { IfOk result (λ _. string_bytes text.new ≡ string_bytes text.old ++ touch_part top layers.now taps.now) }
{
    put_touch_boards(alloc, text, top, layers, taps)?;
    let place = below_boards(top, layers)?;
    put_touch_legend(text, place, layers)
}

/// Appends the boards of layers from a place on.
fn put_touch_boards(
    alloc: Global,
    text: &mut String,
    top: usize,
    layers: &[TouchLayer],
    taps: &[Layer],
) -> Result<(), Memory>
    ensures { IfOk result (λ _. string_bytes text.new ≡ string_bytes text.old ++ touch_boards top layers.now taps.now) }
{
    let mut place = top;
    for number in 0..layers.len().min(taps.len()) {
        put_layer_board(alloc, text, place, &layers[number], &taps[number])?;
        place = below_board(place, &layers[number])?;
    }
    Ok(())
}

/// Appends the board of a layer.
#[tactic(auto, unfolding(crate::specs::Touch::layer_board))]
fn put_layer_board(
    alloc: Global,
    text: &mut String,
    top: usize,
    layer: &TouchLayer,
    taps: &Layer,
) -> Result<(), Memory>
    ensures { IfOk result (λ _. string_bytes text.new ≡ string_bytes text.old ++ layer_board top layer.now taps.now) }
{
    put_board_head(text, top)?;
    put_layer_name(alloc, text, layer)?;
    text.push_str("</text>\n")?;
    put_touch_keys(
        alloc,
        text,
        taps.mods,
        layer.keys.as_slice(),
        taps.cells.as_slice(),
    )?;
    text.push_str("</g>\n")?;
    Ok(())
}

/// Appends the name of a layer.
#[tactic(auto, unfolding(crate::specs::Touch::layer_name))]
fn put_layer_name(alloc: Global, text: &mut String, layer: &TouchLayer) -> Result<(), Memory>
    ensures { IfOk result (λ _. string_bytes text.new ≡ string_bytes text.old ++ layer_name layer.now) }
{
    let platform = decoded(alloc, layer.platform.as_slice())?;
    let id = decoded(alloc, layer.id.as_slice())?;
    put_all_escaped(text, platform.as_slice())?;
    text.push_str(" ")?;
    put_short(text, 80, id.as_slice())?;
    Ok(())
}

/// Appends the keys of a layer, each with what tapping it does. Keys without a cell are left out.
fn put_touch_keys(
    alloc: Global,
    text: &mut String,
    mods: u16,
    keys: &[TouchKey],
    cells: &[Cell],
) -> Result<(), Memory>
    ensures { IfOk result (λ _. string_bytes text.new ≡ string_bytes text.old ++ touch_keys mods keys.now cells.now) }
{
    for number in 0..keys.len().min(cells.len()) {
        put_touch_key(alloc, text, mods, &keys[number], &cells[number])?;
    }
    Ok(())
}

/// Appends a key of a layer, with what tapping it does, and what else it can do below it.
#[tactic(auto, unfolding(crate::specs::Touch::touch_key))]
fn put_touch_key(
    alloc: Global,
    text: &mut String,
    mods: u16,
    key: &TouchKey,
    cell: &Cell,
) -> Result<(), Memory>
    ensures { IfOk result (λ _. string_bytes text.new ≡ string_bytes text.old ++ touch_key mods key.now cell.now) }
{
    put_key(alloc, text, mods, &key.key, cell)?;
    let more = decoded(alloc, key.more.as_slice())?;
    put_more(text, key.key.left, key.key.top, more.as_slice())?;
    Ok(())
}

/// Appends the small text below a key at a place.
#[tactic(auto, unfolding(crate::specs::Touch::more_text))]
fn put_more(text: &mut String, left: u32, top: u32, chars: &[char]) -> Result<(), AllocError>
    ensures { IfOk result (λ _. string_bytes text.new ≡ string_bytes text.old ++ more_text left top chars.now) }
{
    if chars.is_empty() {
        return Ok(());
    }
    put_more_head(text, left, top)?;
    put_all_escaped(text, chars)?;
    text.push_str("</title>")?;
    put_short(text, 12, chars)?;
    text.push_str("</text>\n")
}

/// Appends the beginning of the small text below a key at a place.
#[tactic(auto, unfolding(crate::specs::Touch::more_head))]
fn put_more_head(text: &mut String, left: u32, top: u32) -> Result<(), AllocError>
    ensures { IfOk result (λ _. string_bytes text.new ≡ string_bytes text.old ++ more_head left top) }
{
    let height = u64::from(top) + 70;
    write!(text, "<text class='cap' x='{left}' y='{height}'><title>")
}

/// Appends the legend of layers below a place, if there are any layers.
#[tactic(auto, unfolding(crate::specs::Touch::touch_legend))]
fn put_touch_legend(text: &mut String, place: usize, layers: &[TouchLayer]) -> Result<(), Memory>
    ensures { IfOk result (λ _. string_bytes text.new ≡ string_bytes text.old ++ touch_legend place layers.now) }
{
    if layers.is_empty() {
        return Ok(());
    }
    let height = sum(place, 16)?;
    put_legend_head(text, height)?;
    text.push_str(touch_legend_text())?;
    text.push_str("</text>\n")?;
    Ok(())
}

/// Returns the legend of the keys of layers.
#[tactic(auto, unfolding(crate::specs::Touch::touch_legend_text))]
fn touch_legend_text() -> &'static str
    ensures { result.now ≡ touch_legend_text }
{
    TOUCH_LEGEND
}

/// Returns the height of the legend of layers.
pub(crate) fn legend_height(layers: &[TouchLayer]) -> usize
    ensures is { result ≡ legend_height layers.now }
    ensures most { result ≤ 20 }
{
    if layers.is_empty() { 0 } else { 20 }
}

/// Returns the width of the widest of these layers, at least that of a board.
pub(crate) fn widest(layers: &[TouchLayer]) -> u32
    ensures { result ≡ widest 960 layers.now }
{
    let mut width = 960;
    for layer in layers {
        width = width.max(layer.width);
    }
    width
}

/// Returns the place below the boards of layers from a place on.
pub(crate) fn below_boards(top: usize, layers: &[TouchLayer]) -> Result<usize, Memory>
    ensures { IfOk result (λ place. place ≡ below_boards top layers.now) }
{
    let mut place = top;
    for layer in layers {
        place = below_board(place, layer)?;
    }
    Ok(place)
}

/// Returns the place below the board of a layer at a place.
fn below_board(top: usize, layer: &TouchLayer) -> Result<usize, Memory>
    ensures { IfOk result (λ place. place ≡ below_board top layer.now) }
{
    let height = layer.height;
    sum(top, 40 + height as usize)
}

/// Returns the sum of two heights. Errors: `Memory` if it is more than 64 bits hold, since no memory holds such a drawing.
pub(crate) fn sum(a: usize, b: usize) -> Result<usize, Memory>
    ensures { IfOk result (λ total. total ≡ a + b) }
{
    match a.checked_add(b) {
        Some(total) => Ok(total),
        None => Err(Memory),
    }
}
