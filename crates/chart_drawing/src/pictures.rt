//! A chart as a drawing.

ghost use Rattle.std.specs.Prelude.{◌≡◌, ◌++◌, ◌<◌, ◌≤◌, ◌^◌, length, IfOk};
ghost use Rattle.std.specs.String.{string_bytes};
ghost use Rattle.chart_drawing.specs.Picture.{boards_end, picture_height, picture_width, svg_head, style, page, title_line, head, legend, foot, chart_boards, picture};

use crate::boards::{board_height, put_boards, put_legend_head, put_short};
use crate::touch::{below_boards, legend_height, put_touch, sum, widest};
use chart_board::{Chart, Layer};
use kmn_base::{Memory, Text};
use std::alloc::{AllocError, Global};
use touch_board::TouchLayer;

/// The styles of what a drawing has.
const STYLE: &str =
    "<style>text{font-family:sans-serif;text-anchor:middle;unicode-bidi:plaintext;fill:#111}.cap,.state,.title,.legend{text-anchor:start;fill:#666}.cap{font-size:9px}.state,.legend{font-size:13px}.title{font-size:18px}.code{font-size:11px}.deleted{font-size:9px;text-anchor:end;fill:#a00000}.ring circle{fill:none;stroke:#b04a00;stroke-width:1.5}.ring text{fill:#b04a00}.bell{fill:#7a1fa2}.page{fill:#fff}rect{fill:#fff;stroke:#888}.us rect,.passed rect{stroke:#ccc}.us .text{fill:#aaa}.ruled rect{fill:#fff6e0}</style>\n";

/// The legend of a drawing.
const LEGEND: &str =
    "ring: a deadkey by its number &#183; &#8722;1: deletes one character first &#183; bell: beeps &#183; pale: as on a US board &#183; empty: passed on to the application";

/// Returns the text of the drawing of a chart, which has at most 64 states, and fewer keys than twice the codes of 16 bits. Below its boards
/// are those of the layers of a touch layout, given what tapping the keys of each layer does.
#[tactic(auto, unfolding(crate::specs::Picture::picture))]
pub fn picture(
    alloc: Global,
    chart: &Chart,
    layers: &[TouchLayer],
    taps: &[Layer],
) -> Result<Text, Memory>
    requires keys { length chart.now.keys < 2 ^ 17 }
    requires states { length chart.now.layers ≤ 64 }
    ensures { IfOk result (λ text. text ≡ picture chart.now layers.now taps.now) }
{
    let height = picture_height(chart.keys.len(), chart.layers.len(), layers)?;
    let mut text = String::new(alloc);
    put_head(
        &mut text,
        picture_width(layers),
        height,
        chart.title.as_slice(),
    )?;
    put_chart_boards(alloc, &mut text, chart, layers, taps)?;
    put_foot(&mut text, height - 8)?;
    Ok(Text::from_string(text))
}

/// Returns the height of a drawing with these numbers of keys and states, and with layers. Errors: `Memory` if a memory of 64 bits can't
/// hold the drawing.
#[tactic(auto, unfolding(crate::specs::Picture::picture_height))]
fn picture_height(keys: usize, states: usize, layers: &[TouchLayer]) -> Result<usize, Memory>
    requires keys { keys < 2 ^ 17 }
    requires states { states ≤ 64 }
    ensures is { IfOk result (λ height. height ≡ picture_height keys states layers.now) }
    ensures least { IfOk result (λ height. 8 ≤ height) }
{
    let boards = below_boards(boards_end(keys, states), layers)?;
    sum(boards, legend_height(layers) + 24)
}

/// Returns the place below the boards of these numbers of keys and states.
#[tactic(auto, unfolding(crate::specs::Picture::boards_end))]
fn boards_end(keys: usize, states: usize) -> usize
    requires keys { keys < 2 ^ 17 }
    requires states { states ≤ 64 }
    ensures { result ≡ boards_end keys states }
{
    72 + board_height(keys) * states
}

/// Returns the width of a drawing with layers.
fn picture_width(layers: &[TouchLayer]) -> u64
    ensures { result ≡ picture_width layers.now }
{
    u64::from(widest(layers)) + 16
}

/// Appends the boards of a chart, and those of layers below them.
#[tactic(auto, unfolding(crate::specs::Picture::chart_boards))]
fn put_chart_boards(
    alloc: Global,
    text: &mut String,
    chart: &Chart,
    layers: &[TouchLayer],
    taps: &[Layer],
) -> Result<(), Memory>
    requires keys { length chart.now.keys < 2 ^ 17 }
    requires states { length chart.now.layers ≤ 64 }
    ensures { IfOk result (λ _. string_bytes text.new ≡ string_bytes text.old ++ chart_boards chart.now layers.now taps.now) }
{
    let height = board_height(chart.keys.len());
    put_boards(
        alloc,
        text,
        chart.keys.as_slice(),
        height,
        chart.layers.as_slice(),
    )?;
    let end = boards_end(chart.keys.len(), chart.layers.len());
    put_touch(alloc, text, end, layers, taps)
}

/// Appends what is before the boards.
#[tactic(auto, unfolding(crate::specs::Picture::head))]
fn put_head(text: &mut String, width: u64, height: usize, title: &[char]) -> Result<(), AllocError>
    ensures { IfOk result (λ _. string_bytes text.new ≡ string_bytes text.old ++ head width height title.now) }
{
    put_svg_head(text, width, height)?;
    text.push_str(style())?;
    put_page(text, width, height)?;
    put_title_line(text, title)
}

/// Appends the beginning of a drawing.
#[tactic(auto, unfolding(crate::specs::Picture::svg_head))]
fn put_svg_head(text: &mut String, width: u64, height: usize) -> Result<(), AllocError>
    ensures { IfOk result (λ _. string_bytes text.new ≡ string_bytes text.old ++ svg_head width height) }
{
    write!(
        text,
        "<svg xmlns='http://www.w3.org/2000/svg' viewBox='0 0 {width} {height}'>\n"
    )
}

/// Returns the styles.
#[tactic(auto, unfolding(crate::specs::Picture::style))]
fn style() -> &'static str
    ensures { result.now ≡ style }
{
    STYLE
}

/// Appends the background of a drawing.
#[tactic(auto, unfolding(crate::specs::Picture::page))]
fn put_page(text: &mut String, width: u64, height: usize) -> Result<(), AllocError>
    ensures { IfOk result (λ _. string_bytes text.new ≡ string_bytes text.old ++ page width height) }
{
    write!(
        text,
        "<rect class='page' width='{width}' height='{height}'/>\n"
    )
}

/// Appends the title above the boards.
#[tactic(auto, unfolding(crate::specs::Picture::title_line))]
fn put_title_line(text: &mut String, title: &[char]) -> Result<(), AllocError>
    ensures { IfOk result (λ _. string_bytes text.new ≡ string_bytes text.old ++ title_line title.now) }
{
    text.push_str("<text class='title' x='8' y='28'>")?;
    put_short(text, 80, title)?;
    text.push_str("</text>\n")
}

/// Appends what is after the boards.
#[tactic(auto, unfolding(crate::specs::Picture::foot))]
fn put_foot(text: &mut String, top: usize) -> Result<(), AllocError>
    ensures { IfOk result (λ _. string_bytes text.new ≡ string_bytes text.old ++ foot top) }
{
    put_legend_head(text, top)?;
    text.push_str(legend())?;
    text.push_str("</text>\n</svg>\n")
}

/// Returns what the legend says.
#[tactic(auto, unfolding(crate::specs::Picture::legend))]
fn legend() -> &'static str
    ensures { result.now ≡ legend }
{
    LEGEND
}
