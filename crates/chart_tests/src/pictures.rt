//! Tests the drawing of a chart with two keys in one state.

use chart_board::{Cell, Chart, Key, Layer};
use chart_drawing::picture;
use kmn_base::{Item, Memory, Seq};
use std::alloc::Global;
use std::test::Fail;

/// The drawing before its styles.
const HEAD: &str = "<svg xmlns='http://www.w3.org/2000/svg' viewBox='0 0 976 456'>\n<style>";

/// The drawing between its styles and its legend.
const BOARDS: &str = "</style>
<rect class='page' width='976' height='456'/>
<text class='title' x='8' y='28'>a &#38; b</text>
<g transform='translate(8,72)'><text class='state' x='0' y='-8'> SHIFT</text>
<g class='ruled' transform='translate(0,0)'><title>Q: e&#769; U+0065 U+0301 deadkey 3</title><rect width='60' height='60' rx='6'/><text class='cap' x='6' y='13'>Q</text><text class='deleted' x='56' y='13'>&#8722;1</text><text class='text' x='30' y='33' font-size='24'>e&#769;</text><g class='ring' transform='translate(30,49)'><circle cx='0' r='9'/><text x='0' y='3' font-size='9'>3</text></g><path class='bell' transform='translate(52,54)' d='M-6 4h12l-2-3v-3a4 4 0 0 0-8 0v3z'/></g>
<g class='passed' transform='translate(64,0)'><title>&#60;: </title><rect width='60' height='60' rx='6'/><text class='cap' x='6' y='13'>&#60;</text></g>
</g>
<text class='legend' x='8' y='448'>";

/// The drawing after its legend.
const FOOT: &str = "</text>\n</svg>\n";

/// Returns a key of the first row.
fn key(alloc: Global, cap: &[u8], code: u16, left: u32) -> Result<Key, Memory> {
    Ok(Key {
        cap: Seq::from_slice(alloc, cap)?,
        code,
        left,
        top: 0,
        width: 60,
    })
}

/// Returns a chart of a key that a rule answers and a key that is passed on.
fn chart(alloc: Global) -> Result<Chart, Memory> {
    let mut keys = Seq::new(alloc);
    keys.add(key(alloc, b"Q", 81, 0)?)?;
    keys.add(key(alloc, b"<", 226, 64)?)?;
    let items = [Item::Char('e'), Item::Char('\u{301}'), Item::Mark(3)];
    let mut cells = Seq::new(alloc);
    cells.add(Cell {
        deleted: 1,
        items: Seq::from_slice(alloc, &items)?,
        passed: false,
        beeps: 1,
    })?;
    cells.add(Cell {
        deleted: 0,
        items: Seq::new(alloc),
        passed: true,
        beeps: 0,
    })?;
    let mut layers = Seq::new(alloc);
    layers.add(Layer { mods: 16, cells })?;
    Ok(Chart {
        title: Seq::from_slice(alloc, &['a', ' ', '&', ' ', 'b'])?,
        keys,
        layers,
    })
}

/// Returns the place of the first occurrence of a part in a text.
pub fn place_of(text: &[u8], part: &[u8]) -> Option<usize> {
    for place in 0..text.len() {
        if text[place..].starts_with(part) {
            return Some(place);
        }
    }
    None
}

#[test]
fn draws(rt: HostRuntime) -> Result<(), Fail> {
    let alloc = rt.alloc();
    let small = chart(alloc)?;
    assert!(rt; small.keys.len() == 2 && small.layers.len() == 1);
    let drawn = picture(alloc, &small, &[], &[])?;
    let text = drawn.as_slice();
    assert!(rt; text.starts_with(HEAD.as_bytes()));
    assert!(rt; place_of(text, BOARDS.as_bytes()).is_some());
    assert!(rt; text.ends_with(FOOT.as_bytes()));
    Ok(())
}
