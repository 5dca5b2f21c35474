//! Tests a drawing of the layer of a touch layout.

use crate::pictures::place_of;
use chart_board::{Cell, Chart, Layer};
use chart_drawing::picture;
use kmn_base::{Item, Memory, Seq};
use std::alloc::Global;
use std::test::Fail;
use touch_board::{TouchLayer, touch_layers};
use virtual_keys::KeyDictionary;

/// A layout of a phone with one layer: a key with a long press, a flick, a multitap and another layer, a spacer, and a wide key.
const LAYOUT: &str = "{\"phone\": {\"layer\": [{\"id\": \"shift\", \"row\": [{\"key\": [
    {\"id\": \"K_A\", \"text\": \"<\", \"nextlayer\": \"default\", \"sk\": [{\"text\": \"b\"}, {\"id\": \"U_0063\"}],
        \"flick\": {\"e\": {\"text\": \"d\"}}, \"multitap\": [{\"text\": \"f\"}]},
    {\"id\": \"T_gap\", \"sp\": \"10\", \"width\": 50},
    {\"id\": \"T_hat\", \"width\": \"200\", \"pad\": 30}]}, {\"key\": [{\"id\": \"K_B\"}]}]}]}}";

/// The board of this layer, in which the first key types an e.
const BOARD: &str =
    "<g transform='translate(8,72)'><text class='state' x='0' y='-8'>phone shift</text>
<g class='ruled' transform='translate(9,0)'><title>&#60;: e U+0065</title><rect width='60' height='60' rx='6'/><text class='cap' x='6' y='13'>&#60;</text><text class='text' x='30' y='42' font-size='24'>e</text></g>
<text class='cap' x='9' y='70'><title>&#62;default b U_0063 e:d tap:f </title>&#62;default b &#8230;</text>
</g>
<text class='legend' x='8' y='280'>";

/// Returns the layers of the layout for a keyboard with the custom key T_hat.
fn layers(alloc: Global) -> Result<Seq<TouchLayer>, Memory> {
    let mut names = KeyDictionary::new(alloc);
    names.add(b"T_hat")?;
    touch_layers(alloc, &names, LAYOUT.as_bytes())
}

/// Returns what tapping the keys of the layer does: the first key types an e, and the other keys are left out.
fn taps(alloc: Global) -> Result<Seq<Layer>, Memory> {
    let mut cells = Seq::new(alloc);
    cells.add(Cell {
        deleted: 0,
        items: Seq::from_slice(alloc, &[Item::Char('e')])?,
        passed: false,
        beeps: 0,
    })?;
    let mut taps = Seq::new(alloc);
    taps.add(Layer { mods: 16, cells })?;
    Ok(taps)
}

#[test]
fn draws(rt: HostRuntime) -> Result<(), Fail> {
    let alloc = rt.alloc();
    let chart = Chart {
        title: Seq::new(alloc),
        keys: Seq::new(alloc),
        layers: Seq::new(alloc),
    };
    assert!(rt; chart.keys.is_empty() && chart.layers.is_empty());
    let layers = layers(alloc)?;
    let taps = taps(alloc)?;
    let drawn = picture(alloc, &chart, layers.as_slice(), taps.as_slice())?;
    let text = drawn.as_slice();
    assert!(rt; place_of(text, BOARD.as_bytes()).is_some());
    Ok(())
}
