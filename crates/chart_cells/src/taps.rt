//! What tapping the keys of a touch layout does.

ghost use Rattle.std.specs.Prelude.{◌≡◌, ◌≤◌, length, map, IfOk};
ghost use Rattle.kmn_base.specs.declared.limits.TheConstants.{TEXT_CHARS_AT_KEY};
ghost use Rattle.virtual_keys.specs.Dictionary.{name_chars};
ghost use Rattle.rule_model.specs.Event.{whole_text};
ghost use Rattle.chart_cells.specs.Taps.{layer_taps, showing, tap_cell, typed, unless_passed};

use crate::cells::cell_now;
use chart_board::cells::is_empty;
use chart_board::{Cell, Layer, char_items, press_in};
use kmn_base::texts::decoded;
use kmn_base::{Event, Memory, Seq};
use play_session::Session;
use std::alloc::Global;
use touch_board::{TouchKey, TouchLayer, layer_mods};
use virtual_keys::named_chars;

/// Returns what tapping the keys of each layer of a touch layout does as the next event of a session, while the touch keyboard shows that
/// layer. The session must accept a key press, so its text has at most 995,000 characters. Errors: `Memory` if an allocation fails.
pub fn taps_now(
    alloc: Global,
    session: &Session,
    layers: &[TouchLayer],
) -> Result<Seq<Layer>, Memory>
    requires { length (whole_text session.now.state) ≤ TEXT_CHARS_AT_KEY }
    ensures { IfOk result (λ taps. taps ≡ map (layer_taps session.now.tables session.now.state) layers.now) }
{
    let mut taps = Seq::new(alloc);
    for layer in layers {
        taps.add(layer_taps(alloc, session, layer)?)?;
    }
    Ok(taps)
}

/// Returns what tapping the keys of a layer does.
fn layer_taps(alloc: Global, session: &Session, layer: &TouchLayer) -> Result<Layer, Memory>
    requires { length (whole_text session.now.state) ≤ TEXT_CHARS_AT_KEY }
    ensures { IfOk result (λ taps. taps ≡ layer_taps session.now.tables session.now.state layer.now) }
{
    let mods = layer_mods(layer.id.as_slice());
    let shown = showing(alloc, session, layer.id.as_slice())?;
    let cells = tap_cells(alloc, &shown, mods, layer.keys.as_slice())?;
    Ok(Layer { mods, cells })
}

/// Returns a copy of a session in which the touch keyboard shows the layer with an id. A setting is never refused.
#[tactic(auto, using(crate::proofs::Showing::after_setting, crate::proofs::Showing::setting_keeps_text))]
fn showing<'a>(alloc: Global, session: &Session<'a>, id: &[u8]) -> Result<Session<'a>, Memory>
    ensures tables { IfOk result (λ shown. shown.tables ≡ session.now.tables) }
    ensures state { IfOk result (λ shown. shown.state ≡ showing id.now session.now.state) }
    ensures text { IfOk result (λ shown. whole_text shown.state ≡ whole_text session.now.state) }
{
    let mut shown = session.copy(alloc)?;
    let event = Event::Setting {
        name: Seq::from_slice(alloc, b"&layer")?,
        value: decoded(alloc, id)?,
    };
    match shown.step(alloc, &event) {
        Ok(_) => Ok(shown),
        Err(_) => Err(Memory),
    }
}

/// Returns what tapping each of these keys does in a session, with shift flags.
fn tap_cells(
    alloc: Global,
    session: &Session,
    mods: u16,
    keys: &[TouchKey],
) -> Result<Seq<Cell>, Memory>
    requires { length (whole_text session.now.state) ≤ TEXT_CHARS_AT_KEY }
    ensures { IfOk result (λ cells. cells ≡ map (tap_cell session.now.tables session.now.state mods) keys.now) }
{
    let mut cells = Seq::new(alloc);
    for key in keys {
        cells.add(tap_cell(alloc, session, mods, key)?)?;
    }
    Ok(cells)
}

/// Returns what tapping a key does in a session, with shift flags.
fn tap_cell(alloc: Global, session: &Session, mods: u16, key: &TouchKey) -> Result<Cell, Memory>
    requires { length (whole_text session.now.state) ≤ TEXT_CHARS_AT_KEY }
    ensures { IfOk result (λ found. found ≡ tap_cell session.now.tables session.now.state mods key.now) }
{
    if key.key.code == 0 {
        return typed(alloc, key.id.as_slice());
    }
    let found = cell_now(alloc, session, press_in(mods, key.key.code))?;
    unless_passed(alloc, key.id.as_slice(), found)
}

/// Returns what a press does, or what the key with an id does without a rule if the press is only passed on.
fn unless_passed(alloc: Global, id: &[u8], found: Cell) -> Result<Cell, Memory>
    ensures { IfOk result (λ shown. shown ≡ unless_passed id.now found) }
{
    if is_empty(&found) {
        typed(alloc, id)
    } else {
        Ok(found)
    }
}

/// Returns what the key with an id does without a rule.
fn typed(alloc: Global, id: &[u8]) -> Result<Cell, Memory>
    ensures { IfOk result (λ cell. cell ≡ typed (name_chars id.now)) }
{
    match named_chars(id) {
        Some(chars) => Ok(Cell {
            deleted: 0,
            items: char_items(alloc, chars.as_slice())?,
            passed: false,
            beeps: 0,
        }),
        None => Ok(Cell {
            deleted: 0,
            items: Seq::new(alloc),
            passed: true,
            beeps: 0,
        }),
    }
}
