//! What all keys of a chart do.

ghost use Rattle.std.specs.Prelude.{◌≡◌, ◌<◌, ◌≤◌, ◌^◌, length, map, IfOk};
ghost use Rattle.kmn_base.specs.declared.limits.TheConstants.{KEY_NAMES, TEXT_CHARS_AT_KEY};
ghost use Rattle.rule_model.specs.Event.{whole_text};
ghost use Rattle.rule_model.specs.Tab.{tab};
ghost use Rattle.chart_cells.specs.Layers.{key_cell, layer_of, chart_of};

use crate::cells::cell_now;
use chart_board::{Cell, Chart, Key, Layer, chart_keys, chart_states, press_in};
use kmn_base::{Memory, Seq};
use play_session::Session;
use rule_model::Tables;
use std::alloc::Global;

/// Returns the chart of a session in its present state, given the tables of its file. The session must accept a key press, so its text
/// has at most 995,000 characters. Errors: `Memory` if an allocation fails.
#[tactic(auto, unfolding(crate::specs::Layers::chart_of))]
pub fn chart_now(
    alloc: Global,
    title: Seq<char>,
    session: &Session,
    tables: &Tables,
) -> Result<Chart, Memory>
    requires tables { tables.now ≡ session.now.tables }
    requires names { length (tab session.now.tables).dictionary ≤ KEY_NAMES }
    requires room { length (whole_text session.now.state) ≤ TEXT_CHARS_AT_KEY }
    ensures chart { IfOk result (λ chart. chart ≡ chart_of title session.now.tables session.now.state) }
    ensures keys { IfOk result (λ chart. length chart.keys < 2 ^ 17) }
    ensures states { IfOk result (λ chart. length chart.layers ≤ 64) }
{
    let keys = chart_keys(alloc, session.engine().names())?;
    let states = chart_states(alloc, tables)?;
    let layers = layers_in(alloc, session, keys.as_slice(), states.as_slice())?;
    Ok(Chart {
        title,
        keys,
        layers,
    })
}

/// Returns what each key would do in each of some shift states.
fn layers_in(
    alloc: Global,
    session: &Session,
    keys: &[Key],
    states: &[u16],
) -> Result<Seq<Layer>, Memory>
    requires { length (whole_text session.now.state) ≤ TEXT_CHARS_AT_KEY }
    ensures { IfOk result (λ layers. layers ≡ map (layer_of session.now.tables session.now.state keys.now) states.now) }
{
    let mut layers = Seq::new(alloc);
    for mods in states {
        let cells = cells_in(alloc, session, keys, *mods)?;
        layers.add(Layer { mods: *mods, cells })?;
    }
    Ok(layers)
}

/// Returns what each key would do in a shift state.
fn cells_in(alloc: Global, session: &Session, keys: &[Key], mods: u16) -> Result<Seq<Cell>, Memory>
    requires { length (whole_text session.now.state) ≤ TEXT_CHARS_AT_KEY }
    ensures { IfOk result (λ cells. cells ≡ map (key_cell session.now.tables session.now.state mods) keys.now) }
{
    let mut cells = Seq::new(alloc);
    for key in keys {
        cells.add(cell_now(alloc, session, press_in(mods, key.code))?)?;
    }
    Ok(cells)
}
