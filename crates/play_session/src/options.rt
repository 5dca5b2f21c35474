//! The stores that are options, and copies of their values before a step.

ghost use Rattle.std.specs.Prelude.{◌≡◌, ◌<◌, ◌^◌, length, vec_len, IfOk};
ghost use Rattle.option_store.specs.Cells.{cell_at};
ghost use Rattle.play_session.specs.Changes.{option_stores, values_in, values_now};

use kmn_base::{Memory, Seq};
use option_store::{Cell, Options};
use rule_engine::Engine;
use std::alloc::Global;

/// Returns the stores that are options, in order.
#[tactic(auto, using(crate::proofs::OptionStores::count_of_numbers))]
pub(crate) fn option_stores(alloc: Global, engine: &Engine) -> Result<Vec<u32>, Memory>
    ensures stores { IfOk result (λ stores. stores.items ≡ option_stores engine.now.tables) }
    ensures few { IfOk result (λ stores. vec_len stores < 2 ^ 32) }
{
    let numbers = engine.option_numbers();
    let mut stores = Vec::new(alloc);
    for store in 0..engine.store_count() {
        if numbers[store as usize].is_some() {
            stores.push(store)?;
        }
    }
    Ok(stores)
}

/// Copies the current cells of the options, in order.
#[tactic(auto, using(crate::proofs::OptionStores::option_within))]
pub(crate) fn cells_now(
    alloc: Global,
    engine: &Engine,
    options: &[u32],
) -> Result<Vec<Cell>, Memory>
    requires { options.now ≡ option_stores engine.now.tables }
    ensures count { IfOk result (λ cells. length cells.items ≡ length options.now) }
    ensures values { IfOk result (λ cells. values_in engine.now.tables cells.items ≡ values_now engine.now) }
{
    let held = engine.options();
    let mut cells = Vec::with_capacity(alloc, options.len())?;
    for option in 0..options.len() {
        cells.push(cell_of(alloc, held, options[option])?)?;
    }
    Ok(cells)
}

/// Copies the cell of a store.
fn cell_of(alloc: Global, held: &Options, store: u32) -> Result<Cell, Memory>
    requires { store < length held.now }
    ensures { IfOk result (λ cell. cell ≡ cell_at held.now store) }
{
    Ok(Cell {
        current: held.current(store),
        saved: held.saved(store),
        text: Seq::from_slice(alloc, held.host_text(store))?,
    })
}
