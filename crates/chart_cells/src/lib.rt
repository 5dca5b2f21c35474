//! Finds what each key of a chart would do as the next press of a session.
//!
//! Use: `chart_now` returns the chart of a session in its present state, which it does not change (`specs/Layers`). By the law
//! `cells_have_outcomes` of `chart_board`, each cell has what `Session::preview` returns for the press, and the deadkeys too. `taps_now`
//! returns what tapping each key of a touch layout does, while the touch keyboard shows the layer of the key (`specs/Taps`).
//!
//! Depends on `play_session` and its engine, which presses each key on a copy, on `chart_board`, on `touch_board` (the layers of a touch
//! layout) and on `virtual_keys` (the characters that an id denotes).
#![tactic(auto)]

mod cells;
mod layers;
mod taps;

pub use layers::chart_now;
pub use taps::taps_now;
