//! The keys and states of a chart of a keyboard, and what each key does in each state.
//!
//! Use: `chart_states` returns the states (`specs/States`) and `chart_keys` the keys (`specs/Board`). A `Cell` has what the press of a key
//! does: the characters and deadkeys that it puts, how many characters it deletes, whether it is passed on, and its beeps
//! (`specs/Cells`). `put_between` finds the items of a cell from what an engine returns (`specs/Windows`), and `char_items` returns
//! characters as items. By a law in `laws`, a cell has what a preview of the press returns. `chart_cells` finds the cells of a chart, and
//! `chart_drawing` draws them.
//!
//! Depends on `virtual_keys` (which presses fit a key, the characters of a US board) and `rule_model` (tables).
#![tactic(auto)]

mod board;
pub mod cells;
mod charts;
pub mod laws;
mod states;
mod windows;

pub use board::{Key, chart_keys};
pub use cells::Cell;
pub use charts::{Chart, Layer};
pub use states::{chart_states, press_in};
pub use windows::{char_items, put_between};
