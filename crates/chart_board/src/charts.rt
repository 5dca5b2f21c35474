//! A chart: what each key does in each of some states.

use crate::board::Key;
use crate::cells::Cell;
use kmn_base::Seq;

/// A state of a chart, with what the press of each key does in it.
#[derive(Drop)]
pub struct Layer {
    /// The flags of `KeyPress::mods`.
    pub mods: u16,
    /// The cells of the keys, in the order of the keys.
    pub cells: Seq<Cell>,
}

/// A chart: a title, the keys, and the states.
#[derive(Drop)]
pub struct Chart {
    pub title: Seq<char>,
    pub keys: Seq<Key>,
    pub layers: Seq<Layer>,
}
