//! Reads a touch layout for a drawing: the layers of each platform, with the places, sizes and texts of their keys.
//!
//! Use: `touch_layers` returns the layers that the bytes of a layout have (`specs/Layers`), in the order of their places. It accepts any
//! bytes, and `touch_layout` checks them. Sizes are in units of a drawing, in which a key of 100 units of the layout is 60 wide
//! (`specs/Sizes`). `layer_mods` returns the shift flags that the id of a layer stands for (`specs/Words`). `chart_cells` finds what
//! tapping each key does, and `chart_drawing` draws the layers.
//!
//! Depends on `serde_json`, which reads the text, on `virtual_keys` (the codes of keys) and on `chart_board` (a key with its place).
#![tactic(auto)]

mod caps;
mod layers;
mod reading;
mod sizes;
mod words;

pub use layers::{TouchKey, TouchLayer};
pub use reading::touch_layers;
pub use words::layer_mods;
