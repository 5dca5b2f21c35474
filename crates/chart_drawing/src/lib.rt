//! Draws a chart of a keyboard as an SVG drawing, with a board for each of its states and for each layer of a touch layout.
//!
//! Use: `picture` returns the text of the drawing (`specs/Picture`): keys that rules answer are strong, keys that type what a US board
//! types are pale, and keys that are passed on are empty (`specs/Boards`). Deadkeys are rings with their numbers (`specs/Glyphs`). A
//! small text below a key of a layer is what else the key can do (`specs/Touch`). All of this text is ASCII, and each character of a
//! name or of a keyboard's text is written as XML allows it (`specs/Escaped`).
//!
//! Depends on `chart_board` (the chart), `touch_board` (the layers) and `virtual_keys` (the words of shift states).
#![tactic(auto)]

mod boards;
mod characters;
mod drawing;
mod escaped;
mod glyphs;
mod pictures;
mod touch;

pub use pictures::picture;
