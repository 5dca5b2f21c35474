//! Runs the program that draws charts: it reads a compiled keyboard, and maybe a script and a touch layout, and writes a drawing of what
//! each key would do.
//!
//! Depends on `chart_cells` (what each key does), `chart_drawing` (the drawing), `touch_layout` and `touch_board` (the check and the
//! layers of a touch layout), `keyman_run` (reading files and scripts by name, and how a run stops), `play_session` (which plays the
//! script), `keyman_words` and `kmn_outside`. The layer above calls `chart_run` and ends with the number of its `Status`. `specs/Orders`
//! defines the order of work, and the contract `Runs` (`specs/Runs`) states that a run does this work. The drawing is `drawing`
//! (`specs/Drawings`): the chart of the state after the script, with the layers of the layout (`specs/Layouts`).
#![tactic(auto)]

mod drawing;
mod layouts;
mod playing;
mod running;
mod title;

pub use keyman_words::Status;
pub use running::chart_run;
