//! A text that is typed with a keyboard, one event at a time, where each event is a step of the keyboard's meaning.
//!
//! Depends on `rule_engine`, which presses keys on the tables of a file, and on `editor_model`, which has the text with its caret.
//! The layer above uses `Session`, which contracts model as a `SessionState`: the tables, the state that the session represents, the
//! number of the last step, the text that this step inserted, the rules that fired, and the option values that it changed. After
//! `start` and `fresh`, this is `first_session` of the file's tables. `step` returns `step_of` and results in `after_step`, or
//! refuses the event as its meaning does. `preview` returns what `step` would do for a key press, and does not change the session.
//! The laws in `laws` state that the changes of a session are those that a transcript prints.
#![tactic(auto)]

mod changes;
pub mod laws;
mod options;
mod playing;
mod session;

pub use changes::Change;
pub use rule_engine::Preview;
pub use session::{Session, Step, StepError};
