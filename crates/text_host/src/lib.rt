//! The text fields of an application that share one keyboard, each with its own text, deadkeys and option values.
//!
//! The crate also reads the scripts of events in these fields.
//!
//! Depends on `play_session`: its `Session` is one text that is typed with a keyboard. The layer above uses `Host`, which
//! contracts model as a `HostState` (`specs/Host`): the tables of the file, and the sessions of the fields in the order in which
//! they were added. Fields are numbered from 1. `add` appends a session that is before its first event. `step` does in one field
//! what `Session::step` does, and does not change the other fields. `preview` returns what a key press would do, and does not
//! change the host. A refused call does not change the host either. The law `fields_are_traces` covers every list of calls: a field
//! returns the steps of the trace of the field's own events, whatever is done in other fields (`specs/Alone`).
//!
//! A script for several fields has the lines of `play_script` and three more kinds of line: `open` adds a field and makes it the
//! current field, `field` makes another field current, and `preview` shows what a key press would do in the current field.
//! `specs/HostEntries` defines the entries of a script, or its first refusal: a line is first checked for the P codes, then for
//! H1 and H2, which depend on the open fields. `read_host` returns exactly these.
#![tactic(auto)]

mod entries;
mod host;
pub mod laws;
mod lines;
mod script;

pub use entries::HostEntry;
pub use host::{Host, HostError};
pub use script::read_host;
