//! Plays scripts in a session or on a host, and prints their transcripts to a sink.
//!
//! Depends on `play_session`, which performs one event after the other; `text_host`, which does so in several fields; `play_script`,
//! which has the scripts and the lines of a transcript; `rule_trace`, which counts the lines of rules; and `kmn_outside`, which has
//! the sink. The layer above starts a session and calls `play`. It prints the `transcript` of the script's entries for the tables
//! of the session, or only the beginning of it if the sink or an allocation fails, and returns `play_end` of their trace
//! (`specs/Ends`). The layer above prints other lines with `put_all`. `Prints` states what both append to the sink
//! (`specs/Printing`). Plays of other scripts are built from the same functions.
//!
//! For several fields, the layer above creates a host and calls `play_host`. It prints the `host_text` of the entries for the tables
//! of the host (`specs/HostText`), or only the beginning of it in the same cases, and returns their `host_end`. The laws in
//! `host_laws` state that the printed steps of a field are the steps of the trace of the field's own events (`specs/Fields`), over
//! the calls that the play makes (`specs/HostCalls`), and which pieces of the text they are (`specs/HostPieces`).
//!
//! For the lines of rules, the layer above starts a coverage of the same tables and calls `trace_play`. It prints the `trace_text`
//! of the script's entries and the lines of the tables' records (`specs/TraceText`), or only the beginning of it in the same cases,
//! and returns `trace_end` of their trace. The lemma `same_text` states that keyboards print the same text if they take the same
//! steps and choose the same lines.
#![tactic(auto)]

mod fired;
mod following;
pub mod host_laws;
mod host_lines;
mod host_playing;
mod playing;
mod printing;

pub use following::{TraceEnd, trace_play};
pub use host_playing::play_host;
pub use playing::{PlayEnd, end_after, fronted, is_text, play, put_step, refused_with};
pub use printing::put_all;
