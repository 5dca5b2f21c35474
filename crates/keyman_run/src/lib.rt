//! Runs a command on a folder and a sink. The ten commands are `compile`, `decompile`, `verify`, `play`, `test`, `layout`,
//! `load`, `trace`, `shadow` and `host`.
//!
//! Depends on the compiler, the verifier, the decompiler, the check of touch layouts, `play_transcript` and `shadow_text`;
//! `keyman_words` (the command of the arguments, the printed lines of reasons and endings, and how a run ends); `load_maker` (for
//! `load`); and `kmn_outside` (the folder and the sink).
//!
//! `specs/Orders` defines the order of work of each command as a value: which file is read first, how the work continues with
//! what was read, and how it ends. `specs/Run` defines what a run of such work accesses, leaves and returns (`Does`). The
//! contract of each command is `Does` for its work. The layer above calls `run` and ends with the number of its `Status`. The
//! clauses of `run` (`specs/Runs`) state all of this by name. Programs that do other work define it in the same way, and use the steps
//! that read and compile (`read_file`, `read_own_entries`, `read_entries`, `read_keys`, `compile_beside`) and `print_stop`.
#![tactic(auto)]

mod hosting;
mod layouts;
mod loading;
mod preparing;
mod running;
mod shadowing;
mod texts;
mod tracing;

pub use keyman_words::Status;
pub use layouts::read_keys;
pub use preparing::{
    Stop, at_line_one, compile_beside, key_names, read_entries, read_file, read_own_entries,
    read_stop,
};
pub use running::{print_stop, run};
