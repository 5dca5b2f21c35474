//! Finds what each refusal of a source is about: a word of its line and the names that are like it, or the line that defines a name first.
//!
//! Depends on `refusal_places`, which finds the place of a refusal; on `source_faults` and `source_names` for the names that a source
//! defines and lacks; on the crates that read a line (`kmn_lines`, `kmn_tokens`, `kmn_items`, `kmn_parser`); and on `virtual_keys` and
//! `rule_model`. The layer above calls `explained` for the refusals that it prints, which returns exactly the list that `specs/Explained`
//! defines: each refusal with its place and its `Detail`. `specs/Details` has the subject of each code and the detail of each subject. The
//! word of a refused line is the one at which reading the line stops (`specs/Words`), a number that has a fault (`specs/Faulty`), or one
//! that is not supported (`specs/LeftOut`). A name is like a word if they differ in one letter (`specs/Letters`): a letter is replaced,
//! added or left out, or two neighbors are exchanged. At most three such names are returned (`specs/Nearest`, `specs/Keys`,
//! `specs/Systems`). `specs/Definitions` and `specs/Defined` state which names a source defines, and in which line first.
#![tactic(auto)]

mod defined;
mod definitions;
mod detail;
mod details;
mod explaining;
mod faulty;
mod keys;
mod left_out;
mod letters;
mod nearest;
mod systems;
mod words;

pub use detail::{Detail, Explained, unexplained};
pub use explaining::explained;
