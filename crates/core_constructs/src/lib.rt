//! Finds what Keyman's own engine treats differently in the tables of a compiled keyboard.
//!
//! Use: `told` lists it by source line, by group and once for the file. `specs/Told` defines these three lists, and `specs/Records` what a
//! record may have and what that engine does then. A group that no event can enter (`specs/Reached`) and a record that asks for a mark
//! that no output puts (`specs/Marks`) tell nothing. Items behind a `return` tell nothing either (`live` of `specs/Outputs`).
//!
//! Depends on `rule_model` for the tables and on `virtual_keys` for bits of shift flags.
#![tactic(auto)]

mod changes;
mod construct;
mod contexts;
mod empty;
mod facts;
mod files;
mod groups;
mod keys;
mod line_list;
mod marks;
mod options;
mod outputs;
mod queued;
mod reached;
mod records;
mod sets;
mod spent;
mod telling;
mod widths;

pub use construct::{Construct, Difference, FileConstruct, GroupConstruct, GroupDifference, Told};
pub use telling::told;
