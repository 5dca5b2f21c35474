//! Finds all refusals of a source. Compilation reports only the first of them.
//!
//! Depends on the crates that read a source (`kmn_lines`, `kmn_tokens`, `kmn_items`, `kmn_parser`) and on those that check its
//! program (`store_table`, `source_names`, `item_checker`, `rule_checker`). The layer above calls `faults`, which returns exactly the
//! list that `specs/Faults` defines: the refusals pass by pass, and in each pass line by line. A line that a pass has refused is not
//! refused again by a later pass, and it does not cause refusals of other lines: `specs/Reading` continues after a refused line,
//! `specs/Words` takes the words of a line that cannot be read for names that it defines, and `specs/Stubs` replaces a refused
//! statement by what others need of it. A name that is not defined anywhere is reported once (`source_names`), and later passes see it
//! as a store and a group. `laws` states that the first of all refusals is the one that compilation reports. `sort_by_line` returns
//! refusals in the order of their lines. `words_of` returns the words of a line, and `add_words` those of a text. `name_faults` returns
//! the names that lines lack, and `read_all` the statements of the lines that are read.
#![tactic(auto)]

mod found;
mod in_lines;
pub mod laws;
mod listing;
mod reading;
mod refused_lines;
mod stubs;
mod words;

pub use found::Found;
pub use in_lines::sort_by_line;
pub use listing::{faults, name_faults};
pub use reading::read_all;
pub use words::{add_words, words_of};
