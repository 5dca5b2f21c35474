//! Finds what a source of the whole Keyman language states of its groups, as far as it matters for the rewriting of its lines.
//!
//! Depends on `import_tokens` for the tokens of a line, and on `kmn_lines`, `kmn_items` and `kmn_parser` for the definitions of
//! lines, tokens and statements. `specs/LineKinds` defines what a line states, and `specs/Outline` what a whole source states of
//! its groups: which groups keys reach, and which are entered only without a key. The layer above calls `source_groups` once, and
//! `line_kind` for each line. `laws` states that with each group that names reach, all groups are reached that it uses.
#![tactic(auto)]

mod groups;
pub mod laws;
mod line_kinds;
pub mod names;
mod outline;
mod whole_source;

pub use groups::Groups;
pub use line_kinds::{LineKind, Start, arrow_place, line_kind};
pub use outline::{GroupUse, Outline, begins_context};
pub use whole_source::source_groups;
