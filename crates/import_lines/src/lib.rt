//! Rewrites a line of the whole Keyman language as a line that the compiler accepts, if its form is one of a few.
//!
//! Depends on `import_outline` for what a line and the whole source state, on `import_tokens` for the tokens of a line, on
//! `line_laws`, and on `kmn_lines`, `kmn_items` and `kmn_parser` for the definitions of lines, tokens and statements.
//! `specs/Rewrites` defines the tokens that a line becomes, and `specs/Written` its bytes. A written line counts only if it is
//! read as its tokens and has the line ends of the old one; else the old line is kept. The layer above calls `rewritten_line` for
//! each line of a source.
#![tactic(auto)]

mod change_kind;
mod in_group;
mod line_ends;
mod rewrite;
mod rewriting;
mod written;

pub use change_kind::ChangeKind;
pub use in_group::{InGroup, rewritten_line};
pub use rewrite::{Changed, Form, Rewrite, WrittenLine};
