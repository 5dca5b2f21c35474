//! Imports a source of the whole Keyman language as a source that the compiler accepts, with the same lines.
//!
//! Depends on `import_outline` and `import_lines` for the rewriting of a line, on `import_tokens` for the definition of its tokens,
//! on `rule_checker` for the definition of the sources that the compiler accepts, and on `kmn_compiler` to find out whether a
//! source is one. `specs/Import` defines the imported text of a source or its refusal, and `specs/Utf16` the text of a source in
//! UTF-16. The layer above calls `import`. `laws` states that an accepted source is kept, that an imported text is accepted, that
//! each refusal is the compiler's, and that each line is kept in its place.
#![tactic(auto)]

mod change;
mod importing;
pub mod laws;
mod utf16;

pub use change::{Change, Imported};
pub use importing::import;
