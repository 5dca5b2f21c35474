//! Laws of the refusals of a source.
//!
//! Depends on `source_faults`, whose definitions the laws are about, and on the crates that these definitions name. `specs/Laws` states
//! that no line is refused twice, except that line 1 may also have C01, that names refuse no further statement of the program whose
//! items are checked, and that neither names nor items refuse a further statement of the program whose limits are checked, other than
//! a system store for its items. No program calls this crate: `laws` has the laws, each the contract of a function with an empty body.
#![tactic(auto)]

pub mod laws;
