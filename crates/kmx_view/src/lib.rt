//! Reads the parts of a compiled keyboard by position, in place: no call allocates or trusts the file.
//!
//! Depends on `kmn_base` and on `kmx_format`, whose definitions state how numbers and strings are read from bytes. The layer
//! above creates a `KmxView` of bytes and asks for a part. The result is None exactly when the part is not wholly in the file.
#![tactic(auto)]

mod numbers;
mod parts;
mod strings;
mod view;

pub use numbers::{half_at, word_at};
pub use parts::{GroupRef, RuleRef, StoreRef};
pub use strings::{ended_string, string_bytes};
pub use view::KmxView;
