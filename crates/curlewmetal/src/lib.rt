//! The library that programs in C link: it exports the calls of `c/curlewmetal.h`.
//!
//! Depends on `curlew_calls`: its contracts state what each call returns and leaves. The exports are in `opening`, `keys`, `texts`
//! and `options`. Each takes the open field out of its handle, makes the call, puts the field back, and returns one of the numbers
//! that its comment names (`specs/Answers`), or a length or a code. Only `field` and `parts` touch a pointer. A file is borrowed for
//! the rest of the process: the caller of `curlew_open` keeps the bytes until the last field over them is closed.
#![tactic(auto)]

mod answers;
mod field;
mod keys;
mod opening;
mod options;
mod parts;
mod texts;

pub use answers::FaultNumbers;
pub use field::{Field, Opaque};
