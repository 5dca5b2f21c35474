//! The error of a failed allocation, which all crates share.

use std::alloc::{AllocError, AllocFailed};

/// The program ran out of memory. This is not merged with any fault, and no contract states when it happens.
#[derive(Clone, Copy, Debug, PartialEq, Eq)]
pub struct Memory;

impl From<AllocError> for Memory {
    fn from(_error: AllocError) -> Memory {
        Memory
    }
}

impl<T: Drop> From<AllocFailed<T>> for Memory {
    fn from(_error: AllocFailed<T>) -> Memory {
        Memory
    }
}
