//! Helpers of several tests: equal bytes.

ghost use Rattle.std.specs.Prelude.{◌≡◌, IfOk, replicate};

use kmn_base::{Memory, Seq};
use std::alloc::Global;

/// Returns `size` equal bytes.
pub fn equal_bytes(alloc: Global, byte: u8, size: usize) -> Result<Seq<u8>, Memory>
    ensures { IfOk result (λ bytes. bytes ≡ replicate size byte) }
{
    Ok(Seq::from_vec(vec![in alloc; byte; size]?))
}
