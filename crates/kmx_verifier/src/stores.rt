//! Checks the stores of a file.

ghost use Rattle.std.specs.Prelude.{◌≡◌, ◌+◌, ◌*◌, ◌⊎◌, ◌≤◌, ◌<◌, length, None, Some, MatchResult};
ghost use Rattle.kmn_base.specs.declared.limits.TheConstants.{FILE_BYTES, ALL_ELEMENTS};
ghost use Rattle.kmx_format.specs.declared.sizes.TheConstants.{STORE_BYTES};
ghost use Rattle.kmx_format.specs.TablesOf.{word_at};
ghost use Rattle.kmx_view.specs.View.{store_count};
ghost use Rattle.kmx_verifier.specs.FaultOf.{store_fault, stores_fault, elements_in, Tells};

use crate::faults::Fault;
use crate::strings::{check_content, check_name};
use kmx_format::places::{STORE_ELEMENTS_AT, STORE_NAME_AT};
use kmx_format::sizes::STORE_BYTES;
use kmx_view::word_at;

/// Checks `count` stores, whose records begin at `place`.
pub(crate) fn check_stores(bytes: &[u8], place: u32, count: u32) -> Result<(), Fault>
    requires fits { length bytes.now ≤ FILE_BYTES }
    requires stand { (count ≡ 0) ⊎ (place + STORE_BYTES * count ≤ FILE_BYTES) }
    ensures { Tells (stores_fault bytes.now 0 place count) result }
{
    let mut elements = 0;
    for i in 0..count as usize {
        elements = check_store(bytes, elements, place as usize + STORE_BYTES * i)?;
    }
    Ok(())
}

/// Checks the store whose record is at `place`, after `before` elements of earlier stores, and returns the number of elements so far.
fn check_store(bytes: &[u8], before: usize, place: usize) -> Result<usize, Fault>
    requires fits { length bytes.now ≤ FILE_BYTES }
    requires place { place + STORE_BYTES ≤ FILE_BYTES }
    requires before { before ≤ ALL_ELEMENTS }
    ensures { MatchResult result
        (λ count. (store_fault bytes.now before place ≡ None) × (count ≡ before + elements_in bytes.now place) × (count ≤ ALL_ELEMENTS))
        (λ fault. store_fault bytes.now before place ≡ Some fault) }
{
    check_name(bytes, place + STORE_NAME_AT)?;
    check_content(bytes, before, place + STORE_ELEMENTS_AT)
}
