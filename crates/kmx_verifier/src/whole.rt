//! Checks a whole file, and finds its first fault in one pass.
//!
//! `fault_of` in `specs/FaultOf` lists the faults of a file in a fixed order: length, header, arrays, stores, and groups with
//! their records. For each part of this list, one function returns the first fault of the part, given the counts of the parts
//! before it and, in a record, what the offsets of its context can point at. The functions are called in the order of the list
//! and the first error is returned, so it is the first fault of the file. No part is read before it is known to be inside the
//! file. Each string is read for each record that names it, and the limits bound their numbers and their items, so the time is
//! bounded even if strings overlap. Only the targets of one context are allocated.

ghost use Rattle.std.specs.Prelude.{◌≡◌, ◌≤◌, length, None, Some};
ghost use Rattle.kmn_base.specs.declared.limits.TheConstants.{FILE_BYTES};
ghost use Rattle.kmx_verifier.specs.FaultOf.{fault_of, ReportsFault};

use crate::faults::VerifyError;
use crate::groups::check_groups;
use crate::header::{check_arrays, check_header, check_size};
use crate::stores::check_stores;
use kmx_format::places::{GROUP_COUNT_AT, GROUPS_AT, STORE_COUNT_AT, STORES_AT};
use kmx_view::word_at;
use std::alloc::Global;

/// Checks a file.
///
/// Errors: `Refused` with the first fault of the file; `Memory` if an allocation fails.
#[tactic(auto, using(crate::proofs::Arrays::arrays_stand, crate::proofs::Arrays::size_fits), unfolding(crate::specs::FaultOf::fault_of))]
pub(crate) fn check_file(alloc: Global, bytes: &[u8]) -> Result<(), VerifyError>
    ensures { ReportsFault (fault_of bytes.now) (length bytes.now ≤ FILE_BYTES) result }
{
    check_size(bytes)?;
    check_header(bytes)?;
    check_arrays(bytes)?;
    check_stores(
        bytes,
        word_at(bytes, STORES_AT),
        word_at(bytes, STORE_COUNT_AT),
    )?;
    let mut targets = Vec::new(alloc);
    check_groups(
        bytes,
        word_at(bytes, GROUPS_AT),
        word_at(bytes, GROUP_COUNT_AT),
        &mut targets,
    )
}
