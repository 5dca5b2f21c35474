//! Checks the length, the header and the arrays of a file.

ghost use Rattle.std.specs.Prelude.{◌≡◌, ◌<◌, ◌≤◌, ◌^◌, ◌*◌, length};
ghost use Rattle.kmx_view.specs.View.{is_within};
ghost use Rattle.kmx_format.specs.declared.sizes.TheConstants.{GROUP_BYTES};
ghost use Rattle.kmx_verifier.specs.FaultOf.{size_fault, header_fault, arrays_fault, Tells};

use crate::faults::Fault;
use kmn_base::Code;
use kmn_base::limits::{FILE_BYTES, GROUPS, PICTURE_BYTES, STORES};
use kmx_format::is_version;
use kmx_format::places::{
    FLAGS_AT, GROUP_COUNT_AT, GROUPS_AT, IDENTIFIER, IDENTIFIER_AT, PICTURE_AT, PICTURE_SIZE_AT,
    START_ANSI_AT, START_UNICODE_AT, STORE_COUNT_AT, STORES_AT, VERSION_AT,
};
use kmx_format::sizes::{GROUP_BYTES, HEADER_BYTES, STORE_BYTES};
use kmx_view::word_at;
use rule_model::system::NO_GROUP;

#[tactic(auto, unfolding(crate::specs::FaultOf::size_fault))]
pub(crate) fn check_size(bytes: &[u8]) -> Result<(), Fault>
    ensures { Tells (size_fault bytes.now) result }
{
    if bytes.len() > FILE_BYTES {
        return Err(Fault::of(Code::V15, 0));
    }
    if bytes.len() < HEADER_BYTES {
        return Err(Fault::of(Code::V01, bytes.len() as u32));
    }
    Ok(())
}

#[tactic(auto, unfolding(crate::specs::FaultOf::header_fault))]
pub(crate) fn check_header(bytes: &[u8]) -> Result<(), Fault>
    ensures { Tells (header_fault bytes.now) result }
{
    if word_at(bytes, IDENTIFIER_AT) != IDENTIFIER {
        return Err(Fault::of(Code::V02, IDENTIFIER_AT as u32));
    }
    if !is_version(word_at(bytes, VERSION_AT)) {
        return Err(Fault::of(Code::V03, VERSION_AT as u32));
    }
    if word_at(bytes, FLAGS_AT) > 0x1F {
        return Err(Fault::of(Code::V04, FLAGS_AT as u32));
    }
    if word_at(bytes, STORE_COUNT_AT) > STORES as u32 {
        return Err(Fault::of(Code::V15, STORE_COUNT_AT as u32));
    }
    if word_at(bytes, GROUP_COUNT_AT) > GROUPS as u32 {
        return Err(Fault::of(Code::V15, GROUP_COUNT_AT as u32));
    }
    if word_at(bytes, START_UNICODE_AT) == NO_GROUP {
        return Err(Fault::of(Code::V05, START_UNICODE_AT as u32));
    }
    if word_at(bytes, START_ANSI_AT) != NO_GROUP
        && word_at(bytes, START_ANSI_AT) >= word_at(bytes, GROUP_COUNT_AT)
    {
        return Err(Fault::of(Code::V06, START_ANSI_AT as u32));
    }
    if word_at(bytes, START_UNICODE_AT) >= word_at(bytes, GROUP_COUNT_AT) {
        return Err(Fault::of(Code::V06, START_UNICODE_AT as u32));
    }
    Ok(())
}

#[tactic(auto, unfolding(crate::specs::FaultOf::arrays_fault))]
pub(crate) fn check_arrays(bytes: &[u8]) -> Result<(), Fault>
    ensures { Tells (arrays_fault bytes.now) result }
{
    let stores = word_at(bytes, STORE_COUNT_AT);
    if stores > 0 && !stands(bytes, word_at(bytes, STORES_AT), STORE_BYTES, stores) {
        return Err(Fault::of(Code::V07, STORES_AT as u32));
    }
    let groups = word_at(bytes, GROUP_COUNT_AT);
    if groups > 0 && !stands(bytes, word_at(bytes, GROUPS_AT), GROUP_BYTES, groups) {
        return Err(Fault::of(Code::V08, GROUPS_AT as u32));
    }
    let picture = word_at(bytes, PICTURE_SIZE_AT);
    if picture > 0
        && (!stands(bytes, word_at(bytes, PICTURE_AT), 1, picture)
            || picture > PICTURE_BYTES as u32)
    {
        return Err(Fault::of(Code::V16, PICTURE_AT as u32));
    }
    Ok(())
}

/// Returns whether `count` records of `size` bytes each are within the file from `place` on.
fn stands(bytes: &[u8], place: u32, size: usize, count: u32) -> bool
    requires { size ≤ GROUP_BYTES }
    ensures { result ≡ is_within bytes.now place (size * count) }
{
    place as usize + size * count as usize <= bytes.len()
}
