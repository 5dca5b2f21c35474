//! Checks the groups of a file and their key records.

ghost use Rattle.std.specs.Prelude.{◌≡◌, ◌+◌, ◌*◌, ◌⊎◌, ◌≤◌, ◌<◌, length, None, Some, MatchResult};
ghost use Rattle.kmn_base.specs.declared.limits.TheConstants.{FILE_BYTES, RECORDS};
ghost use Rattle.kmx_format.specs.declared.places.TheConstants.{GROUP_RULE_COUNT_AT};
ghost use Rattle.kmx_format.specs.declared.sizes.TheConstants.{GROUP_BYTES};
ghost use Rattle.kmx_format.specs.TablesOf.{word_at};
ghost use Rattle.kmx_verifier.specs.FaultOf.{records_place_fault, group_strings_fault, group_fault, groups_fault, Tells, ReportsFault, IsRefusal};

use crate::contexts::check_records;
use crate::faults::{Fault, StringKind, Target, VerifyError};
use crate::strings::{check_name, check_output};
use kmn_base::Code;
use kmn_base::limits::RECORDS;
use kmx_format::places::{
    GROUP_MATCH_AT, GROUP_NOMATCH_AT, GROUP_RULE_COUNT_AT, GROUP_RULES_AT, GROUP_USING_KEYS_AT,
};
use kmx_format::sizes::{GROUP_BYTES, RULE_BYTES};
use kmx_view::word_at;

/// Checks `count` groups, whose records begin at `place`. `targets` is scratch space.
pub(crate) fn check_groups(
    bytes: &[u8],
    place: u32,
    count: u32,
    targets: &mut Vec<Target>,
) -> Result<(), VerifyError>
    requires fits { length bytes.now ≤ FILE_BYTES }
    requires stand { (count ≡ 0) ⊎ (place + GROUP_BYTES * count ≤ FILE_BYTES) }
    ensures { ReportsFault (groups_fault bytes.now 0 place count) (Unit {0}) result }
{
    let mut records = 0;
    for i in 0..count as usize {
        records = check_group(bytes, records, place as usize + GROUP_BYTES * i, targets)?;
    }
    Ok(())
}

/// Checks the group whose record is at `place`, after `before` key records of earlier groups, and returns the number of key
/// records so far. `targets` is scratch space.
fn check_group(
    bytes: &[u8],
    before: usize,
    place: usize,
    targets: &mut Vec<Target>,
) -> Result<usize, VerifyError>
    requires fits { length bytes.now ≤ FILE_BYTES }
    requires place { place + GROUP_BYTES ≤ FILE_BYTES }
    requires before { before ≤ RECORDS }
    ensures { MatchResult result
        (λ count. (group_fault bytes.now before place ≡ None) × (count ≡ before + word_at bytes.now (place + GROUP_RULE_COUNT_AT)) × (count ≤ RECORDS))
        (λ error. IsRefusal error (λ fault. group_fault bytes.now before place ≡ Some fault)) }
{
    let count = check_records_place(bytes, before, place)?;
    check_group_strings(bytes, place)?;
    let using_keys = word_at(bytes, place + GROUP_USING_KEYS_AT) != 0;
    check_records(
        bytes,
        using_keys,
        word_at(bytes, place + GROUP_RULES_AT),
        word_at(bytes, place + GROUP_RULE_COUNT_AT),
        targets,
    )?;
    Ok(count)
}

/// Checks the number of a group's key records, after `before` records of earlier groups, and that they are within the file.
/// Returns the number of records so far.
fn check_records_place(bytes: &[u8], before: usize, place: usize) -> Result<usize, Fault>
    requires fits { length bytes.now ≤ FILE_BYTES }
    requires place { place + GROUP_BYTES ≤ FILE_BYTES }
    requires before { before ≤ RECORDS }
    ensures { MatchResult result
        (λ count. (records_place_fault bytes.now before place ≡ None) × (count ≡ before + word_at bytes.now (place + GROUP_RULE_COUNT_AT)) × (count ≤ RECORDS))
        (λ fault. records_place_fault bytes.now before place ≡ Some fault) }
{
    let count = word_at(bytes, place + GROUP_RULE_COUNT_AT) as usize;
    if before + count > RECORDS {
        return Err(Fault::of(Code::V15, (place + GROUP_RULE_COUNT_AT) as u32));
    }
    if count > 0
        && word_at(bytes, place + GROUP_RULES_AT) as usize + RULE_BYTES * count > bytes.len()
    {
        return Err(Fault::of(Code::V09, (place + GROUP_RULES_AT) as u32));
    }
    Ok(before + count)
}

/// Checks the name, match and nomatch of a group.
fn check_group_strings(bytes: &[u8], place: usize) -> Result<(), Fault>
    requires fits { length bytes.now ≤ FILE_BYTES }
    requires place { place + GROUP_BYTES ≤ FILE_BYTES }
    ensures { Tells (group_strings_fault bytes.now place) result }
{
    check_name(bytes, place)?;
    check_output(bytes, StringKind::Match, &[], place + GROUP_MATCH_AT)?;
    check_output(bytes, StringKind::Match, &[], place + GROUP_NOMATCH_AT)
}
