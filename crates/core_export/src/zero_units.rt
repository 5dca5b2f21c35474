//! A zero unit of a file.

ghost use Rattle.std.specs.Prelude.{◌≡◌, ◌≤◌, ◌+◌, ◌*◌, ◌<◌, ◌^◌, length};
ghost use Rattle.kmn_base.specs.declared.limits.TheConstants.{FILE_BYTES};
ghost use Rattle.core_export.specs.Export.{end_of, end_in_records, end_in_group, end_in_groups, end_in_stores, zero_unit};

use kmx_format::places::{
    GROUP_COUNT_AT, GROUP_MATCH_AT, GROUP_NOMATCH_AT, GROUP_RULE_COUNT_AT, GROUP_RULES_AT,
    GROUPS_AT, RULE_CONTEXT_AT, RULE_OUTPUT_AT, STORE_COUNT_AT, STORE_ELEMENTS_AT, STORE_NAME_AT,
    STORES_AT,
};
use kmx_format::sizes::{GROUP_BYTES, RULE_BYTES, STORE_BYTES};
use kmx_view::{string_bytes, word_at};

/// Returns the offset of a zero unit of the file: the one after the name of the first group, or else after the first string, if any.
#[tactic(auto, unfolding(crate::specs::Export::zero_unit))]
pub(crate) fn zero_unit(bytes: &[u8]) -> Option<u32>
    requires { length bytes.now ≤ FILE_BYTES }
    ensures { result ≡ zero_unit bytes.now }
{
    let found = end_in_groups(
        bytes,
        word_at(bytes, GROUPS_AT),
        word_at(bytes, GROUP_COUNT_AT),
    );
    if found.is_some() {
        return found;
    }
    end_in_stores(
        bytes,
        word_at(bytes, STORES_AT),
        word_at(bytes, STORE_COUNT_AT),
    )
}

/// Returns the offset of the zero unit that ends the first string of `count` groups.
fn end_in_groups(bytes: &[u8], place: u32, count: u32) -> Option<u32>
    requires { length bytes.now ≤ FILE_BYTES }
    ensures { result ≡ end_in_groups bytes.now place count }
{
    for i in 0..count as usize {
        let found = end_in_group(bytes, place as usize + GROUP_BYTES * i);
        if found.is_some() {
            return found;
        }
    }
    None
}

/// Returns the offset of the zero unit that ends the first string of a group.
fn end_in_group(bytes: &[u8], place: usize) -> Option<u32>
    requires few { length bytes.now ≤ FILE_BYTES }
    requires place { place < 2 ^ 62 }
    ensures { result ≡ end_in_group bytes.now place }
{
    let on_match = end_of(bytes, word_at(bytes, place + GROUP_MATCH_AT));
    let output = on_match.or(end_of(bytes, word_at(bytes, place + GROUP_NOMATCH_AT)));
    let found = end_of(bytes, word_at(bytes, place)).or(output);
    if found.is_some() {
        return found;
    }
    end_in_records(
        bytes,
        word_at(bytes, place + GROUP_RULES_AT),
        word_at(bytes, place + GROUP_RULE_COUNT_AT),
    )
}

/// Returns the offset of the zero unit that ends the string at an offset, or `None` if the offset is 0.
#[tactic(auto, using(crate::proofs::Steps::ends_behind))]
fn end_of(bytes: &[u8], offset: u32) -> Option<u32>
    requires { length bytes.now ≤ FILE_BYTES }
    ensures { result ≡ end_of bytes.now offset }
{
    if offset == 0 {
        return None;
    }
    Some(offset + string_bytes(bytes, offset).len() as u32)
}

/// Returns the offset of the zero unit that ends the first string of `count` key records.
fn end_in_records(bytes: &[u8], place: u32, count: u32) -> Option<u32>
    requires { length bytes.now ≤ FILE_BYTES }
    ensures { result ≡ end_in_records bytes.now place count }
{
    for i in 0..count as usize {
        let record = place as usize + RULE_BYTES * i;
        let output = end_of(bytes, word_at(bytes, record + RULE_OUTPUT_AT));
        let found = output.or(end_of(bytes, word_at(bytes, record + RULE_CONTEXT_AT)));
        if found.is_some() {
            return found;
        }
    }
    None
}

/// Returns the offset of the zero unit that ends the first string of `count` stores.
fn end_in_stores(bytes: &[u8], place: u32, count: u32) -> Option<u32>
    requires { length bytes.now ≤ FILE_BYTES }
    ensures { result ≡ end_in_stores bytes.now place count }
{
    for i in 0..count as usize {
        let record = place as usize + STORE_BYTES * i;
        let name = end_of(bytes, word_at(bytes, record + STORE_NAME_AT));
        let found = name.or(end_of(bytes, word_at(bytes, record + STORE_ELEMENTS_AT)));
        if found.is_some() {
            return found;
        }
    }
    None
}
